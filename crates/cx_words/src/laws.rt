//! Laws of what words ask for.
ghost use Rattle.std.specs.Prelude.{◌≡◌, ◌⊎◌, List};
ghost use Rattle.cx_desk.specs.Outside.{Bytes};
ghost use Rattle.cx_words.specs.PlainWords.{IsPlain};
ghost use Rattle.cx_words.specs.Words.{Asks, IsFit, Refuses};
ghost use Rattle.cx_words.specs.declared.plans.Plan.{Plan};

/// Plain words are taken, and ask for what they say.
pub fn plain_words_are_taken()
    ensures asked { (words : List Bytes) (plan : Plan) → IsPlain words plan → Asks words plan }
    ensures taken { (words : List Bytes) (plan : Plan) → IsPlain words plan → ¬ Refuses words }
{}

/// Words are refused or ask for a plan, and never both. It is one plan, whose numbers are in range
/// and whose names differ.
pub fn words_ask_for_one_plan()
    ensures one { (words : List Bytes) (a b : Plan) → Asks words a → Asks words b → a ≡ b }
    ensures fit { (words : List Bytes) (plan : Plan) → Asks words plan → IsFit plan }
    ensures either { (words : List Bytes) (plan : Plan) → Asks words plan → ¬ Refuses words }
    ensures some { (words : List Bytes) → Refuses words ⊎ ((plan : Plan) × Asks words plan) }
{}
