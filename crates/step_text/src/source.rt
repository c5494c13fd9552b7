//! Where steps come from, one after another.
ghost use Rattle.std.specs.Prelude.{◌≡◌, ℕ, Bool, false, List, Option};
ghost use Rattle.cx_base.specs.Endings.{Ending};
ghost use Rattle.step_text.specs.declared.source.TextRefusal.{TextRefusal};
ghost use Rattle.step_text.specs.ReadRefusals.{refusal_of_read};
ghost use Rattle.step_text.specs.Sources.{Gives, IsTooLongOnly, StandsAfter, Advances};

use crate::spare::SpareLists;
use cx_desk::ReadErr;
use thiserror::Error;

/// Why no step was given.
#[derive(Clone, Copy, Debug, Drop, Error)]
pub enum TextRefusal {
    /// A token that fits no step; its byte place.
    #[error("bad token at byte {0}")]
    BadToken(u64),
    /// The text ends inside a step; the place is the text's length.
    #[error("unterminated at byte {0}")]
    Unterminated(u64),
    /// A number whose magnitude alone does not fit; its byte place.
    #[error("too big at byte {0}")]
    TooBig(u64),
    /// The text is longer than the source's limit.
    #[error("the text is too long")]
    TooLong,
    /// Out of memory, which says nothing of the text.
    #[error("out of memory")]
    Memory,
    /// A fault of reading, which the source counted.
    #[error("the read failed")]
    Failed,
}

impl From<ReadErr> for TextRefusal {
    ghost from_gives = { λ a r. r ≡ refusal_of_read a };

    fn from(err: ReadErr) -> Self {
        match err {
            ReadErr::Memory => TextRefusal::Memory,
            ReadErr::Failed => TextRefusal::Failed,
            ReadErr::TooLong => TextRefusal::TooLong,
        }
    }
}

/// A source of steps.
///
/// Of each text that it may be reading, by what it read so far, it has some steps left and an ending. After `BadToken`,
/// `Unterminated`, `TooBig` or `TooLong` the same answer comes again. It is not asked again after
/// `Memory` or `Failed`. The place rises at each step, up to a bound below 2^62 that never changes.
pub trait StepSource {
    type Step;

    // its text may be this one, by what it read so far; a source that reads no text tells nothing by it
    ghost may_read: { Self → List ℕ → Type 0 };

    // of this text it has these steps left and then this ending
    ghost leaves: { Self → List ℕ → List Self.Step → Ending → Type 0 };

    // whether this text passes its limit, where it tells that
    ghost passes_limit: { Self → List ℕ → Option Bool };

    // it has answered `Memory` or `Failed`
    ghost is_spent: { Self → Bool };

    // the refusal that it goes on giving
    ghost stuck: { Self → Option TextRefusal };

    ghost faults: { Self → ℕ };

    ghost place_of: { Self → ℕ };

    // no place is greater
    ghost farthest: { Self → ℕ };

    // what a call leaves as it was
    ghost keeps: { Self → Self → Type 0 };

    /// The next step, or none at the end of the text between two steps. Its lists may take the memory of the spare ones.
    fn next_step(&mut self, spare: &mut SpareLists) -> Result<Option<Self::Step>, TextRefusal>
        requires { is_spent self.old ≡ false }
        ensures step { (text : List ℕ) → may_read self.new text → Gives (λ a. leaves a text) self.old result self.new }
        ensures narrows { (text : List ℕ) → may_read self.new text → may_read self.old text }
        ensures long { (text : List ℕ) → may_read self.new text → IsTooLongOnly (passes_limit self.old text) result }
        ensures limit { (text : List ℕ) → may_read self.new text → passes_limit self.new text ≡ passes_limit self.old text }
        ensures stands { StandsAfter is_spent stuck faults self.old result self.new }
        ensures place { Advances place_of farthest self.old result self.new }
        ensures frame { keeps self.old self.new };

    /// How far the source has come: it rises at each step.
    fn place(&self) -> u64
        ensures { result ≡ place_of self.now };

    // there is always a text that it may be reading
    ghost has_text: { (a : Self) → (text : List ℕ) × may_read a text };

    // of which it has some steps left and an ending
    ghost leaves_some: { (a : Self) (text : List ℕ) → may_read a text → (steps : List Self.Step) × (ending : Ending) × leaves a text steps ending };

    ghost keeps_itself: { (a : Self) → keeps a a };

    ghost keeps_on: { (a b c : Self) → keeps a b → keeps b c → keeps a c };
}

/// A lent source is a source.
impl<S: StepSource> StepSource for &mut S {
    type Step = S::Step;

    ghost may_read = { λ s. S.may_read s.now };

    ghost leaves = { λ s. S.leaves s.now };

    ghost passes_limit = { λ s. S.passes_limit s.now };

    ghost is_spent = { λ s. S.is_spent s.now };

    ghost stuck = { λ s. S.stuck s.now };

    ghost faults = { λ s. S.faults s.now };

    ghost place_of = { λ s. S.place_of s.now };

    ghost farthest = { λ s. S.farthest s.now };

    ghost keeps = { λ a b. S.keeps a.now b.now };

    fn next_step(&mut self, spare: &mut SpareLists) -> Result<Option<S::Step>, TextRefusal> {
        (**self).next_step(spare)
    }

    fn place(&self) -> u64 {
        (**self).place()
    }

    ghost has_text = { λ a. S.has_text a.now };

    ghost leaves_some = { λ a. S.leaves_some a.now };

    ghost keeps_itself = { λ a. S.keeps_itself a.now };

    ghost keeps_on = { λ a b c h k. S.keeps_on a.now b.now c.now h k };
}
