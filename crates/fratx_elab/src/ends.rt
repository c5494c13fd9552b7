//! Where steps come from and go to.
ghost use Rattle.std.specs.Prelude.{◌≡◌, false, ℕ, List};
ghost use Rattle.cx_base.specs.Endings.{Ending};
ghost use Rattle.cx_texts.specs.Printed.{HasProofText};
ghost use Rattle.cx_base.specs.declared.steps.LogStep.{LogStep};
ghost use Rattle.fratx_elab.specs.Ends.{EndsView, AnswersOf, SourceAnswers, SourceAdvances, SinkStays, TakesNext, SinkAnswers, SourceStays};

use cx_base::{LogStep, ProofStep};
use step_text::{Sink, SinkFault, SpareLists, StepSource, TextRefusal};

/// A source of the steps of a log and a sink of the steps of a proof, in one object.
///
/// Each call leaves the other side's steps, place and count of faults as they were.
pub trait ElabEnds {
    // what is told of each state of the two
    ghost view: { EndsView Self };

    /// The next step of the log, or none at the end of the text between two steps. Its lists may take the memory of the spare ones.
    fn next_step(&mut self, spare: &mut SpareLists) -> Result<Option<LogStep>, TextRefusal>
        requires { view.is_spent self.old ≡ false }
        ensures texts { (text : List ℕ) → view.may_read self.new text → AnswersOf view text self.old result self.new }
        ensures source { SourceAnswers view self.old result self.new }
        ensures place { SourceAdvances view self.old result self.new }
        ensures sink { SinkStays view self.old self.new }
        ensures frame { view.keeps self.old self.new };

    /// How far the source has come: it rises at each step.
    fn place(&self) -> u64
        ensures { result ≡ view.place self.now };

    /// Takes the next step of the proof, which a text can have. It is not asked again once its sink has failed.
    fn step(&mut self, step: &ProofStep) -> Result<(), SinkFault>
        requires text { HasProofText step.now }
        requires going { view.has_failed self.old ≡ false }
        ensures taken { TakesNext view step.now self.old result self.new }
        ensures sink { SinkAnswers view self.old result self.new }
        ensures source { SourceStays view self.old self.new }
        ensures frame { view.keeps self.old self.new };

    // there is always a text that it may be reading
    ghost has_text: { (a : Self) → (text : List ℕ) × view.may_read a text };

    // of which it has some steps left and an ending
    ghost leaves_some: { (a : Self) (text : List ℕ) → view.may_read a text → (steps : List LogStep) × (ending : Ending) × view.leaves a text steps ending };

    ghost keeps_itself: { (a : Self) → view.keeps a a };

    ghost keeps_on: { (a b c : Self) → view.keeps a b → view.keeps b c → view.keeps a c };
}

/// A source and a sink, side by side.
#[derive(Drop)]
pub struct Joined<A, B> {
    pub source: A,
    pub sink: B,
}

impl<A: StepSource<Step = LogStep>, B: Sink<Item = ProofStep>> ElabEnds for Joined<A, B> {
    ghost view = { record {
      may_read = λ j. A.may_read j.source;
      leaves = λ j. A.leaves j.source;
      passes_limit = λ j. A.passes_limit j.source;
      is_spent = λ j. A.is_spent j.source;
      stuck = λ j. A.stuck j.source;
      read_faults = λ j. A.faults j.source;
      place = λ j. A.place_of j.source;
      farthest = λ j. A.farthest j.source;
      steps = λ j. B.items j.sink;
      write_faults = λ j. B.faults j.sink;
      has_failed = λ j. B.has_failed j.sink;
      torn = λ j. B.torn j.sink;
      keeps = λ a b. A.keeps a.source b.source × B.keeps a.sink b.sink;
    } };

    fn next_step(&mut self, spare: &mut SpareLists) -> Result<Option<LogStep>, TextRefusal> {
        self.source.next_step(spare)
    }

    fn place(&self) -> u64 {
        self.source.place()
    }

    fn step(&mut self, step: &ProofStep) -> Result<(), SinkFault> {
        self.sink.put(step)
    }

    ghost has_text = { λ j. A.has_text j.source };

    ghost leaves_some = { λ j. A.leaves_some j.source };

    ghost keeps_itself = { λ j. (A.keeps_itself j.source, B.keeps_itself j.sink) };

    ghost keeps_on = { λ a b c h k. (A.keeps_on a.source b.source c.source h.0 k.0, B.keeps_on a.sink b.sink c.sink h.1 k.1) };
}
