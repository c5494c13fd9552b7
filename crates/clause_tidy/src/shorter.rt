//! The changes that tidying makes, each told to the log: a clause loses a literal.
ghost use Rattle.std.specs.Prelude.{◌<◌, length, OnOk, IsTrue, IsFalse};
ghost use Rattle.cx_base.specs.Assumptions.{is_ending};
ghost use Rattle.clause_arena.specs.Clauses.{literals_at};
ghost use Rattle.clause_tidy.specs.Answers.{MayTidy, TidiesOn, IsEnded};
ghost use Rattle.clause_tidy.specs.Pairs.{AreLive};
ghost use Rattle.clause_tidy.specs.Shortened.{Shortens};
ghost use Rattle.clause_tidy.specs.Shrinking.{ShrinksOnce};
ghost use Rattle.clause_tidy.specs.Tidying.{Tidies};
ghost use Rattle.clause_tidy.specs.Weights.{weight};

use crate::pairs::Pair;
use crate::tidier::Tidier;
use clause_arena::Arena;
use cx_base::{Lit, LogEvent};
use step_text::{Sink, SinkFault};

impl Tidier<'_> {
    /// Puts what is left of the whole in its place, and tells it. It counts as one that was not learned.
    pub(crate) fn shorten<L: Sink<Item = LogEvent>>(
        &self,
        arena: &mut Arena,
        log: &mut L,
        pair: &Pair,
        rest: &[Lit],
    ) -> Result<(), SinkFault>
        requires may { MayTidy L.Sink self.now.formula.now self.now.spare arena.old log.old }
        requires live { AreLive arena.old pair.now }
        requires shorter { Shortens arena.old pair.now.part pair.now.whole rest.now }
        requires short { length rest.now < length (literals_at arena.old pair.now.whole) }
        requires goes_on { IsFalse (is_ending self.now.formula.now.constraints rest.now) }
        ensures less { OnOk result (weight arena.new < weight arena.old) }
        ensures shrinks { OnOk result (ShrinksOnce arena.old arena.new) }
        ensures tidies { TidiesOn L.Sink self.now.formula.now self.now.spare arena.old log.old result (λ _. Tidies self.now.formula.now self.now.spare arena.old arena.new) log.new }
    {
        let id = arena.id(pair.whole);
        let by = arena.id(pair.part);
        let lbd = arena.lbd(pair.whole);
        match arena.add(rest, id, lbd, false) {
            Ok(_) => {}
            Err(_) => return Err(SinkFault::Memory),
        }
        match self.tell_shortening(log, by, id, rest) {
            Ok(()) => {
                arena.remove(pair.whole);
                Ok(())
            }
            Err(fault) => Err(fault),
        }
    }

    /// Tells that an ending clause is left of the whole.
    pub(crate) fn end<L: Sink<Item = LogEvent>>(
        &self,
        arena: &Arena,
        log: &mut L,
        pair: &Pair,
        rest: &[Lit],
    ) -> Result<(), SinkFault>
        requires may { MayTidy L.Sink self.now.formula.now self.now.spare arena.now log.old }
        requires live { AreLive arena.now pair.now }
        requires shorter { Shortens arena.now pair.now.part pair.now.whole rest.now }
        requires ends { IsTrue (is_ending self.now.formula.now.constraints rest.now) }
        ensures { TidiesOn L.Sink self.now.formula.now self.now.spare arena.now log.old result (λ _. IsEnded self.now.formula.now self.now.spare arena.now rest.now) log.new }
    {
        let by = arena.id(pair.part);
        let id = arena.id(pair.whole);
        self.tell_ending(log, by, id, rest)
    }
}
