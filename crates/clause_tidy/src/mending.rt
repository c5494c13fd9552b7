//! Two clauses of which one lies inside the other, or strengthens it, are mended.
ghost use Rattle.std.specs.Prelude.{◌≢◌, ◌<◌, IfOk, IsNone, IsTrue};
ghost use Rattle.cx_semantics.specs.Chain.{has_literal};
ghost use Rattle.clause_arena.specs.Clauses.{literals_at};
ghost use Rattle.tidy_rules.specs.Relations.{strengthens_at, bears_on};
ghost use Rattle.clause_tidy.specs.Answers.{MayTidy, TidiesOn, MendsTo, HasNoTautology};
ghost use Rattle.clause_tidy.specs.Pairs.{AreLive};
ghost use Rattle.clause_tidy.specs.Shrinking.{ShrinksOnce};
ghost use Rattle.clause_tidy.specs.Weights.{weight};

use crate::changes::subsume;
use crate::pairs::Pair;
use crate::shortening::without;
use crate::tidier::Tidier;
use clause_arena::Arena;
use cx_base::{Lit, LitList, LogEvent};
use step_text::{Sink, SinkFault};
use tidy_rules::relations::{lies_inside, strengthening};

impl Tidier<'_> {
    /// Takes the negation of this literal out of the whole, which the part strengthens at it. Where an ending clause is left, the log ends with it.
    fn strengthen<L: Sink<Item = LogEvent>>(
        &self,
        arena: &mut Arena,
        log: &mut L,
        pair: &Pair,
        lit: Lit,
    ) -> Result<Option<LitList>, SinkFault>
        requires may { MayTidy L.Sink self.now.formula.now self.now.spare arena.old log.old }
        requires none { HasNoTautology arena.old }
        requires live { AreLive arena.old pair.now }
        requires has { IsTrue (has_literal (literals_at arena.old pair.now.part) lit) }
        requires at { IsTrue (strengthens_at (literals_at arena.old pair.now.part) (literals_at arena.old pair.now.whole) lit) }
        ensures less { IfOk result (λ ended. IsNone ended → weight arena.new < weight arena.old) }
        ensures shrinks { IfOk result (λ ended. IsNone ended → ShrinksOnce arena.old arena.new) }
        ensures tidies { TidiesOn L.Sink self.now.formula.now self.now.spare arena.old log.old result (MendsTo self.now.formula.now self.now.spare arena.old arena.new) log.new }
    {
        let rest = match without(self.alloc, arena.lits(pair.whole), lit.negate()) {
            Ok(rest) => rest,
            Err(_) => return Err(SinkFault::Memory),
        };
        if self.formula.is_ending(&rest) {
            return match self.end(arena, log, pair, &rest) {
                Ok(()) => Ok(Some(LitList::from_vec(rest))),
                Err(fault) => Err(fault),
            };
        }
        match self.shorten(arena, log, pair, &rest) {
            Ok(()) => Ok(None),
            Err(fault) => Err(fault),
        }
    }

    /// Removes or shortens the whole, in which the part lies or which it strengthens. Where an ending clause is left, the log ends with it.
    pub(crate) fn mend<L: Sink<Item = LogEvent>>(
        &self,
        arena: &mut Arena,
        log: &mut L,
        pair: &Pair,
    ) -> Result<Option<LitList>, SinkFault>
        requires may { MayTidy L.Sink self.now.formula.now self.now.spare arena.old log.old }
        requires none { HasNoTautology arena.old }
        requires live { AreLive arena.old pair.now }
        requires differ { pair.now.part ≢ pair.now.whole }
        requires bears { IsTrue (bears_on (literals_at arena.old pair.now.part) (literals_at arena.old pair.now.whole)) }
        ensures less { IfOk result (λ ended. IsNone ended → weight arena.new < weight arena.old) }
        ensures shrinks { IfOk result (λ ended. IsNone ended → ShrinksOnce arena.old arena.new) }
        ensures tidies { TidiesOn L.Sink self.now.formula.now self.now.spare arena.old log.old result (MendsTo self.now.formula.now self.now.spare arena.old arena.new) log.new }
    {
        if lies_inside(arena.lits(pair.part), arena.lits(pair.whole)) {
            return match subsume(self.alloc, arena, log, pair) {
                Ok(()) => Ok(None),
                Err(fault) => Err(fault),
            };
        }
        match strengthening(arena.lits(pair.part), arena.lits(pair.whole)) {
            Some(lit) => self.strengthen(arena, log, pair, lit),
            None => Ok(None),
        }
    }
}
