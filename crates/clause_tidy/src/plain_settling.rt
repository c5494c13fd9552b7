//! The clauses of an arena are mended until none bears on another, by the plain look.
ghost use Rattle.std.specs.Prelude.{IfOk, IsNone};
ghost use Rattle.clause_tidy.specs.Answers.{MayTidy, TidiesOn, MendsTo, HasNoTautology};
ghost use Rattle.clause_tidy.specs.Pairs.{NoneBears};

use crate::plain_pairs::untidy_pair;
use crate::tidier::Tidier;
use clause_arena::Arena;
use cx_base::{LitList, LogEvent};
use step_text::{Sink, SinkFault};

impl Tidier<'_> {
    /// Mends two clauses, one of which bears on the other, as long as there are two. Where an ending clause is left, the log ends with it.
    pub(crate) fn settle_plainly<L: Sink<Item = LogEvent>>(
        &self,
        arena: &mut Arena,
        log: &mut L,
    ) -> Result<Option<LitList>, SinkFault>
        requires may { MayTidy L.Sink self.now.formula.now self.now.spare arena.old log.old }
        requires none { HasNoTautology arena.old }
        ensures free { IfOk result (λ ended. IsNone ended → HasNoTautology arena.new) }
        ensures bears { IfOk result (λ ended. IsNone ended → NoneBears arena.new) }
        ensures tidies { TidiesOn L.Sink self.now.formula.now self.now.spare arena.old log.old result (MendsTo self.now.formula.now self.now.spare arena.old arena.new) log.new }
    {
        while let Some(pair) = untidy_pair(arena) {
            match self.mend(arena, log, &pair) {
                Ok(None) => {}
                Ok(Some(lits)) => return Ok(Some(lits)),
                Err(fault) => return Err(fault),
            }
        }
        Ok(None)
    }
}
