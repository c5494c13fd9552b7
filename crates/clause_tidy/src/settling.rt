//! The clauses of an arena are mended until none bears on another.
ghost use Rattle.std.specs.Prelude.{◌<◌, ◌≤◌, length, IfOk, IsNone};
ghost use Rattle.tidy_rules.specs.Below.{TidiedBelow};
ghost use Rattle.clause_tidy.specs.Answers.{MayTidy, TidiesOn, MendsTo, HasNoTautology};
ghost use Rattle.clause_tidy.specs.Pairs.{IsPair, NoneBears};
ghost use Rattle.clause_tidy.specs.Rooms.{IsRoomFor};
ghost use Rattle.clause_tidy.specs.Weights.{weight};

use crate::pairs::Pair;
use crate::room::TidyRoom;
use crate::tidier::Tidier;
use clause_arena::Arena;
use cx_base::{LitList, LogEvent};
use step_text::{Sink, SinkFault};

impl Tidier<'_> {
    /// Mends two clauses, of which the part bears on the whole, and takes in what is left of a shortened one.
    fn mend_in<L: Sink<Item = LogEvent>>(
        &self,
        arena: &mut Arena,
        log: &mut L,
        room: &mut TidyRoom,
        pair: &Pair,
    ) -> Result<Option<LitList>, SinkFault>
        requires may { MayTidy L.Sink self.now.formula.now self.now.spare arena.old log.old }
        requires none { HasNoTautology arena.old }
        requires room { IsRoomFor arena.old room.old }
        requires pair { IsPair arena.old pair.now }
        ensures less { IfOk result (λ ended. IsNone ended → weight arena.new < weight arena.old) }
        ensures room { IfOk result (λ ended. IsNone ended → IsRoomFor arena.new room.new) }
        ensures tidies { TidiesOn L.Sink self.now.formula.now self.now.spare arena.old log.old result (MendsTo self.now.formula.now self.now.spare arena.old arena.new) log.new }
    {
        let before = arena.len();
        match self.mend(arena, log, pair) {
            Ok(None) => match room.admit(arena, before) {
                Ok(()) => Ok(None),
                Err(_) => Err(SinkFault::Memory),
            },
            Ok(Some(lits)) => Ok(Some(lits)),
            Err(fault) => Err(fault),
        }
    }

    /// Mends two clauses, one of which bears on the other, as long as there are two.
    fn settle_in<L: Sink<Item = LogEvent>>(
        &self,
        arena: &mut Arena,
        log: &mut L,
        room: &mut TidyRoom,
    ) -> Result<Option<LitList>, SinkFault>
        requires may { MayTidy L.Sink self.now.formula.now self.now.spare arena.old log.old }
        requires none { HasNoTautology arena.old }
        requires room { IsRoomFor arena.old room.old }
        ensures free { IfOk result (λ ended. IsNone ended → HasNoTautology arena.new) }
        ensures bears { IfOk result (λ ended. IsNone ended → NoneBears arena.new) }
        ensures tidies { TidiesOn L.Sink self.now.formula.now self.now.spare arena.old log.old result (MendsTo self.now.formula.now self.now.spare arena.old arena.new) log.new }
    {
        loop {
            match room.next(arena) {
                Ok(Some(pair)) => match self.mend_in(arena, log, room, &pair) {
                    Ok(None) => {}
                    Ok(Some(lits)) => return Ok(Some(lits)),
                    Err(fault) => return Err(fault),
                },
                Ok(None) => return Ok(None),
                Err(_) => return Err(SinkFault::Memory),
            }
        }
    }

    /// Mends two clauses, one of which bears on the other, as long as there are two. Where an ending
    /// clause is left, the log ends with it.
    pub(crate) fn settle_by_queue<L: Sink<Item = LogEvent>>(
        &self,
        arena: &mut Arena,
        log: &mut L,
    ) -> Result<Option<LitList>, SinkFault>
        requires may { MayTidy L.Sink self.now.formula.now self.now.spare arena.old log.old }
        requires none { HasNoTautology arena.old }
        requires within { self.now.from ≤ length arena.old.clauses }
        requires tidy { TidiedBelow arena.old self.now.from }
        ensures free { IfOk result (λ ended. IsNone ended → HasNoTautology arena.new) }
        ensures bears { IfOk result (λ ended. IsNone ended → NoneBears arena.new) }
        ensures tidies { TidiesOn L.Sink self.now.formula.now self.now.spare arena.old log.old result (MendsTo self.now.formula.now self.now.spare arena.old arena.new) log.new }
    {
        match TidyRoom::make(self.alloc, self.formula.vars(), arena, self.from) {
            Ok(mut room) => self.settle_in(arena, log, &mut room),
            Err(_) => Err(SinkFault::Memory),
        }
    }
}
