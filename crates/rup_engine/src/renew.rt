//! Level 1 taken back.
ghost use Rattle.std.specs.Prelude.{◌≡◌};
ghost use Rattle.cx_semantics.specs.Tables.{Table};
ghost use Rattle.cx_trail.specs.Sequence.{TakesBack};
ghost use Rattle.rup_engine.specs.Finding.{IsAtRest, Holds};

use crate::engine::Engine;
use crate::search::back;

impl Engine {
    /// Takes level 1 back.
    pub(crate) fn close(&mut self)
        requires rest { IsAtRest self.old }
        ensures rest { IsAtRest self.new }
        ensures limit { self.new.limit ≡ self.old.limit }
        ensures refs { self.new.refs ≡ self.old.refs }
        ensures back { TakesBack 0 self.old.trail self.new.trail }
        ensures holds { (table : Table) → Holds table self.old → Holds table self.new }
    {
        back(&mut self.watches, &mut self.trail, 0);
        self.broken = None;
        self.hints = 0;
    }

    /// Takes level 1 back where the chains to clauses that it makes false have more hints together than an eighth of its literals and the
    /// short clauses.
    ///
    /// It is opened again with the units that came meanwhile, which may make further chains shorter; the hints that were written pay for that.
    pub(crate) fn renew(&mut self, hints: usize)
        requires rest { IsAtRest self.old }
        ensures rest { IsAtRest self.new }
        ensures limit { self.new.limit ≡ self.old.limit }
        ensures holds { (table : Table) → Holds table self.old → Holds table self.new }
    {
        self.hints = self.hints.saturating_add(hints as u64);
        let opening = (self.trail.len() as u64).saturating_add(self.short.len() as u64);
        if self.hints > opening / 8 {
            self.close();
        }
    }
}
