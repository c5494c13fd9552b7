//! What stands for the ids of a log in its proof.
ghost use Rattle.std.specs.Prelude.{◌≡◌, ◌≢◌, ◌≤◌, ◌<◌, ◌+◌, ℕ, ℤ, pos, nat_abs, true, IfOk, OnOk};
ghost use Rattle.fratx_elab.specs.Names.{Naming, stands_for, first_naming, name_original, name_next, drop_name, move_names, StandForThemselves, StandForProofIds};

use crate::own_ids::OwnIds;
use cx_base::IdMove;
use proof_rules::{Filler, IdMap};
use std::alloc::{AllocError, Global};
use std::marker::Model;

/// The greatest id of a proof.
pub const MAX_ID: u64 = 9_223_372_036_854_775_807;

/// An id of the proof, from 1 up to [`MAX_ID`].
#[derive(Clone, Copy, PartialEq, Eq, PartialOrd, Ord, Drop)]
pub struct ProofId {
    number: u64,
}

impl Model for ProofId {
    ghost use Rattle.std.specs.Prelude.{ℕ, ◌≤◌};
    ghost use Rattle.fratx_elab.specs.declared.naming.TheConstants.{MAX_ID};

    ghost Value = { ℕ };

    ghost view = { λ p. p.number };

    ghost invariant = { λ p. (1 ≤ p.number) × (p.number ≤ MAX_ID) };

    ghost inverse = { λ n. record { number = n } };
}

impl Filler for ProofId {
    fn filler() -> ProofId {
        ProofId { number: 1 }
    }
}

impl ProofId {
    /// The id of this number.
    pub fn new(number: u64) -> ProofId
        requires low { 1 ≤ number }
        requires high { number ≤ MAX_ID }
        ensures { result ≡ number }
    {
        ProofId { number }
    }

    /// Its number.
    pub fn number(self) -> u64
        ensures number { result ≡ self }
        ensures low { 1 ≤ result }
        ensures high { result ≤ MAX_ID }
    {
        self.number
    }

    /// Its number minus 1: its place in a list by numbers.
    pub fn index(self) -> usize
        ensures { result + 1 ≡ self }
    {
        self.number as usize - 1
    }

    /// The hint that names it.
    pub fn hint(self) -> i64
        ensures hint { result ≡ pos self }
        ensures some { result ≢ pos 0 }
        ensures within { nat_abs result ≤ MAX_ID }
    {
        self.number as i64
    }
}

/// What stands for the live ids of a log.
#[derive(Drop)]
enum Standing {
    /// All but one at most stand for themselves, as in the logs of a solver that counts as a proof does.
    Themselves(OwnIds),
    /// The number that stands for each.
    Numbered(IdMap<ProofId>),
}

/// The proof id that stands for each live id of a log, and the last id given in the proof.
#[derive(Drop)]
pub struct Names {
    alloc: Global,
    ids: Standing,
    last: u64,
}

impl Model for Names {
    ghost use Rattle.fratx_elab.specs.Names.{Naming, naming_code};

    ghost Value = { Naming };

    ghost coded = { naming_code };

    ghost use Rattle.fratx_elab.specs.Standings.{naming_of};

    ghost view = { λ a. naming_of a.ids a.last };
}

impl Names {
    /// Nothing is named, and the formula's constraints have the first ids.
    pub fn new(alloc: Global, count: u64) -> Names
        ensures { result ≡ first_naming count }
    {
        Names {
            alloc,
            ids: Standing::Themselves(OwnIds::new(alloc)),
            last: count,
        }
    }

    /// The last id that was given in the proof.
    pub fn last(&self) -> u64
        ensures { result ≡ self.now.last }
    {
        self.last
    }

    /// Whether each id stands for itself. No says nothing.
    pub fn stand_for_themselves(&self) -> bool
        ensures themselves { result ≡ true → StandForThemselves self.now }
        ensures within { result ≡ true → StandForProofIds self.now }
    {
        match &self.ids {
            Standing::Themselves(ids) => ids.has_no_other(),
            Standing::Numbered(_) => false,
        }
    }

    /// The proof id that stands for an id of the log.
    #[inline(always)]
    pub fn get(&self, id: u64) -> Option<ProofId>
        ensures { result ≡ stands_for self.now id }
    {
        match &self.ids {
            Standing::Themselves(ids) => ids.get(id),
            Standing::Numbered(ids) => match ids.get(id) {
                Some(number) => Some(*number),
                None => None,
            },
        }
    }

    /// A constraint of the formula stands for this id from now on.
    pub fn put_original(&mut self, id: u64, number: ProofId) -> Result<(), AllocError>
        ensures { OnOk result (self.new ≡ name_original self.old id number) }
    {
        self.put(id, number)
    }

    /// The next id of the proof stands for this id from now on.
    // Each step that adds something calls it once.
    #[inline(always)]
    pub fn put_next(&mut self, id: u64) -> Result<ProofId, AllocError>
        requires { self.old.last < MAX_ID }
        ensures next { IfOk result (λ next. next ≡ self.old.last + 1) }
        ensures named { OnOk result (self.new ≡ name_next self.old id) }
    {
        let next = ProofId::new(self.last + 1);
        self.put(id, next)?;
        self.last += 1;
        Ok(next)
    }

    /// This number stands for this id from now on.
    fn put(&mut self, id: u64, number: ProofId) -> Result<(), AllocError>
        ensures { OnOk result (self.new ≡ name_original self.old id number) }
    {
        match &mut self.ids {
            Standing::Themselves(ids) => {
                if ids.put(id, number)? {
                    return Ok(());
                }
            }
            Standing::Numbered(ids) => return ids.insert(id, number),
        }
        self.put_numbered(id, number)
    }

    /// This number stands for this id from now on, and each id is kept with its number.
    // Apart, since it is done once, and no other id is to clear the room that it takes.
    #[inline(never)]
    fn put_numbered(&mut self, id: u64, number: ProofId) -> Result<(), AllocError>
        ensures { OnOk result (self.new ≡ name_original self.old id number) }
    {
        match &mut self.ids {
            Standing::Themselves(ids) => {
                let mut numbers = ids.numbers(self.alloc, self.last)?;
                numbers.insert(id, number)?;
                self.ids = Standing::Numbered(numbers);
            }
            Standing::Numbered(ids) => ids.insert(id, number)?,
        }
        Ok(())
    }

    /// The proof id that stood for this id, for which nothing stands any more.
    pub fn take(&mut self, id: u64) -> Option<ProofId>
        ensures found { result ≡ stands_for self.old id }
        ensures gone { self.new ≡ drop_name self.old id }
    {
        let found = self.get(id);
        match &mut self.ids {
            Standing::Themselves(ids) => ids.remove(id),
            Standing::Numbered(ids) => ids.remove(id),
        }
        found
    }

    /// What stood for each old id stands for the new one from now on. After that ids are taken to stand for others.
    pub fn move_all(&mut self, moves: &[IdMove]) -> Result<(), AllocError>
        ensures { OnOk result (self.new ≡ move_names self.old moves.now) }
    {
        match &mut self.ids {
            Standing::Themselves(ids) => {
                let mut numbers = ids.numbers(self.alloc, self.last)?;
                numbers.move_ids(self.alloc, moves)?;
                self.ids = Standing::Numbered(numbers);
            }
            Standing::Numbered(numbers) => numbers.move_ids(self.alloc, moves)?,
        }
        Ok(())
    }
}
