//! Steps, packed: their integers lie one after another.
ghost use Rattle.std.specs.Prelude.{◌≡◌, ◌<◌, ◌++◌, ◌||◌, ◌∷◌, suc, pos, [], false, length, map, drop, get_or, OnOk, IfOk};
ghost use Rattle.std.specs.List.{AllByRecursion, list_any};
ghost use Rattle.proof_trim.specs.Heads.{head_of};
ghost use Rattle.proof_trim.specs.Integers.{signed, unsigned};
ghost use Rattle.proof_trim.specs.Marking.{puts_wanted, wanted_before};
ghost use Rattle.proof_trim.specs.NameSets.{Has, has_name};
ghost use Rattle.proof_trim.specs.Puts.{is_deletion, put_of, step_at};
ghost use Rattle.proof_trim.specs.Stored.{FitsIn, listed, packed, start_at};

use crate::before::want_before;
use crate::head::{PackedStep, StepHead, StepKind};
use crate::integers::{Integers, signed, unsigned};
use crate::longer::LongerIntegers;
use crate::names::NameSet;
use crate::opened::OpenedStep;
use crate::put::{Put, put_by};
use cx_base::ProofStep;
use std::alloc::{AllocError, Global};
use std::marker::Model;
use xlrup_check::Recorder;

/// Steps of a proof. They take less memory than their text, nearly always.
#[derive(Drop)]
pub(crate) struct StepStore {
    /// Each step's head and id, and then its literals, and its hints or ids.
    integers: Integers,
    /// Where each step ends.
    ends: LongerIntegers,
    /// No step has more integers.
    longest: usize,
    /// Whether some step deletes.
    deletes: bool,
}

impl Model for StepStore {
    ghost use Rattle.std.specs.Prelude.{List, ◌≡◌, false};
    ghost use Rattle.std.specs.List.{list_any};
    ghost use Rattle.cx_base.specs.declared.steps.ProofStep.{ProofStep};
    ghost use Rattle.proof_trim.specs.Puts.{is_deletion};
    ghost use Rattle.proof_trim.specs.Stored.{AreStored, steps_at};

    ghost Value = { List ProofStep };

    ghost view = { λ a. steps_at a.integers 0 a.ends };

    ghost invariant = { λ a. AreStored a.integers 0 a.ends a.longest × (a.deletes ≡ false → list_any is_deletion (steps_at a.integers 0 a.ends) ≡ false) };
}

/// Packs a step's head and id after the others.
#[inline(always)]
fn pack_head(
    integers: &mut Integers,
    kind: StepKind,
    id: u64,
    literals: usize,
) -> Result<(), AllocError>
    ensures { OnOk result (integers.new ≡ (integers.old ++ signed (head_of kind literals) ∷ []) ++ signed id ∷ []) }
{
    let head = StepHead { kind, literals };
    integers.push_id(head.pack()?)?;
    integers.push_id(id)
}

/// Packs a step's kind, id and lists after the others.
fn pack_lists(
    integers: &mut Integers,
    kind: StepKind,
    id: u64,
    literals: &[i64],
    hints: &[i64],
) -> Result<(), AllocError>
    ensures { OnOk result (integers.new ≡ integers.old ++ listed kind id literals.now hints.now) }
{
    pack_head(integers, kind, id, literals.len())?;
    integers.extend(literals)?;
    integers.extend(hints)
}

/// Packs a deletion's kind, id and ids after the others.
fn pack_ids(integers: &mut Integers, kind: StepKind, id: u64, ids: &[u64]) -> Result<(), AllocError>
    ensures { OnOk result (integers.new ≡ integers.old ++ listed kind id [] (map signed ids.now)) }
{
    pack_head(integers, kind, id, 0)?;
    integers.extend_ids(ids)
}

/// Packs a step after the others.
fn pack(integers: &mut Integers, step: &ProofStep) -> Result<(), AllocError>
    ensures { OnOk result (integers.new ≡ integers.old ++ packed step.now) }
{
    match step {
        ProofStep::Clause(id, literals, hints) => pack_lists(
            integers,
            StepKind::Clause,
            *id,
            literals.as_slice(),
            hints.as_slice(),
        ),
        ProofStep::DeleteClauses(id, ids) => {
            pack_ids(integers, StepKind::DeleteClauses, *id, ids.as_slice())
        }
        ProofStep::Parity(id, literals, hints) => pack_lists(
            integers,
            StepKind::Parity,
            *id,
            literals.as_slice(),
            hints.as_slice(),
        ),
        ProofStep::DeleteParities(ids) => {
            pack_ids(integers, StepKind::DeleteParities, 0, ids.as_slice())
        }
        ProofStep::ClauseOfParity(id, literals, hint) => pack_lists(
            integers,
            StepKind::ClauseOfParity,
            *id,
            literals.as_slice(),
            &[*hint],
        ),
        ProofStep::ParityOfClauses(id, literals, hints) => pack_lists(
            integers,
            StepKind::ParityOfClauses,
            *id,
            literals.as_slice(),
            hints.as_slice(),
        ),
    }
}

/// Packs a step after the others, and where it ends.
fn pack_with_end(
    integers: &mut Integers,
    ends: &mut LongerIntegers,
    step: &ProofStep,
) -> Result<(), AllocError>
    ensures step { OnOk result (integers.new ≡ integers.old ++ packed step.now) }
    ensures end { OnOk result (ends.new ≡ ends.old ++ signed (length integers.new) ∷ []) }
{
    pack(integers, step)?;
    ends.push(signed(integers.len() as u64))
}

/// Whether some step deletes: this one, or one of those before it.
fn some_deletes(step: &ProofStep, before: bool) -> bool
    ensures { result ≡ (is_deletion step.now || before) }
{
    match step {
        ProofStep::DeleteClauses(_, _) | ProofStep::DeleteParities(_) => true,
        ProofStep::Clause(_, _, _)
        | ProofStep::Parity(_, _, _)
        | ProofStep::ClauseOfParity(_, _, _)
        | ProofStep::ParityOfClauses(_, _, _) => before,
    }
}

/// Where the step at a place begins.
#[inline(always)]
fn start_of(ends: &LongerIntegers, place: usize) -> usize
    requires { place < length ends.now }
    ensures { result ≡ start_at 0 ends.now place }
{
    if place == 0 {
        0
    } else {
        end_of(ends, place - 1)
    }
}

/// Where the step at a place ends.
#[inline(always)]
fn end_of(ends: &LongerIntegers, place: usize) -> usize
    requires { place < length ends.now }
    ensures { result ≡ unsigned (get_or ends.now place (pos 0)) }
{
    unsigned(ends.at(place)) as usize
}

impl StepStore {
    /// No step yet.
    pub(crate) fn new(alloc: Global) -> StepStore
        ensures { result ≡ [] }
    {
        StepStore {
            integers: Integers::new(alloc),
            ends: LongerIntegers::new(alloc),
            longest: 0,
            deletes: false,
        }
    }

    /// How many steps there are.
    pub(crate) fn len(&self) -> usize
        ensures { result ≡ length self.now }
    {
        self.ends.len()
    }

    /// Some step, with room for each of these.
    pub(crate) fn opened(&self, alloc: Global) -> Result<OpenedStep, AllocError>
        ensures { IfOk result (λ opened. AllByRecursion (FitsIn opened.room) self.now) }
    {
        OpenedStep::with_room(alloc, self.longest)
    }

    /// Takes a copy of the step at a place, from 0.
    #[inline(always)]
    pub(crate) fn open_at(&self, place: usize, opened: &mut OpenedStep)
        requires place { place < length self.now }
        requires room { AllByRecursion (FitsIn opened.old.room) self.now }
        ensures step { drop place self.now ≡ opened.new.step ∷ drop (suc place) self.now }
        ensures room { opened.new.room ≡ opened.old.room }
    {
        let start = start_of(&self.ends, place);
        let end = end_of(&self.ends, place);
        opened.fill(&self.integers, start, end);
    }

    /// What the step at a place, from 0, puts, if it is no deletion. Its lists are not touched.
    #[inline(always)]
    pub(crate) fn put_at(&self, place: usize) -> Option<Put>
        requires { place < length self.now }
        ensures { result ≡ put_of (step_at self.now place) }
    {
        let start = start_of(&self.ends, place);
        let end = end_of(&self.ends, place);
        let step = PackedStep::at(&self.integers, start, end);
        put_by(step.head.kind, step.id)
    }

    /// Goes back over the step at a place, from 0: whether it is needed. Its head is taken once, and its literals not at all.
    #[inline(always)]
    pub(crate) fn back_over(
        &self,
        place: usize,
        is_last: bool,
        wanted: &mut NameSet,
    ) -> Result<bool, AllocError>
        requires { place < length self.now }
        ensures needed { IfOk result (λ needed. needed ≡ (is_last || puts_wanted (has_name wanted.old) (step_at self.now place))) }
        ensures wanted { IfOk result (λ needed. Has wanted.new (wanted_before needed (step_at self.now place) (has_name wanted.old))) }
    {
        let start = start_of(&self.ends, place);
        let end = end_of(&self.ends, place);
        let step = PackedStep::at(&self.integers, start, end);
        want_before(wanted, step, &self.integers, is_last)
    }

    /// Whether some step may delete.
    pub(crate) fn deletes(&self) -> bool
        ensures { result ≡ false → list_any is_deletion self.now ≡ false }
    {
        self.deletes
    }
}

impl Recorder for StepStore {
    ghost told = { λ store steps. store ≡ steps };

    /// Packs a step after the others: its own memory serves the next one. Without memory none is left.
    fn tell(&mut self, step: &ProofStep) -> Result<(), AllocError> {
        let start = self.integers.len();
        match pack_with_end(&mut self.integers, &mut self.ends, step) {
            Ok(()) => {
                self.longest = self.longest.max(self.integers.len() - start);
                self.deletes = some_deletes(step, self.deletes);
                Ok(())
            }
            Err(e) => {
                self.integers.clear();
                self.ends.clear();
                Err(e)
            }
        }
    }
}
