//! A step that is taken out of the packed ones.
ghost use Rattle.std.specs.Prelude.{◌≡◌, ◌≤◌, ◌-◌, true, false, length, map, take, IfOk};
ghost use Rattle.proof_text.specs.Borrowed.{step_of};
ghost use Rattle.proof_trim.specs.Heads.{deletes};
ghost use Rattle.proof_trim.specs.Integers.{part, unsigned};
ghost use Rattle.proof_trim.specs.Stored.{IsPacked, first_of, unpacked};

use crate::head::{PackedStep, StepHead, StepKind, deletes};
use crate::integers::Integers;
use proof_text::StepRef;
use std::alloc::{AllocError, Global};
use std::marker::Model;

/// A step that is taken out of the packed ones, with room for others in its place.
#[derive(Drop)]
pub(crate) struct OpenedStep {
    head: StepHead,
    id: u64,
    /// How many integers its lists have, the literals first.
    len: usize,
    integers: Vec<i64>,
    ids: Vec<u64>,
}

impl Model for OpenedStep {
    ghost use Rattle.std.specs.Prelude.{◌≡◌, ◌≤◌, length};
    ghost use Rattle.proof_trim.specs.Stored.{Opened, step_from};

    ghost Value = { Opened };

    ghost view = { λ a. record { step = step_from a.head a.id a.len a.integers.items a.ids.items; room = length a.integers.items } };

    ghost invariant = { λ a. (a.head.literals ≤ a.len) × (a.len ≤ length a.integers.items) × (length a.ids.items ≡ length a.integers.items) };
}

/// Copies what a step's lists have to the first places: of a deletion the ids, of any other step the integers.
#[inline(always)]
fn copy_lists(step: PackedStep, packed: &Integers, integers: &mut Vec<i64>, ids: &mut Vec<u64>)
    requires low { step.start ≤ step.end }
    requires high { step.end ≤ length packed.now }
    requires integers_room { step.end - step.start ≤ length integers.old.items }
    requires ids_room { step.end - step.start ≤ length ids.old.items }
    ensures integers { deletes step.head.kind ≡ false → take (step.end - step.start) integers.new.items ≡ part packed.now step.start step.end }
    ensures ids { deletes step.head.kind ≡ true → take (step.end - step.start) ids.new.items ≡ map unsigned (part packed.now step.start step.end) }
    ensures integers_room { length integers.new.items ≡ length integers.old.items }
    ensures ids_room { length ids.new.items ≡ length ids.old.items }
{
    if deletes(step.head.kind) {
        packed.copy_ids(step.start, step.end, ids);
    } else {
        packed.copy(step.start, step.end, integers);
    }
}

/// The one hint of a list.
fn first(hints: &[i64]) -> i64
    ensures { result ≡ first_of hints.now }
{
    if hints.is_empty() { 0 } else { hints[0] }
}

impl OpenedStep {
    /// Some step, with room for steps of so many integers.
    pub(crate) fn with_room(alloc: Global, room: usize) -> Result<OpenedStep, AllocError>
        ensures { IfOk result (λ opened. opened.room ≡ room) }
    {
        let mut integers = Vec::new(alloc);
        integers.resize(room, 0)?;
        let mut ids = Vec::new(alloc);
        ids.resize(room, 0)?;
        let head = StepHead {
            kind: StepKind::DeleteParities,
            literals: 0,
        };
        Ok(OpenedStep {
            head,
            id: 0,
            len: 0,
            integers,
            ids,
        })
    }

    /// Takes the step out whose integers lie from start up to end.
    #[inline(always)]
    pub(crate) fn fill(&mut self, packed: &Integers, start: usize, end: usize)
        requires low { start ≤ end }
        requires high { end ≤ length packed.now }
        requires step { IsPacked self.old.room (part packed.now start end) }
        ensures step { self.new.step ≡ unpacked (part packed.now start end) }
        ensures room { self.new.room ≡ self.old.room }
    {
        let step = PackedStep::at(packed, start, end);
        copy_lists(step, packed, &mut self.integers, &mut self.ids);
        self.head = step.head;
        self.id = step.id;
        self.len = end - step.start;
    }

    /// The step, borrowed.
    pub(crate) fn step(&self) -> StepRef<'_>
        ensures { step_of result ≡ self.now.step }
    {
        let (id, middle, end) = (self.id, self.head.literals, self.len);
        match self.head.kind {
            StepKind::Clause => {
                StepRef::Clause(id, &self.integers[..middle], &self.integers[middle..end])
            }
            StepKind::DeleteClauses => StepRef::DeleteClauses(id, &self.ids[..end]),
            StepKind::Parity => {
                StepRef::Parity(id, &self.integers[..middle], &self.integers[middle..end])
            }
            StepKind::DeleteParities => StepRef::DeleteParities(&self.ids[..end]),
            StepKind::ClauseOfParity => StepRef::ClauseOfParity(
                id,
                &self.integers[..middle],
                first(&self.integers[middle..end]),
            ),
            StepKind::ParityOfClauses => {
                StepRef::ParityOfClauses(id, &self.integers[..middle], &self.integers[middle..end])
            }
        }
    }
}
