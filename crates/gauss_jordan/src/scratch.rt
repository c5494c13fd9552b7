//! An engine that eliminates anew at each event.
ghost use Rattle.std.specs.Prelude.{◌≡◌, ◌≢◌, ℕ, ◌<◌, ◌≤◌, length, map, IfOk, IsSome};
ghost use Rattle.std.specs.List.{range_with_len};
ghost use Rattle.cx_base.specs.declared.literal.TheConstants.{MAX_VARIABLE};
ghost use Rattle.gf2_matrix.specs.Content.{IsReducedRow};
ghost use Rattle.parity_engine.specs.State.{OfNamed, Reports, keep, named_at};
ghost use Rattle.gauss_jordan.specs.Slots.{AreMasks, IsNamedSlot, IsScratch, IsSlotOf, state_of};
ghost use Rattle.parity_engine.specs.declared.state.Mood.TheVariants.{Broken};

use crate::found::{FoundRow, find};
use crate::masks;
use crate::slot::{RowSlot, copy_row, empty_slots, is_unmet, keep_slots, source_list};
use cx_base::{IdList, Lit, LitList, ParityList, Row, Var};
use gf2_matrix::{Matrix, RowView, clear_words};
use gf2_rows::WordRow;
use parity_engine::{Held, Mood, Naming, ParityEngine, ParityEvent, nothing_held};
use std::alloc::{AllocError, Global};
use std::marker::Model;

/// An engine that keeps a matrix and eliminates anew at each event, outside what is assigned. It keeps a copy of
/// each named row, in room made at `make`.
#[derive(Drop)]
pub struct Scratch {
    alloc: Global,
    matrix: Matrix,
    /// Each variable, rising: the columns of the copies.
    variables: Vec<u32>,
    level: u32,
    held: Vec<Option<Held>>,
    assigned: Vec<u64>,
    truths: Vec<u64>,
    slots: Vec<RowSlot>,
    mood: Mood,
}

impl Model for Scratch {
    ghost use Rattle.parity_engine.specs.State.{State};
    ghost use Rattle.gauss_jordan.specs.Stored.{state_code};

    ghost Value = { State };

    ghost coded = { state_code };

    ghost use Rattle.gauss_jordan.specs.Slots.{IsEngine, state_of};

    ghost view = { λ s. state_of s.matrix s.level s.held.items s.slots.items s.mood };

    ghost invariant = { λ s. IsEngine s.matrix s.variables.items s.level s.held.items s.assigned.items s.truths.items s.slots.items s.mood };
}

impl Scratch {
    /// A look at a named row.
    pub fn row_view(&self, row: Row) -> RowView<'_>
        requires { IsSome (named_at self.now row) }
        ensures { OfNamed self.now row (λ n. result ≡ n.form) }
    {
        let slot = &self.slots[row.place() as usize];
        RowView::new(
            self.matrix.vars(),
            &self.variables,
            0,
            WordRow::whole(&slot.terms),
            slot.right,
        )
    }
}

impl ParityEngine for Scratch {
    ghost state = { λ s. s };

    fn make(alloc: Global, vars: u32, parities: &ParityList) -> Result<Self, AllocError> {
        let matrix = Matrix::make(alloc, vars, parities)?;
        let columns = matrix.columns();
        let variables = all_variables(alloc, vars)?;
        let held = nothing_held(alloc, vars as usize)?;
        let assigned = clear_words(alloc, columns)?;
        let truths = clear_words(alloc, columns)?;
        let slots = empty_slots(alloc, columns + 1, vars as usize, matrix.given())?;
        Ok(Scratch {
            alloc,
            matrix,
            variables,
            level: 0,
            held,
            assigned,
            truths,
            slots,
            mood: Mood::Busy,
        })
    }

    fn assign(&mut self, var: Var, value: bool) {
        let at = (var.number() - 1) as usize;
        self.held[at] = Some(Held {
            value,
            level: self.level,
        });
        self.mood = Mood::Busy;
    }

    fn next_event(&mut self) -> ParityEvent {
        let last = self.matrix.columns();
        if let Mood::Broken = self.mood {
            return ParityEvent::Conflict(Row::new(last as u32));
        }
        masks::fill(
            &self.matrix,
            &self.held,
            &mut self.assigned,
            &mut self.truths,
        );
        self.matrix.reduce_outside(&self.assigned);
        let sight = RowSight {
            matrix: &self.matrix,
            level: self.level,
            held: &self.held,
            assigned: &self.assigned,
            truths: &self.truths,
        };
        let (event, mood) = answer(sight, &mut self.slots, self.mood);
        self.mood = mood;
        event
    }

    fn push_level(&mut self) {
        self.level += 1;
    }

    fn back_to(&mut self, level: u32) {
        keep_held(&mut self.held, level);
        keep_slots(&mut self.slots, level);
        self.level = level;
        self.mood = Mood::Calm;
    }

    fn mark_basic(&self, basic: &mut [bool]) {
        // None: each event eliminates anew, and so may give a row another basic variable.
        let _marks = basic.len();
    }

    fn row_parity(&self, row: Row) -> Result<LitList, AllocError> {
        self.row_view(row).parity(self.alloc)
    }

    fn row_sources(&self, row: Row) -> Result<IdList, AllocError> {
        let slot = &self.slots[row.place() as usize];
        source_list(self.alloc, &slot.sources, self.matrix.given())
    }
}

/// The numbers of the variables, rising.
fn all_variables(alloc: Global, vars: u32) -> Result<Vec<u32>, AllocError>
    requires { vars ≤ MAX_VARIABLE }
    ensures { IfOk result (λ all. all.items ≡ range_with_len 1 vars) }
{
    let mut all = Vec::new(alloc);
    for before in 0..vars {
        all.push(before + 1)?;
    }
    Ok(all)
}

/// The value, if its level is not above this one.
fn kept(held: Option<Held>, level: u32) -> Option<Held>
    ensures { result ≡ keep level held }
{
    match held {
        Some(h) if h.level <= level => Some(h),
        _ => None,
    }
}

/// Forgets the values above the level.
fn keep_held(held: &mut [Option<Held>], level: u32)
    ensures { held.new ≡ map (keep level) held.old }
{
    for k in 0..held.len() {
        held[k] = kept(held[k], level);
    }
}

/// What is known where reduced rows are looked at: the level, and the values by columns, packed too.
#[derive(Clone, Copy, Drop)]
struct RowSight<'m> {
    matrix: &'m Matrix,
    level: u32,
    held: &'m [Option<Held>],
    assigned: &'m [u64],
    truths: &'m [u64],
}

/// The event that the reduced rows give, and the mood that it leaves. The row is copied.
fn answer(sight: RowSight<'_>, slots: &mut [RowSlot], mood: Mood) -> (ParityEvent, Mood)
    requires scratch { IsScratch sight.matrix.now sight.level sight.held.now sight.assigned.now sight.truths.now slots.old mood }
    requires whole { mood ≢ Broken }
    requires masks { AreMasks sight.matrix.now.columns sight.held.now sight.assigned.now sight.truths.now (length sight.matrix.now.columns) }
    requires reduced { (r : ℕ) → r < length sight.matrix.now.rows → IsReducedRow sight.matrix.now sight.assigned.now r }
    ensures answers { Reports (state_of sight.entry.matrix.now sight.entry.level sight.entry.held.now slots.old mood) result.0 (state_of sight.entry.matrix.now sight.entry.level sight.entry.held.now slots.new result.1) }
    ensures scratch { IsScratch sight.entry.matrix.now sight.entry.level sight.entry.held.now sight.entry.assigned.now sight.entry.truths.now slots.new result.1 }
{
    let RowSight {
        matrix,
        level,
        held,
        assigned,
        truths,
    } = sight;
    match find(matrix, assigned, truths) {
        FoundRow::Nothing => (ParityEvent::Quiet, Mood::Calm),
        FoundRow::Contradiction(row) => {
            let last = matrix.columns();
            let naming = Naming {
                level,
                in_conflict: true,
            };
            copy_row(&mut slots[last], matrix, row, naming);
            (ParityEvent::Conflict(Row::new(last as u32)), Mood::Broken)
        }
        FoundRow::Literal(row, column, _) => {
            let naming = Naming {
                level,
                in_conflict: false,
            };
            name(&mut slots[column], matrix, row, naming);
            let negative = !is_unmet(&slots[column], held);
            let var = Var::new(matrix.column(column));
            (
                ParityEvent::Implied(Lit::new(var, negative), Row::new(column as u32)),
                Mood::Busy,
            )
        }
    }
}

/// Names the row in the slot, unless the slot is kept from before.
fn name(slot: &mut RowSlot, matrix: &Matrix, row: usize, naming: Naming)
    requires row_in { row < length matrix.now.rows }
    requires sized { IsSlotOf matrix.now slot.old }
    ensures { IsNamedSlot matrix.now row naming slot.old slot.new slot.old.naming }
{
    if slot.naming.is_none() {
        copy_row(slot, matrix, row, naming);
    }
}
