//! Which short parities are looked at, and when.
//!
//! Nothing is proved of the lists but that they are read in range: a parity that is not looked at costs time alone,
//! since the matrix says what it says.
ghost use Rattle.std.specs.Prelude.{◌≡◌, ◌≢◌, length};
ghost use Rattle.std.specs.List.{AllByRecursion};
ghost use Rattle.parity_engine.specs.declared.state.Mood.TheVariants.{Broken};
ghost use Rattle.gauss_incremental.specs.ShortFirst.{IsFoundShort, IsShort};

use crate::incremental::Incremental;
use crate::names::RowNames;
use crate::shorts::{Short, ShortKind, is_odd, kind_of};
use cx_base::Lit;
use std::alloc::{AllocError, Global};

/// What a look at the short parities finds, and the place of the parity.
#[derive(Clone, Copy, Drop)]
pub(crate) enum ShortFinding {
    Nothing,
    Implication(usize, Lit),
    Contradiction(usize),
}

/// The mark of a variable that is not assigned. That of another is 1 if it is true, else 0: in the sum of a parity's marks
/// the sixteens are its unassigned variables, and the rest its true ones.
const OPEN: u8 = 16;

/// A short parity as one of its variables sees it: whether it says nothing is told by few bytes that lie side by side.
#[derive(Clone, Copy, Drop)]
struct Seen {
    place: u32,
    /// The places of its other variables, or of the mark that stays 0.
    others: Others,
    /// Whether an odd number of its variables is to be true: 1, else 0.
    odd: u8,
}

/// The places of up to three variables.
#[derive(Clone, Copy, Drop)]
struct Others {
    first: u32,
    second: u32,
    third: u32,
}

/// The short parities of each variable, and how far the engine's trail was looked at.
#[derive(Drop)]
pub(crate) struct Looks {
    /// Those of variable v are from `starts[v]` on, up to `starts[v + 1]`.
    starts: Vec<usize>,
    seen: Vec<Seen>,
    /// The mark of each variable, and 0.
    marks: Vec<u8>,
    /// The parities of the variables before this place of the trail were looked at.
    looked: usize,
}

impl Looks {
    /// No variable is assigned.
    pub(crate) fn make(alloc: Global, vars: u32, shorts: &[Short]) -> Result<Looks, AllocError> {
        let starts = starts_of(alloc, vars, shorts)?;
        let seen = seen_of(alloc, &starts, vars, shorts)?;
        let marks = open_marks(alloc, vars)?;
        Ok(Looks {
            starts,
            seen,
            marks,
            looked: 0,
        })
    }

    /// The variable at this place, from 0 on, is assigned.
    pub(crate) fn assign(&mut self, at: usize, value: bool) {
        self.set_mark(at, value as u8);
    }

    /// The variables that the engine took back are open again. It had `before` assigned ones.
    pub(crate) fn take_back(&mut self, engine: &Incremental, before: usize) {
        let trail = engine.trail();
        let count = engine.count();
        for place in count..before.min(trail.len()) {
            self.set_mark(trail[place], OPEN);
        }
        self.looked = self.looked.min(count);
    }

    /// Sets the mark of the variable at this place.
    fn set_mark(&mut self, at: usize, mark: u8) {
        if at < self.marks.len() {
            self.marks[at] = mark;
        }
    }

    /// The mark at this place.
    #[inline(always)]
    fn mark(&self, at: usize) -> u8 {
        if at < self.marks.len() {
            self.marks[at]
        } else {
            OPEN
        }
    }

    /// Whether the parity says nothing: two of its variables are not assigned, or all are and it is met. `mark` is the
    /// mark of the variable that sees it.
    #[inline(always)]
    fn is_silent(&self, seen: &Seen, mark: u8) -> bool {
        let sum = mark
            .wrapping_add(self.mark(seen.others.first as usize))
            .wrapping_add(self.mark(seen.others.second as usize))
            .wrapping_add(self.mark(seen.others.third as usize));
        sum >= 2 * OPEN || (sum < OPEN && sum % 2 == seen.odd)
    }

    /// The parities of the variable at this place.
    fn of(&self, at: usize) -> &[Seen] {
        if at >= self.starts.len() || self.starts.len() - at < 3 {
            return &[];
        }
        let from = self.starts[at + 1];
        let end = self.starts[at + 2];
        if from > end || end > self.seen.len() {
            return &[];
        }
        &self.seen[from..end]
    }
}

/// What the short parities say of the variables that were assigned since the last look.
pub(crate) fn find(
    engine: &Incremental,
    shorts: &[Short],
    named: &RowNames,
    looks: &mut Looks,
) -> ShortFinding
    requires long { length named.now ≡ length shorts.now }
    requires each { AllByRecursion (IsShort engine.now.state.vars engine.now.state.parities) shorts.now }
    ensures { IsFoundShort engine.now.state shorts.now named.now result }
{
    if shorts.is_empty() {
        return ShortFinding::Nothing;
    }
    if engine.is_broken() {
        return ShortFinding::Nothing;
    }
    let trail = engine.trail();
    let count = engine.count().min(trail.len());
    while looks.looked < count {
        let finding = look(engine, shorts, named, looks, trail[looks.looked]);
        if !matches!(finding, ShortFinding::Nothing) {
            return finding;
        }
        looks.looked += 1;
    }
    ShortFinding::Nothing
}

/// What the parities of a variable say, up to the first that says something.
fn look(
    engine: &Incremental,
    shorts: &[Short],
    named: &RowNames,
    looks: &Looks,
    at: usize,
) -> ShortFinding
    requires long { length named.now ≡ length shorts.now }
    requires each { AllByRecursion (IsShort engine.now.state.vars engine.now.state.parities) shorts.now }
    requires whole { engine.now.state.mood ≢ Broken }
    ensures { IsFoundShort engine.now.state shorts.now named.now result }
{
    let mark = looks.mark(at);
    for seen in looks.of(at) {
        if looks.is_silent(seen, mark) {
            continue;
        }
        let place = seen.place as usize;
        if place >= shorts.len() || !named.may_have(place, engine.level()) {
            continue;
        }
        match kind_of(engine, shorts[place].lits.as_slice()) {
            ShortKind::Implies(lit) => return ShortFinding::Implication(place, lit),
            ShortKind::Unmet => return ShortFinding::Contradiction(place),
            ShortKind::Open | ShortKind::Met => {}
        }
    }
    ShortFinding::Nothing
}

/// Counts the literals of a parity, each for the variable after its own.
fn count_lits(starts: &mut [usize], lits: &[Lit]) {
    for lit in lits {
        let at = lit.var().number() as usize + 1;
        if at < starts.len() {
            starts[at] = starts[at].wrapping_add(1);
        }
    }
}

/// How many literals the parities before each variable have.
fn starts_of(alloc: Global, vars: u32, shorts: &[Short]) -> Result<Vec<usize>, AllocError> {
    let mut starts = vec![in alloc; 0; vars as usize + 2]?;
    for short in shorts {
        count_lits(&mut starts, short.lits.as_slice());
    }
    add_up(&mut starts);
    Ok(starts)
}

/// Makes each number the sum of those up to it.
fn add_up(numbers: &mut [usize]) {
    let mut sum = 0usize;
    for number in numbers.iter_mut() {
        sum = sum.wrapping_add(*number);
        *number = sum;
    }
}

/// Each variable is open, and the last mark is 0.
fn open_marks(alloc: Global, vars: u32) -> Result<Vec<u8>, AllocError> {
    let mut marks = vec![in alloc; OPEN; vars as usize]?;
    marks.push(0)?;
    Ok(marks)
}

/// The places of the variables but one, and `none` for those that are missing.
fn others_of(lits: &[Lit], own: u32, none: u32) -> Others {
    let mut places = [none; 3];
    let mut next = 0;
    for lit in lits {
        let var = lit.var().number();
        if var != own && next < 3 {
            places[next] = var - 1;
            next += 1;
        }
    }
    Others {
        first: places[0],
        second: places[1],
        third: places[2],
    }
}

/// Puts a parity in the lists of its variables.
fn put_seen(next: &mut [usize], all: &mut [Seen], lits: &[Lit], place: u32, none: u32) {
    let odd = !is_odd(lits) as u8;
    for lit in lits {
        let number = lit.var().number();
        let var = number as usize;
        if var < next.len() && next[var] < all.len() {
            let others = others_of(lits, number, none);
            all[next[var]] = Seen { place, others, odd };
            next[var] += 1;
        }
    }
}

/// The parities of each variable, in order.
fn seen_of(
    alloc: Global,
    starts: &[usize],
    vars: u32,
    shorts: &[Short],
) -> Result<Vec<Seen>, AllocError> {
    let mut next = starts.to_vec(alloc)?;
    let count = starts.last().copied().unwrap_or(0);
    let blank = Seen {
        place: 0,
        others: others_of(&[], 0, vars),
        odd: 0,
    };
    let mut all = vec![in alloc; blank; count]?;
    let mut place = 0u32;
    for short in shorts {
        put_seen(&mut next, &mut all, short.lits.as_slice(), place, vars);
        place = place.wrapping_add(1);
    }
    Ok(all)
}
