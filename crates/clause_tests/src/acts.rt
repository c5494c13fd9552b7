//! Acts on an arena, its watches and a trail, and what is told of each.
ghost use Rattle.std.specs.Prelude.{◌≡◌, [], OnOk};
ghost use Rattle.watch_lists.specs.Watching.{Fits};

use crate::source::{attach_all, decide, imply, remove};
use crate::writing::{integer, integers, lit, lits};
use clause_arena::Arena;
use cx_base::{ClauseRef, Lit};
use cx_trail::{Entry, Reason, Trail};
use std::alloc::{AllocError, Global};
use watch_lists::{
    Event, Watches, compacted_references_fall, longer_trail_fits, new_watches_fit,
    renamed_watches_fit, taken_back_fits,
};

/// What is done, and told. Literals are given as integers, clauses by their places.
#[derive(Clone, Copy, Drop)]
pub(crate) enum Act {
    /// Each clause is watched.
    Attach,
    /// The literal is implied by the clause, if it is unassigned.
    Imply(i32, u32),
    /// The literal is decided, if it is unassigned.
    Decide(i32),
    /// What the clauses force is implied.
    Propagate,
    /// The clause is removed.
    Remove(u32),
    /// The removed clauses are let go of, and all name the others as the arena does.
    CloseGaps,
    /// Each decision is taken back.
    StartAgain,
    /// The clause is told.
    ShowClause(u32),
    /// The trail is told.
    ShowTrail,
}

/// A clause: its literals, its id, its lbd, and whether it was learned.
pub(crate) type Row = (&'static [i32], u64, u32, bool);

/// Adds a clause.
fn add(alloc: Global, arena: &mut Arena, row: &Row) -> Result<(), AllocError> {
    let lits = lits(alloc, row.0)?;
    arena.add(&lits, row.1, row.2, row.3)?;
    Ok(())
}

/// Adds clauses.
pub(crate) fn add_all(alloc: Global, arena: &mut Arena, rows: &[Row]) -> Result<(), AllocError> {
    for row in rows {
        add(alloc, arena, row)?;
    }
    Ok(())
}

/// Decides the literal where it is unassigned, which leaves what the watches fit.
fn decide_watched(arena: &Arena, watches: &Watches, trail: &mut Trail, lit: Lit) -> bool
    requires { Fits watches.now arena.now trail.old }
    ensures { Fits watches.now arena.now trail.new }
{
    longer_trail_fits();
    decide(trail, lit)
}

/// Implies the literal by the clause where it is unassigned, which leaves what the watches fit.
fn imply_watched(
    arena: &Arena,
    watches: &Watches,
    trail: &mut Trail,
    lit: Lit,
    reference: ClauseRef,
) -> bool
    requires { Fits watches.now arena.now trail.old }
    ensures { Fits watches.now arena.now trail.new }
{
    longer_trail_fits();
    imply(trail, lit, reference)
}

/// Closes the gaps of the arena, and has watches and trail name its clauses as it does.
fn close_gaps(arena: &mut Arena, watches: &mut Watches, trail: &mut Trail) -> Result<(), AllocError>
    requires { Fits watches.old arena.old trail.old }
    ensures { OnOk result (Fits watches.new arena.new trail.new) }
{
    let moved = arena.compact()?;
    compacted_references_fall();
    renamed_watches_fit();
    trail.rename(&moved);
    watches.rename(&moved);
    Ok(())
}

/// Takes back each decision.
fn start_again(arena: &Arena, watches: &mut Watches, trail: &mut Trail)
    requires { Fits watches.old arena.now trail.old }
    ensures { Fits watches.new arena.now trail.new }
{
    taken_back_fits();
    watches.back_to(0);
    trail.back_to(0);
}

/// The clause's literals, id and lbd, and whether it was learned, where it is live.
pub(crate) fn show_clause(
    alloc: Global,
    arena: &Arena,
    reference: ClauseRef,
) -> Result<String, AllocError> {
    if !arena.is_live(reference) {
        return String::from_str(alloc, "none");
    }
    let lits = integers(alloc, arena.lits(reference))?;
    let (id, lbd) = (arena.id(reference), arena.lbd(reference));
    let learned = arena.learned(reference);
    format!(in alloc; "{:?} {id} {lbd} {learned}", lits.as_slice())
}

/// Appends the literal, and by what it came.
fn put_entry(entry: &Entry, text: &mut String) -> Result<(), AllocError> {
    write!(text, "{}", integer(entry.literal))?;
    match entry.reason {
        Reason::Clause(reference) => write!(text, " by {} ", reference.place()),
        Reason::Decision => text.push_str(" decided "),
        Reason::Row(_) => text.push_str(" by a row "),
    }
}

/// The literals of a trail, and by what each came.
pub(crate) fn show_trail(alloc: Global, trail: &Trail) -> Result<String, AllocError> {
    let mut text = String::new(alloc);
    for entry in trail.seq() {
        put_entry(entry, &mut text)?;
    }
    Ok(text)
}

/// Whether something was done.
fn show_done(alloc: Global, done: bool) -> Result<String, AllocError> {
    String::from_str(alloc, if done { "true" } else { "false" })
}

/// What propagation came to.
fn show_event(alloc: Global, event: Event) -> Result<String, AllocError> {
    format!(in alloc; "{event:?}")
}

/// What is told of an act.
fn take(
    alloc: Global,
    arena: &mut Arena,
    watches: &mut Watches,
    trail: &mut Trail,
    act: Act,
) -> Result<String, AllocError>
    requires { Fits watches.old arena.old trail.old }
    ensures { OnOk result (Fits watches.new arena.new trail.new) }
{
    match act {
        Act::Attach => {
            let done = attach_all(watches, arena, trail)?;
            show_done(alloc, done)
        }
        Act::Imply(integer, place) => {
            let done = imply_watched(arena, watches, trail, lit(integer), ClauseRef::new(place));
            show_done(alloc, done)
        }
        Act::Decide(integer) => {
            let done = decide_watched(arena, watches, trail, lit(integer));
            show_done(alloc, done)
        }
        Act::Propagate => {
            let event = watches.next_event(arena, trail);
            show_event(alloc, event)
        }
        Act::Remove(place) => {
            let done = remove(watches, arena, trail, ClauseRef::new(place));
            show_done(alloc, done)
        }
        Act::CloseGaps => {
            close_gaps(arena, watches, trail)?;
            String::from_str(alloc, "closed")
        }
        Act::StartAgain => {
            start_again(arena, watches, trail);
            String::from_str(alloc, "back")
        }
        Act::ShowClause(place) => show_clause(alloc, arena, ClauseRef::new(place)),
        Act::ShowTrail => show_trail(alloc, trail),
    }
}

fn add_line(text: &mut String, line: &str) -> Result<(), AllocError> {
    text.push_str(line)?;
    text.push('\n')
}

/// What is told of acts, each on a line.
fn take_all(
    alloc: Global,
    arena: &mut Arena,
    watches: &mut Watches,
    trail: &mut Trail,
    acts: &[Act],
) -> Result<String, AllocError>
    requires { Fits watches.old arena.old trail.old }
{
    let mut text = String::new(alloc);
    for act in acts {
        let told = take(alloc, arena, watches, trail, *act)?;
        add_line(&mut text, told.as_str())?;
    }
    Ok(text)
}

/// What is told of acts on an arena and an empty trail.
fn told_on(
    alloc: Global,
    arena: &mut Arena,
    trail: &mut Trail,
    acts: &[Act],
) -> Result<String, AllocError>
    requires { trail.old.entries ≡ [] }
{
    let mut watches = Watches::make(alloc, trail.vars())?;
    new_watches_fit();
    take_all(alloc, arena, &mut watches, trail, acts)
}

/// What is told of acts on these clauses and those of an arena, over this many variables, at most nine.
fn told_in(
    alloc: Global,
    arena: &mut Arena,
    vars: u32,
    rows: &[Row],
    acts: &[Act],
) -> Result<String, AllocError> {
    add_all(alloc, arena, rows)?;
    let mut trail = Trail::make(alloc, vars.min(9))?;
    told_on(alloc, arena, &mut trail, acts)
}

/// What is told of acts on these clauses, over this many variables, at most nine.
pub(crate) fn told(
    alloc: Global,
    vars: u32,
    rows: &[Row],
    acts: &[Act],
) -> Result<String, AllocError> {
    let mut arena = Arena::make(alloc);
    told_in(alloc, &mut arena, vars, rows, acts)
}
