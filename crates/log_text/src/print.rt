//! The printed form of logs.
ghost use Rattle.std.specs.Prelude.{◌≡◌, [], ◌∷◌, ◌++◌, ◌<◌, ◌^◌, flat_map};
ghost use Rattle.cx_desk.specs.Calls.{PutsAll, TakesUnwritten};
ghost use Rattle.cx_base.specs.declared.steps.LogEvent.TheVariants.{Step};
ghost use Rattle.cx_base.specs.Lines.{tidy};
ghost use Rattle.cx_texts.specs.Words.{conflict};
ghost use Rattle.cx_texts.specs.Grammar.{spelling, spelled, mark, id, ids, integers, end, pairs};
ghost use Rattle.cx_texts.specs.LogText.{log_steps, log_events};
ghost use Rattle.cx_texts.specs.Printed.{printed_line, printed_log, printed_log_line, HasText};
ghost use Rattle.step_text.specs.Spaced.{spaced};

use crate::list_log::ListLog;
use cx_base::{IdList, IdMove, IntList, LogEvent, LogStep};
use cx_desk::{Desk, Failed, Port, Unwritten, put_all};
use step_text::pieces::{LineHead, LineSheet, LineTail, put_id, put_line, put_moves};

/// The head of a line.
fn head<'l>(before: &'l [u8], id: u64, literals: &'l IntList) -> LineHead<'l>
    ensures before { result.before.now ≡ before.now }
    ensures id { result.id ≡ id }
    ensures literals { result.literals.now ≡ literals.now }
{
    LineHead::new(before, id, literals.as_slice())
}

/// A head, as a whole line.
fn put_plain<D: Desk>(
    sheet: &mut LineSheet,
    desk: &mut D,
    port: Port,
    head: LineHead<'_>,
) -> Result<(), Failed>
    ensures { PutsAll port (head.entry.before.now ++ printed_line (flat_map spelled (id head.entry.id ∷ integers head.entry.literals.now ∷ []))) (D.outside desk.old) result (D.outside desk.new) }
{
    put_line(sheet, desk, port, head, LineTail::Nothing)
}

/// A head and hints, as a whole line.
fn put_with_hints<D: Desk>(
    sheet: &mut LineSheet,
    desk: &mut D,
    port: Port,
    head: LineHead<'_>,
    hints: &IntList,
) -> Result<(), Failed>
    ensures { PutsAll port (head.entry.before.now ++ printed_line (flat_map spelled (id head.entry.id ∷ integers head.entry.literals.now ∷ mark 108 ∷ integers hints.now ∷ []))) (D.outside desk.old) result (D.outside desk.new) }
{
    let tail = LineTail::MarkedHints(hints.as_slice());
    put_line(sheet, desk, port, head, tail)
}

/// A parity's head and the ids of sources, as a whole line.
fn put_with_sources<D: Desk>(
    sheet: &mut LineSheet,
    desk: &mut D,
    port: Port,
    head: LineHead<'_>,
    sources: &IdList,
) -> Result<(), Failed>
    ensures { PutsAll port (head.entry.before.now ++ printed_line (flat_map spelled (id head.entry.id ∷ integers head.entry.literals.now ∷ mark 108 ∷ ids sources.now ∷ []))) (D.outside desk.old) result (D.outside desk.new) }
{
    let tail = LineTail::MarkedIds(sources.as_slice());
    put_line(sheet, desk, port, head, tail)
}

/// A head and the id of one source, as a whole line.
fn put_with_source<D: Desk>(
    sheet: &mut LineSheet,
    desk: &mut D,
    port: Port,
    head: LineHead<'_>,
    source: u64,
) -> Result<(), Failed>
    ensures { PutsAll port (head.entry.before.now ++ printed_line (flat_map spelled (id head.entry.id ∷ integers head.entry.literals.now ∷ mark 108 ∷ id source ∷ end ∷ []))) (D.outside desk.old) result (D.outside desk.new) }
{
    put_line(sheet, desk, port, head, LineTail::MarkedIds(&[source]))
}

/// Moves of ids after a text, as the end of a line.
fn put_move_line<D: Desk>(
    desk: &mut D,
    port: Port,
    before: &[u8],
    moves: &[IdMove],
) -> Result<(), Failed>
    ensures { PutsAll port (before.now ++ (spaced (spelled (pairs moves.now)) ++ 10 ∷ [])) (D.outside desk.old) result (D.outside desk.new) }
{
    put_all(desk, port, before)?;
    put_moves(desk, port, moves)
}

/// The line of a step that moves ids of clauses.
fn put_clause_moves<D: Desk>(desk: &mut D, port: Port, moves: &[IdMove]) -> Result<(), Failed>
    ensures { PutsAll port (printed_line (flat_map spelled (mark 114 ∷ pairs moves.now ∷ []))) (D.outside desk.old) result (D.outside desk.new) }
{
    put_move_line(desk, port, b"r", moves)
}

/// The line of a step that moves ids of parities.
fn put_parity_moves<D: Desk>(desk: &mut D, port: Port, moves: &[IdMove]) -> Result<(), Failed>
    ensures { PutsAll port (printed_line (flat_map spelled (mark 114 ∷ mark 120 ∷ pairs moves.now ∷ []))) (D.outside desk.old) result (D.outside desk.new) }
{
    put_move_line(desk, port, b"r x", moves)
}

/// Writes the line of a step: its words parted by one space, and a line feed. It takes no memory; the sheet is for its memory alone.
///
/// It fails only where the desk counted a fault of the port; then the port gained a prefix of the line.
pub fn put_log_step<D: Desk>(
    sheet: &mut LineSheet,
    desk: &mut D,
    port: Port,
    step: &LogStep,
) -> Result<(), Failed>
    requires { HasText (Step step.now) }
    ensures { PutsAll port (printed_line (spelling log_steps step.now)) (D.outside desk.old) result (D.outside desk.new) }
{
    match step {
        LogStep::Original(id, lits) => put_plain(sheet, desk, port, head(b"o ", *id, lits)),
        LogStep::OriginalParity(id, lits) => put_plain(sheet, desk, port, head(b"o x ", *id, lits)),
        LogStep::Clause(id, lits) => put_plain(sheet, desk, port, head(b"a ", *id, lits)),
        LogStep::ClauseWithHints(id, lits, hints) => {
            put_with_hints(sheet, desk, port, head(b"a ", *id, lits), hints)
        }
        LogStep::Parity(id, lits, sources) => {
            put_with_sources(sheet, desk, port, head(b"a x ", *id, lits), sources)
        }
        LogStep::ClauseOfParity(id, lits, source) => {
            put_with_source(sheet, desk, port, head(b"i ", *id, lits), *source)
        }
        LogStep::ParityOfClauses(id, lits, sources) => {
            put_with_sources(sheet, desk, port, head(b"i x ", *id, lits), sources)
        }
        LogStep::Delete(id, lits) => put_plain(sheet, desk, port, head(b"d ", *id, lits)),
        LogStep::DeleteParity(id, lits) => put_plain(sheet, desk, port, head(b"d x ", *id, lits)),
        LogStep::Final(id, lits) => put_plain(sheet, desk, port, head(b"f ", *id, lits)),
        LogStep::FinalParity(id, lits) => put_plain(sheet, desk, port, head(b"f x ", *id, lits)),
        LogStep::MoveClauses(moves) => put_clause_moves(desk, port, moves.as_slice()),
        LogStep::MoveParities(moves) => put_parity_moves(desk, port, moves.as_slice()),
    }
}

/// The line of a mark.
fn put_mark<D: Desk>(desk: &mut D, port: Port, k: u64) -> Result<(), Failed>
    ensures { PutsAll port (printed_line (conflict k ∷ [])) (D.outside desk.old) result (D.outside desk.new) }
{
    put_id(desk, port, b"c conflict ", k, b"\n")
}

/// Offers the desk the line of a tidying before it is laid out, and says whether that took it.
fn take_tidy<D: Desk>(desk: &mut D, port: Port, restart: u64) -> bool
    ensures { TakesUnwritten port (printed_log_line (tidy restart)) (D.outside desk.old) result (D.outside desk.new) }
{
    desk.take_unwritten(port, &Unwritten::of(&restart))
}

/// The line that says that the clauses are tidy at this restart. It is laid out only where the desk did not take it before.
pub(crate) fn put_tidy<D: Desk>(desk: &mut D, port: Port, restart: u64) -> Result<(), Failed>
    ensures number { restart < 2 ^ 64 }
    ensures line { PutsAll port (printed_log_line (tidy restart)) (D.outside desk.old) result (D.outside desk.new) }
{
    if take_tidy(desk, port, restart) {
        return Ok(());
    }
    put_id(desk, port, b"c tidy ", restart, b"\n")
}

/// Offers the desk the line of an event before it is laid out, and says whether that took it.
fn take_event<D: Desk>(desk: &mut D, port: Port, event: &LogEvent) -> bool
    ensures { TakesUnwritten port (printed_line (spelling log_events event.now)) (D.outside desk.old) result (D.outside desk.new) }
{
    desk.take_unwritten(port, &Unwritten::of(event))
}

/// Lays the line of an event out.
fn lay_out_event<D: Desk>(
    sheet: &mut LineSheet,
    desk: &mut D,
    port: Port,
    event: &LogEvent,
) -> Result<(), Failed>
    requires { HasText event.now }
    ensures { PutsAll port (printed_line (spelling log_events event.now)) (D.outside desk.old) result (D.outside desk.new) }
{
    match event {
        LogEvent::Step(step) => put_log_step(sheet, desk, port, step),
        LogEvent::Conflict(k) => put_mark(desk, port, *k),
    }
}

/// The line of an event. It is laid out only where the desk did not take it before.
pub(crate) fn put_event<D: Desk>(
    sheet: &mut LineSheet,
    desk: &mut D,
    port: Port,
    event: &LogEvent,
) -> Result<(), Failed>
    requires { HasText event.now }
    ensures { PutsAll port (printed_line (spelling log_events event.now)) (D.outside desk.old) result (D.outside desk.new) }
{
    if take_event(desk, port, event) {
        return Ok(());
    }
    lay_out_event(sheet, desk, port, event)
}

/// Writes the lines of a log's events: steps as `put_log_step` does, the mark of conflict K as the
/// line `c conflict K`. It takes no memory.
///
/// What it writes is read as the log's events (`printed_logs_read` of cx_texts). It fails only
/// where the desk counted a fault of the port; then the port gained a prefix of the lines.
pub fn put_log<D: Desk>(desk: &mut D, port: Port, log: &ListLog) -> Result<(), Failed>
    ensures { PutsAll port (printed_log log.now) (D.outside desk.old) result (D.outside desk.new) }
{
    let mut sheet = LineSheet::new();
    for event in log.events() {
        put_event(&mut sheet, desk, port, event)?;
    }
    Ok(())
}
