//! The printed form of proof steps.
ghost use Rattle.std.specs.Prelude.{[], ◌∷◌, ◌++◌, flat_map};
ghost use Rattle.cx_desk.specs.Calls.{PutsAll};
ghost use Rattle.cx_texts.specs.Grammar.{spelling, spelled, mark, id, ids, integer, integers, end};
ghost use Rattle.cx_texts.specs.ProofText.{proof_steps};
ghost use Rattle.cx_texts.specs.Printed.{printed_line, HasProofText};
ghost use Rattle.proof_text.specs.Borrowed.{step_of};

use crate::step_ref::StepRef;
use cx_base::ProofStep;
use cx_desk::{Desk, Failed, Port, put_all};
use step_text::pieces::{
    self, LineHead, LineSheet, LineTail, put_deletion, put_id, put_ids, put_line,
};

/// A deletion of clauses.
fn put_clause_deletion<D: Desk>(
    desk: &mut D,
    port: Port,
    name: u64,
    names: &[u64],
) -> Result<(), Failed>
    ensures { PutsAll port (printed_line (flat_map spelled (id name ∷ mark 100 ∷ ids names.now ∷ []))) (D.outside desk.old) result (D.outside desk.new) }
{
    if let [deleted] = names {
        return put_deletion(desk, port, name, *deleted);
    }
    put_id(desk, port, b"", name, b" d")?;
    put_ids(desk, port, names)
}

/// A deletion of parities.
fn put_parity_deletion<D: Desk>(desk: &mut D, port: Port, names: &[u64]) -> Result<(), Failed>
    ensures { PutsAll port (printed_line (flat_map spelled (mark 120 ∷ mark 100 ∷ ids names.now ∷ []))) (D.outside desk.old) result (D.outside desk.new) }
{
    if let [deleted] = names {
        return pieces::put_parity_deletion(desk, port, *deleted);
    }
    put_all(desk, port, b"x d")?;
    put_ids(desk, port, names)
}

/// Writes the line of a step: its words parted by one space, and a line feed. The sheet is for its memory alone.
///
/// It fails only where the desk counted a fault of the port; then the port gained a prefix of the line.
#[inline(always)]
pub fn put_step_ref<D: Desk>(
    sheet: &mut LineSheet,
    desk: &mut D,
    port: Port,
    step: StepRef<'_>,
) -> Result<(), Failed>
    requires { HasProofText (step_of step) }
    ensures { PutsAll port (printed_line (spelling proof_steps (step_of step.entry))) (D.outside desk.old) result (D.outside desk.new) }
{
    match step {
        StepRef::Clause(id, literals, hints) => {
            let head = LineHead::new(b"", id, literals);
            put_line(sheet, desk, port, head, LineTail::Hints(hints))
        }
        StepRef::DeleteClauses(id, names) => put_clause_deletion(desk, port, id, names),
        StepRef::Parity(id, literals, hints) => {
            let head = LineHead::new(b"x ", id, literals);
            put_line(sheet, desk, port, head, LineTail::Hints(hints))
        }
        StepRef::DeleteParities(names) => put_parity_deletion(desk, port, names),
        StepRef::ClauseOfParity(id, literals, hint) => {
            let head = LineHead::new(b"i ", id, literals);
            put_line(sheet, desk, port, head, LineTail::Hints(&[hint]))
        }
        StepRef::ParityOfClauses(id, literals, hints) => {
            let head = LineHead::new(b"i x ", id, literals);
            put_line(sheet, desk, port, head, LineTail::Hints(hints))
        }
    }
}

/// Writes the line of a step that is not borrowed.
#[inline(always)]
pub fn put_proof_step<D: Desk>(
    sheet: &mut LineSheet,
    desk: &mut D,
    port: Port,
    step: &ProofStep,
) -> Result<(), Failed>
    requires { HasProofText step.now }
    ensures { PutsAll port (printed_line (spelling proof_steps step.now)) (D.outside desk.old) result (D.outside desk.new) }
{
    put_step_ref(sheet, desk, port, StepRef::of(step))
}
