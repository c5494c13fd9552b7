//! A log, elaborated onto the Proof port.
ghost use Rattle.std.specs.Prelude.{◌≡◌, ◌≤◌, List, ℕ, true, false};
ghost use Rattle.cx_desk.specs.Outside.{started_in};
ghost use Rattle.cx_desk.specs.declared.desk.Slot.TheVariants.{Second};
ghost use Rattle.step_text.specs.Texts.{is_spent_by};
ghost use Rattle.solve_cli.specs.Seen.{seen};
ghost use Rattle.solve_cli.specs.Steps.{Acts, Ready, HasNoProof};
ghost use Rattle.solve_cli.specs.SlotTexts.{HasRead, Elaborates, ElaboratedAs, elaborated_as, first_state};

use crate::elab_desk::ElabDesk;
use crate::judge::drained;
use crate::{Ending, Outcome};
use cx_base::Formula;
use cx_desk::{Desk, Slot};
use fratx_elab::{Elab, ElabFault, elaborate};
use log_text::LogGrammar;
use std::alloc::Global;
use step_text::SlotReader;
use step_text::pieces::LineSheet;

/// Elaborates the log that a reader takes from a desk onto the Proof port of that desk.
fn elaborate_on<D: Desk>(
    alloc: Global,
    desk: &mut D,
    formula: &Formula,
    reader: &mut SlotReader<LogGrammar>,
) -> Result<Elab, ElabFault>
    requires started { started_in reader.old.bytes.slot (D.outside desk.old).started ≡ true }
    requires fresh { is_spent_by reader.old.refused ≡ false }
    requires empty { HasNoProof (D.outside desk.old) }
    ensures elaborated { (name : List ℕ) (limit : ℕ) → reader.old ≡ first_state Second limit → Ready Second name (D.outside desk.old)
        → Acts limit (D.outside desk.old) (D.outside desk.new) (λ w. ElaboratedAs formula.now name limit (seen w (D.outside desk.old)) result (seen w (D.outside desk.new))) }
    ensures read { (name : List ℕ) (limit : ℕ) → reader.old ≡ first_state Second limit → Ready Second name (D.outside desk.old)
        → HasRead limit (D.outside desk.old) reader.new.bytes (D.outside desk.new) }
    ensures started { started_in reader.new.bytes.slot (D.outside desk.new).started ≡ true }
{
    let mut ends = ElabDesk {
        reader,
        desk,
        sheet: LineSheet::new(),
        failed: false,
    };
    elaborate(alloc, formula, &mut ends)
}

/// What an elaboration ends in.
fn elaborated(judged: Result<Elab, ElabFault>) -> Result<Ending, Outcome>
    ensures { result ≡ elaborated_as judged }
{
    match judged {
        Ok(Elab::Done(step)) => Ok(Ending::Elaborated(step)),
        Ok(Elab::Refused(step, cause)) => Ok(Ending::NotElaborated(step, cause)),
        Err(ElabFault::Memory) => Err(Outcome::Memory),
        Err(ElabFault::Read) => Err(Outcome::ReadFault),
        Err(ElabFault::Write) => Err(Outcome::WriteFault),
        Err(ElabFault::TooLong) => Err(Outcome::Ended(Ending::TooLong(Slot::Second))),
    }
}

/// `elab`: judges the log in the second slot as it is read, and writes its proof on the Proof port, each step as soon as it
/// is found; then reads the slot to its end.
pub(crate) fn elaborate_log<D: Desk>(
    alloc: Global,
    desk: &mut D,
    formula: &Formula,
    limit: u64,
) -> Result<Ending, Outcome>
    requires started { started_in Second (D.outside desk.old).started ≡ true }
    requires limit { limit ≤ 4294967295 }
    requires empty { HasNoProof (D.outside desk.old) }
    ensures { (name : List ℕ) → Ready Second name (D.outside desk.old) → Acts limit (D.outside desk.old) (D.outside desk.new) (λ w. Elaborates formula.now name limit (seen w (D.outside desk.old)) result (seen w (D.outside desk.new))) }
{
    let mut reader = SlotReader::new(alloc, Slot::Second, limit);
    let judged = elaborate_on(alloc, desk, formula, &mut reader);
    let ending = elaborated(judged)?;
    let rest = reader.drain_from(desk);
    drained(ending, rest)
}
