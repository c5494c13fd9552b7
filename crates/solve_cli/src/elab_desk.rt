//! A log that is read from a slot of a desk, and its proof that is printed on the desk's Proof port.
ghost use Rattle.std.specs.Prelude.{◌≡◌, true, false};
ghost use Rattle.cx_desk.specs.Outside.{started_in};
ghost use Rattle.proof_text.specs.Told.{is_whole};

use cx_base::{LogStep, ProofStep};
use cx_desk::Desk;
use fratx_elab::ElabEnds;
use log_text::LogGrammar;
use proof_text::put_step;
use step_text::pieces::LineSheet;
use step_text::{SinkFault, SlotReader, SpareLists, TextRefusal};

/// The elaborator's two ends on one lent desk: the steps that a lent reader takes from it, and the Proof port.
///
/// It borrows both, so that their owner knows what was done to them. It counts one fault of
/// writing at most: after that it is not asked again.
#[derive(Drop)]
pub(crate) struct ElabDesk<'r, 'd, D: Desk> {
    /// The reader of the log's slot.
    pub reader: &'r mut SlotReader<LogGrammar>,
    /// The desk that has the slot and the port.
    pub desk: &'d mut D,
    /// For its memory alone.
    pub sheet: LineSheet,
    /// Whether a write failed.
    pub failed: bool,
    // the slot was started
    ghost started: { started_in reader.now.bytes.slot (D.outside desk.now).started ≡ true },
    // between two steps no line is begun
    ghost whole: { failed ≡ false → is_whole (D.outside desk.now) ≡ true },
}

impl<D: Desk> ElabEnds for ElabDesk<'_, '_, D> {
    ghost use Rattle.std.specs.Prelude.{◌≡◌, refl};
    ghost use Rattle.std.proofs.Common.{◌∙◌};
    ghost use Rattle.cx_texts.specs.LogText.{log_steps};
    ghost use Rattle.cx_texts.proofs.Grammars.{log_forms};
    ghost use Rattle.step_text.specs.Texts.{is_spent_by, stuck_by};
    ghost use Rattle.step_text.specs.Slots.{IsPossible, is_too_long, SlotLeaves};
    ghost use Rattle.step_text.specs.SlotLeft.{some_text, slot_is_left};
    ghost use Rattle.proof_text.specs.Told.{steps_told, fault_of, TornOn};
    ghost use Rattle.solve_cli.specs.TwoEnds.{ReadsAndPrints, between_itself, between_on};

    ghost view = { record {
      may_read = λ e. IsPossible e.reader.now.bytes (D.outside e.desk.now);
      leaves = λ e. SlotLeaves log_steps e.reader.now (D.outside e.desk.now);
      passes_limit = λ e. is_too_long e.reader.now.bytes (D.outside e.desk.now);
      is_spent = λ e. is_spent_by e.reader.now.refused;
      stuck = λ e. stuck_by e.reader.now.refused;
      read_faults = λ e. (D.outside e.desk.now).faults.reads;
      place = λ e. e.reader.now.bytes.place;
      farthest = λ e. e.reader.now.bytes.limit;
      steps = λ e. steps_told (D.outside e.desk.now);
      write_faults = λ e. fault_of e.failed;
      has_failed = λ e. e.failed;
      torn = λ e step. TornOn step (D.outside e.desk.now);
      keeps = λ a b. (b.reader.ghost_name ≡ a.reader.ghost_name) × (b.desk.ghost_name ≡ a.desk.ghost_name) × ReadsAndPrints a.reader.now.bytes a.failed (D.outside a.desk.now) b.reader.now.bytes b.failed (D.outside b.desk.now);
    } };

    fn next_step(&mut self, spare: &mut SpareLists) -> Result<Option<LogStep>, TextRefusal> {
        self.reader.next_from(spare, self.desk)
    }

    fn place(&self) -> u64 {
        self.reader.place()
    }

    fn step(&mut self, step: &ProofStep) -> Result<(), SinkFault> {
        put_step(&mut self.sheet, self.desk, &mut self.failed, step)
    }

    ghost has_text = { λ e. some_text e.reader.now.bytes (D.outside e.desk.now) };

    ghost leaves_some = { λ e. slot_is_left log_steps log_forms e.reader.now (D.outside e.desk.now) };

    ghost keeps_itself = { λ a. (refl, refl, between_itself a.reader.now.bytes a.failed (D.outside a.desk.now)) };

    ghost keeps_on = { λ a b c h k. (k.0 ∙ h.0, k.1 ∙ h.1, between_on a.reader.now.bytes a.failed (D.outside a.desk.now) b.reader.now.bytes b.failed (D.outside b.desk.now) c.reader.now.bytes c.failed (D.outside c.desk.now) h.2 k.2) };
}
