//! A log that is printed event by event on a desk's Proof port.
ghost use Rattle.std.specs.Prelude.{◌≡◌, true, false, OnOk, OnErr};
ghost use Rattle.cx_texts.specs.Printed.{HasText};
ghost use Rattle.step_text.specs.Sinks.{with_next, with_tidy, OnFailed};
ghost use Rattle.proof_text.specs.Told.{is_whole, PrintsAs};
ghost use Rattle.log_text.specs.Told.{events_told, TornOn, Goes};
ghost use Rattle.log_text.specs.Lines.{lines_told, TornTidyOn, GoesByLines};

use crate::print::{put_event, put_tidy};
use cx_base::LogEvent;
use cx_desk::{Desk, Failed, Port, Unwritten};
use step_text::pieces::LineSheet;
use step_text::{Sink, SinkFault, Unmade};

/// A sink that prints each event and each tidy line on the Proof port of a lent desk at once. It takes no memory. A line that would
/// go nowhere is not laid out.
///
/// It tells the events and the tidy lines of the port's whole lines. It counts one fault at most: it is not asked again after that.
#[derive(Drop)]
pub struct DeskLog<'a, D: Desk> {
    desk: &'a mut D,
    /// For its memory alone.
    sheet: LineSheet,
    failed: bool,
    // between two events no line is begun
    ghost whole: { failed ≡ false → is_whole (D.outside desk.now) ≡ true },
}

impl<'a, D: Desk> DeskLog<'a, D> {
    /// A sink over a desk on whose Proof port no line is begun.
    pub fn new(desk: &'a mut D) -> DeskLog<'a, D>
        requires { is_whole (D.outside desk.old) ≡ true }
        ensures same_desk { result.desk.ghost_name ≡ desk.entry.ghost_name }
        ensures outside { D.outside result.desk.now ≡ D.outside desk.entry.now }
        ensures whole { result.failed ≡ false }
    {
        DeskLog {
            desk,
            sheet: LineSheet::new(),
            failed: false,
        }
    }
}

impl<D: Desk> Sink for DeskLog<'_, D> {
    type Item = LogEvent;

    ghost use Rattle.std.specs.Prelude.{◌≡◌, refl};
    ghost use Rattle.std.proofs.Common.{◌∙◌};
    ghost use Rattle.proof_text.specs.Told.{fault_of};
    ghost use Rattle.log_text.specs.Told.{events_told, TornOn, Goes};
    ghost use Rattle.log_text.specs.ToldEvents.{goes_itself, goes_on};
    ghost use Rattle.log_text.specs.Lines.{lines_told, TornTidyOn, GoesByLines};
    ghost use Rattle.log_text.specs.ToldLines.{are_items, gains_items, goes_by_lines, goes_on_by_lines};

    ghost items = { λ s. events_told (D.outside s.desk.now) };

    ghost faults = { λ s. fault_of s.failed };

    ghost has_failed = { λ s. s.failed };

    ghost torn = { λ s event. TornOn event (D.outside s.desk.now) };

    ghost lines = { λ s. lines_told (D.outside s.desk.now) };

    ghost torn_tidy = { λ s r. TornTidyOn r (D.outside s.desk.now) };

    ghost keeps = { λ a b. (b.desk.ghost_name ≡ a.desk.ghost_name) × Goes a.failed (D.outside a.desk.now) b.failed (D.outside b.desk.now) };

    ghost keeps_else = { λ a b. (b.desk.ghost_name ≡ a.desk.ghost_name) × GoesByLines a.failed (D.outside a.desk.now) b.failed (D.outside b.desk.now) };

    /// Prints the event. `Memory` is never answered.
    fn put(&mut self, event: &LogEvent) -> Result<(), SinkFault>
        requires text { HasText event.now }
        requires going { self.old.failed ≡ false }
        ensures told { OnOk result (events_told (D.outside self.new.desk.now) ≡ with_next event.now (events_told (D.outside self.old.desk.now))) }
        ensures same { OnErr result (events_told (D.outside self.new.desk.now) ≡ events_told (D.outside self.old.desk.now)) }
        ensures torn { OnFailed result (TornOn event.now (D.outside self.new.desk.now)) }
        ensures answers { PrintsAs result self.old.failed self.new.failed }
        ensures frame { (self.new.desk.ghost_name ≡ self.old.desk.ghost_name) × Goes self.old.failed (D.outside self.old.desk.now) self.new.failed (D.outside self.new.desk.now) }
    {
        self.failed = true;
        match put_event(&mut self.sheet, self.desk, Port::Proof, event) {
            Ok(()) => {
                self.failed = false;
                Ok(())
            }
            Err(Failed) => Err(SinkFault::Failed),
        }
    }

    /// The port may take the lines of the events where these need not be laid out.
    fn take_unmade<E: Unmade<LogEvent>>(&mut self, unmade: &E) -> bool {
        self.desk
            .take_unwritten(Port::Proof, &Unwritten::of(unmade))
    }

    /// Prints the line `c tidy R`. `Memory` is never answered.
    fn tidied(&mut self, restart: u64) -> Result<(), SinkFault>
        requires going { self.old.failed ≡ false }
        ensures same { events_told (D.outside self.new.desk.now) ≡ events_told (D.outside self.old.desk.now) }
        ensures told { OnOk result (lines_told (D.outside self.new.desk.now) ≡ with_tidy restart (lines_told (D.outside self.old.desk.now))) }
        ensures untold { OnErr result (lines_told (D.outside self.new.desk.now) ≡ lines_told (D.outside self.old.desk.now)) }
        ensures torn { OnFailed result (TornTidyOn restart (D.outside self.new.desk.now)) }
        ensures answers { PrintsAs result self.old.failed self.new.failed }
        ensures frame { (self.new.desk.ghost_name ≡ self.old.desk.ghost_name) × GoesByLines self.old.failed (D.outside self.old.desk.now) self.new.failed (D.outside self.new.desk.now) }
    {
        self.failed = true;
        match put_tidy(self.desk, Port::Proof, restart) {
            Ok(()) => {
                self.failed = false;
                Ok(())
            }
            Err(Failed) => Err(SinkFault::Failed),
        }
    }

    ghost are_items = { λ a. are_items (D.outside a.desk.now) };

    ghost gains_items = { λ a b h. gains_items a.failed (D.outside a.desk.now) b.failed (D.outside b.desk.now) a.whole h.1 };

    ghost keeps_itself = { λ a. (refl, goes_itself a.failed (D.outside a.desk.now)) };

    ghost keeps_on = { λ a b c h k. (k.0 ∙ h.0, goes_on a.failed (D.outside a.desk.now) b.failed (D.outside b.desk.now) c.failed (D.outside c.desk.now) h.1 k.1) };

    ghost items_keep_else = { λ a b h. (h.0, goes_by_lines a.failed (D.outside a.desk.now) b.failed (D.outside b.desk.now) h.1) };

    ghost keeps_else_on = { λ a b c h k. (k.0 ∙ h.0, goes_on_by_lines a.failed (D.outside a.desk.now) b.failed (D.outside b.desk.now) c.failed (D.outside c.desk.now) h.1 k.1) };
}
