//! A log that is kept as a list.
ghost use Rattle.std.specs.Prelude.{◌≡◌, [], ◌∷◌, ◌++◌, IsOk, OnOk, OnErr, IfErr};
ghost use Rattle.std.specs.List.{AllByRecursion};
ghost use Rattle.cx_base.specs.declared.steps.LogEvent.TheVariants.{Step, Conflict};
ghost use Rattle.cx_base.specs.Endings.{finished};
ghost use Rattle.cx_texts.specs.LogText.{LogReads};
ghost use Rattle.cx_base.specs.Events.{steps_of};
ghost use Rattle.cx_texts.specs.Printed.{HasText, printed_log};
ghost use Rattle.step_text.specs.declared.sink.SinkFault.TheVariants.{Memory};

use crate::log_list::LogList;
use cx_base::LogEvent;
use std::alloc::Global;
use std::marker::Model;
use step_text::{Sink, SinkFault};

/// A sink that keeps the list of its events. It fails only where memory runs out.
#[derive(Drop)]
pub struct ListLog {
    events: Vec<LogEvent>,
}

impl Model for ListLog {
    ghost use Rattle.std.specs.Prelude.{List};
    ghost use Rattle.std.specs.List.{AllByRecursion};
    ghost use Rattle.cx_base.specs.declared.steps.LogEvent.{LogEvent};
    ghost use Rattle.cx_texts.specs.Printed.{HasText};

    ghost Value = { List LogEvent };

    ghost view = { λ a. a.events.items };

    ghost invariant = { λ a. AllByRecursion HasText a.events.items };
}

impl ListLog {
    /// A log with no event, which takes no memory yet.
    pub fn make(alloc: Global) -> ListLog
        ensures { result ≡ [] }
    {
        ListLog {
            events: Vec::new(alloc),
        }
    }

    /// The events in order. A text can have each of them.
    pub fn events(&self) -> &[LogEvent]
        ensures events { result.now ≡ self.now }
        ensures texts { AllByRecursion HasText self.now }
    {
        &self.events
    }

    /// The steps in order, by moves, as a source; the marks are passed over.
    ///
    /// It gives them as the log's printed text would.
    pub fn into_steps(self) -> LogList
        ensures steps { result ≡ record { steps = steps_of self; given = 0 } }
        ensures texts { AllByRecursion HasText self }
        ensures printed { LogReads (printed_log self) (steps_of self) finished }
    {
        LogList::of(self.events)
    }

    /// Adds an event.
    fn push(&mut self, event: LogEvent) -> Result<(), SinkFault>
        requires { HasText event }
        ensures told { OnOk result (self.new ≡ self.old ++ event ∷ []) }
        ensures same { OnErr result (self.new ≡ self.old) }
        ensures memory { IfErr result (λ e. e ≡ Memory) }
    {
        match self.events.push(event) {
            Ok(()) => Ok(()),
            Err(_) => Err(SinkFault::Memory),
        }
    }
}

impl Sink for ListLog {
    type Item = LogEvent;

    ghost use Rattle.std.specs.Prelude.{refl, Some, None, false};

    ghost items = { λ a. Some a };

    ghost faults = { λ _. 0 };

    ghost has_failed = { λ _. false };

    ghost torn = { λ _ _. ⊥ };

    ghost lines = { λ _. None };

    ghost torn_tidy = { λ _ _. ⊥ };

    ghost keeps = { λ _ _. Unit {0} };

    ghost keeps_else = { λ _ _. Unit {0} };

    /// Keeps a copy of the event.
    fn put(&mut self, event: &LogEvent) -> Result<(), SinkFault>
        requires text { HasText event.now }
        ensures kept { OnOk result (self.new ≡ self.old ++ event.now ∷ []) }
        ensures unchanged { OnErr result (self.new ≡ self.old) }
        ensures memory { IfErr result (λ e. e ≡ Memory) }
    {
        match event.clone() {
            Ok(copy) => self.push(copy),
            Err(_) => Err(SinkFault::Memory),
        }
    }

    /// Keeps nothing of the tidy line.
    fn tidied(&mut self, _restart: u64) -> Result<(), SinkFault>
        ensures never_fails { IsOk result }
        ensures unchanged { self.new ≡ self.old }
    {
        Ok(())
    }

    ghost are_items = { λ _. tt };

    ghost gains_items = { λ _ _ _. refl };

    ghost keeps_itself = { λ _. tt };

    ghost keeps_on = { λ _ _ _ _ _. tt };

    ghost items_keep_else = { λ _ _ _. tt };

    ghost keeps_else_on = { λ _ _ _ _ _. tt };
}
