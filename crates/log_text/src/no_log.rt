//! A log that is not kept.
ghost use Rattle.std.specs.Prelude.{◌≡◌, true, IsOk};
ghost use Rattle.std.specs.List.{AllByRecursion};
ghost use Rattle.cx_texts.specs.Printed.{HasText};

use cx_base::LogEvent;
use step_text::{Sink, SinkFault, Unmade};

/// A sink that forgets what it is given, and tells nothing. It takes no memory and never fails.
#[derive(Clone, Copy, Drop)]
pub struct NoLog;

impl Sink for NoLog {
    type Item = LogEvent;

    ghost use Rattle.std.specs.Prelude.{refl, None, false};

    ghost items = { λ _. None };

    ghost faults = { λ _. 0 };

    ghost has_failed = { λ _. false };

    ghost torn = { λ _ _. ⊥ };

    ghost lines = { λ _. None };

    ghost torn_tidy = { λ _ _. ⊥ };

    ghost keeps = { λ _ _. Unit {0} };

    ghost keeps_else = { λ _ _. Unit {0} };

    /// Forgets the event.
    fn put(&mut self, _event: &LogEvent) -> Result<(), SinkFault>
        requires text { HasText _event.now }
        ensures never_fails { IsOk result }
    {
        Ok(())
    }

    /// It tells nothing, so nothing needs to be made for it.
    fn take_unmade<E: Unmade<LogEvent>>(&mut self, _unmade: &E) -> bool
        requires texts { AllByRecursion HasText (E.items _unmade.now) }
        ensures always { result ≡ true }
    {
        true
    }

    /// Forgets the tidy line.
    fn tidied(&mut self, _restart: u64) -> Result<(), SinkFault>
        ensures never_fails { IsOk result }
    {
        Ok(())
    }

    ghost are_items = { λ _. tt };

    ghost gains_items = { λ _ _ _. refl };

    ghost keeps_itself = { λ _. tt };

    ghost keeps_on = { λ _ _ _ _ _. tt };

    ghost items_keep_else = { λ _ _ _. tt };

    ghost keeps_else_on = { λ _ _ _ _ _. tt };
}
