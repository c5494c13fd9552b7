//! Telling the log.
ghost use Rattle.std.specs.Prelude.{◌≡◌, false, [], ◌∷◌};
ghost use Rattle.std.specs.List.{AllByRecursion};
ghost use Rattle.cx_base.specs.declared.steps.LogEvent.TheVariants.{Step};
ghost use Rattle.cx_texts.specs.Printed.{HasText};
ghost use Rattle.clause_tidy.specs.Telling.{TellsIn, IsTellable, as_events};

use cx_base::{LogEvent, LogStep};
use step_text::{Sink, SinkFault};

/// Puts one event into the sink.
fn put_event<L: Sink<Item = LogEvent>>(log: &mut L, event: &LogEvent) -> Result<(), SinkFault>
    requires text { HasText event.now }
    requires going { L.has_failed log.old ≡ false }
    ensures { TellsIn L.Sink (event.now ∷ []) log.old result log.new }
{
    match log.put(event) {
        Ok(()) => Ok(()),
        Err(fault) => Err(fault),
    }
}

/// Tells one event.
fn tell<L: Sink<Item = LogEvent>>(log: &mut L, event: LogEvent) -> Result<(), SinkFault>
    requires text { HasText event }
    requires going { L.has_failed log.old ≡ false }
    ensures { TellsIn L.Sink (event ∷ []) log.old result log.new }
{
    let told = put_event(log, &event);
    // By a call, since in place each list that an event may have is a step of the proof.
    drop(event);
    told
}

/// Tells one step.
pub(crate) fn tell_one<L: Sink<Item = LogEvent>>(
    log: &mut L,
    step: LogStep,
) -> Result<(), SinkFault>
    requires text { IsTellable step }
    requires going { L.has_failed log.old ≡ false }
    ensures { TellsIn L.Sink (Step step ∷ []) log.old result log.new }
{
    tell(log, LogEvent::Step(step))
}

/// Tells these steps, one after another, up to a fault.
pub(crate) fn tell_all<L: Sink<Item = LogEvent>>(
    log: &mut L,
    steps: Vec<LogStep>,
) -> Result<(), SinkFault>
    requires texts { AllByRecursion IsTellable steps.items }
    requires going { L.has_failed log.old ≡ false }
    ensures { TellsIn L.Sink (as_events steps.items) log.old result log.new }
{
    for step in steps {
        match tell_one(log, step) {
            Ok(()) => {}
            Err(fault) => return Err(fault),
        }
    }
    Ok(())
}
