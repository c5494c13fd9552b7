//! Telling the log. Nothing else of the search tells its sink anything, but for a tidying at a restart.
ghost use Rattle.std.specs.Prelude.{◌≡◌, false, [], ◌∷◌};
ghost use Rattle.std.specs.List.{AllByRecursion};
ghost use Rattle.cx_base.specs.declared.steps.LogEvent.TheVariants.{Step, Conflict};
ghost use Rattle.search_steps.specs.Recovering.{SettledWithRecovered};
ghost use Rattle.cdcl_search.specs.Calls.{TellsIn, Tells, TellsUnmade};
ghost use Rattle.cdcl_search.specs.Logs.{HasNotFailed, IsRightBehind};
ghost use Rattle.cx_texts.specs.Printed.{HasText};
ghost use Rattle.cdcl_search.specs.Tells.{as_events, fault_as, AreTellable, IsTellable};

use crate::logs::SearchLog;
use conflict_learn::CoreFault;
use cx_base::{LogEvent, LogStep};
use step_text::{Sink, SinkFault, Unmade};

/// The search's word for a sink's fault.
pub fn fault_of(fault: SinkFault) -> CoreFault
    ensures { result ≡ fault_as fault }
{
    match fault {
        SinkFault::Memory => CoreFault::Memory,
        SinkFault::Failed => CoreFault::Write,
    }
}

/// Puts one event into the sink.
fn put_event<L: Sink<Item = LogEvent>>(sink: &mut L, event: &LogEvent) -> Result<(), CoreFault>
    requires text { HasText event.now }
    requires going { L.has_failed sink.old ≡ false }
    ensures { TellsIn L.Sink (event.now ∷ []) sink.old result sink.new }
{
    match sink.put(event) {
        Ok(()) => Ok(()),
        Err(fault) => Err(fault_of(fault)),
    }
}

/// Tells one event.
fn tell<L: Sink<Item = LogEvent>>(sink: &mut L, event: LogEvent) -> Result<(), CoreFault>
    requires text { HasText event }
    requires going { L.has_failed sink.old ≡ false }
    ensures { TellsIn L.Sink (event ∷ []) sink.old result sink.new }
{
    put_event(sink, &event)
}

/// Tells a step.
fn tell_one<L: Sink<Item = LogEvent>>(sink: &mut L, step: LogStep) -> Result<(), CoreFault>
    requires text { IsTellable step }
    requires going { L.has_failed sink.old ≡ false }
    ensures { TellsIn L.Sink (Step step ∷ []) sink.old result sink.new }
{
    tell(sink, LogEvent::Step(step))
}

/// Tells these steps, one after another, up to a fault.
fn tell_all<L: Sink<Item = LogEvent>>(sink: &mut L, steps: Vec<LogStep>) -> Result<(), CoreFault>
    requires texts { AllByRecursion IsTellable steps.items }
    requires going { L.has_failed sink.old ≡ false }
    ensures { TellsIn L.Sink (as_events steps.items) sink.old result sink.new }
{
    for step in steps {
        match tell_one(sink, step) {
            Ok(()) => {}
            Err(fault) => return Err(fault),
        }
    }
    Ok(())
}

/// Tells a mark.
fn tell_mark<L: Sink<Item = LogEvent>>(sink: &mut L, number: u64) -> Result<(), CoreFault>
    requires going { L.has_failed sink.old ≡ false }
    ensures { TellsIn L.Sink (Conflict number ∷ []) sink.old result sink.new }
{
    tell(sink, LogEvent::Conflict(number))
}

/// Tells a mark and the steps after it, up to a fault.
fn tell_marked<L: Sink<Item = LogEvent>>(
    sink: &mut L,
    number: u64,
    steps: Vec<LogStep>,
) -> Result<(), CoreFault>
    requires texts { AllByRecursion IsTellable steps.items }
    requires going { L.has_failed sink.old ≡ false }
    ensures { TellsIn L.Sink (Conflict number ∷ as_events steps.items) sink.old result sink.new }
{
    match tell_mark(sink, number) {
        Ok(()) => tell_all(sink, steps),
        Err(fault) => Err(fault),
    }
}

/// Tells this step, which leaves the log right.
pub fn tell_step<L: Sink<Item = LogEvent>>(
    log: &mut SearchLog<L>,
    step: LogStep,
) -> Result<(), CoreFault>
    requires text { IsTellable step }
    requires going { HasNotFailed L.Sink log.old }
    requires right { IsRightBehind L.Sink log.old (Step step ∷ []) }
    ensures { Tells L.Sink log.old (Step step ∷ []) result log.new }
{
    tell(log.sink, LogEvent::Step(step))
}

/// Tells events that are not made, where the sink takes them so, and says whether it did. They leave the log right.
pub fn tell_unmade<L: Sink<Item = LogEvent>, E: Unmade<LogEvent>>(
    log: &mut SearchLog<L>,
    unmade: &E,
) -> bool
    requires events { AreTellable log.old.formula.now (E.items unmade.now) }
    requires going { HasNotFailed L.Sink log.old }
    requires right { IsRightBehind L.Sink log.old (E.items unmade.now) }
    ensures { TellsUnmade L.Sink log.old (E.items unmade.now) result log.new }
{
    log.sink.take_unmade(unmade)
}

/// Tells these steps, which leave the log right.
pub fn tell_steps<L: Sink<Item = LogEvent>>(
    log: &mut SearchLog<L>,
    steps: Vec<LogStep>,
) -> Result<(), CoreFault>
    requires texts { AllByRecursion IsTellable steps.items }
    requires going { HasNotFailed L.Sink log.old }
    requires right { IsRightBehind L.Sink log.old (as_events steps.items) }
    ensures { Tells L.Sink log.old (as_events steps.items) result log.new }
{
    tell_all(log.sink, steps)
}

/// Tells the mark of a counted conflict and the steps after it, which leave the log right. A settled formula needs no
/// such conflict.
pub fn tell_round<L: Sink<Item = LogEvent>>(
    log: &mut SearchLog<L>,
    number: u64,
    steps: Vec<LogStep>,
) -> Result<(), CoreFault>
    requires texts { AllByRecursion IsTellable steps.items }
    requires going { HasNotFailed L.Sink log.old }
    requires right { IsRightBehind L.Sink log.old (Conflict number ∷ as_events steps.items) }
    requires unsettled { ¬ SettledWithRecovered log.old.formula.now }
    ensures { Tells L.Sink log.old (Conflict number ∷ as_events steps.items) result log.new }
{
    tell_marked(log.sink, number, steps)
}
