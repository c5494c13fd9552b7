//! The steps of a kept log, given one after another.
ghost use Rattle.std.specs.Prelude.{◌≡◌, ◌<◌, ◌^◌, [], ◌++◌, length, None};
ghost use Rattle.std.specs.Option.{option_to_list};
ghost use Rattle.std.specs.Vec.Iter.{into_iter_items, into_iter_len};
ghost use Rattle.cx_base.specs.Events.{steps_of};
ghost use Rattle.step_text.specs.Lists.{StepsLeft};

use cx_base::{LogEvent, LogStep};
use std::marker::Model;
use std::vec::IntoIter;
use step_text::{SpareLists, StepSource, TextRefusal};

/// The steps of a list of events, by moves, in order. Marks are passed over. It has no limit and never refuses.
///
/// Its place is the number of steps that it gave.
#[derive(Drop)]
pub struct LogList {
    events: IntoIter<LogEvent>,
    given: u64,
}

impl Model for LogList {
    ghost use Rattle.std.specs.Prelude.{◌≡◌, ◌+◌, ◌^◌, ◌<◌, length};
    ghost use Rattle.std.specs.Vec.Iter.{into_iter_items, into_iter_len};
    ghost use Rattle.cx_base.specs.declared.steps.LogStep.{LogStep};
    ghost use Rattle.cx_base.specs.Events.{steps_of};
    ghost use Rattle.step_text.specs.Lists.{StepsLeft};

    ghost Value = { StepsLeft LogStep };

    ghost view = { λ l. record { steps = steps_of (into_iter_items l.events); given = l.given } };

    ghost invariant = { λ l. (into_iter_len l.events ≡ length (into_iter_items l.events)) × (l.given + length (steps_of (into_iter_items l.events)) < 2 ^ 62) };
}

/// The next step, after the marks before it.
fn next_of(events: &mut IntoIter<LogEvent>) -> Option<LogStep>
    requires len { into_iter_len events.old ≡ length (into_iter_items events.old) }
    ensures len { into_iter_len events.new ≡ length (into_iter_items events.new) }
    ensures steps { steps_of (into_iter_items events.old) ≡ option_to_list result ++ steps_of (into_iter_items events.new) }
    ensures none { result ≡ None → steps_of (into_iter_items events.new) ≡ [] }
{
    while let Some(event) = events.next() {
        if let LogEvent::Step(step) = event {
            return Some(step);
        }
    }
    None
}

impl LogList {
    /// The steps of a list of fewer than 2^62 events.
    #[tactic(auto, using(crate::proofs::EventLists::steps_are_no_more))]
    pub(crate) fn of(events: Vec<LogEvent>) -> LogList
        requires { length events.items < 2 ^ 62 }
        ensures { result ≡ record { steps = steps_of events.items; given = 0 } }
    {
        LogList {
            events: events.into_iter(),
            given: 0,
        }
    }
}

impl StepSource for LogList {
    type Step = LogStep;

    ghost use Rattle.std.specs.Prelude.{None, Some, false, refl, ⊤, []};
    ghost use Rattle.cx_base.specs.Endings.{finished};
    ghost use Rattle.step_text.specs.Lists.{LeavesList, last_place, GaveFront};
    ghost use Rattle.step_text.specs.ListLaws.{gave_nothing, gave_on};

    ghost may_read = { λ _ _. ⊤ };

    ghost leaves = { λ l _. LeavesList l };

    ghost passes_limit = { λ _ _. Some false };

    ghost is_spent = { λ _. false };

    ghost stuck = { λ _. None };

    ghost faults = { λ _. 0 };

    ghost place_of = { λ l. l.given };

    ghost farthest = { last_place };

    ghost keeps = { GaveFront };

    fn next_step(&mut self, _spare: &mut SpareLists) -> Result<Option<LogStep>, TextRefusal> {
        match next_of(&mut self.events) {
            Some(step) => {
                self.given += 1;
                Ok(Some(step))
            }
            None => Ok(None),
        }
    }

    fn place(&self) -> u64 {
        self.given
    }

    ghost has_text = { λ _. ([], tt) };

    ghost leaves_some = { λ l _ _. (l.steps, finished, (refl, refl)) };

    ghost keeps_itself = { gave_nothing };

    ghost keeps_on = { gave_on };
}
