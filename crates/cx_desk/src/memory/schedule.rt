//! Which calls of a desk in memory fail, and how many bytes one of them moves at most.
ghost use Rattle.std.specs.Prelude.{◌≡◌, ◌≤◌};

/// Counts the calls, and holds the numbers of those that fail.
#[derive(Drop)]
pub(super) struct FaultSchedule {
    calls: u64,
    failing: Vec<u64>,
    /// All calls after this many fail.
    passes: Option<u64>,
    pub(super) piece: usize,
    ghost moves_some: { 1 ≤ piece },
}

impl FaultSchedule {
    ghost use Rattle.cx_base.specs.Counts.{count_after};
    ghost use Rattle.std.specs.Prelude.{◌||◌};
    ghost use Rattle.cx_desk.specs.Schedule.{is_failing, is_past};

    pub(super) fn new(failing: Vec<u64>, passes: Option<u64>, piece: usize) -> Self
        requires { 1 ≤ piece }
        ensures calls { result.calls ≡ 0 }
        ensures failing { result.failing.items ≡ failing.items }
        ensures passes { result.passes ≡ passes }
        ensures piece { result.piece ≡ piece }
    {
        FaultSchedule {
            calls: 0,
            failing,
            passes,
            piece,
        }
    }

    /// Counts a call, and says whether it fails.
    pub(super) fn next_fails(&mut self) -> bool
        ensures answer { result ≡ (is_failing self.new.calls self.old.failing.items || is_past self.new.calls self.old.passes) }
        ensures calls { self.new.calls ≡ count_after self.old.calls }
        ensures failing { self.new.failing.items ≡ self.old.failing.items }
        ensures passes { self.new.passes ≡ self.old.passes }
        ensures piece { self.new.piece ≡ self.old.piece }
    {
        self.calls = self.calls.saturating_add(1);
        let is_past = match self.passes {
            Some(passes) => self.calls > passes,
            None => false,
        };
        self.failing.contains(&self.calls) || is_past
    }
}
