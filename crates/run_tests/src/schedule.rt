//! The search follows its schedule, as its log shows: clauses are deleted just after the conflicts where a restart is due
//! and many are learned.
use crate::desk::Ended;
use crate::expecting::expect;
use crate::pigeons::run_over_pigeons;
use std::alloc::{AllocError, Global};

/// Counted conflicts, in hundreds up to 50, after which a restart is due: the sums of the sequence of Luby, Sinclair and
/// Zuckerman, 1 1 2 1 1 2 4 1 1 2 1 1 2 4 8 and so on.
pub(crate) static RESTARTS: [u64; 27] = [
    1, 2, 4, 5, 6, 8, 12, 13, 14, 16, 17, 18, 20, 24, 32, 33, 34, 36, 37, 38, 40, 44, 45, 46, 48,
    49, 50,
];

/// What a log without parities told up to some line.
#[derive(Drop)]
struct Told {
    conflicts: u64,
    /// Whether the next added clause is the one that the last conflict taught.
    learns: bool,
    /// Learned clauses of two literals and more that are not deleted, as they were at the last mark.
    live: u64,
    /// Clauses that were deleted since the last mark.
    deleted: u64,
    reductions: u64,
}

impl Told {
    /// Whether many learned clauses are live where a restart is due.
    fn is_due(&self) -> bool {
        self.conflicts % 100 == 0
            && RESTARTS.contains(&(self.conflicts / 100))
            && self.live / 500 >= self.reductions.saturating_add(4)
    }

    /// Whether clauses were deleted after the last conflict exactly where that is due, and at most half of them.
    fn follows(&self) -> bool {
        if self.is_due() {
            self.deleted > 0 && self.deleted <= self.live / 2
        } else {
            self.deleted == 0
        }
    }

    /// Takes in a mark.
    fn mark(&mut self) {
        if self.deleted > 0 {
            self.reductions = self.reductions.saturating_add(1);
            self.live = self.live.saturating_sub(self.deleted);
        }
        self.conflicts = self.conflicts.saturating_add(1);
        self.learns = true;
        self.deleted = 0;
    }

    /// Takes in a step.
    fn step(&mut self, line: &str) {
        if line.starts_with("d ") {
            self.deleted = self.deleted.saturating_add(1);
        } else if line.starts_with("a ") && self.learns {
            self.learns = false;
            // a unit clause, as `a 90 -3 0 l ..`, is not kept among the others
            if line.split(' ').nth(3) != Some("0") {
                self.live = self.live.saturating_add(1);
            }
        }
    }
}

/// Takes in a line of a log. Whether the search followed its schedule up to there.
fn follows_line(told: &mut Told, line: &str) -> bool {
    if line.starts_with("c conflict ") {
        let follows = told.follows();
        told.mark();
        return follows;
    }
    told.step(line);
    true
}

/// Takes in a log, up to a mark at which the search does not follow its schedule, if there is one. Whether there is none.
fn follows_all(told: &mut Told, log: &str) -> bool {
    for line in log.split('\n') {
        if !follows_line(told, line) {
            return false;
        }
    }
    true
}

/// Whether the log tells that the search follows its schedule, of how many conflicts, and whether of many reductions.
fn told_of(log: &str) -> (bool, u64, bool) {
    let mut told = Told {
        conflicts: 0,
        learns: false,
        live: 0,
        deleted: 0,
        reductions: 0,
    };
    let follows = follows_all(&mut told, log);
    (follows, told.conflicts, told.reductions >= 2)
}

/// As `told_of`, of a search whose budget is spent.
fn told_when_spent(alloc: Global, solved: &Ended) -> Result<(bool, u64, bool), AllocError> {
    if solved.status != 0 {
        return Ok((false, 0, false));
    }
    let log = String::from_utf8_lossy(alloc, solved.proof())?;
    Ok(told_of(log.as_str()))
}

static LINE: [&str; 7] = ["cxsat", "solve", "f", "--proof", "l", "--conflicts", "5000"];

/// As `told_when_spent`, of a search over pigeonholes with a budget of 5,000 conflicts.
fn told_of_pigeons(alloc: Global, holes: u8) -> Result<(bool, u64, bool), AllocError> {
    let solved = run_over_pigeons(alloc, holes, &LINE)?;
    told_when_spent(alloc, &solved)
}

#[test]
fn clauses_are_deleted_where_many_are_learned_at_a_restart(rt: HostRuntime) {
    expect(&rt, told_of_pigeons(rt.alloc(), 10), &(true, 5000, true));
}
