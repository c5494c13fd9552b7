//! `solve --inprocess` writes a tidy line for each restart, in time for the next mark.
use crate::expecting::expect;
use crate::pigeons::run_over_pigeons;
use crate::schedule::RESTARTS;
use std::alloc::{AllocError, Global};

/// The marks and the tidy lines of a log up to some line.
#[derive(Drop)]
struct Lines {
    conflicts: u64,
    tidied: usize,
}

/// The number in a line of three words.
fn number_in(line: &str) -> u64 {
    match line.split(' ').nth(2) {
        Some(text) => text.parse::<u64>().unwrap_or(0),
        None => 0,
    }
}

impl Lines {
    /// Whether a restart is due that has no tidy line yet.
    fn is_due(&self) -> bool {
        match RESTARTS.get(self.tidied) {
            Some(hundreds) => self.conflicts / 100 >= *hundreds,
            None => false,
        }
    }

    /// Takes in a mark. Whether no tidy line is missing before it.
    fn mark(&mut self) -> bool {
        let is_due = self.is_due();
        self.conflicts = self.conflicts.saturating_add(1);
        !is_due
    }

    /// Takes in a tidy line. Whether it is the next one, at its restart.
    fn tidy(&mut self, line: &str) -> bool {
        let is_due = self.is_due() && self.conflicts % 100 == 0;
        self.tidied = self.tidied.saturating_add(1);
        is_due && number_in(line) == self.tidied as u64
    }

    /// Takes in a line. Whether the tidy lines are in time so far.
    fn take(&mut self, line: &str) -> bool {
        if line.starts_with("c conflict ") {
            return self.mark();
        }
        if line.starts_with("c tidy ") {
            return self.tidy(line);
        }
        true
    }

    /// Takes in a log, up to a line that is out of time, if there is one. Whether there is none.
    fn take_all(&mut self, log: &str) -> bool {
        for line in log.split('\n') {
            if !self.take(line) {
                return false;
            }
        }
        true
    }
}

/// Whether the tidy lines of a log are in time, and how many marks and tidy lines there are.
fn told_of(alloc: Global, log: &[u8]) -> Result<(bool, u64, usize), AllocError> {
    let log = String::from_utf8_lossy(alloc, log)?;
    let mut lines = Lines {
        conflicts: 0,
        tidied: 0,
    };
    let in_time = lines.take_all(log.as_str());
    Ok((in_time, lines.conflicts, lines.tidied))
}

static LINE: [&str; 8] = [
    "cxsat",
    "solve",
    "--inprocess",
    "f",
    "--proof",
    "l",
    "--conflicts",
    "1000",
];

/// The status of a search of 1,000 conflicts over pigeonholes that tidies, and what `told_of` finds in its log.
fn tidied_pigeons(alloc: Global) -> Result<(u8, (bool, u64, usize)), AllocError> {
    let solved = run_over_pigeons(alloc, 10, &LINE)?;
    Ok((solved.status, told_of(alloc, solved.proof())?))
}

#[test]
fn each_restart_has_its_tidy_line(rt: HostRuntime) {
    expect(&rt, tidied_pigeons(rt.alloc()), &(0, (true, 1000, 6)));
}
