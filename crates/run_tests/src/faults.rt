//! Runs whose calls of the desk fail, one or all from some number on, and runs over a text without an end.
use crate::desk::{AMPLE, Ended, Failing, Task, run_failing, status_over};
use crate::elab::SQUARE_LOG;
use crate::expecting::{Case, expect, expect_all, run_task};
use crate::formulas::{SQUARE, TRIANGLE};
use cx_desk::RepeatDesk;
use std::alloc::{AllocError, Global};

/// A task whose calls fail in turn, and the status of its run where none does.
pub(crate) struct InTurn {
    pub task: Task<'static>,
    pub status: u8,
}

static TASKS: [InTurn; 5] = [
    InTurn {
        task: Task {
            line: &["cxsat", "solve", "f"],
            formula: "p cnf 2 2\nx1 2 0\n1 0\n",
            second: "",
        },
        status: 10,
    },
    InTurn {
        task: Task {
            line: &["cxsat", "solve", "f", "--proof", "l"],
            formula: TRIANGLE,
            second: "",
        },
        status: 20,
    },
    InTurn {
        task: Task {
            line: &["cxsat", "check", "f", "s"],
            formula: SQUARE,
            second: "5 2 0 1 2 0\n6 0 5 3 4 0\n",
        },
        status: 0,
    },
    InTurn {
        task: Task {
            line: &["cxsat", "elab", "f", "s", "p"],
            formula: SQUARE,
            second: SQUARE_LOG,
        },
        status: 0,
    },
    InTurn {
        task: Task {
            line: &["cxsat", "check", "f", "s"],
            formula: "p cnf 2 1\n1 2",
            second: "",
        },
        status: 3,
    },
];

/// What a run leaves is a prefix of what the whole run leaves.
fn is_front(part: &[u8], whole: &[u8]) -> bool {
    whole.starts_with(part)
}

/// What is wrong with a run some call of which failed to read.
fn fault_of_reading(failed: &Ended) -> &'static str {
    if failed.status != 4 {
        return "status";
    }
    if failed.answer().is_empty() {
        ""
    } else {
        "answer"
    }
}

/// What is wrong with a run some call of which failed to write, beside the one where none did.
fn fault_of_writing(failed: &Ended, whole: &Ended) -> &'static str {
    if failed.status != 5 {
        return "status";
    }
    if failed.answer().len() >= whole.answer().len() {
        return "answer is whole";
    }
    if failed.proof() == whole.proof() || failed.answer().is_empty() {
        ""
    } else {
        "proof"
    }
}

/// What is wrong with a run that failed to tell at most, beside the one where no call failed.
fn fault_of_telling(failed: &Ended, whole: &Ended) -> &'static str {
    if failed.status != whole.status {
        return "status";
    }
    if is_front(failed.message(), whole.message()) {
        ""
    } else {
        "message"
    }
}

/// What is wrong with a run some of whose calls failed, beside the one where none did. Empty where nothing is.
fn fault(failed: &Ended, whole: &Ended) -> &'static str {
    if !is_front(failed.proof(), whole.proof()) {
        return "proof is no front";
    }
    if !is_front(failed.answer(), whole.answer()) {
        return "answer is no front";
    }
    if failed.failed_to_read {
        return fault_of_reading(failed);
    }
    if failed.failed_to_write {
        return fault_of_writing(failed, whole);
    }
    fault_of_telling(failed, whole)
}

/// Whether a call of the run failed.
fn has_failed(run: &Ended) -> bool {
    run.failed_to_read || run.failed_to_write || run.failed_to_tell
}

/// Writes what is wrong with a run some of whose calls failed, beside the one where none did.
fn put_fault_of(
    faults: &mut String,
    failing: Failing,
    failed: &Ended,
    whole: &Ended,
) -> Result<(), AllocError> {
    let fault = fault(failed, whole);
    if fault.is_empty() {
        return Ok(());
    }
    let (calls, call) = match failing {
        Failing::Once(call) => ("call", call),
        Failing::FromThereOn(call) => ("calls from", call),
    };
    writeln!(faults, "{calls} {call}: {fault}, status {}", failed.status)
}

/// Lets calls of a task fail. Writes what is wrong then. Says whether a call failed.
fn put_fault(
    alloc: Global,
    faults: &mut String,
    task: Task,
    failing: Failing,
    whole: &Ended,
) -> Result<bool, AllocError> {
    let failed = run_failing(alloc, task, failing)?;
    put_fault_of(faults, failing, &failed, whole)?;
    Ok(has_failed(&failed))
}

/// Lets a call of a task fail, once and for good. Says whether there is such a call.
fn put_faults_at(
    alloc: Global,
    faults: &mut String,
    task: Task,
    call: u64,
    whole: &Ended,
) -> Result<bool, AllocError> {
    let once = put_fault(alloc, faults, task, Failing::Once(call), whole)?;
    let fused = put_fault(alloc, faults, task, Failing::FromThereOn(call), whole)?;
    if fused && !once {
        faults.push_str("a later call failed alone\n")?;
    }
    Ok(once)
}

/// Lets the calls of a task fail in turn, until a run makes fewer calls. Says how many failed.
fn fail_in_turn(
    alloc: Global,
    faults: &mut String,
    task: Task,
    whole: &Ended,
) -> Result<u64, AllocError> {
    for call in 1..1000 {
        if !put_faults_at(alloc, faults, task, call, whole)? {
            return Ok(call - 1);
        }
    }
    Ok(1000)
}

/// As `fail_in_turn`, beside the whole run, which is to end with this status and to make some calls.
fn put_faults_beside(
    alloc: Global,
    faults: &mut String,
    case: &InTurn,
    whole: &Ended,
) -> Result<(), AllocError> {
    if whole.status != case.status {
        faults.push_str("another status of the whole run\n")?;
    }
    let calls = fail_in_turn(alloc, faults, case.task, whole)?;
    if calls > 5 && calls < 1000 {
        return Ok(());
    }
    writeln!(faults, "{calls} calls")
}

impl Case for InTurn {
    fn put_other(&self, alloc: Global, others: &mut String) -> Result<(), AllocError> {
        let whole = run_task(alloc, self.task, AMPLE)?;
        put_faults_beside(alloc, others, self, &whole)
    }
}

#[test]
fn each_call_fails_in_turn(rt: HostRuntime) {
    expect_all(&rt, &TASKS);
}

static CHECK: [&str; 4] = ["cxsat", "check", "f", "s"];

/// The status of the check of a text without an end, and whether at most 101 bytes are read of it.
fn read_endless(alloc: Global) -> Result<(u8, bool), AllocError> {
    let mut desk = RepeatDesk::make(b' ');
    let status = status_over(alloc, &CHECK, 100, &mut desk)?;
    Ok((status, desk.taken() <= 101))
}

#[test]
fn an_endless_text_is_too_long(rt: HostRuntime) {
    expect(&rt, read_endless(rt.alloc()), &(9, true));
}
