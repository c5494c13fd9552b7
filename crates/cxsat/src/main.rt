//! The program: the real desk, the words, and the status.
#![tactic(auto)]

mod spooled;

use cx_system::RealDesk;
use solve_cli::Status;
use spooled::run_spooled;
use std::alloc::{AllocError, Global};
use std::io::ErrorKind;
use std::process::ExitCode;
use std::{env, io};

/// The words that the program was called with.
fn words(alloc: Global, rt: &HostRuntime) -> Result<Vec<String>, AllocError> {
    let args = match env::args(rt) {
        Ok(args) => args,
        Err(error) => {
            return match error.kind() {
                ErrorKind::OutOfMemory => Err(AllocError),
                // Words that are no text are a faulty command line, as no words are.
                _ => Ok(Vec::new(alloc)),
            };
        }
    };
    let mut words = Vec::new(alloc);
    for word in args {
        words.push(word)?;
    }
    Ok(words)
}

/// The status of a run over the real desk.
fn status(rt: HostRuntime) -> Result<Status, AllocError> {
    let alloc = rt.alloc();
    let words = words(alloc, &rt)?;
    let ended = run_spooled(alloc, words, RealDesk::new(rt))?;
    Ok(ended.status)
}

fn main(rt: HostRuntime) -> io::Result<ExitCode> {
    let status = match status(rt) {
        Ok(status) => status,
        Err(AllocError) => Status::OutOfMemory,
    };
    Ok(ExitCode::from(status.code()))
}
