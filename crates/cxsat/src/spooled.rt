//! A run over a desk in front of which the proof waits in a spool.
ghost use Rattle.std.specs.Prelude.{IfOk};
ghost use Rattle.cx_words.specs.Words.{texts};
ghost use Rattle.solve_cli.specs.Commands.{Unasked};
ghost use Rattle.solve_cli.specs.Steps.{HasNoProof};
ghost use Rattle.cxsat.specs.Spooled.{RunsSpooled};

use cx_desk::{Desk, Failed, Spool};
use solve_cli::{Status, run};
use std::alloc::{AllocError, Global};

/// What a run over a desk left: the status, the desk, and whether all that waited at the end was written.
#[derive(Drop)]
pub struct Ended<D> {
    pub status: Status,
    pub desk: D,
    pub written: Result<(), Failed>,
}

/// All that the program does, and at the end what waits of the proof is written. The status is that of the run, also where this
/// last write fails: nothing waits after an answer, so only a message was told then.
pub fn run_spooled<D: Desk + Drop>(
    alloc: Global,
    words: Vec<String>,
    desk: D,
) -> Result<Ended<D>, AllocError>
    requires fresh { Unasked (D.outside desk).asked }
    requires empty { HasNoProof (D.outside desk) }
    ensures { IfOk result (RunsSpooled D.outside (texts words.items) (D.outside desk)) }
{
    let mut spool = Spool::new(alloc, desk)?;
    let status = run(alloc, words, &mut spool);
    let (desk, written) = spool.finish();
    Ok(Ended {
        status,
        desk,
        written,
    })
}
