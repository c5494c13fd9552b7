//! The demonstration: a planted instance is solved, and what the search answers is shown to be so.
ghost use Rattle.std.specs.Prelude.{◌≡◌, IfOk};
ghost use Rattle.cx_base.specs.Endings.{finished};
ghost use Rattle.cx_semantics.specs.Judging.{JudgedAs};
ghost use Rattle.cx_texts.specs.LogText.{LogReads};
ghost use Rattle.cx_base.specs.Events.{steps_of};
ghost use Rattle.cx_texts.specs.Printed.{printed_log, printed_proof};
ghost use Rattle.cx_texts.specs.ProofText.{ProofReads};
ghost use Rattle.cx_semantics.specs.ProofRules.{proof_calculus};
ghost use Rattle.inst_gen.specs.Planting.{planted_formula};
ghost use Rattle.xlrup_check.specs.Verdicts.{judgement_of};
ghost use Rattle.solve_cli.specs.Demo.{demo_options, instance_of, IsProofOfLog, IsVerifiedLog, Stands};
ghost use Rattle.solve_cli.specs.Logs.{IsRefutation};
ghost use Rattle.solve_cli.specs.Solving.{ComesTo};

use crate::{Ending, Instance, Shown};
use cx_base::Formula;
use cx_words::InstanceKind;
use fratx_elab::{Elab, ElabFault, Joined, elaborate};
use log_text::ListLog;
use proof_text::ListProof;
use std::alloc::{AllocError, Global};
use xlrup_check::{Fault, Verdict, check};

/// The conflicts at which the search stops.
pub(crate) const BUDGET: u64 = 1_000_000_000_000_000_000;

/// What is printed of an instance.
pub(crate) fn instance_of(formula: &Formula, kind: InstanceKind, size: u32, seed: u64) -> Instance
    requires { formula.now ≡ planted_formula kind size seed }
    ensures { result ≡ instance_of kind size seed }
{
    Instance {
        kind,
        size,
        seed,
        variables: formula.vars(),
        clauses: formula.clause_count() as u64,
        parities: formula.parity_count() as u64,
    }
}

/// The proof from a log that refutes the formula.
fn prove(alloc: Global, formula: &Formula, log: ListLog) -> Result<ListProof, AllocError>
    requires { IsRefutation formula.now (printed_log log) }
    ensures proof { IfOk result (IsProofOfLog formula.now (steps_of log)) }
    ensures reads { LogReads (printed_log log) (steps_of log) finished }
{
    let mut ends = Joined {
        source: log.into_steps(),
        sink: ListProof::make(alloc),
    };
    match elaborate(alloc, formula, &mut ends) {
        Ok(Elab::Done(_)) => Ok(ends.sink),
        Ok(Elab::Refused(_, _)) => unreachable!(),
        Err(ElabFault::Memory) => Err(AllocError),
        Err(ElabFault::Read) => unreachable!(),
        Err(ElabFault::Write) => unreachable!(),
        Err(ElabFault::TooLong) => unreachable!(),
    }
}

/// Judges a proof that is kept.
fn judge(alloc: Global, formula: &Formula, proof: ListProof) -> Result<Verdict, AllocError>
    ensures judged { IfOk result (λ v. JudgedAs (proof_calculus formula.now) proof finished (judgement_of v)) }
    ensures reads { ProofReads (printed_proof proof) proof finished }
{
    let mut steps = proof.into_steps();
    match check(alloc, formula, &mut steps) {
        Ok(verdict) => Ok(verdict),
        Err(Fault::Memory) => Err(AllocError),
        Err(Fault::Read) => unreachable!(),
        Err(Fault::TooLong) => unreachable!(),
    }
}

/// Elaborates a log that refutes the formula, and checks the proof.
fn refute(alloc: Global, formula: &Formula, log: ListLog) -> Result<Shown, AllocError>
    requires { IsRefutation formula.now (printed_log log) }
    ensures verified { IfOk result (λ s. s ≡ Shown.Verified) }
    ensures proof { IfOk result (λ _. IsVerifiedLog formula.now (printed_log log)) }
{
    let proof = prove(alloc, formula, log)?;
    match judge(alloc, formula, proof)? {
        Verdict::Verified(_) => Ok(Shown::Verified),
        Verdict::Refused(_, _) => unreachable!(),
    }
}

/// Shows that what the search answered is so.
pub(crate) fn show(
    alloc: Global,
    formula: &Formula,
    found: Ending,
    log: ListLog,
) -> Result<Shown, AllocError>
    requires { ComesTo formula.now demo_options (printed_log log) found }
    ensures { IfOk result (Stands formula.now (printed_log log)) }
{
    match found {
        Ending::Satisfiable(values) => {
            if formula.meets(values.as_slice()) {
                Ok(Shown::Meet)
            } else {
                unreachable!()
            }
        }
        Ending::Unsatisfiable(_) => refute(alloc, formula, log),
        Ending::Unknown(_) => Ok(Shown::Unknown),
        _ => unreachable!(),
    }
}
