//! The heads of packed steps.
ghost use Rattle.std.specs.Prelude.{◌≡◌, ◌<◌, ◌≤◌, ◌+◌, length, get_or, pos, IfOk};
ghost use Rattle.proof_trim.specs.Heads.{code_of, deletes, head_of, kind_in, kind_of, literals_in};
ghost use Rattle.proof_trim.specs.Integers.{unsigned};

use crate::integers::Integers;
use std::alloc::AllocError;

/// The kinds of steps.
#[derive(Clone, Copy, Drop)]
pub(crate) enum StepKind {
    Clause,
    DeleteClauses,
    Parity,
    DeleteParities,
    ClauseOfParity,
    ParityOfClauses,
}

/// The number of a kind.
#[inline(always)]
fn code_of(kind: StepKind) -> u64
    ensures code { result ≡ code_of kind }
    ensures few { result < 8 }
{
    match kind {
        StepKind::Clause => 0,
        StepKind::DeleteClauses => 1,
        StepKind::Parity => 2,
        StepKind::DeleteParities => 3,
        StepKind::ClauseOfParity => 4,
        StepKind::ParityOfClauses => 5,
    }
}

/// The kind with this number.
#[inline(always)]
fn kind_of(code: u64) -> StepKind
    ensures { result ≡ kind_of code }
{
    if code == 0 {
        StepKind::Clause
    } else if code == 1 {
        StepKind::DeleteClauses
    } else if code == 2 {
        StepKind::Parity
    } else if code == 3 {
        StepKind::DeleteParities
    } else if code == 4 {
        StepKind::ClauseOfParity
    } else {
        StepKind::ParityOfClauses
    }
}

/// Whether a step of this kind deletes.
pub(crate) fn deletes(kind: StepKind) -> bool
    ensures { result ≡ deletes kind }
{
    match kind {
        StepKind::DeleteClauses | StepKind::DeleteParities => true,
        StepKind::Clause
        | StepKind::Parity
        | StepKind::ClauseOfParity
        | StepKind::ParityOfClauses => false,
    }
}

/// What a packed step begins with: its kind, and how many literals it has. They are packed into one integer.
#[derive(Clone, Copy, Drop)]
pub(crate) struct StepHead {
    pub(crate) kind: StepKind,
    pub(crate) literals: usize,
}

/// The bound of the numbers of kinds.
const KINDS: u64 = 8;

/// No memory holds so many literals, and so every head can be packed.
const TOO_MANY: usize = 1 << 60;

impl StepHead {
    /// The head as one number: how many literals there are, eight times, and the number of the kind.
    #[inline(always)]
    pub(crate) fn pack(self) -> Result<u64, AllocError>
        ensures { IfOk result (λ number. number ≡ head_of self.kind self.literals) }
    {
        if self.literals < TOO_MANY {
            Ok(self.literals as u64 * KINDS + code_of(self.kind))
        } else {
            Err(AllocError)
        }
    }

    /// The head that was packed into this number.
    #[inline(always)]
    pub(crate) fn unpack(number: u64) -> StepHead
        ensures kind { result.kind ≡ kind_in number }
        ensures literals { result.literals ≡ literals_in number }
    {
        StepHead {
            kind: kind_of(number % KINDS),
            literals: (number / KINDS) as usize,
        }
    }
}

/// A step among packed integers: its head, its id, and where its lists lie, the literals first.
#[derive(Clone, Copy, Drop)]
pub(crate) struct PackedStep {
    pub(crate) head: StepHead,
    pub(crate) id: u64,
    pub(crate) start: usize,
    pub(crate) end: usize,
}

impl PackedStep {
    /// The step whose integers lie from start up to end.
    #[inline(always)]
    pub(crate) fn at(packed: &Integers, start: usize, end: usize) -> PackedStep
        requires low { start + 2 ≤ end }
        requires high { end ≤ length packed.now }
        ensures kind { result.head.kind ≡ kind_in (unsigned (get_or packed.now start (pos 0))) }
        ensures literals { result.head.literals ≡ literals_in (unsigned (get_or packed.now start (pos 0))) }
        ensures id { result.id ≡ unsigned (get_or packed.now (start + 1) (pos 0)) }
        ensures start { result.start ≡ start + 2 }
        ensures end { result.end ≡ end }
    {
        PackedStep {
            head: StepHead::unpack(packed.id_at(start)),
            id: packed.id_at(start + 1),
            start: start + 2,
            end,
        }
    }

    /// Where its hints begin.
    #[inline(always)]
    pub(crate) fn hints_start(self) -> usize
        requires { self.start + self.head.literals ≤ self.end }
        ensures { result ≡ self.start + self.head.literals }
    {
        self.start + self.head.literals
    }
}
