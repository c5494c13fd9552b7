//! Worked texts: the steps that are read and printed again, and what is refused and where.
ghost use Rattle.std.specs.Prelude.{◌≡◌, true, false, OnOk, IfOk, IfSome};
ghost use Rattle.cx_texts.specs.Printed.{HasProofText};
ghost use Rattle.step_text.specs.Texts.{is_spent_by};
ghost use Rattle.proof_text.specs.Told.{is_whole, Prints};
ghost use Rattle.cx_desk.specs.Memory.{outside_of};

use crate::expecting::expect_bytes;
use crate::reprinting::{Reprint, endings_of};
use cx_desk::{Desk, Failed, MemDesk, Port, Rooms};
use proof_text::{DeskProof, ListProof, ProofStep, ProofText, put_proof_step};
use std::alloc::{AllocError, Global};
use std::test::Fail;
use step_text::pieces::LineSheet;
use step_text::{Sink, SinkFault, SpareLists, StepSource, TextRefusal};

/// The texts of proofs.
struct Proofs;

/// Prints a step on the proof port.
fn print(desk: &mut MemDesk, step: &ProofStep) -> Result<(), Failed>
    requires { HasProofText step.now }
{
    put_proof_step(&mut LineSheet::new(), desk, Port::Proof, step)
}

/// Prints at most sixteen steps. The refusal that they end with.
fn print_all(
    alloc: Global,
    desk: &mut MemDesk,
    source: &mut ProofText,
) -> Result<Option<TextRefusal>, Failed>
    requires { is_spent_by source.old.refused ≡ false }
{
    let mut spare = SpareLists::new(alloc);
    for _ in 0..16 {
        match source.next_step(&mut spare) {
            Ok(Some(step)) => {
                print(desk, &step)?;
                spare.keep(step);
            }
            Ok(None) => return Ok(None),
            Err(refusal) => return Ok(Some(refusal)),
        }
    }
    Ok(None)
}

/// Appends the printed steps of a text.
fn add_steps(
    alloc: Global,
    text: &[u8],
    desk: &mut MemDesk,
    printed: &mut Vec<u8>,
) -> Result<Option<TextRefusal>, Fail> {
    if text.len() > 4096 {
        return Ok(Some(TextRefusal::TooLong));
    }
    let mut source = ProofText::new(text);
    let ending = print_all(alloc, desk, &mut source)?;
    printed.extend_from_slice(desk.written(Port::Proof))?;
    Ok(ending)
}

/// A desk with this much room for a proof.
fn new_desk(alloc: Global, proof: usize) -> Result<MemDesk, AllocError>
    ensures { IfOk result (λ m. is_whole (outside_of m) ≡ true) }
{
    let rooms = Rooms {
        answer: 0,
        proof,
        message: 0,
    };
    MemDesk::make(alloc, Vec::new(alloc), rooms, 3, Vec::new(alloc))
}

impl Reprint for Proofs {
    fn reprint(
        alloc: Global,
        text: &[u8],
        printed: &mut Vec<u8>,
    ) -> Result<Option<TextRefusal>, Fail> {
        let mut desk = new_desk(alloc, 4096)?;
        add_steps(alloc, text, &mut desk, printed)
    }
}

/// Texts of proofs.
static TEXTS: [&[u8]; 26] = [
    // one step, which is printed as it was read
    b"5 1 -2 0 3 -4 0\n",
    b"6 0 0\n",
    b"7 d 5 6 0\n",
    b"x 4 1 -2 3 0 1 2 0\n",
    b"x d 4 0\n",
    b"i 8 -1 2 0 -9223372036854775807 0\n",
    b"i x 9223372036854775807 1 2 0 7 8 0\n",
    // numbers of one digit to nineteen; more integers than a short line has, and more than are laid out whole
    b"9 10 -99 100 -999 1000 9999 -10000 999999 1000000 -9223372036854775807 0 1001 0\n",
    b"11 -90 91 92 -93 94 95 -96 97 98 -99 100 101 -102 103 104 -105 106 107 -108 109 \
        110 -111 112 113 -114 115 116 -117 118 119 -120 121 122 -123 124 125 -126 127 128 -129 0 2 0\n",
    b"12 -7 0 1 2 3 4 5 6 7 8 9 10 11 12 13 14 15 16 17 18 19 20 21 22 23 24 25 \
        26 27 28 29 30 31 32 33 34 35 36 37 38 39 40 41 42 43 44 45 46 47 48 49 50 \
        51 52 53 54 55 56 57 58 59 60 61 62 63 64 65 66 67 68 69 70 71 72 73 74 75 \
        76 77 78 79 80 81 82 83 84 85 86 87 88 89 90 91 92 93 94 95 96 97 98 99 100 0\n",
    // refused after no step
    b"5 a 0",
    b"5 2 0 1\n",
    b"9223372036854775808 0 1 0",
    b"5 -9223372036854775808 0",
    b"-9223372036854775808 0",
    b"5 d -9 0",
    b"i 5 1 0 2 3",
    b"i 5 1 0 0",
    b"0 1 0 1 0",
    b"x i 1",
    b"x5 0 1 0",
    // the end after no step, and after some; a refusal after one
    b"",
    b" \nc 1 a\n \t\n",
    b"x 4 0 1 2 3 0",
    b"c first\n005 -0\nc 7\n -07 00\r\n",
    b"6 0 0\nx",
];

/// The steps of each, and the refusal that it ends with.
const WANTED: &[u8] = b"\
5 1 -2 0 3 -4 0
None
6 0 0
None
7 d 5 6 0
None
x 4 1 -2 3 0 1 2 0
None
x d 4 0
None
i 8 -1 2 0 -9223372036854775807 0
None
i x 9223372036854775807 1 2 0 7 8 0
None
9 10 -99 100 -999 1000 9999 -10000 999999 1000000 -9223372036854775807 0 1001 0
None
11 -90 91 92 -93 94 95 -96 97 98 -99 100 101 -102 103 104 -105 106 107 -108 109 \
110 -111 112 113 -114 115 116 -117 118 119 -120 121 122 -123 124 125 -126 127 128 -129 0 2 0
None
12 -7 0 1 2 3 4 5 6 7 8 9 10 11 12 13 14 15 16 17 18 19 20 21 22 23 24 25 \
26 27 28 29 30 31 32 33 34 35 36 37 38 39 40 41 42 43 44 45 46 47 48 49 50 \
51 52 53 54 55 56 57 58 59 60 61 62 63 64 65 66 67 68 69 70 71 72 73 74 75 \
76 77 78 79 80 81 82 83 84 85 86 87 88 89 90 91 92 93 94 95 96 97 98 99 100 0
None
Some(BadToken(2))
Some(Unterminated(8))
Some(TooBig(0))
Some(TooBig(2))
Some(BadToken(0))
Some(BadToken(4))
Some(BadToken(10))
Some(BadToken(8))
Some(BadToken(0))
Some(BadToken(2))
Some(BadToken(0))
None
None
x 4 0 1 2 3 0
None
5 0 -7 0
None
6 0 0
Some(Unterminated(7))
";

#[test]
fn steps_come_back_up_to_a_refusal(rt: HostRuntime) -> Result<(), Fail> {
    expect_bytes(&rt, endings_of::<Proofs>(rt.alloc(), &TEXTS), WANTED)
}

/// The place of the bad token for which a source refuses its next step, if it does.
fn bad_token(alloc: Global, source: &mut ProofText) -> Option<u64>
    requires { is_spent_by source.old.refused ≡ false }
    ensures { IfSome result (λ _. is_spent_by source.new.refused ≡ false) }
{
    match source.next_step(&mut SpareLists::new(alloc)) {
        Err(TextRefusal::BadToken(place)) => Some(place),
        _ => None,
    }
}

/// The places of the bad tokens for which a source refuses two steps, if it does.
fn refused_twice(alloc: Global, source: &mut ProofText) -> Option<(u64, u64)>
    requires { is_spent_by source.old.refused ≡ false }
{
    let first = bad_token(alloc, source)?;
    let again = bad_token(alloc, source)?;
    Some((first, again))
}

#[test]
fn a_refusal_comes_again(rt: HostRuntime) {
    let mut source = ProofText::new(b"5 a 0");
    assert_eq!(rt; refused_twice(rt.alloc(), &mut source), Some((2, 2)));
}

/// Gives a step to any sink that has not failed.
fn give<S: Sink<Item = ProofStep>>(sink: &mut S, step: &ProofStep) -> Result<(), SinkFault>
    requires text { HasProofText step.now }
    requires going { S.has_failed sink.old ≡ false }
    ensures failed { OnOk result (S.has_failed sink.new ≡ S.has_failed sink.old) }
    ensures frame { S.keeps sink.old sink.new }
{
    sink.put(step)
}

/// Prints a step through a sink over a lent desk.
fn print_through<D: Desk>(desk: &mut D, step: &ProofStep) -> Result<(), SinkFault>
    requires whole { is_whole (D.outside desk.old) ≡ true }
    requires text { HasProofText step.now }
    ensures { OnOk result (Prints (D.outside desk.old) (D.outside desk.new)) }
{
    let mut sink = DeskProof::new(desk);
    give(&mut sink, step)
}

/// Gives the steps that a text has left, at most eight, to a sink, until it refuses one; how many it took.
fn give_all<S: Sink<Item = ProofStep>>(alloc: Global, source: &mut ProofText, sink: &mut S) -> u64
    requires fresh { is_spent_by source.old.refused ≡ false }
    requires going { S.has_failed sink.old ≡ false }
{
    let mut spare = SpareLists::new(alloc);
    for taken in 0..8 {
        match source.next_step(&mut spare) {
            Ok(Some(step)) => {
                if give(sink, &step).is_err() {
                    return taken;
                }
                spare.keep(step);
            }
            _ => return taken,
        }
    }
    8
}

/// The text whose steps are given to sinks.
const GIVEN: &[u8] = b"6 0 0 7 d 6 0 8 0 0";

/// What a desk is given of the steps by a sink over it, how many the sink took, and the desk's faults.
fn torn(alloc: Global, desk: &mut MemDesk) -> Result<Vec<u8>, Fail>
    requires { is_whole (outside_of desk.old) ≡ true }
{
    let mut source = ProofText::new(GIVEN);
    let taken = give_all(alloc, &mut source, &mut DeskProof::new(desk));
    let mut told = desk.written(Port::Proof).to_vec(alloc)?;
    told.extend_from_slice(format!(in alloc; "|{taken} {}", desk.write_faults())?.as_bytes())?;
    Ok(told)
}

/// As `torn`, on a new desk with little room.
fn torn_on_new(alloc: Global) -> Result<Vec<u8>, Fail> {
    let mut desk = new_desk(alloc, 8)?;
    torn(alloc, &mut desk)
}

#[test]
fn a_torn_step_is_the_last_one(rt: HostRuntime) -> Result<(), Fail> {
    expect_bytes(&rt, torn_on_new(rt.alloc()), b"6 0 0\n7 |1 1")
}

/// The first step of a kept proof as it is printed.
fn first_on(alloc: Global, kept: &ListProof, desk: &mut MemDesk) -> Result<Vec<u8>, Fail>
    requires { is_whole (outside_of desk.old) ≡ true }
{
    if let Some(first) = kept.steps().first() {
        print_through(desk, first)?;
    }
    Ok(desk.written(Port::Proof).to_vec(alloc)?)
}

/// As `first_on`, on a new desk with little room.
fn first_of(alloc: Global, kept: &ListProof) -> Result<Vec<u8>, Fail> {
    let mut desk = new_desk(alloc, 8)?;
    first_on(alloc, kept, &mut desk)
}

/// The first of the steps that a sink keeps, how many it took, and how many it has.
fn keep_all(alloc: Global, kept: &mut ListProof) -> Result<Vec<u8>, Fail> {
    let mut source = ProofText::new(GIVEN);
    let taken = give_all(alloc, &mut source, kept);
    let mut told = first_of(alloc, kept)?;
    let count = kept.steps().len();
    told.extend_from_slice(format!(in alloc; "|{taken} {count}")?.as_bytes())?;
    Ok(told)
}

/// As `keep_all`, with a new sink.
fn kept(alloc: Global) -> Result<Vec<u8>, Fail> {
    let mut kept = ListProof::make(alloc);
    keep_all(alloc, &mut kept)
}

#[test]
fn kept_steps_are_those_given(rt: HostRuntime) -> Result<(), Fail> {
    expect_bytes(&rt, kept(rt.alloc()), b"6 0 0\n|3 3")
}
