//! What a desk in memory does, and a text that is read from one.
ghost use Rattle.std.specs.Prelude.{◌≡◌, None, true};
ghost use Rattle.cx_desk.specs.Memory.{outside_of};

use crate::expecting::expect;
use crate::one_file::{desk, start};
use cx_desk::{Desk, MemDesk, Port, RepeatDesk, Rooms, Slot, drain, read_whole};
use std::alloc::{AllocError, Global};

/// The file's bytes.
const TEXT: &[u8] = b"abcde";

const WIDE: Rooms = Rooms {
    answer: 100,
    proof: 100,
    message: 100,
};

const NARROW: Rooms = Rooms {
    answer: 3,
    proof: 0,
    message: 2,
};

/// What is done with a file that was opened.
#[derive(Clone, Copy, Drop)]
enum Reading {
    /// It is read whole, up to a limit.
    Whole(u64),
    /// It is drained, up to a limit.
    Drain(u64),
    /// A piece of it is read, and another one.
    Twice,
    /// A piece of it is read, and five bytes are written on the proof.
    AndPut,
}

/// What is done with a desk.
#[derive(Clone, Copy, Drop)]
enum Act {
    /// The file is opened and read.
    Read(Reading),
    /// A port is given five bytes, and two more.
    PutTwice(Port),
    /// A file is opened that the desk has not.
    StartAnother,
}

/// The rooms of the ports, the most bytes that one call moves, the numbers of the calls that fail, and what is done.
type Case = (Rooms, usize, &'static [u64], Act);

/// What is read of the file up to a limit, or why it is not.
fn read_up_to(alloc: Global, desk: &mut MemDesk, limit: u64) -> Result<String, AllocError>
    requires { (outside_of desk.old).started.formula ≡ true }
{
    match read_whole(alloc, desk, Slot::Formula, limit) {
        Ok(text) => format!(in alloc; "{:?}", text.as_slice()),
        Err(why) => format!(in alloc; "{why:?}"),
    }
}

/// What two reads answer.
fn read_twice(alloc: Global, desk: &mut MemDesk) -> Result<String, AllocError>
    requires { (outside_of desk.old).started.formula ≡ true }
{
    let mut buffer = [0; 8];
    let first = desk.read(Slot::Formula, &mut buffer);
    let second = desk.read(Slot::Formula, &mut buffer);
    format!(in alloc; "{first:?} {second:?}")
}

/// What a read and a write of several bytes answer, and how many are written then.
fn read_and_put(alloc: Global, desk: &mut MemDesk) -> Result<String, AllocError>
    requires { (outside_of desk.old).started.formula ≡ true }
{
    let read = desk.read(Slot::Formula, &mut [0; 8]);
    let put = desk.put(Port::Proof, b"abcde");
    format!(in alloc; "{read:?} {put:?} {}", desk.written(Port::Proof).len())
}

/// What comes of reading an opened file.
fn read(alloc: Global, desk: &mut MemDesk, reading: Reading) -> Result<String, AllocError>
    requires { (outside_of desk.old).started.formula ≡ true }
{
    match reading {
        Reading::Whole(limit) => read_up_to(alloc, desk, limit),
        Reading::Drain(left) => {
            let answer = drain(desk, Slot::Formula, left);
            format!(in alloc; "{answer:?}")
        }
        Reading::Twice => read_twice(alloc, desk),
        Reading::AndPut => read_and_put(alloc, desk),
    }
}

/// What comes of reading the file.
fn open_and_read(alloc: Global, desk: &mut MemDesk, reading: Reading) -> Result<String, AllocError>
    requires { (outside_of desk.old).asked.formula ≡ None }
{
    if start(alloc, desk, Slot::Formula)? {
        read(alloc, desk, reading)
    } else {
        String::from_str(alloc, "not opened")
    }
}

/// What two calls that write on a port answer, and what it has then.
fn put_twice(alloc: Global, desk: &mut MemDesk, port: Port) -> Result<String, AllocError> {
    let first = desk.put(port, b"abcde");
    let second = desk.put(port, b"de");
    format!(in alloc; "{first:?} {second:?} {}", desk.written(port).len())
}

/// What opening a file that the desk lacks answers.
fn start_another(alloc: Global, desk: &mut MemDesk) -> Result<String, AllocError>
    requires { (outside_of desk.old).asked.formula ≡ None }
{
    let started = desk.start(Slot::Formula, String::from_str(alloc, "six")?);
    format!(in alloc; "{started:?}")
}

/// What comes of an act.
fn take(alloc: Global, desk: &mut MemDesk, act: Act) -> Result<String, AllocError>
    requires { (outside_of desk.old).asked.formula ≡ None }
{
    match act {
        Act::Read(reading) => open_and_read(alloc, desk, reading),
        Act::PutTwice(port) => put_twice(alloc, desk, port),
        Act::StartAnother => start_another(alloc, desk),
    }
}

/// Appends the faults of reads, writes and messages.
fn add_faults(desk: &MemDesk, told: &mut String) -> Result<(), AllocError> {
    let reads = desk.read_faults();
    let writes = desk.write_faults();
    let messages = desk.message_faults();
    writeln!(told, ", faults {reads} {writes} {messages}")
}

/// Appends what comes of an act, and the faults.
fn add_act(alloc: Global, desk: &mut MemDesk, act: Act, told: &mut String) -> Result<(), AllocError>
    requires { (outside_of desk.old).asked.formula ≡ None }
{
    told.push_str(take(alloc, desk, act)?.as_str())?;
    add_faults(desk, told)
}

/// As `add_act`, on a new desk.
fn add_case(alloc: Global, case: &Case, told: &mut String) -> Result<(), AllocError> {
    let mut desk = desk(alloc, TEXT, case.0, case.1.max(1), case.2)?;
    add_act(alloc, &mut desk, case.3, told)
}

/// What comes of each case, on a desk of its own.
fn told(alloc: Global, cases: &[Case]) -> Result<String, AllocError> {
    let mut told = String::new(alloc);
    for case in cases {
        add_case(alloc, case, &mut told)?;
    }
    Ok(told)
}

/// What is done with desks.
static CASES: [Case; 15] = [
    // A text is read up to the limit.
    (WIDE, 2, &[], Act::Read(Reading::Whole(u64::MAX))),
    (WIDE, 2, &[], Act::Read(Reading::Whole(5))),
    (WIDE, 2, &[], Act::Read(Reading::Whole(4))),
    (WIDE, 2, &[], Act::Read(Reading::Whole(0))),
    // A text is drained up to the limit.
    (WIDE, 2, &[], Act::Read(Reading::Drain(u64::MAX))),
    (WIDE, 2, &[], Act::Read(Reading::Drain(5))),
    (WIDE, 2, &[], Act::Read(Reading::Drain(4))),
    (WIDE, 2, &[], Act::Read(Reading::Drain(0))),
    (WIDE, 2, &[3], Act::Read(Reading::Drain(5))),
    // A failing call fails once.
    (WIDE, 8, &[2], Act::Read(Reading::Twice)),
    // A missing name is a read fault.
    (WIDE, 8, &[], Act::StartAnother),
    // A call moves at most a piece.
    (WIDE, 1, &[], Act::Read(Reading::AndPut)),
    (WIDE, 2, &[], Act::Read(Reading::AndPut)),
    // A full port takes what fits, and then fails.
    (NARROW, 8, &[], Act::PutTwice(Port::Answer)),
    (NARROW, 8, &[], Act::PutTwice(Port::Message)),
];

/// What comes of each.
const WANTED: &str = "\
[97, 98, 99, 100, 101], faults 0 0 0
[97, 98, 99, 100, 101], faults 0 0 0
TooLong, faults 0 0 0
TooLong, faults 0 0 0
Ok(()), faults 0 0 0
Ok(()), faults 0 0 0
Err(TooLong), faults 0 0 0
Err(TooLong), faults 0 0 0
Err(Failed), faults 1 0 0
Err(Failed) Ok(5), faults 1 0 0
Err(Failed), faults 1 0 0
Ok(1) Ok(1) 1, faults 0 0 0
Ok(2) Ok(2) 2, faults 0 0 0
Ok(3) Err(Failed) 3, faults 0 1 0
Ok(2) Err(Failed) 2, faults 0 0 1
";

#[test]
fn calls_do_what_their_names_say_up_to_a_limit(rt: HostRuntime) {
    expect(&rt, told(rt.alloc(), &CASES), WANTED);
}

/// Whether a text without an end was opened, whether reading it up to a limit fails, and how many bytes it gave.
fn read_endless(alloc: Global) -> Result<String, AllocError> {
    let name = String::from_str(alloc, "any")?;
    let mut desk = RepeatDesk::make(b'a');
    let opened = desk.start(Slot::Second, name).is_ok();
    let fails = read_whole(alloc, &mut desk, Slot::Second, 4).is_err();
    format!(in alloc; "{opened} {fails} {}", desk.taken())
}

#[test]
fn a_text_without_an_end_is_too_long(rt: HostRuntime) {
    expect(&rt, read_endless(rt.alloc()), "true true 5");
}
