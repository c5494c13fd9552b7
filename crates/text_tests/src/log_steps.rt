//! Worked logs: what is read, kept and printed again, and what is refused and where.
ghost use Rattle.std.specs.Prelude.{◌≡◌, false};
ghost use Rattle.cx_base.specs.declared.steps.LogEvent.TheVariants.{Step};
ghost use Rattle.cx_texts.specs.Printed.{HasText};
ghost use Rattle.step_text.specs.Texts.{is_spent_by};

use crate::expecting::expect_bytes;
use crate::reprinting::{Reprint, add_line, endings_of};
use cx_base::LogEvent;
use cx_desk::{MemDesk, Port, Rooms};
use log_text::{ListLog, LogStep, LogText, NoLog, put_log, put_log_step};
use std::alloc::{AllocError, Global};
use std::test::Fail;
use step_text::pieces::LineSheet;
use step_text::{Sink, SinkFault, SpareLists, StepSource, TextRefusal};

/// The texts of logs.
struct Logs;

/// Keeps a step or a mark in the log, and gives it to one that keeps nothing.
fn keep(log: &mut ListLog, told: &LogEvent) -> Result<(), SinkFault>
    requires { HasText told.now }
{
    log.put(told)?;
    let mut nothing = NoLog;
    nothing.put(told)
}

/// Keeps a step.
fn keep_step(log: &mut ListLog, step: LogStep) -> Result<(), SinkFault>
    requires { HasText (Step step) }
{
    keep(log, &LogEvent::Step(step))
}

/// Keeps a mark.
fn keep_mark(log: &mut ListLog, k: u64) -> Result<(), SinkFault> {
    keep(log, &LogEvent::Conflict(k))
}

/// Prints a step, and keeps it with a mark after it.
fn put(desk: &mut MemDesk, log: &mut ListLog, step: LogStep, k: u64) -> Result<(), Fail>
    requires { HasText (Step step) }
{
    let printed = put_log_step(&mut LineSheet::new(), desk, Port::Proof, &step);
    keep_step(log, step)?;
    printed?;
    keep_mark(log, k)?;
    Ok(())
}

/// Puts at most sixteen steps, each with a mark after it in the log. The refusal that they end with.
fn put_all(
    alloc: Global,
    desk: &mut MemDesk,
    log: &mut ListLog,
    source: &mut LogText,
) -> Result<Option<TextRefusal>, Fail>
    requires { is_spent_by source.old.refused ≡ false }
{
    let mut spare = SpareLists::new(alloc);
    for k in 1..17 {
        match source.next_step(&mut spare) {
            Ok(Some(step)) => put(desk, log, step, k)?,
            Ok(None) => return Ok(None),
            Err(refusal) => return Ok(Some(refusal)),
        }
    }
    Ok(None)
}

/// Prints the steps of a text on the proof port, and what was kept of them on the answer port.
fn print_with(
    alloc: Global,
    text: &[u8],
    desk: &mut MemDesk,
    log: &mut ListLog,
) -> Result<Option<TextRefusal>, Fail> {
    if text.len() > 4096 {
        return Ok(Some(TextRefusal::TooLong));
    }
    let mut source = LogText::new(text);
    let ending = put_all(alloc, desk, log, &mut source)?;
    put_log(desk, Port::Answer, log)?;
    Ok(ending)
}

/// As `print_with`, with a log of its own.
fn print(alloc: Global, text: &[u8], desk: &mut MemDesk) -> Result<Option<TextRefusal>, Fail> {
    let mut log = ListLog::make(alloc);
    print_with(alloc, text, desk, &mut log)
}

/// Appends the printed steps of a text.
fn add_steps(
    alloc: Global,
    text: &[u8],
    desk: &mut MemDesk,
    printed: &mut Vec<u8>,
) -> Result<Option<TextRefusal>, Fail> {
    let ending = print(alloc, text, desk)?;
    printed.extend_from_slice(desk.written(Port::Proof))?;
    Ok(ending)
}

/// Appends the printed steps of a text, the printed log and the ending.
fn add_twice(
    alloc: Global,
    text: &[u8],
    desk: &mut MemDesk,
    told: &mut Vec<u8>,
) -> Result<(), Fail> {
    let ending = add_steps(alloc, text, desk, told)?;
    told.extend_from_slice(desk.written(Port::Answer))?;
    Ok(add_line(alloc, ending, told)?)
}

/// A desk with room for steps and logs.
fn new_desk(alloc: Global) -> Result<MemDesk, AllocError> {
    let rooms = Rooms {
        answer: 4096,
        proof: 4096,
        message: 0,
    };
    MemDesk::make(alloc, Vec::new(alloc), rooms, 3, Vec::new(alloc))
}

impl Reprint for Logs {
    fn reprint(
        alloc: Global,
        text: &[u8],
        printed: &mut Vec<u8>,
    ) -> Result<Option<TextRefusal>, Fail> {
        let mut desk = new_desk(alloc)?;
        add_steps(alloc, text, &mut desk, printed)
    }
}

/// What `add_twice` appends on a new desk.
fn printed_twice(alloc: Global, text: &[u8]) -> Result<Vec<u8>, Fail> {
    let mut desk = new_desk(alloc)?;
    let mut told = Vec::new(alloc);
    add_twice(alloc, text, &mut desk, &mut told)?;
    Ok(told)
}

#[test]
fn marks_are_lines_that_are_passed_over(rt: HostRuntime) -> Result<(), Fail> {
    let text = b"o 1 1 0\nc conflict 7\na 2 0\nl 1 0 d 1 0".as_slice();
    // the steps, the log with the marks that were kept in it, and no refusal
    let wanted =
        b"o 1 1 0\na 2 0 l 1 0\nd 1 0\no 1 1 0\nc conflict 1\na 2 0 l 1 0\nc conflict 2\nd 1 0\nc conflict 3\nNone\n".as_slice();
    expect_bytes(&rt, printed_twice(rt.alloc(), text), wanted)
}

/// Texts of logs.
static TEXTS: [&[u8]; 27] = [
    // one step, which is printed as it was read
    b"o 1 1 -2 0\n",
    b"o x 1 1 2 0\n",
    b"a 3 0\n",
    b"a 3 1 0 l 1 -2 0\n",
    b"a x 2 -1 0 l 1 9223372036854775807 0\n",
    b"i 4 1 0 l 2 0\n",
    b"i x 3 1 2 0 l 1 4 0\n",
    b"d 4 1 0\n",
    b"d x 3 0\n",
    b"f 1 1 -2 0\n",
    b"f x 1 1 2 0\n",
    b"r 1 2 2 1 0\n",
    b"r x 3 9223372036854775807 0\n",
    b"r 0\n",
    // refused with no step before
    b"a 1 0 l 2",
    b"a x 1 2 0 3 0",
    b"i 4 1 0 2 0",
    b"i 4 1 0 l 2 3",
    b"r 1 0",
    b"r x 1 2 3 0",
    b"r 1 0 0",
    b"q 1 0",
    b"o 0 1 0",
    b"a 1 0 l x",
    b"d 9223372036854775808 0",
    // refused after a step
    b"a 1 0 a",
    b"o 1 1 0 l 2 0",
];

/// The steps of each, and the refusal that it ends with.
const WANTED: &[u8] = b"\
o 1 1 -2 0
None
o x 1 1 2 0
None
a 3 0
None
a 3 1 0 l 1 -2 0
None
a x 2 -1 0 l 1 9223372036854775807 0
None
i 4 1 0 l 2 0
None
i x 3 1 2 0 l 1 4 0
None
d 4 1 0
None
d x 3 0
None
f 1 1 -2 0
None
f x 1 1 2 0
None
r 1 2 2 1 0
None
r x 3 9223372036854775807 0
None
r 0
None
Some(Unterminated(9))
Some(BadToken(10))
Some(BadToken(8))
Some(BadToken(12))
Some(BadToken(4))
Some(BadToken(10))
Some(BadToken(4))
Some(BadToken(0))
Some(BadToken(2))
Some(BadToken(8))
Some(TooBig(2))
a 1 0
Some(Unterminated(7))
o 1 1 0
Some(BadToken(8))
";

#[test]
fn steps_come_back_up_to_a_refusal(rt: HostRuntime) -> Result<(), Fail> {
    expect_bytes(&rt, endings_of::<Logs>(rt.alloc(), &TEXTS), WANTED)
}
