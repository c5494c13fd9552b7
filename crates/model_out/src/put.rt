//! Answers as text.
ghost use Rattle.std.specs.Prelude.{◌≡◌, ◌<◌, ◌++◌, [], if◌then◌else◌, codes, flat_map};
ghost use Rattle.std.specs.List.{enumerate_from};
ghost use Rattle.cx_desk.specs.Calls.{PutsAll};
ghost use Rattle.cx_desk.specs.declared.desk.Port.TheVariants.{Answer};
ghost use Rattle.cx_texts.specs.AnswerText.{break_before, printed_value, answer_text};
ghost use Rattle.model_out.specs.Waiting.{Adds};

use arrayvec::ArrayVec;
use cx_desk::{Desk, Failed, Port, put_all};
use itoa::Buffer;

/// How many bytes wait at most, so that the desk is not called for each literal.
const ROOM: usize = 4096;

/// Adds a piece to the bytes that wait, and writes them all where there is no room for it.
fn add<D: Desk>(desk: &mut D, waiting: &mut ArrayVec<u8, ROOM>, piece: &[u8]) -> Result<(), Failed>
    ensures { Adds piece.now (D.outside desk.old) waiting.old.items result (D.outside desk.new) waiting.new.items }
{
    match waiting.try_extend_from_slice(piece) {
        Ok(()) => Ok(()),
        Err(_) => {
            put_all(desk, Port::Answer, waiting.as_slice())?;
            waiting.clear();
            put_all(desk, Port::Answer, piece)
        }
    }
}

/// What comes before the literal at a place, from 0.
fn space_before(place: usize) -> &'static [u8]
    ensures { result.now ≡ break_before place ++ codes " " }
{
    if place % 16 == 0 && place != 0 {
        b"\nv "
    } else {
        b" "
    }
}

/// The sign of a literal that is true where its variable has the value.
fn sign_of(value: bool) -> &'static [u8]
    ensures { result.now ≡ if value then [] else codes "-" }
{
    if value { b"" } else { b"-" }
}

/// Adds the literal of the variable at a place, from 0.
fn add_value<D: Desk>(
    desk: &mut D,
    waiting: &mut ArrayVec<u8, ROOM>,
    place: usize,
    value: bool,
) -> Result<(), Failed>
    requires { place < 18446744073709551615 }
    ensures { Adds (printed_value (place, value)) (D.outside desk.old) waiting.old.items result (D.outside desk.new) waiting.new.items }
{
    let mut buffer = Buffer::new();
    let number = buffer.format(place as u64 + 1);
    add(desk, waiting, space_before(place))?;
    add(desk, waiting, sign_of(value))?;
    add(desk, waiting, number.as_bytes())
}

/// Adds the literals of all variables.
fn add_values<D: Desk>(
    desk: &mut D,
    waiting: &mut ArrayVec<u8, ROOM>,
    values: &[bool],
) -> Result<(), Failed>
    ensures { Adds (flat_map printed_value (enumerate_from 0 values.now)) (D.outside desk.old) waiting.old.items result (D.outside desk.new) waiting.new.items }
{
    for (place, value) in values.iter().enumerate() {
        add_value(desk, waiting, place, *value)?;
    }
    Ok(())
}

/// Writes the answer text of the values, from variable 1 on, on the answer port.
///
/// It fails only where the desk counted a fault of the port; then the port gained a prefix of the text. It takes no
/// memory.
pub fn put_answer<D: Desk>(desk: &mut D, values: &[bool]) -> Result<(), Failed>
    ensures { PutsAll Answer (answer_text values.now) (D.outside desk.old) result (D.outside desk.new) }
{
    let mut waiting = ArrayVec::new();
    add(desk, &mut waiting, b"s SATISFIABLE\nv")?;
    add_values(desk, &mut waiting, values)?;
    add(desk, &mut waiting, b" 0\n")?;
    put_all(desk, Port::Answer, waiting.as_slice())
}
