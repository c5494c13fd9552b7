//! A desk in memory with one file, "text", from which a slot is read.
ghost use Rattle.std.specs.Prelude.{◌≡◌, ◌≤◌, true, None, IfOk, IsTrue};
ghost use Rattle.cx_desk.specs.Outside.{asked_in, started_in};
ghost use Rattle.cx_desk.specs.Memory.{outside_of};

use cx_desk::{Desk, MemDesk, NamedFile, Rooms, Slot};
use std::alloc::{AllocError, Global};

/// The file's name.
const NAME: &str = "text";

/// The ports of a desk that is only read.
pub(crate) const NO_ROOM: Rooms = Rooms {
    answer: 0,
    proof: 0,
    message: 0,
};

/// The file with these bytes.
fn file(alloc: Global, text: &[u8]) -> Result<NamedFile, AllocError> {
    Ok(NamedFile {
        name: String::from_str(alloc, NAME)?,
        bytes: Vec::from_slice(alloc, text)?,
    })
}

/// A list of that file.
fn files(alloc: Global, text: &[u8]) -> Result<Vec<NamedFile>, AllocError> {
    let mut files = Vec::new(alloc);
    files.push(file(alloc, text)?)?;
    Ok(files)
}

/// A desk whose file has these bytes, and whose calls of these numbers fail.
pub(crate) fn desk(
    alloc: Global,
    text: &[u8],
    rooms: Rooms,
    piece: usize,
    failing: &[u64],
) -> Result<MemDesk, AllocError>
    requires { 1 ≤ piece }
    ensures { IfOk result (λ m.
        (outside_of m).asked ≡ record { formula = None; second = None; proof = None }) }
{
    let failing = Vec::from_slice(alloc, failing)?;
    MemDesk::make(alloc, files(alloc, text)?, rooms, piece, failing)
}

/// Opens the file for a slot. Whether that worked.
pub(crate) fn start(alloc: Global, desk: &mut MemDesk, slot: Slot) -> Result<bool, AllocError>
    requires { asked_in slot (outside_of desk.old).asked ≡ None }
    ensures { IfOk result (λ yes. IsTrue yes → started_in slot (outside_of desk.new).started ≡ true) }
{
    let started = desk.start(slot, String::from_str(alloc, NAME)?);
    Ok(started.is_ok())
}
