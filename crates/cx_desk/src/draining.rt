//! A slot read to its end, with nothing kept.
ghost use Rattle.std.specs.Prelude.{◌≡◌, ◌<◌, true, length};
ghost use Rattle.cx_desk.specs.Outside.{started_in};
ghost use Rattle.cx_desk.specs.Calls.{PassesOver, CountsRest, Drains};
ghost use Rattle.cx_desk.specs.declared.draining.DrainErr.TheVariants as drained;

use crate::{Desk, Failed, Slot};
use thiserror::Error;

/// Why a slot was not read to its end.
#[derive(Clone, Copy, Debug, Drop, Error)]
pub enum DrainErr {
    /// A read failed, and was counted.
    #[error("the read failed")]
    Failed,
    /// More bytes were left than were allowed: one more was read. No fault was counted.
    #[error("the text is too long")]
    TooLong,
}

impl From<Failed> for DrainErr {
    ghost from_gives = { λ _ e. e ≡ drained.Failed };

    fn from(_: Failed) -> Self {
        DrainErr::Failed
    }
}

/// The most bytes that are asked for at once.
const PIECE: usize = 65_536;

/// Reads at most this many bytes into the start of a buffer. It says how many came.
fn read_front<D: Desk>(
    desk: &mut D,
    slot: Slot,
    into: &mut [u8],
    most: u64,
) -> Result<usize, Failed>
    requires started { started_in slot (D.outside desk.old).started ≡ true }
    requires room { 0 < length into.old }
    requires some { 0 < most }
    ensures { PassesOver slot most (D.outside desk.old) result (D.outside desk.new) }
{
    let room = most.min(into.len() as u64) as usize;
    desk.read(slot, &mut into[..room])
}

/// Reads at most this many bytes and does not keep them. It says how many came.
fn pass_over<D: Desk>(desk: &mut D, slot: Slot, most: u64) -> Result<u64, Failed>
    requires started { started_in slot (D.outside desk.old).started ≡ true }
    requires some { 0 < most }
    ensures { PassesOver slot most (D.outside desk.old) result (D.outside desk.new) }
{
    let mut piece = [0; PIECE];
    let count = read_front(desk, slot, &mut piece, most)?;
    Ok(count as u64)
}

/// Reads a started slot to its end, where no more than `left` bytes are left, and says how many were.
pub(crate) fn count_rest<D: Desk>(desk: &mut D, slot: Slot, left: u64) -> Result<u64, DrainErr>
    requires { started_in slot (D.outside desk.old).started ≡ true }
    ensures { CountsRest slot left (D.outside desk.old) result (D.outside desk.new) }
{
    let mut room = left;
    loop {
        let count = pass_over(desk, slot, room.saturating_add(1))?;
        if count == 0 {
            return Ok(left - room);
        }
        if count > room {
            return Err(DrainErr::TooLong);
        }
        room -= count;
    }
}

/// Reads a started slot to its end, where no more than `left` bytes are left, and keeps none. It takes no memory.
pub fn drain<D: Desk>(desk: &mut D, slot: Slot, left: u64) -> Result<(), DrainErr>
    requires { started_in slot (D.outside desk.old).started ≡ true }
    ensures { Drains slot left (D.outside desk.old) result (D.outside desk.new) }
{
    match count_rest(desk, slot, left) {
        Ok(_) => Ok(()),
        Err(err) => Err(err),
    }
}
