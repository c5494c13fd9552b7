//! Bytes that are read ahead of what is made of them.
ghost use Rattle.std.specs.Prelude.{◌≡◌, ◌<◌, ◌≤◌, ◌-◌, length, take, drop, [], true, vec_len, OnOk, IfOk};
ghost use Rattle.cx_desk.specs.Outside.{started_in};
ghost use Rattle.cx_desk.specs.Calls.{ReadsMore};
ghost use Rattle.cx_desk.specs.Ahead.{ReadsAhead};
ghost use Rattle.cx_desk.specs.declared.ahead.AheadErr.TheVariants as ahead;

use crate::{Desk, Failed, Slot};
use std::alloc::{AllocError, Global};
use std::marker::Model;

/// Why no more bytes were read ahead.
#[derive(Clone, Copy, Drop)]
pub(crate) enum AheadErr {
    /// There was no memory for more.
    Memory,
    /// The read failed, and was counted.
    Failed,
}

impl From<AllocError> for AheadErr {
    ghost from_gives = { λ _ e. e ≡ ahead.Memory };

    fn from(_: AllocError) -> Self {
        AheadErr::Memory
    }
}

impl From<Failed> for AheadErr {
    ghost from_gives = { λ _ e. e ≡ ahead.Failed };

    fn from(_: Failed) -> Self {
        AheadErr::Failed
    }
}

/// The bytes that were read from a slot and not passed yet, in one buffer.
///
/// The buffer is no longer than a constant, or four times the bytes that were ever kept at once.
#[derive(Drop)]
pub(crate) struct ReadAhead {
    buffer: Vec<u8>,
    at: usize,
    filled: usize,
}

impl Model for ReadAhead {
    ghost use Rattle.std.specs.Prelude.{List, ℕ, take, drop, ◌-◌, ◌≤◌, vec_len};

    ghost Value = { List ℕ };

    ghost view = { λ r. take (r.filled - r.at) (drop r.at r.buffer.items) };

    ghost invariant = { λ r. (r.at ≤ r.filled) × (r.filled ≤ vec_len r.buffer) };
}

/// The length of the buffer at first.
const FIRST: usize = 262_144;

/// Moves the bytes between two places to the start.
fn move_down(buffer: &mut Vec<u8>, from: usize, to: usize)
    requires low { from ≤ to }
    requires high { to ≤ vec_len buffer.old }
    ensures len { vec_len buffer.new ≡ vec_len buffer.old }
    ensures front { take (to - from) buffer.new.items ≡ take (to - from) (drop from buffer.old.items) }
{
    if from > 0 {
        buffer.copy_within(from..to, 0);
    }
}

/// Makes the buffer twice as long where more than half of it is kept.
fn grow(buffer: &mut Vec<u8>, kept: usize) -> Result<(), AllocError>
    requires { kept ≤ vec_len buffer.old }
    ensures room { OnOk result (kept < vec_len buffer.new) }
    ensures front { take kept buffer.new.items ≡ take kept buffer.old.items }
    ensures longer { vec_len buffer.old ≤ vec_len buffer.new }
{
    let len = buffer.len();
    if kept < len / 2 {
        return Ok(());
    }
    let longer = len.saturating_mul(2).max(FIRST);
    if longer <= len {
        return Err(AllocError);
    }
    buffer.resize(longer, 0)
}

/// Reads into the buffer after its first `filled` bytes, at most this many, and says how many came.
fn read_after<D: Desk>(
    desk: &mut D,
    slot: Slot,
    buffer: &mut [u8],
    filled: usize,
    most: usize,
) -> Result<usize, Failed>
    requires started { started_in slot (D.outside desk.old).started ≡ true }
    requires room { filled < length buffer.old }
    requires some { 0 < most }
    ensures more { ReadsMore slot filled buffer.old (D.outside desk.old) result buffer.new (D.outside desk.new) }
    ensures few { IfOk result (λ n. n ≤ most) }
    ensures front { take filled buffer.new ≡ take filled buffer.old }
{
    let end = buffer.len().min(filled.saturating_add(most));
    desk.read(slot, &mut buffer[filled..end])
}

impl ReadAhead {
    /// Nothing was read yet.
    pub fn new(alloc: Global) -> ReadAhead
        ensures { result ≡ [] }
    {
        ReadAhead {
            buffer: Vec::new(alloc),
            at: 0,
            filled: 0,
        }
    }

    /// The bytes that were not passed.
    pub fn bytes(&self) -> &[u8]
        ensures { result.now ≡ self.now }
    {
        &self.buffer[self.at..self.filled]
    }

    /// Passes the first bytes.
    pub fn pass(&mut self, count: usize)
        requires { count ≤ length self.old }
        ensures { self.new ≡ drop count self.old }
    {
        self.at += count;
    }

    /// Reads more from a started slot, at most this many bytes, and says how many came: 0 only at the end.
    pub fn read<D: Desk>(
        &mut self,
        desk: &mut D,
        slot: Slot,
        most: usize,
    ) -> Result<usize, AheadErr>
        requires started { started_in slot (D.outside desk.old).started ≡ true }
        requires some { 0 < most }
        ensures { ReadsAhead slot most self.old (D.outside desk.old) result self.new (D.outside desk.new) }
    {
        let kept = self.filled - self.at;
        move_down(&mut self.buffer, self.at, self.filled);
        self.at = 0;
        self.filled = kept;
        grow(&mut self.buffer, kept)?;
        let count = read_after(desk, slot, &mut self.buffer, kept, most)?;
        self.filled = kept + count;
        Ok(count)
    }
}
