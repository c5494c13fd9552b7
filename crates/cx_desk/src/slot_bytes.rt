//! The text of a slot, read piece by piece.
ghost use Rattle.std.specs.Prelude.{◌≡◌, ◌<◌, ◌≤◌, ◌+◌, ◌↔◌, [], true, false, length, drop, IfOk, IsTrue};
ghost use Rattle.cx_desk.specs.Outside.{started_in};
ghost use Rattle.cx_desk.specs.SlotBytes.{ReadsBytes, ReadsRest, taken_by, to_read};

use crate::ahead::ReadAhead;
use crate::draining::count_rest;
use crate::{Desk, DrainErr, ReadErr, Slot};
use std::alloc::Global;
use std::marker::Model;

/// The bytes of a text that is read from a slot of a desk, which is lent at each call: those that were read and not passed.
///
/// One byte after the limit is read at most. The place is that of the first byte that was not passed.
#[derive(Drop)]
pub struct SlotBytes {
    slot: Slot,
    limit: u64,
    ahead: ReadAhead,
    place: usize,
    ended: bool,
}

impl Model for SlotBytes {
    ghost use Rattle.std.specs.Prelude.{◌≤◌, ◌+◌, length};
    ghost use Rattle.cx_desk.specs.SlotBytes.{BytesState};

    ghost Value = { BytesState };

    ghost view = { λ b. record { slot = b.slot; limit = b.limit; bytes = b.ahead; place = b.place; ended = b.ended } };

    ghost invariant = { λ b. (b.limit ≤ 4294967295) × (b.place + length b.ahead ≤ b.limit + 1) };
}

impl SlotBytes {
    /// The text that the slot will give, of at most `limit` bytes.
    pub fn new(alloc: Global, slot: Slot, limit: u64) -> SlotBytes
        requires { limit ≤ 4294967295 }
        ensures { result ≡ record { slot = slot; limit = limit; bytes = []; place = 0; ended = false } }
    {
        SlotBytes {
            slot,
            limit,
            ahead: ReadAhead::new(alloc),
            place: 0,
            ended: false,
        }
    }

    /// The bytes that were read and not passed.
    pub fn bytes(&self) -> &[u8]
        ensures { result.now ≡ self.now.bytes }
    {
        self.ahead.bytes()
    }

    /// The place of the first of them.
    pub fn place(&self) -> usize
        ensures place { result ≡ self.now.place }
        ensures within { taken_by self.now ≤ self.now.limit + 1 }
        ensures few { self.now.limit ≤ 4294967295 }
    {
        self.place
    }

    /// Whether the end of the text was seen.
    pub fn has_ended(&self) -> bool
        ensures { result ≡ self.now.ended }
    {
        self.ended
    }

    /// How many bytes were read.
    pub fn taken(&self) -> u64
        ensures { result ≡ taken_by self.now }
    {
        (self.place + self.ahead.bytes().len()) as u64
    }

    /// Whether a byte after the limit was read.
    pub fn is_past_limit(&self) -> bool
        ensures { IsTrue result ↔ self.now.limit < taken_by self.now }
    {
        self.taken() > self.limit
    }

    /// Passes the first bytes.
    pub fn pass(&mut self, count: usize)
        requires { count ≤ length self.old.bytes }
        ensures { self.new ≡ record self.old { bytes = drop count self.old.bytes; place = self.old.place + count } }
    {
        self.ahead.pass(count);
        self.place += count;
    }

    /// Reads one more piece, or sees the end.
    fn read_more<D: Desk>(&mut self, desk: &mut D) -> Result<(), ReadErr>
        requires started { started_in self.old.slot (D.outside desk.old).started ≡ true }
        requires within { taken_by self.old ≤ self.old.limit }
        requires open { self.old.ended ≡ false }
        ensures read { ReadsBytes self.old (D.outside desk.old) result self.new (D.outside desk.new) }
        ensures within { IfOk result (λ _. taken_by self.new ≤ self.new.limit) }
        ensures falls { IfOk result (λ _. to_read self.new < to_read self.old) }
    {
        let left = (self.limit - self.taken()) as usize;
        let count = self.ahead.read(desk, self.slot, left + 1)?;
        self.ended = count == 0;
        if count > left {
            return Err(ReadErr::TooLong);
        }
        Ok(())
    }

    /// Reads as much again as is at hand, or to the end.
    pub fn read_twice<D: Desk>(&mut self, desk: &mut D) -> Result<(), ReadErr>
        requires started { started_in self.old.slot (D.outside desk.old).started ≡ true }
        requires within { taken_by self.old ≤ self.old.limit }
        requires open { self.old.ended ≡ false }
        ensures read { ReadsBytes self.old (D.outside desk.old) result self.new (D.outside desk.new) }
        ensures within { IfOk result (λ _. taken_by self.new ≤ self.new.limit) }
        ensures falls { IfOk result (λ _. to_read self.new < to_read self.old) }
    {
        let enough = self.ahead.bytes().len().saturating_mul(2);
        self.read_more(desk)?;
        while !self.ended && self.ahead.bytes().len() < enough {
            self.read_more(desk)?;
        }
        Ok(())
    }

    /// Reads the rest of the text without keeping it, and says how long the whole text is.
    ///
    /// Nothing is asked for after this.
    pub fn read_rest<D: Desk>(&self, desk: &mut D) -> Result<u64, DrainErr>
        requires started { started_in self.now.slot (D.outside desk.old).started ≡ true }
        requires within { taken_by self.now ≤ self.now.limit }
        ensures { ReadsRest self.now (D.outside desk.old) result (D.outside desk.new) }
    {
        let taken = self.taken();
        if self.ended {
            return Ok(taken);
        }
        let more = count_rest(desk, self.slot, self.limit - taken)?;
        Ok(taken + more)
    }
}
