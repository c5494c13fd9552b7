//! What one port of a desk in memory was given.
ghost use Rattle.std.specs.Prelude.{◌≤◌, vec_len, vec_capacity};

use std::alloc::{AllocError, Global};

/// The bytes of a port, whose room is taken when it is made.
#[derive(Drop)]
pub(super) struct Sheet {
    pub(super) bytes: Vec<u8>,
    room: usize,
    ghost reserved: { room ≤ vec_capacity bytes },
    ghost within: { vec_len bytes ≤ room },
}

impl Sheet {
    ghost use Rattle.std.specs.Prelude.{◌≡◌, ◌-◌, ◌++◌, min, [], length, take, IfOk, IsOk, vec_len};

    pub(super) fn new(alloc: Global, room: usize) -> Result<Self, AllocError>
        ensures empty { IfOk result (λ s. s.bytes.items ≡ []) }
        ensures room { IfOk result (λ s. s.room ≡ room) }
        ensures no_memory { room ≡ 0 → IsOk result }
    {
        Ok(Sheet {
            bytes: Vec::with_capacity(alloc, room)?,
            room,
        })
    }

    /// Appends a prefix of the piece: what there is room for, and at most `most` bytes.
    pub(super) fn append(&mut self, most: usize, piece: &[u8]) -> usize
        ensures count { result
            ≡ min most (min (self.old.room - vec_len self.old.bytes) (length piece.now)) }
        ensures bytes { self.new.bytes.items ≡ self.old.bytes.items ++ take result piece.now }
        ensures room { self.new.room ≡ self.old.room }
    {
        let room_left = self.room - self.bytes.len();
        let count = piece.len().min(room_left).min(most);
        // The room was taken when the sheet was made, so this takes no memory.
        self.bytes.extend_from_slice(&piece[..count]).unwrap();
        count
    }

    pub(super) fn clear(&mut self)
        ensures empty { self.new.bytes.items ≡ [] }
        ensures room { self.new.room ≡ self.old.room }
    {
        self.bytes.clear();
    }
}
