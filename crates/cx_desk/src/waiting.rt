//! Bytes that wait to be written.
ghost use Rattle.std.specs.Prelude.{◌≡◌, ◌≤◌, ◌<◌, [], ◌++◌, length, drop, false, true, IfOk};
ghost use Rattle.cx_desk.specs.Spooled.{Pushes};

use std::alloc::{AllocError, Global};
use std::marker::Model;

/// The most bytes that wait.
const SPOOL: usize = 65_536;

/// Bytes that wait, in a buffer of a fixed length.
#[derive(Drop)]
pub(crate) struct Waiting {
    buffer: Vec<u8>,
    at: usize,
    end: usize,
    full: bool,
}

impl Model for Waiting {
    ghost use Rattle.std.specs.Prelude.{◌≡◌, ◌<◌, ◌≤◌, ◌-◌, List, ℕ, Bool, false, take, drop, length};
    ghost use Rattle.cx_desk.specs.declared.waiting.TheConstants.{SPOOL};

    ghost Value = { List ℕ × Bool };

    ghost view = { λ w. (take (w.end - w.at) (drop w.at w.buffer.items), w.full) };

    ghost invariant = { λ w. (w.at ≤ w.end) × (w.end ≤ length w.buffer.items) × (length w.buffer.items ≡ SPOOL) × (w.full ≡ false → w.end < length w.buffer.items) };
}

impl Waiting {
    /// Nothing waits.
    pub fn new(alloc: Global) -> Result<Waiting, AllocError>
        ensures { IfOk result (λ w. w.0 ≡ []) }
    {
        let mut buffer = Vec::new(alloc);
        buffer.resize(SPOOL, 0)?;
        Ok(Waiting {
            buffer,
            at: 0,
            end: 0,
            full: false,
        })
    }

    /// The bytes that wait.
    pub fn bytes(&self) -> &[u8]
        ensures { result.now ≡ self.now.0 }
    {
        &self.buffer[self.at..self.end]
    }

    /// Whether nothing waits.
    pub fn is_empty(&self) -> bool
        ensures { result ≡ true → self.now.0 ≡ [] }
    {
        self.at == self.end
    }

    /// Whether no byte more may wait.
    pub fn is_full(&self) -> bool
        ensures { result ≡ self.now.1 }
    {
        self.full
    }

    /// The first bytes wait no more.
    pub fn pass(&mut self, count: usize)
        requires { count ≤ length self.old.0 }
        ensures { self.new.0 ≡ drop count self.old.0 }
    {
        self.at += count;
    }

    /// None waits any more.
    pub fn clear(&mut self)
        ensures none { self.new.0 ≡ [] }
        ensures room { self.new.1 ≡ false }
    {
        self.at = 0;
        self.end = 0;
        self.full = false;
    }

    /// As long a prefix of a piece as there is room for waits too; says how long.
    pub fn push(&mut self, piece: &[u8]) -> usize
        requires room { self.old.1 ≡ false }
        requires some { 0 < length piece.now }
        ensures { Pushes piece.now self.old.0 result self.new.0 }
    {
        let count = piece.len().min(SPOOL - self.end);
        let end = self.end + count;
        self.buffer[self.end..end].copy_from_slice(&piece[..count]);
        self.end = end;
        self.full = end == SPOOL;
        count
    }
}
