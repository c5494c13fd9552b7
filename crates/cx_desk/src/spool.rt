//! A desk whose bytes of the proof wait until there are many.
ghost use Rattle.std.specs.Prelude.{◌≡◌, ◌<◌, length, [], false, IfOk, OnOk};
ghost use Rattle.cx_desk.specs.declared.desk.Port.TheVariants.{Answer, Proof};
ghost use Rattle.cx_desk.specs.Calls.{Puts};
ghost use Rattle.cx_desk.specs.Spooled.{waiting_in, spooled, Flushes, MakesRoom, IsWrittenBefore, Finishes, spooled_agrees};

use crate::waiting::Waiting;
use crate::{Desk, Failed, Port, Slot, Unwritten};
use std::alloc::{AllocError, Global};

/// A desk that writes the proof in pieces of 65,536 bytes, once the Proof port was given its file; before that, at once.
///
/// It shows on the Proof port what the desk below took and, after that, what waits. So a failed write loses no byte: what was
/// not taken waits still. Nothing waits once an answer goes out, and once the spool is finished.
#[derive(Drop)]
pub struct Spool<D> {
    desk: D,
    waiting: Waiting,
    has_file: bool,
}

impl<D: Desk> Spool<D> {
    /// Nothing waits.
    pub fn new(alloc: Global, desk: D) -> Result<Spool<D>, AllocError>
    where
        D: Drop,
        ensures { IfOk result (λ s. spooled D.outside s ≡ D.outside desk) }
    {
        let waiting = Waiting::new(alloc)?;
        Ok(Spool {
            desk,
            waiting,
            has_file: false,
        })
    }

    /// Writes all that waits.
    // A long way off the path of pieces that only wait, which is to stay short.
    #[inline(never)]
    fn flush(&mut self) -> Result<(), Failed>
        ensures writes { Flushes (D.outside self.old.desk) self.old.waiting.0 result (D.outside self.new.desk) self.new.waiting.0 }
        ensures room { OnOk result (self.new.waiting.1 ≡ false) }
    {
        while !self.waiting.bytes().is_empty() {
            let count = self.desk.put(Port::Proof, self.waiting.bytes())?;
            self.waiting.pass(count);
        }
        self.waiting.clear();
        Ok(())
    }

    /// Has room for at least one byte more: where it is full, all that waits is written first.
    fn make_room(&mut self) -> Result<(), Failed>
        ensures { MakesRoom (D.outside self.old.desk) self.old.waiting.0 result (D.outside self.new.desk) self.new.waiting.0 self.new.waiting.1 }
    {
        if self.waiting.is_full() {
            return self.flush();
        }
        Ok(())
    }

    /// A prefix of a piece of the proof waits.
    fn hold(&mut self, piece: &[u8]) -> Result<usize, Failed>
        requires { 0 < length piece.now }
        ensures { Puts Proof piece.now (spooled D.outside self.old) result (spooled D.outside self.new) }
    {
        self.make_room()?;
        Ok(self.waiting.push(piece))
    }

    /// A piece of the proof waits where the port has its file, or others wait already; otherwise the desk below takes it at once.
    fn put_proof(&mut self, piece: &[u8]) -> Result<usize, Failed>
        requires { 0 < length piece.now }
        ensures { Puts Proof piece.now (spooled D.outside self.old) result (spooled D.outside self.new) }
    {
        if self.has_file || !self.waiting.is_empty() {
            return self.hold(piece);
        }
        self.desk.put(Port::Proof, piece)
    }

    /// Puts a piece of the answer on the desk below, after all that waits.
    fn put_answer(&mut self, piece: &[u8]) -> Result<usize, Failed>
        requires { 0 < length piece.now }
        ensures puts { Puts Answer piece.now (spooled D.outside self.old) result (spooled D.outside self.new) }
        ensures none { OnOk result (waiting_in self.new ≡ []) }
    {
        self.flush()?;
        self.desk.put(Port::Answer, piece)
    }

    /// Writes all that waits, and gives the desk back, with what came of that.
    pub fn finish(self) -> (D, Result<(), Failed>)
    where
        D: Drop,
        ensures { Finishes (spooled D.outside self) result.1 (D.outside result.0) }
    {
        let mut spool = self;
        let written = spool.flush();
        (spool.desk, written)
    }
}

impl<D: Desk> Desk for Spool<D> {
    ghost outside = { spooled D.outside };

    ghost agrees = { λ s. spooled_agrees (waiting_in s) (D.outside s.desk) (D.outside s.desk).files (D.agrees s.desk) };

    fn start(&mut self, slot: Slot, name: String) -> Result<(), Failed> {
        self.desk.start(slot, name)
    }

    fn read(&mut self, slot: Slot, into: &mut [u8]) -> Result<usize, Failed> {
        self.desk.read(slot, into)
    }

    fn create(&mut self, name: String) -> Result<(), Failed> {
        self.desk.create(name)?;
        self.waiting.clear();
        self.has_file = true;
        Ok(())
    }

    /// An answer goes out only where nothing of the proof waits.
    fn put(&mut self, port: Port, piece: &[u8]) -> Result<usize, Failed>
        requires { 0 < length piece.now }
        ensures puts { Puts port piece.now (spooled D.outside self.old) result (spooled D.outside self.new) }
        ensures none { IsWrittenBefore port result (waiting_in self.new) }
    {
        match port {
            Port::Proof => self.put_proof(piece),
            Port::Answer => self.put_answer(piece),
            Port::Message => self.desk.put(Port::Message, piece),
        }
    }

    /// The desk below may take a text of the proof where nothing waits that it would overtake.
    fn take_unwritten(&mut self, port: Port, text: &Unwritten) -> bool {
        match port {
            Port::Proof => {
                self.waiting.is_empty() && self.desk.take_unwritten(Port::Proof, text)
            }
            Port::Answer | Port::Message => false,
        }
    }
}
