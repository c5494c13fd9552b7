//! A desk without an end: each slot gives one byte for ever.
ghost use Rattle.std.specs.Prelude.{◌≡◌, ◌<◌, ◌+◌, ◌-◌, ◌^◌, length, min, None, true, false, Ok, IsOk, string_bytes};
ghost use Rattle.std.proofs.Math.ListN.{replicate};
ghost use Rattle.cx_desk.specs.Outside.{asked_in, started_in};
ghost use Rattle.cx_desk.specs.Calls.{Starts, Reads, Creates, Puts, TakesUnwritten};
ghost use Rattle.cx_desk.specs.Repeat.{endless, taken_of, byte_of, IsUntouched};

use crate::{Desk, Failed, Port, Slot, Transcript, Unwritten};

/// What a slot was asked for.
#[derive(Drop)]
struct Opening {
    name: Option<String>,
    started: bool,
    gave: Transcript,
}

/// A desk whose slots give one byte for ever, whatever their names, and whose ports take all.
///
/// It knows no files, no call on it fails, and it takes no memory.
#[derive(Drop)]
pub struct RepeatDesk {
    byte: u8,
    taken: u64,
    formula: Opening,
    second: Opening,
    proof: Option<String>,
    answer: Transcript,
    log: Transcript,
    message: Transcript,
}

impl RepeatDesk {
    /// A desk whose slots give this byte.
    pub fn make(byte: u8) -> RepeatDesk
        ensures fresh { IsUntouched result }
        ensures byte { byte_of result ≡ byte }
    {
        RepeatDesk {
            byte,
            taken: 0,
            formula: Opening {
                name: None,
                started: false,
                gave: Transcript::new(),
            },
            second: Opening {
                name: None,
                started: false,
                gave: Transcript::new(),
            },
            proof: None,
            answer: Transcript::new(),
            log: Transcript::new(),
            message: Transcript::new(),
        }
    }

    /// How many bytes both slots have given. At 18,446,744,073,709,551,615 it stays.
    pub fn taken(&self) -> u64
        ensures { result ≡ taken_of self.now }
    {
        self.taken
    }
}

impl Desk for RepeatDesk {
    ghost outside = { endless };

    ghost agrees = { λ _. tt };

    fn start(&mut self, slot: Slot, name: String) -> Result<(), Failed>
        requires { asked_in slot (endless self.old).asked ≡ None }
        ensures starts { Starts slot (string_bytes name) (endless self.old) result (endless self.new) }
        ensures succeeds { IsOk result }
    {
        let opening = Opening {
            name: Some(name),
            started: true,
            gave: Transcript::new(),
        };
        match slot {
            Slot::Formula => self.formula = opening,
            Slot::Second => self.second = opening,
        }
        Ok(())
    }

    /// Fills the whole buffer.
    fn read(&mut self, slot: Slot, into: &mut [u8]) -> Result<usize, Failed>
        requires started { started_in slot (endless self.old).started ≡ true }
        requires room { 0 < length into.old }
        ensures reads { Reads slot into.new (endless self.old) result (endless self.new) }
        ensures fills { (result ≡ Ok (length into.old)) × (into.new ≡ replicate (length into.old) (byte_of self.old)) }
        ensures taken { taken_of self.new ≡ min (taken_of self.old + length into.old) (2 ^ 64 - 1) }
    {
        into.fill(self.byte);
        self.taken = self.taken.saturating_add(into.len() as u64);
        match slot {
            Slot::Formula => self.formula.gave.note(into),
            Slot::Second => self.second.gave.note(into),
        }
        Ok(into.len())
    }

    fn create(&mut self, name: String) -> Result<(), Failed>
        requires { (endless self.old).asked.proof ≡ None }
        ensures creates { Creates (string_bytes name) (endless self.old) result (endless self.new) }
        ensures succeeds { IsOk result }
    {
        self.proof = Some(name);
        self.log = Transcript::new();
        Ok(())
    }

    fn put(&mut self, port: Port, piece: &[u8]) -> Result<usize, Failed>
        requires { 0 < length piece.now }
        ensures puts { Puts port piece.now (endless self.old) result (endless self.new) }
        ensures takes_all { result ≡ Ok (length piece.now) }
    {
        match port {
            Port::Answer => self.answer.note(piece),
            Port::Proof => self.log.note(piece),
            Port::Message => self.message.note(piece),
        }
        Ok(piece.len())
    }

    /// Takes no text.
    fn take_unwritten(&mut self, _port: Port, _text: &Unwritten) -> bool
        ensures takes { TakesUnwritten _port _text.now.bytes (endless self.old) result (endless self.new) }
        ensures never { result ≡ false }
        ensures same { self.new ≡ self.old }
    {
        false
    }
}
