//! The desk over the system.
ghost use Rattle.std.specs.Prelude.{◌≡◌, true, false};
ghost use Rattle.cx_desk.specs.Calls.{TakesUnwritten};
ghost use Rattle.cx_system.specs.Real.{outside_of, has_file, IsUntouched};

use crate::source::{RealSlot, id_of, read_at, start_at};
use crate::streams::{count_fault, put_on};
use cx_desk::{Desk, Failed, Port, Slot, Transcript, Unwritten};
use std::fs::{File, OpenOptions};

/// Files by name, standard input, standard output and standard error, with a count of the faults.
///
/// A write goes to the system at once. Bytes of the Proof port are dropped until it was given a file. What each read gave and
/// each write took is noted, which takes no memory.
#[derive(Drop)]
pub struct RealDesk {
    rt: HostRuntime,
    formula: RealSlot,
    second: RealSlot,
    proof_name: Option<String>,
    proof: Option<File>,
    answer: Transcript,
    log: Transcript,
    message: Transcript,
    read_faults: u64,
    write_faults: u64,
    message_faults: u64,
}

/// Opens a file that is written from its start. One that a slot reads is left as it is, by whatever name it is meant:
/// otherwise a log would be lost where its proof is to come in its place.
fn create_at(rt: &HostRuntime, formula: &RealSlot, second: &RealSlot, name: &str) -> Option<File> {
    let file = match OpenOptions::new().write(true).create(true).open(rt, name) {
        Ok(file) => file,
        Err(_) => return None,
    };
    if let Some(id) = id_of(&file) {
        if formula.reads(id) || second.reads(id) || file.set_len(0).is_err() {
            return None;
        }
    }
    Some(file)
}

impl RealDesk {
    /// A desk that was asked for nothing.
    pub fn new(rt: HostRuntime) -> Self
        ensures { IsUntouched (outside_of result) }
    {
        RealDesk {
            rt,
            formula: RealSlot::none(),
            second: RealSlot::none(),
            proof_name: None,
            proof: None,
            answer: Transcript::new(),
            log: Transcript::new(),
            message: Transcript::new(),
            read_faults: 0,
            write_faults: 0,
            message_faults: 0,
        }
    }
}

impl Desk for RealDesk {
    ghost outside = { outside_of };

    ghost agrees = { λ _. tt };

    fn start(&mut self, slot: Slot, name: String) -> Result<(), Failed> {
        match slot {
            Slot::Formula => {
                start_at(
                    &self.rt,
                    &mut self.formula,
                    &mut self.read_faults,
                    name,
                    true,
                )
            }
            Slot::Second => {
                start_at(
                    &self.rt,
                    &mut self.second,
                    &mut self.read_faults,
                    name,
                    false,
                )
            }
        }
    }

    fn read(&mut self, slot: Slot, into: &mut [u8]) -> Result<usize, Failed> {
        let read = match slot {
            Slot::Formula => read_at(
                &self.rt,
                &mut self.formula.stream,
                &mut self.formula.gave,
                into,
            ),
            Slot::Second => read_at(
                &self.rt,
                &mut self.second.stream,
                &mut self.second.gave,
                into,
            ),
        };
        match read {
            Some(count) => Ok(count),
            None => {
                count_fault(&mut self.read_faults);
                Err(Failed)
            }
        }
    }

    fn create(&mut self, name: String) -> Result<(), Failed> {
        let made = create_at(&self.rt, &self.formula, &self.second, name.as_str());
        self.proof_name = Some(name);
        match made {
            Some(file) => {
                self.proof = Some(file);
                self.log = Transcript::new();
                Ok(())
            }
            None => {
                count_fault(&mut self.write_faults);
                Err(Failed)
            }
        }
    }

    fn put(&mut self, port: Port, piece: &[u8]) -> Result<usize, Failed> {
        match port {
            Port::Answer => put_on(
                &mut self.rt.stdout(),
                &mut self.answer,
                &mut self.write_faults,
                piece,
            ),
            Port::Message => put_on(
                &mut self.rt.stderr(),
                &mut self.message,
                &mut self.message_faults,
                piece,
            ),
            Port::Proof => match &mut self.proof {
                None => {
                    self.log.note(piece);
                    Ok(piece.len())
                }
                Some(file) => put_on(file, &mut self.log, &mut self.write_faults, piece),
            },
        }
    }

    /// Takes a text of the proof that would be dropped, as long as there is no file.
    fn take_unwritten(&mut self, port: Port, text: &Unwritten) -> bool
        ensures takes { TakesUnwritten port text.now.bytes (outside_of self.old) result (outside_of self.new) }
        ensures no_file { result ≡ true → has_file self.old ≡ false }
    {
        match port {
            Port::Proof if self.proof.is_none() => {
                self.log.note_unwritten(text);
                true
            }
            _ => false,
        }
    }
}
