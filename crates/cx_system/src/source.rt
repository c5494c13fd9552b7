//! A slot over the system.
ghost use Rattle.std.specs.Prelude.{◌≡◌, None, false, string_bytes};
ghost use Rattle.cx_desk.specs.Gave.{nothing};
ghost use Rattle.cx_desk.specs.Noted.{gave_of};
ghost use Rattle.cx_system.specs.Streams.{ReadsNoted, StartsReal};

use crate::streams::{count_fault, read_on};
use cx_desk::{Failed, Transcript};
use std::fs::File;
use std::os::unix::fs::MetadataExt;

/// Where a slot reads from.
#[derive(Drop)]
pub enum Stream {
    Closed,
    Input,
    Open(File),
}

/// A slot: its name, where it reads from, and what that gave.
#[derive(Drop)]
pub struct RealSlot {
    pub name: Option<String>,
    pub stream: Stream,
    pub is_started: bool,
    pub gave: Transcript,
}

/// Which regular file an open one is: it is the same under each of its names.
#[derive(Clone, Copy, PartialEq, Eq, Drop)]
pub struct FileId {
    device: u64,
    inode: u64,
}

/// Which regular file this is; none of streams and devices.
pub fn id_of(file: &File) -> Option<FileId> {
    match file.metadata() {
        Ok(about) if about.is_file() => Some(FileId {
            device: about.dev(),
            inode: about.ino(),
        }),
        _ => None,
    }
}

impl RealSlot {
    /// A slot that was asked for nothing.
    pub fn none() -> Self
        ensures { (result.name ≡ None) × (result.is_started ≡ false) × (gave_of result.gave ≡ nothing) }
    {
        RealSlot {
            name: None,
            stream: Stream::Closed,
            is_started: false,
            gave: Transcript::new(),
        }
    }

    /// Whether it reads from this file.
    pub fn reads(&self, id: FileId) -> bool {
        match &self.stream {
            Stream::Open(file) => id_of(file) == Some(id),
            _ => false,
        }
    }
}

/// Opens a file, or the standard input where that is meant by a dash.
pub fn start_at(
    rt: &HostRuntime,
    source: &mut RealSlot,
    faults: &mut u64,
    name: String,
    dash_is_input: bool,
) -> Result<(), Failed>
    ensures { StartsReal (string_bytes name) source.old faults.old result source.new faults.new }
{
    let stream = if dash_is_input && name.as_str() == "-" {
        Stream::Input
    } else {
        match File::open(rt, name.as_str()) {
            Ok(file) => Stream::Open(file),
            Err(_) => Stream::Closed,
        }
    };
    source.name = Some(name);
    if matches!(stream, Stream::Closed) {
        count_fault(faults);
        return Err(Failed);
    }
    source.stream = stream;
    source.is_started = true;
    source.gave = Transcript::new();
    Ok(())
}

/// Reads from a slot's stream; none where that fails.
pub fn read_at(
    rt: &HostRuntime,
    stream: &mut Stream,
    gave: &mut Transcript,
    into: &mut [u8],
) -> Option<usize>
    ensures { ReadsNoted into.new (gave_of gave.old) result (gave_of gave.new) }
{
    match stream {
        Stream::Closed => None,
        Stream::Input => read_on(&mut rt.stdin(), into, gave),
        Stream::Open(file) => read_on(file, into, gave),
    }
}
