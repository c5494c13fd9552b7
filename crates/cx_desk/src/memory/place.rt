//! Where a slot of a desk in memory reads.
ghost use Rattle.std.specs.Prelude.{◌≡◌, ◌≤◌, ◌<◌, None, false, length, option_map, string_bytes, MatchOption, Some};
ghost use Rattle.cx_desk.specs.Outside.{file_named};
ghost use Rattle.cx_desk.specs.Place.{named, bytes_at, rest_of, IsPlaced, StartsAt, MovesOn};

use super::NamedFile;
use crate::Failed;

/// The name that was asked for; the file and the place in it once there is one; and whether a read gave the end.
#[derive(Drop)]
pub(super) struct FilePlace {
    name: Option<String>,
    file: Option<usize>,
    at: usize,
    ended: bool,
}

/// The index of the first file of this name.
pub(super) fn index_of(files: &[NamedFile], name: &str) -> Option<usize>
    ensures { MatchOption result
        (file_named name.now (named files.now) ≡ None)
        (λ i. file_named name.now (named files.now) ≡ Some (bytes_at files.now (Some i))) }
{
    for i in 0..files.len() {
        if files[i].name.as_str() == name {
            return Some(i);
        }
    }
    None
}

impl FilePlace {
    pub(super) fn nowhere() -> Self
        ensures { result ≡ record { name = None; file = None; at = 0; ended = false } }
    {
        FilePlace {
            name: None,
            file: None,
            at: 0,
            ended: false,
        }
    }

    /// Keeps the name, and goes to the start of the file of this name, unless that is to fail.
    pub(super) fn start(
        &mut self,
        files: &[NamedFile],
        name: String,
        fails: bool,
    ) -> Result<(), Failed>
        ensures starts { StartsAt files.now (string_bytes name) fails self.old result self.new }
        ensures placed { option_map string_bytes self.old.name ≡ None → IsPlaced files.now self.old → IsPlaced files.now self.new }
    {
        let found = index_of(files, name.as_str());
        self.name = Some(name);
        if fails {
            return Err(Failed);
        }
        let Some(file) = found else {
            return Err(Failed);
        };
        self.file = Some(file);
        self.at = 0;
        self.ended = false;
        Ok(())
    }

    /// What is left to be read: nothing where there is no file.
    fn rest<'a>(&self, files: &'a [NamedFile]) -> &'a [u8]
        ensures { result.now ≡ rest_of files.entry.now self.now }
    {
        let Some(file) = self.file.and_then(|index| files.get(index)) else {
            return &[];
        };
        file.bytes.get(self.at..).unwrap_or(&[])
    }

    /// Moves the next bytes, at most `most` of them.
    pub(super) fn read(&mut self, files: &[NamedFile], most: usize, into: &mut [u8]) -> usize
        requires most { 1 ≤ most }
        requires room { 0 < length into.old }
        ensures moves { MovesOn files.now most (length into.old) self.old result self.new into.new }
        ensures placed { IsPlaced files.now self.old → IsPlaced files.now self.new }
    {
        let rest = self.rest(files);
        let count = rest.len().min(into.len()).min(most);
        into[..count].copy_from_slice(&rest[..count]);
        // Where no byte is left, the place may be anywhere after the end, so it stays.
        if count == 0 {
            self.ended = true;
        } else {
            self.at += count;
        }
        count
    }
}
