//! Files, and what calls on them do (ISO 1989:1985, "Sequential I-O").
ghost use Rattle.std.specs.Prelude.{◌≡◌, ◌≤◌, ◌+◌, ◌++◌, length, nat_le, if◌then◌else◌, IfSome, IfOk};
ghost use Rattle.std.specs.Option.{option_map, option_copied};
ghost use Rattle.cob_runs.specs.Contents.{fitted};
ghost use Rattle.cob_runs.specs.Files.{file, closed, opened_new, opened, after_close, bytes_in, taken, taken_from, record_at, after_read, after_write};
ghost use Rattle.cob_world.specs.Calling.{bytes_of, end_from, as_found};
ghost use Rattle.cob_world.specs.Views.{plain_mode};

use crate::areas::append_text;
use std::alloc::{AllocError, Global};
use std::marker::Model;
use std::mem;

/// Whether a file is open, and for what; of one that is read, whether its end was met.
#[derive(Clone, Copy)]
pub enum FileMode {
    Closed,
    Reading { ended: bool },
    Writing,
}

/// A file: its bytes if it is there, which are its records, one behind the other; its mode; and how many bytes were read.
#[derive(Drop)]
pub struct File {
    content: Option<Vec<u8>>,
    mode: FileMode,
    place: usize,
}

impl Model for File {
    ghost use Rattle.std.specs.Option.{option_map};
    ghost use Rattle.cob_runs.specs.Files.{File, file};
    ghost use Rattle.cob_world.specs.Views.{plain_mode};

    ghost Value = { File };

    ghost view = { λ f. file (option_map (λ v. v.items) f.content) (plain_mode f.mode) f.place };
}

/// What a READ finds: the place of a record among the file's bytes if there is one, and the status.
#[derive(Clone, Copy, Drop)]
pub struct Taken {
    pub found: Option<usize>,
    pub status: u8,
}

impl File {
    /// A closed file with these bytes, if it is there.
    pub fn closed(content: Option<Vec<u8>>) -> File
        ensures { result ≡ file (option_map (λ v. v.items) content) closed 0 }
    {
        File {
            content,
            mode: FileMode::Closed,
            place: 0,
        }
    }

    /// Its bytes, if it is there.
    pub fn bytes(&self) -> Option<&[u8]>
        ensures { option_copied result ≡ self.now.content }
    {
        match &self.content {
            None => None,
            Some(bytes) => Some(bytes.as_slice()),
        }
    }

    /// Its bytes; none if it isn't there.
    pub fn all(&self) -> &[u8]
        ensures { result.now ≡ bytes_in self.now }
    {
        match &self.content {
            None => &[],
            Some(bytes) => bytes.as_slice(),
        }
    }

    /// Its mode.
    pub fn mode(&self) -> FileMode
        ensures { plain_mode result ≡ self.now.mode }
    {
        self.mode
    }

    /// How many of its bytes were read.
    pub fn place(&self) -> usize
        ensures { result ≡ self.now.place }
    {
        self.place
    }

    /// Puts other bytes in place of its own. Its mode and its place stay.
    pub fn refill(&mut self, content: Option<Vec<u8>>)
        ensures { self.new ≡ file (option_map (λ v. v.items) content) self.old.mode self.old.place }
    {
        self.content = content;
    }

    /// Puts other bytes in place of its own, of which so many were read, and gives those that stood there. Its mode
    /// stays.
    pub fn replace(&mut self, content: Option<Vec<u8>>, place: usize) -> Option<Vec<u8>>
        ensures file { self.new ≡ file (option_map (λ v. v.items) content) self.old.mode place }
        ensures gives { option_map (λ v. v.items) result ≡ self.old.content }
    {
        self.place = place;
        mem::replace(&mut self.content, content)
    }

    // OPEN OUTPUT empties the file or makes it; OPEN INPUT wants it to be there.
    fn open_new(&mut self, alloc: Global, output: bool) -> u8
        ensures { (self.new, result) ≡ opened_new output self.old.content }
    {
        self.place = 0;
        if output {
            self.content = Some(Vec::new(alloc));
            self.mode = FileMode::Writing;
            return 0;
        }
        match &self.content {
            None => {
                self.mode = FileMode::Closed;
                35
            }
            Some(_) => {
                self.mode = FileMode::Reading { ended: false };
                0
            }
        }
    }

    /// OPEN, and its status (ISO 1989:1985, "The OPEN statement").
    pub fn open(&mut self, alloc: Global, output: bool) -> u8
        ensures { (self.new, result) ≡ opened output self.old }
    {
        match self.mode {
            FileMode::Closed => self.open_new(alloc, output),
            FileMode::Reading { .. } | FileMode::Writing => 41,
        }
    }

    /// CLOSE, and its status (ISO 1989:1985, "The CLOSE statement").
    pub fn close(&mut self) -> u8
        ensures { (self.new, result) ≡ after_close self.old }
    {
        match self.mode {
            FileMode::Closed => 42,
            FileMode::Reading { .. } | FileMode::Writing => {
                self.mode = FileMode::Closed;
                self.place = 0;
                0
            }
        }
    }

    // Where the next record ends, if all of it is there.
    fn next_end(&self, size: u32) -> Option<usize>
        ensures { result ≡ end_from size self.now.place (length (bytes_in self.now)) }
    {
        match self.place.checked_add(size as usize) {
            None => None,
            Some(end) => end_within(end, self.all().len()),
        }
    }

    // Takes the next record, or else meets the end.
    fn take_next(&mut self, size: u32) -> Taken
        ensures value { taken self.new (as_found size (bytes_in self.old) result.found) result.status
            ≡ taken_from size self.old (record_at size self.old) }
        ensures within { IfSome result.found (λ place. place + size ≤ length (bytes_in self.old)) }
    {
        match self.next_end(size) {
            None => {
                self.mode = FileMode::Reading { ended: true };
                none_taken(10)
            }
            Some(end) => {
                let place = self.place;
                self.mode = FileMode::Reading { ended: false };
                self.place = end;
                Taken {
                    found: Some(place),
                    status: 0,
                }
            }
        }
    }

    /// READ of a record of so many bytes, if the file is read and has one, and the status (ISO 1989:1985, "The READ
    /// statement").
    pub fn take(&mut self, size: u32) -> Taken
        ensures value { taken self.new (as_found size (bytes_in self.old) result.found) result.status
            ≡ after_read size self.old }
        ensures within { IfSome result.found (λ place. place + size ≤ length (bytes_in self.old)) }
    {
        match self.mode {
            FileMode::Closed | FileMode::Writing => none_taken(47),
            FileMode::Reading { ended: true } => none_taken(46),
            FileMode::Reading { ended: false } => self.take_next(size),
        }
    }

    /// WRITE of a record of so many bytes, cut on the right or filled with spaces there, and the status (ISO 1989:1985,
    /// "The WRITE statement").
    pub fn write(&mut self, alloc: Global, record: &[u8], size: u32) -> Result<u8, AllocError>
        ensures { IfOk result (λ status. (self.new, status) ≡ after_write (fitted size record.now) self.old) }
    {
        match self.mode {
            FileMode::Closed | FileMode::Reading { .. } => Ok(48),
            FileMode::Writing => {
                self.content = Some(grown(alloc, self.content.take(), record, size)?);
                Ok(0)
            }
        }
    }
}

fn none_taken(status: u8) -> Taken
    ensures found { result.found ≡ None }
    ensures status { result.status ≡ status }
{
    Taken {
        found: None,
        status,
    }
}

// A place that isn't past so many bytes.
fn end_within(end: usize, count: usize) -> Option<usize>
    ensures { result ≡ (if nat_le end count then Some end else None) }
{
    if end <= count { Some(end) } else { None }
}

// Bytes with one record more behind them.
fn grown(
    alloc: Global,
    content: Option<Vec<u8>>,
    record: &[u8],
    size: u32,
) -> Result<Vec<u8>, AllocError>
    ensures { IfOk result (λ all. all.items ≡ bytes_of (option_map (λ v. v.items) content) ++ fitted size record.now) }
{
    let mut all = match content {
        None => Vec::new(alloc),
        Some(bytes) => bytes,
    };
    append_text(&mut all, record, size)?;
    Ok(all)
}
