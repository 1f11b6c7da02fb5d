//! Files and a sink in memory, for tests.
ghost use Rattle.std.specs.Prelude.{◌≡◌, ◌≤◌, ◌<◌, ◌++◌, ◌-◌, ℕ, [], length, take, drop, min, option_copied, option_map, OnOk, OnErr, IfOk, Some, IsSome};
ghost use Rattle.std.specs.FinMap.{get, insert};
ghost use Rattle.batch_io.specs.FilesState.{bytes_at, Reading, Writing};
ghost use Rattle.batch_io.specs.Memory.{place_of, contents_of, purpose_of, ReadsOn, ReadsSlot};
ghost use Rattle.batch_io.specs.Slots.{slot_at};

use crate::ends::{Failed, MakeEnd, OpenEnd};
use crate::failing::FailingCalls;
use crate::most::Most;
use crate::outside::{Files, Sink};
use crate::slots::{add_slot, end_slot};
use std::alloc::{AllocError, Global};

// A file that is open for reading: its name, and the number of its bytes that were read.
#[derive(Drop)]
struct Reader {
    name: String,
    place: usize,
}

// What an open id stands for; a file that is open for writing by its name.
#[derive(Drop)]
enum Opened {
    Reading(Reader),
    Writing(String),
}

/// Files in memory, which tell all that they hold. The calls of given numbers fail, and a read or a write may be made to
/// take few bytes.
#[derive(Drop)]
pub struct MemFiles {
    alloc: Global,
    files: Vec<(String, Vec<u8>)>,
    slots: Vec<Option<Opened>>,
    calls: FailingCalls,
    reading: u64,
    writing: u64,
    most: Most,
}

/// A sink in memory, which tells all that it took. The calls of given numbers fail, and a write may be made to take few
/// bytes.
#[derive(Drop)]
pub struct MemSink {
    text: Vec<u8>,
    calls: FailingCalls,
    faults: u64,
    most: Most,
}

// The place of the first file of this name.
fn place(files: &Vec<(String, Vec<u8>)>, name: &str) -> Option<usize>
    ensures { result ≡ place_of files.now.items name.now }
{
    files.iter().position(|file| file.0.as_str() == name)
}

// The bytes of this name.
fn find<'a>(files: &'a Vec<(String, Vec<u8>)>, name: &str) -> Option<&'a [u8]>
    ensures { option_copied result ≡ get (contents_of files.now.items) name.now }
{
    let place = place(files, name)?;
    Some(files[place].1.as_slice())
}

// Makes the file of this name empty.
fn clear(alloc: Global, files: &mut Vec<(String, Vec<u8>)>, name: &str) -> Result<(), AllocError>
    ensures ok { OnOk result (contents_of files.new.items ≡ insert (contents_of files.old.items) name.now []) }
    ensures err { OnErr result (contents_of files.new.items ≡ contents_of files.old.items) }
{
    match place(files, name) {
        Some(place) => files[place].1.clear(),
        None => files.push((String::from_str(alloc, name)?, Vec::new(alloc)))?,
    }
    Ok(())
}

// Puts the piece at the end of the file of this name.
fn append(
    alloc: Global,
    files: &mut Vec<(String, Vec<u8>)>,
    name: &str,
    piece: &[u8],
) -> Result<(), AllocError>
    ensures ok { let contents = contents_of files.old.items in
        OnOk result (contents_of files.new.items
        ≡ insert contents name.now (bytes_at contents name.now ++ piece.now)) }
    ensures err { OnErr result (contents_of files.new.items ≡ contents_of files.old.items) }
{
    match place(files, name) {
        Some(place) => files[place].1.extend_from_slice(piece)?,
        None => files.push((
            String::from_str(alloc, name)?,
            Vec::from_slice(alloc, piece)?,
        ))?,
    }
    Ok(())
}

// Copies the bytes from `place` on to the front of `buf`, as many as fit but at most `most`, and says how many.
fn copy_from(bytes: &[u8], place: usize, buf: &mut [u8], most: Most) -> usize
    ensures count { result ≡ min (min (length bytes.now - place) (length buf.old)) most.bytes }
    ensures front { take result buf.new ≡ take result (drop place bytes.now) }
{
    let rest = bytes.get(place..).unwrap_or(&[]);
    let count = most.front(rest.len().min(buf.len()));
    buf[..count].copy_from_slice(&rest[..count]);
    count
}

// Reads from the reader's place on, at most `most` bytes, and moves the place past what was read.
fn read_on(files: &Vec<(String, Vec<u8>)>, reader: &mut Reader, buf: &mut [u8], most: Most) -> usize
    requires { 0 < length buf.old }
    ensures on { ReadsOn (contents_of files.now.items) reader.old reader.new buf.new result }
    ensures most { result ≤ most.bytes }
{
    let bytes = find(files, reader.name.as_str()).unwrap_or(&[]);
    let count = copy_from(bytes, reader.place, buf, most);
    reader.place += count;
    count
}

// Reads from the file of an id that is open for reading, at most `most` bytes.
fn read_slot(
    files: &Vec<(String, Vec<u8>)>,
    slots: &mut Vec<Option<Opened>>,
    id: u32,
    buf: &mut [u8],
    most: Most,
) -> usize
    requires opened { option_map purpose_of (slot_at slots.old.items id) ≡ Some Reading }
    requires room { 0 < length buf.old }
    ensures slot { ReadsSlot (contents_of files.now.items) slots.old.items slots.new.items id buf.new result }
    ensures most { result ≤ most.bytes }
{
    match &mut slots[id as usize] {
        Some(Opened::Reading(reader)) => read_on(files, reader, buf, most),
        _ => unreachable!(),
    }
}

impl MemFiles {
    ghost use Rattle.std.specs.Prelude.{IfSome};
    ghost use Rattle.batch_io.specs.FilesState.{known_bytes};
    ghost use Rattle.batch_io.specs.Memory.{mem_files, files_calls, files_most, StartsFiles};

    /// These files, whose names are to differ, and no id open. The calls of the numbers in `failing`
    /// fail; the first call on the object has the number 1.
    pub fn new(alloc: Global, files: Vec<(String, Vec<u8>)>, failing: Vec<u64>) -> MemFiles
        ensures { StartsFiles files.items failing.items result }
    {
        MemFiles {
            alloc,
            files,
            slots: Vec::new(alloc),
            calls: FailingCalls::new(failing),
            reading: 0,
            writing: 0,
            most: Most::all(),
        }
    }

    /// From now on each read and each write counts at most `most` bytes. All else stays, and no memory is taken.
    pub fn slow(&mut self, most: usize)
        requires some { 1 ≤ most }
        ensures state { mem_files self.new ≡ mem_files self.old }
        ensures calls { files_calls self.new ≡ files_calls self.old }
        ensures most { files_most self.new ≡ most }
    {
        self.most = Most::of(most);
    }

    /// The bytes of this name.
    pub fn bytes(&self, name: &str) -> Option<&[u8]>
        ensures { IfSome (known_bytes (mem_files self.now)) (λ contents. option_copied result ≡ get contents name.now) }
    {
        find(&self.files, name)
    }
}

impl Files for MemFiles {
    ghost use Rattle.std.specs.Prelude.{is_err};
    ghost use Rattle.batch_io.specs.Faults.{open_failed, make_failed};
    ghost use Rattle.batch_io.specs.FilesCalls.{Opens, Creates, Reads, Writes, Closes};
    ghost use Rattle.batch_io.specs.Failing.{NumbersCall};
    ghost use Rattle.batch_io.specs.Memory.{mem_files, files_calls, files_most};

    ghost state = { mem_files };

    fn open(&mut self, name: &str) -> Result<u32, OpenEnd>
        ensures call { Opens (mem_files self.old) (mem_files self.new) name.now result }
        ensures numbered { NumbersCall (files_calls self.old) (files_calls self.new) (open_failed result) }
        ensures slowness { files_most self.new ≡ files_most self.old }
    {
        if self.calls.next_fails() {
            self.reading = self.reading.saturating_add(1);
            return Err(OpenEnd::Failed);
        }
        if find(&self.files, name).is_none() {
            return Err(OpenEnd::Absent);
        }
        let name = String::from_str(self.alloc, name)?;
        Ok(add_slot(&mut self.slots, Opened::Reading(Reader { name, place: 0 }))?)
    }

    fn create(&mut self, name: &str) -> Result<u32, MakeEnd>
        ensures call { Creates (mem_files self.old) (mem_files self.new) name.now result }
        ensures numbered { NumbersCall (files_calls self.old) (files_calls self.new) (make_failed result) }
        ensures slowness { files_most self.new ≡ files_most self.old }
    {
        if self.calls.next_fails() {
            self.writing = self.writing.saturating_add(1);
            return Err(MakeEnd::Failed);
        }
        clear(self.alloc, &mut self.files, name)?;
        let name = String::from_str(self.alloc, name)?;
        Ok(add_slot(&mut self.slots, Opened::Writing(name))?)
    }

    fn read(&mut self, id: u32, buf: &mut [u8]) -> Result<usize, Failed>
        requires opened { (mem_files self.old).purpose id ≡ Some Reading }
        requires room { 0 < length buf.old }
        ensures call { Reads (mem_files self.old) (mem_files self.new) id buf.new result }
        ensures numbered { NumbersCall (files_calls self.old) (files_calls self.new) (is_err result) }
        ensures slowness { files_most self.new ≡ files_most self.old }
        ensures most { IfOk result (λ count. count ≤ files_most self.old) }
    {
        if self.calls.next_fails() {
            self.reading = self.reading.saturating_add(1);
            return Err(Failed);
        }
        Ok(read_slot(&self.files, &mut self.slots, id, buf, self.most))
    }

    fn write(&mut self, id: u32, piece: &[u8]) -> Result<usize, MakeEnd>
        requires created { (mem_files self.old).purpose id ≡ Some Writing }
        ensures call { Writes (mem_files self.old) (mem_files self.new) id piece.now result }
        ensures numbered { NumbersCall (files_calls self.old) (files_calls self.new) (make_failed result) }
        ensures slowness { files_most self.new ≡ files_most self.old }
        ensures most { IfOk result (λ count. count ≤ files_most self.old) }
    {
        if self.calls.next_fails() {
            self.writing = self.writing.saturating_add(1);
            return Err(MakeEnd::Failed);
        }
        let Some(Some(Opened::Writing(name))) = self.slots.get(id as usize) else {
            unreachable!()
        };
        let count = self.most.front(piece.len());
        append(self.alloc, &mut self.files, name.as_str(), &piece[..count])?;
        Ok(count)
    }

    fn close(&mut self, id: u32) -> Result<(), Failed>
        requires live { IsSome ((mem_files self.old).purpose id) }
        ensures call { Closes (mem_files self.old) (mem_files self.new) id result }
        ensures numbered { NumbersCall (files_calls self.old) (files_calls self.new) (is_err result) }
        ensures slowness { files_most self.new ≡ files_most self.old }
    {
        let fails = self.calls.next_fails();
        let opened = end_slot(&mut self.slots, id);
        if !fails {
            return Ok(());
        }
        match opened {
            Some(Opened::Writing(_)) => self.writing = self.writing.saturating_add(1),
            _ => self.reading = self.reading.saturating_add(1),
        }
        Err(Failed)
    }
}

impl MemSink {
    ghost use Rattle.std.specs.Prelude.{IfSome};
    ghost use Rattle.batch_io.specs.Memory.{mem_sink, sink_calls, sink_most, StartsSink};

    /// An empty sink. The calls of the numbers in `failing` fail; the first call has the number 1.
    pub fn new(alloc: Global, failing: Vec<u64>) -> MemSink
        ensures { StartsSink failing.items result }
    {
        MemSink {
            text: Vec::new(alloc),
            calls: FailingCalls::new(failing),
            faults: 0,
            most: Most::all(),
        }
    }

    /// From now on each write counts at most `most` bytes. All else stays, and no memory is taken.
    pub fn slow(&mut self, most: usize)
        requires some { 1 ≤ most }
        ensures state { mem_sink self.new ≡ mem_sink self.old }
        ensures calls { sink_calls self.new ≡ sink_calls self.old }
        ensures most { sink_most self.new ≡ most }
    {
        self.most = Most::of(most);
    }

    /// What the sink took.
    pub fn bytes(&self) -> &[u8]
        ensures { (mem_sink self.now).told ≡ Some result.now }
    {
        self.text.as_slice()
    }
}

impl Sink for MemSink {
    ghost use Rattle.batch_io.specs.Faults.{make_failed};
    ghost use Rattle.batch_io.specs.SinkCalls.{Takes};
    ghost use Rattle.batch_io.specs.Failing.{NumbersCall};
    ghost use Rattle.batch_io.specs.Memory.{mem_sink, sink_calls, sink_most};

    ghost state = { mem_sink };

    fn write(&mut self, piece: &[u8]) -> Result<usize, MakeEnd>
        ensures call { Takes (mem_sink self.old) (mem_sink self.new) piece.now result }
        ensures numbered { NumbersCall (sink_calls self.old) (sink_calls self.new) (make_failed result) }
        ensures slowness { sink_most self.new ≡ sink_most self.old }
        ensures most { IfOk result (λ count. count ≤ sink_most self.old) }
    {
        if self.calls.next_fails() {
            self.faults = self.faults.saturating_add(1);
            return Err(MakeEnd::Failed);
        }
        let count = self.most.front(piece.len());
        self.text.extend_from_slice(&piece[..count])?;
        Ok(count)
    }
}
