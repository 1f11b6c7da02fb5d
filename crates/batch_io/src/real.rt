//! Files of the system and its standard output. These tell nothing of what they hold.
ghost use Rattle.std.specs.Prelude.{◌≡◌, ◌≤◌, ℕ, length, Some, IfOk, MatchResult};
ghost use Rattle.batch_io.specs.FilesState.{Reading, Writing};
ghost use Rattle.batch_io.specs.Real.{purpose_at, KeepsPurposes};

use crate::ends::{Failed, MakeEnd, OpenEnd};
use crate::outside::{Files, Sink};
use crate::slots::{add_slot, end_slot};
use std::alloc::Global;
use std::io::{BufReader, ErrorKind, Read, Write};
use std::{fs, io, rt};

// How many bytes of a file that is read are taken from the system at once.
const AHEAD: usize = 65_536;

// An open file of the system.
#[derive(Drop)]
enum Stream<F> {
    Reading(BufReader<F>),
    Writing(F),
}

/// The files of the system, by their paths.
#[derive(Drop)]
pub struct RealFiles<R: rt::Files> {
    rt: R,
    alloc: Global,
    slots: Vec<Option<Stream<R::File>>>,
    reading: u64,
    writing: u64,
}

/// The standard output.
#[derive(Drop)]
pub struct StdSink<R: Print> {
    rt: R,
    faults: u64,
}

// Reads from the file of an id that is open for reading.
fn read_slot<F: Read>(
    slots: &mut Vec<Option<Stream<F>>>,
    id: u32,
    buf: &mut [u8],
) -> io::Result<usize>
    requires { purpose_at slots.old.items id ≡ Some Reading }
    ensures kept { KeepsPurposes slots.old.items slots.new.items }
    ensures count { IfOk result (λ count. count ≤ length buf.new) }
{
    match &mut slots[id as usize] {
        Some(Stream::Reading(file)) => file.read(buf),
        _ => unreachable!(),
    }
}

// Writes to the file of an id that is open for writing.
fn write_slot<F: Write>(
    slots: &mut Vec<Option<Stream<F>>>,
    id: u32,
    piece: &[u8],
) -> io::Result<usize>
    requires { purpose_at slots.old.items id ≡ Some Writing }
    ensures kept { KeepsPurposes slots.old.items slots.new.items }
    ensures count { IfOk result (λ count. count ≤ length piece.now) }
{
    match &mut slots[id as usize] {
        Some(Stream::Writing(file)) => file.write(piece),
        _ => unreachable!(),
    }
}

impl<R: rt::Files> RealFiles<R> {
    ghost use Rattle.batch_io.specs.Real.{real_files, StartsUntold};

    /// The files that `rt` reaches, none of them open.
    pub fn new(rt: R, alloc: Global) -> RealFiles<R>
        ensures { StartsUntold (real_files result) }
    {
        RealFiles {
            rt,
            alloc,
            slots: Vec::new(alloc),
            reading: 0,
            writing: 0,
        }
    }
}

impl<R: rt::Files> Files for RealFiles<R> {
    ghost use Rattle.batch_io.specs.Real.{real_files};

    ghost state = { real_files };

    fn open(&mut self, name: &str) -> Result<u32, OpenEnd> {
        match fs::open(&self.rt, name) {
            Ok(file) => match BufReader::with_capacity(self.alloc, AHEAD, file) {
                Ok(reader) => Ok(add_slot(&mut self.slots, Stream::Reading(reader))?),
                Err(_) => Err(OpenEnd::Memory),
            },
            Err(e) if e.kind() == ErrorKind::NotFound => Err(OpenEnd::Absent),
            Err(_) => {
                self.reading = self.reading.saturating_add(1);
                Err(OpenEnd::Failed)
            }
        }
    }

    fn create(&mut self, name: &str) -> Result<u32, MakeEnd> {
        match fs::create(&self.rt, name) {
            Ok(file) => Ok(add_slot(&mut self.slots, Stream::Writing(file))?),
            Err(_) => {
                self.writing = self.writing.saturating_add(1);
                Err(MakeEnd::Failed)
            }
        }
    }

    fn read(&mut self, id: u32, buf: &mut [u8]) -> Result<usize, Failed> {
        match read_slot(&mut self.slots, id, buf) {
            Ok(count) => Ok(count),
            Err(_) => {
                self.reading = self.reading.saturating_add(1);
                Err(Failed)
            }
        }
    }

    fn write(&mut self, id: u32, piece: &[u8]) -> Result<usize, MakeEnd> {
        match write_slot(&mut self.slots, id, piece) {
            Ok(count) if count > 0 || piece.is_empty() => Ok(count),
            _ => {
                self.writing = self.writing.saturating_add(1);
                Err(MakeEnd::Failed)
            }
        }
    }

    fn close(&mut self, id: u32) -> Result<(), Failed> {
        let _ = end_slot(&mut self.slots, id);
        Ok(())
    }
}

impl<R: Print> StdSink<R> {
    ghost use Rattle.std.specs.Prelude.{None};
    ghost use Rattle.batch_io.specs.Real.{std_sink};

    /// The standard output of `rt`.
    pub fn new(rt: R) -> StdSink<R>
        ensures told { (std_sink result).told ≡ None }
        ensures faults { (std_sink result).faults ≡ 0 }
    {
        StdSink { rt, faults: 0 }
    }
}

impl<R: Print> Sink for StdSink<R> {
    ghost use Rattle.batch_io.specs.Real.{std_sink};

    ghost state = { std_sink };

    fn write(&mut self, piece: &[u8]) -> Result<usize, MakeEnd> {
        match self.rt.write_some(piece) {
            Ok(count) if count > 0 || piece.is_empty() => Ok(count),
            _ => {
                self.faults = self.faults.saturating_add(1);
                Err(MakeEnd::Failed)
            }
        }
    }
}
