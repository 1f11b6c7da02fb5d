//! Files that are open outside.
ghost use Rattle.std.specs.Prelude.{◌≡◌, ◌<◌, ◌≤◌, ◌+◌, ℕ, Bool, true, false, IfOk, IfErr, IfSome, MatchResult, Some, None, [], length, replicate, slice_get, slice_set};
ghost use Rattle.batch_io.specs.FilesState.{known_bytes, KeepsIds};
ghost use Rattle.cob_interp.specs.Tracking.{IsHeld, IsHeldFor, AreNone, AreOpen, Tracks, purposes_for};
ghost use Rattle.cob_interp.specs.Meeting.{FailsBy};
ghost use Rattle.cob_interp.specs.Readying.{IsRefusal, OpensFor, CreatesFor, CreatesPart, ClosesFor, ClosesAll, GivesRecord, IsRefusedAt, IsFirst, PutsUnder, PutsUnderPart, PutsShort, close_fault, first_refusal};

use crate::ends::RunEnd;
use batch_io::{Failed, Files, MakeEnd, OpenEnd, put_whole, read_record};
use std::alloc::{AllocError, Global};
use std::marker::Model;
use std::mem;

/// The most bytes of a file's records that wait to be written, where a record isn't longer.
const WAITING_LIMIT: usize = 65_536;

/// The id under which a file is open, and whether it's open for writing.
#[derive(Clone, Copy, Drop)]
pub struct Held {
    pub id: u32,
    pub writes: bool,
}

/// The files that are open: the id of each at its place, and its room. That of a file that is read has the length of a
/// record; that of a file that is written waits here only from its opening until the kept file gets it.
#[derive(Drop)]
pub struct Handles {
    ids: Vec<Option<Held>>,
    rooms: Vec<Vec<u8>>,
}

impl Model for Handles {
    ghost use Rattle.cob_interp.specs.Tracking.{Ids};

    ghost Value = { Ids };

    ghost view = { λ i. i.ids.items };
}

// So many bytes of room.
fn room_of(alloc: Global, size: u32) -> Result<Vec<u8>, AllocError> {
    let mut room = Vec::with_capacity(alloc, size as usize)?;
    room.resize(size as usize, 0)?;
    Ok(room)
}

// Room for bytes that wait: so many at most, or one record of this size.
fn waiting_room(alloc: Global, size: u32) -> Result<Vec<u8>, AllocError> {
    Vec::with_capacity(alloc, WAITING_LIMIT.max(size as usize))
}

// the first refusal of two
fn first_of(first: Result<(), RunEnd>, other: Result<(), RunEnd>) -> Result<(), RunEnd>
    ensures { result ≡ first_refusal first other }
{
    match first {
        Ok(()) => other,
        Err(end) => Err(end),
    }
}

// why a run ends where a close fails
fn close_fault(writes: bool) -> RunEnd
    ensures { result ≡ close_fault writes }
{
    if writes {
        RunEnd::WriteFault
    } else {
        RunEnd::ReadFault
    }
}

/// Whether so many more bytes have no room behind those that wait.
pub fn is_full(waiting: usize, more: u32) -> bool
    ensures room { result ≡ false → waiting + more ≤ 65536 }
    ensures full { result ≡ true → 65536 < waiting + more }
{
    match waiting.checked_add(more as usize) {
        None => true,
        Some(count) => count > WAITING_LIMIT,
    }
}

impl Handles {
    /// None of so many files.
    pub fn none(alloc: Global, count: usize) -> Result<Handles, AllocError>
        ensures none { IfOk result (λ ids. AreNone ids) }
        ensures purposes { IfOk result (λ ids. purposes_for ids ≡ replicate count None) }
    {
        let mut ids = Vec::with_capacity(alloc, count)?;
        let mut rooms = Vec::with_capacity(alloc, count)?;
        for _ in 0..count {
            ids.push(None)?;
            rooms.push(Vec::new(alloc))?;
        }
        Ok(Handles { ids, rooms })
    }

    fn held(&self, place: usize) -> Option<Held>
        ensures some { IfSome result (λ x. IsHeld self.now place x.writes x.id) }
        ensures none { result ≡ None → (id : ℕ) (writes : Bool) → IsHeld self.now place writes id → ⊥ }
    {
        match self.ids.get(place) {
            Some(Some(held)) => Some(*held),
            _ => None,
        }
    }

    // the id of the file at a place, which is open for this
    fn id_for(&self, place: usize, writes: bool) -> u32
        requires { IsHeldFor self.now place writes }
        ensures { IsHeld self.now place writes result }
    {
        match self.held(place) {
            Some(held) => held.id,
            None => unreachable!(),
        }
    }

    fn put_held(&mut self, place: usize, held: Option<Held>)
        requires { place < length self.old }
        ensures { self.new ≡ slice_set self.old place held }
    {
        self.ids[place] = held;
    }

    // The room of the file at a place, which has so many bytes: it takes no memory where it has them already.
    fn take_room(&mut self, alloc: Global, place: usize, size: u32) -> Result<Vec<u8>, AllocError>
        ensures kept { self.new ≡ self.old }
        ensures room { IfOk result (λ room. length room.items ≡ size) }
    {
        let mut room = match self.rooms.get_mut(place) {
            Some(room) => mem::replace(room, Vec::new(alloc)),
            None => Vec::new(alloc),
        };
        room.resize(size as usize, 0)?;
        Ok(room)
    }

    /// The room of the file at a place, emptied, if there is some.
    pub fn take_empty_room(&mut self, alloc: Global, place: usize) -> Option<Vec<u8>>
        ensures kept { self.new ≡ self.old }
        ensures room { IfSome result (λ room. room.items ≡ []) }
    {
        let mut room = match self.rooms.get_mut(place) {
            Some(room) => mem::replace(room, Vec::new(alloc)),
            None => return None,
        };
        if room.capacity() == 0 {
            return None;
        }
        room.clear();
        Some(room)
    }

    /// Gives the room of the file at a place back.
    pub fn give_room(&mut self, place: usize, room: Vec<u8>)
        ensures { self.new ≡ self.old }
    {
        if place < self.rooms.len() {
            self.rooms[place] = room;
        }
    }

    /// Opens the file of this name for the file at a place, which isn't open, with room for one record of so many bytes.
    /// Answers whether it is there.
    pub fn open<F: Files>(
        &mut self,
        alloc: Global,
        files: &mut F,
        name: &str,
        place: usize,
        size: u32,
    ) -> Result<bool, RunEnd>
        requires live { AreOpen (F.state files.old) self.old }
        requires free { slice_get self.old place ≡ Some None }
        ensures tracks { Tracks (F.state files.old) (F.state files.new) self.old self.new }
        ensures same { known_bytes (F.state files.new) ≡ known_bytes (F.state files.old) }
        ensures opens { MatchResult result
            (λ there. OpensFor (F.state files.old) (F.state files.new) self.old self.new name.now place there)
            (λ e. IsRefusal (F.state files.old) (F.state files.new) e) }
        ensures fault { FailsBy false result }
    {
        let Ok(room) = room_of(alloc, size) else {
            return Err(RunEnd::Memory);
        };
        match files.open(name) {
            Ok(id) => {
                self.put_held(place, Some(Held { id, writes: false }));
                self.give_room(place, room);
                Ok(true)
            }
            Err(OpenEnd::Absent) => Ok(false),
            Err(OpenEnd::Failed) => Err(RunEnd::ReadFault),
            Err(OpenEnd::Memory) => Err(RunEnd::Memory),
        }
    }

    /// Makes the file of this name, empty, for the file at a place, which isn't open, with room for what waits of its
    /// records of so many bytes.
    pub fn create<F: Files>(
        &mut self,
        alloc: Global,
        files: &mut F,
        name: &str,
        place: usize,
        size: u32,
    ) -> Result<(), RunEnd>
        requires live { AreOpen (F.state files.old) self.old }
        requires free { slice_get self.old place ≡ Some None }
        ensures tracks { Tracks (F.state files.old) (F.state files.new) self.old self.new }
        ensures part { CreatesPart (F.state files.old) (F.state files.new) name.now }
        ensures creates { MatchResult result
            (λ _. CreatesFor (F.state files.old) (F.state files.new) self.old self.new name.now place)
            (λ e. IsRefusal (F.state files.old) (F.state files.new) e) }
        ensures fault { FailsBy true result }
    {
        let Ok(room) = waiting_room(alloc, size) else {
            return Err(RunEnd::Memory);
        };
        match files.create(name) {
            Ok(id) => {
                self.put_held(place, Some(Held { id, writes: true }));
                self.give_room(place, room);
                Ok(())
            }
            Err(MakeEnd::Failed) => Err(RunEnd::WriteFault),
            Err(MakeEnd::Memory) => Err(RunEnd::Memory),
        }
    }

    /// Writes these bytes to the end of the file at a place, which is written.
    pub fn put<F: Files>(&self, files: &mut F, place: usize, bytes: &[u8]) -> Result<(), RunEnd>
        requires live { AreOpen (F.state files.old) self.now }
        requires writes { IsHeldFor self.now place true }
        ensures puts { MatchResult result
            (λ _. PutsUnder (F.state files.old) (F.state files.new) self.now place bytes.now)
            (λ e. IsRefusal (F.state files.old) (F.state files.new) e) }
        ensures fault { FailsBy true result }
        ensures part { PutsUnderPart (F.state files.old) (F.state files.new) self.now place bytes.now }
        ensures short { IfErr result (λ _. PutsShort (F.state files.old) (F.state files.new) self.now place bytes.now) }
        ensures ids { KeepsIds (F.state files.old) (F.state files.new) }
    {
        let id = self.id_for(place, true);
        match put_whole(files, id, bytes) {
            Ok(()) => Ok(()),
            Err(MakeEnd::Failed) => Err(RunEnd::WriteFault),
            Err(MakeEnd::Memory) => Err(RunEnd::Memory),
        }
    }

    /// Closes the file at a place, if it is open.
    pub fn close<F: Files>(&mut self, files: &mut F, place: usize) -> Result<(), RunEnd>
        requires live { AreOpen (F.state files.old) self.old }
        ensures tracks { Tracks (F.state files.old) (F.state files.new) self.old self.new }
        ensures emptied { self.new ≡ slice_set self.old place None }
        ensures counts { ClosesAll (F.state files.old) (F.state files.new) result }
        ensures refused { IfErr result (λ e. IsRefusedAt (F.state files.old) (F.state files.new) self.old place e) }
        ensures same { known_bytes (F.state files.new) ≡ known_bytes (F.state files.old) }
        ensures closes { MatchResult result
            (λ _. ClosesFor (F.state files.old) (F.state files.new) self.old self.new place)
            (λ e. IsRefusal (F.state files.old) (F.state files.new) e) }
    {
        let Some(held) = self.held(place) else {
            return Ok(());
        };
        self.put_held(place, None);
        match files.close(held.id) {
            Ok(()) => Ok(()),
            Err(Failed) => Err(close_fault(held.writes)),
        }
    }

    /// Closes all that are open, in the order of their places. A close that fails keeps none of them open; the first one
    /// that fails is told.
    pub fn close_all<F: Files>(&mut self, files: &mut F) -> Result<(), RunEnd>
        requires live { AreOpen (F.state files.old) self.old }
        ensures tracks { Tracks (F.state files.old) (F.state files.new) self.old self.new }
        ensures none { AreNone self.new }
        ensures same { known_bytes (F.state files.new) ≡ known_bytes (F.state files.old) }
        ensures counts { ClosesAll (F.state files.old) (F.state files.new) result }
        ensures first { IfErr result
            (λ e. IsFirst (λ place writes. IsHeldFor self.old place writes) (F.state files.old) (F.state files.new) e) }
    {
        let mut closed = Ok(());
        for place in 0..self.ids.len() {
            closed = first_of(closed, self.close(files, place));
        }
        closed
    }

    /// Reads the next bytes of the file at a place, which is read, into its room of so many bytes: a record, or those to
    /// the end. Answers the room, which is to be given back, and how many bytes at its front were read.
    pub fn next_record<F: Files>(
        &mut self,
        alloc: Global,
        files: &mut F,
        place: usize,
        size: u32,
    ) -> Result<(Vec<u8>, usize), RunEnd>
        requires live { AreOpen (F.state files.old) self.old }
        requires reads { IsHeldFor self.old place false }
        ensures tracks { Tracks (F.state files.old) (F.state files.new) self.old self.new }
        ensures same { known_bytes (F.state files.new) ≡ known_bytes (F.state files.old) }
        ensures kept { self.new ≡ self.old }
        ensures gives { MatchResult result
            (λ r. GivesRecord (F.state files.old) (F.state files.new) self.old place size r.0.items r.1)
            (λ e. IsRefusal (F.state files.old) (F.state files.new) e) }
        ensures fault { FailsBy false result }
    {
        let id = self.id_for(place, false);
        let Ok(mut room) = self.take_room(alloc, place, size) else {
            return Err(RunEnd::Memory);
        };
        match read_record(files, id, room.as_mut_slice()) {
            Ok(count) => Ok((room, count)),
            Err(Failed) => Err(RunEnd::ReadFault),
        }
    }
}
