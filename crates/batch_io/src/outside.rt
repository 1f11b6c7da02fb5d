//! The traits of the outside.
ghost use Rattle.std.specs.Prelude.{◌≡◌, ℕ, ◌<◌, length, Some, IsSome};

use crate::ends::{Failed, MakeEnd, OpenEnd};

/// Files by name, and the ids under which they are open.
///
/// `state` is what an object means: where it tells them, the bytes of each name and the name and
/// place of each open id; and always which ids are open, and two counts of faults, which never fall.
/// An object that tells these before a call tells them after it, and one that does not does not.
/// Each call answers Failed only where the count of its kind rose, or stands at u64's last value.
pub trait Files {
    ghost use Rattle.batch_io.specs.FilesState.{FilesState, Reading, Writing};
    ghost use Rattle.batch_io.specs.FilesCalls.{Opens, Creates, Reads, Writes, Closes};

    ghost state: { Self → FilesState };

    /// Opens the file of this name for reading, at its first byte.
    fn open(&mut self, name: &str) -> Result<u32, OpenEnd>
        ensures call { Opens (state self.old) (state self.new) name.now result };

    /// Makes the file of this name empty, and opens it for writing.
    fn create(&mut self, name: &str) -> Result<u32, MakeEnd>
        ensures call { Creates (state self.old) (state self.new) name.now result };

    /// Reads the next bytes into the front of `buf`, and says how many; 0 is the end of the file.
    fn read(&mut self, id: u32, buf: &mut [u8]) -> Result<usize, Failed>
        requires opened { (state self.old).purpose id ≡ Some Reading }
        requires room { 0 < length buf.old }
        ensures call { Reads (state self.old) (state self.new) id buf.new result };

    /// Appends the front of `piece`, and says how many bytes of it.
    fn write(&mut self, id: u32, piece: &[u8]) -> Result<usize, MakeEnd>
        requires created { (state self.old).purpose id ≡ Some Writing }
        ensures call { Writes (state self.old) (state self.new) id piece.now result };

    /// Closes the id, also where it answers Failed.
    fn close(&mut self, id: u32) -> Result<(), Failed>
        requires live { IsSome ((state self.old).purpose id) }
        ensures call { Closes (state self.old) (state self.new) id result };
}

/// Where text is shown, in the order of the calls.
///
/// `state` is what an object means: where it tells them, the bytes that it took, and always a count
/// of faults, which never falls.
pub trait Sink {
    ghost use Rattle.batch_io.specs.SinkState.{SinkState};
    ghost use Rattle.batch_io.specs.SinkCalls.{Takes};

    ghost state: { Self → SinkState };

    /// Appends the front of `piece`, and says how many bytes of it.
    fn write(&mut self, piece: &[u8]) -> Result<usize, MakeEnd>
        ensures call { Takes (state self.old) (state self.new) piece.now result };
}
