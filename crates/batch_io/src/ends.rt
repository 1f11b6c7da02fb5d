//! How calls on files and sinks end where they do not answer with a value.
ghost use Rattle.std.specs.Prelude.{◌≡◌};

use std::alloc::{AllocError, AllocFailed};
use thiserror::Error;

/// The outside refused the call.
#[derive(Clone, Copy, Debug, PartialEq, Eq, Error)]
#[error("refused")]
pub struct Failed;

/// How opening a file for reading ends without an id.
#[derive(Clone, Copy, Debug, PartialEq, Eq, Error)]
pub enum OpenEnd {
    /// There is no file of that name.
    #[error("no such file")]
    Absent,
    /// The outside refused the call.
    #[error("refused")]
    Failed,
    /// Memory ran out.
    #[error("out of memory")]
    Memory,
}

/// How creating or writing ends without success.
#[derive(Clone, Copy, Debug, PartialEq, Eq, Error)]
pub enum MakeEnd {
    /// The outside refused the call.
    #[error("refused")]
    Failed,
    /// Memory ran out.
    #[error("out of memory")]
    Memory,
}

/// How reading an open file whole ends without its bytes.
#[derive(Clone, Copy, Debug, PartialEq, Eq, Error)]
pub enum ReadEnd {
    /// The outside refused a read.
    #[error("refused")]
    Failed,
    /// More bytes stand there than the limit.
    #[error("too long")]
    Long,
    /// Memory ran out.
    #[error("out of memory")]
    Memory,
}

/// How reading a file by its name ends without its bytes.
#[derive(Clone, Copy, Debug, PartialEq, Eq, Error)]
pub enum FileEnd {
    /// There is no file of that name.
    #[error("no such file")]
    Absent,
    /// The outside refused the open, a read or the close.
    #[error("refused")]
    Failed,
    /// The file has more bytes than the limit.
    #[error("too long")]
    Long,
    /// Memory ran out.
    #[error("out of memory")]
    Memory,
}

impl From<AllocError> for OpenEnd {
    ghost use Rattle.batch_io.specs.declared.ends.OpenEnd.TheVariants.{Memory};

    ghost from_gives = { λ _ end. end ≡ Memory };

    fn from(_: AllocError) -> OpenEnd {
        OpenEnd::Memory
    }
}

impl From<AllocError> for MakeEnd {
    ghost use Rattle.batch_io.specs.declared.ends.MakeEnd.TheVariants.{Memory};

    ghost from_gives = { λ _ end. end ≡ Memory };

    fn from(_: AllocError) -> MakeEnd {
        MakeEnd::Memory
    }
}

impl<T: Drop> From<AllocFailed<T>> for MakeEnd {
    ghost use Rattle.batch_io.specs.declared.ends.MakeEnd.TheVariants.{Memory};

    ghost from_gives = { λ _ end. end ≡ Memory };

    fn from(_: AllocFailed<T>) -> MakeEnd {
        MakeEnd::Memory
    }
}

impl From<AllocError> for ReadEnd {
    ghost use Rattle.batch_io.specs.declared.ends.ReadEnd.TheVariants.{Memory};

    ghost from_gives = { λ _ end. end ≡ Memory };

    fn from(_: AllocError) -> ReadEnd {
        ReadEnd::Memory
    }
}

impl From<Failed> for ReadEnd {
    ghost use Rattle.batch_io.specs.declared.ends.ReadEnd.TheVariants as reads;

    ghost from_gives = { λ _ end. end ≡ reads.Failed };

    fn from(_: Failed) -> ReadEnd {
        ReadEnd::Failed
    }
}
