//! How a run ends.
use cob_tree::Kind;

/// The run came to its end after so many steps.
#[derive(Clone, Copy)]
pub struct Ended {
    pub steps: u64,
}

/// Why a run didn't come to its end.
#[derive(Clone, Copy, Drop)]
pub enum RunEnd {
    /// A file couldn't be opened, read or closed.
    ReadFault,
    /// A file couldn't be made, written or closed, or text couldn't be shown.
    WriteFault,
    /// A READ met fewer bytes than a record at the end of the file of this place. `length` is the file's, in bytes.
    Ragged {
        file: u32,
        length: u64,
    },
    /// The run goes on behind so many steps.
    StepsSpent(u64),
    /// A status that nothing handles.
    IoStop {
        status: u8,
        statement: u32,
    },
    /// A fault, in the step of this number, counted from 1.
    Fault {
        kind: Kind,
        statement: u32,
        step: u64,
    },
    Memory,
}

/// How a run ended, and whether the sink refused its text by a fault, so that nothing more may be shown.
#[derive(Clone, Copy)]
pub struct Ending {
    pub end: Result<Ended, RunEnd>,
    pub sink_refused: bool,
}
