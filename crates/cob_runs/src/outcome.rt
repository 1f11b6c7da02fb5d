//! How a run stands.
use cob_tree::Kind;

/// How a run stands after some steps.
#[derive(Clone, Copy, PartialEq, Eq)]
pub enum Outcome {
    /// It goes on.
    Going,
    /// STOP RUN was done, or the last statement.
    Ended,
    /// A file's status ended it.
    IoStop { status: u8, statement: u32 },
    /// A statement met a fault.
    Fault { kind: Kind, statement: u32 },
}
