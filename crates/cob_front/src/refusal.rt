//! Why a source has no program, or a program no graph.
use cob_data::{Rule, Which};

/// Why a source is no program.
#[derive(Clone, Copy, Debug, PartialEq, Eq)]
pub enum Refusal {
    /// It has more than 1,048,576 bytes.
    TooLong,
    /// The first place that the reference format refuses.
    BadLine { line: u32, column: u32 },
    /// The first place at which neither a token nor a separator stands.
    BadToken { line: u32, column: u32 },
    /// The line of the first token with which no program goes on.
    Syntax { line: u32 },
    /// Statements and parentheses are nested deeper than 64, so deep at the first place.
    Nesting { count: u32 },
    /// A rule is broken: the first of the table, at this line first.
    Outside { rule: Rule, line: u32 },
    /// There is more of something than the limit.
    Limit { which: Which, count: u64 },
    /// Memory ran out.
    Memory,
}
