//! Why a program has no graph.
use cob_data::{Rule, Which};

/// Why a program has no graph.
#[derive(Clone, Copy, Debug, PartialEq, Eq)]
pub enum FlowEnd {
    /// A rule on how PERFORMs nest and where GO TO goes is broken, at this line first.
    Outside { rule: Rule, line: u32 },
    /// The cells, or else the nodes, are more than the limit. A count of nodes above 1,000,000,000 is told as that.
    Limit { which: Which, count: u64 },
    /// Memory ran out.
    Memory,
}
