//! Why a tree is refused.
use cob_data::Rule;

/// Why a tree is no program of the profile.
#[derive(Clone, Copy, PartialEq, Eq)]
pub enum TypedEnd {
    /// The first rule that is broken, in the order of the table, and the first line that breaks it.
    Outside { rule: Rule, line: u32 },
    Memory,
}
