//! Limits of what is analysed.
/// A program with more cells is refused.
pub const MOST_CELLS: u64 = 512;

/// A program with more nodes is refused.
pub const MOST_NODES: u64 = 4096;

/// A greater count of nodes is told as this.
pub const MOST_TOLD: u64 = 1_000_000_000;
