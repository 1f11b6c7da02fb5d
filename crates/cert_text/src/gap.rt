//! Gaps between what is reached and what is claimed.

/// The place at which what is reached doesn't lie in what is claimed. Cells and packs go by their numbers in the
/// certificate from 1, rows and columns by their places in the pack's matrix, of which 0 is the number zero. Ends are
/// in the cell's own units, differences in those of the pack's finest cell.
#[derive(Clone, Copy, Debug, PartialEq, Eq)]
pub enum Gap {
    /// The node is claimed never to be reached.
    Reach,
    /// The cell is claimed to be numeric.
    Class {
        cell: u32,
    },
    /// The low end reached is below the one claimed.
    Low {
        cell: u32,
        reached: i64,
        claimed: i64,
    },
    /// The high end reached is above the one claimed.
    High {
        cell: u32,
        reached: i64,
        claimed: i64,
    },
    /// The difference reached is above the bound claimed; `None` is no bound.
    Diff {
        pack: u32,
        row: u32,
        column: u32,
        reached: Option<i128>,
        claimed: i128,
    },
}
