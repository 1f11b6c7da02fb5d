//! Linear forms.
use interval_domain::Interval;

/// How many cells a pack has at most.
pub(crate) const CELLS: usize = 8;

/// The sum of each coefficient times its cell, plus some number of the constant.
#[derive(Clone, Copy, PartialEq, Eq)]
pub struct Lin {
    /// A coefficient for each cell of the pack in turn, and 0 for one that doesn't count or isn't there.
    pub coefs: [i128; 8],
    pub constant: Interval,
}
