//! What tests leave of items.
use interval_domain::Interval;

/// An item, and the units that a test leaves of its numbers.
#[derive(Clone, Copy, PartialEq, Eq)]
pub struct Cut {
    pub item: u32,
    pub units: Interval,
}

/// What a test leaves of the items that stand alone on its sides. All else is as it was.
#[derive(Clone, Copy, PartialEq, Eq)]
pub struct Cuts {
    pub left: Option<Cut>,
    pub right: Option<Cut>,
}
