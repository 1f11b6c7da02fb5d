//! What is known of a value that is stored.

/// What is surely known; `false` says nothing.
#[derive(Clone, Copy, PartialEq, Eq)]
pub struct Known {
    /// The value has no more decimals than the receiver, so that nothing is cut off.
    pub whole: bool,
    pub not_negative: bool,
    pub not_positive: bool,
}
