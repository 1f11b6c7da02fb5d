//! Numbers that no exact result reaches.
/// No decimal's units reach it in absolute value: the least number of 38 digits.
pub const LIMIT: i128 = 10_000_000_000_000_000_000_000_000_000_000_000_000;

/// The limit as an absolute value.
pub const SIZE_LIMIT: u128 = LIMIT as u128;

/// No sum of two decimals' units reaches it in absolute value. A word that may hold no number holds it then.
pub const NO_NUMBER: i128 = 100_000_000_000_000_000_000_000_000_000_000_000_000;
