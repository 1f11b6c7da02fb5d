//! Scaled numbers, and what becomes of them.
/// What becomes of the digits past the last kept one.
#[derive(Clone, Copy, PartialEq, Eq)]
pub enum Mode {
    /// They are dropped.
    Trunc,
    /// The last kept digit goes up by one, away from zero, where the first dropped one is 5 or more:
    /// the ROUNDED phrase.
    Round,
}

/// The number `units / 10^scale`.
#[derive(Clone, Copy, PartialEq, Eq)]
pub struct Scaled {
    pub units: i128,
    pub scale: u32,
}

/// A quotient in whole units.
#[derive(Clone, Copy, PartialEq, Eq)]
pub enum Quot {
    ZeroDivisor,
    /// The quotient has more than 37 digits.
    Over,
    Is(i128),
}

/// A value in the units of a receiver.
#[derive(Clone, Copy, PartialEq, Eq)]
pub enum Fit {
    Stored(i64),
    /// The value has more digits than the receiver, after it was cut or rounded: a size error, or in
    /// a MOVE the loss of a high-order digit.
    TooBig,
}
