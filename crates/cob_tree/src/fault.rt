//! Faults that a run can meet.
/// The kinds of fault that a statement without a phrase for them can meet (ISO 1989:1985, the rules on size
/// errors, MOVE, class conditions and subscripting).
#[derive(Clone, Copy, PartialEq, Eq)]
pub enum Kind {
    /// A result exceeds what its receiver can hold.
    Size,
    /// A MOVE loses a nonzero digit at the high-order end.
    Truncation,
    /// A divisor is zero.
    Zero,
    /// An operand that is read as a number isn't numeric.
    Class,
    /// A subscript is no number of an occurrence of its table (OCCURS).
    Subscript,
}

/// A statement that may meet a fault of this kind. Statements are numbered from 1 in source order.
#[derive(Clone, Copy, PartialEq, Eq)]
pub struct Open {
    pub statement: u32,
    pub kind: Kind,
}
