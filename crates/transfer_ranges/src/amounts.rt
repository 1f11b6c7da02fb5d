//! Amounts that receivers are to get; and what is known of operands, of amounts, and of receivers.
use cob_data::Sender;
use cob_program::{How, Sum};
use sum_ranges::Ranged;

/// What a receiver gets.
#[derive(Clone, Copy)]
pub enum Amount<'a> {
    /// The number of a sender.
    Moved(&'a Sender),
    /// The result of a sum, and of the receiver's own number where `How` says so.
    Computed(&'a Sum, How),
    /// The remainder of a division whose quotient's item has so many decimals.
    Remaining(&'a Sum, u32),
    /// The receiver's own number, and a sender's added.
    Augmented(&'a Sender),
}

/// The range of a sum; where its whole is a quotient that stays exact until it is stored, those of what is divided and of
/// what divides.
#[derive(Clone, Copy, PartialEq, Eq)]
pub struct Taken {
    pub top: Ranged,
    pub under: Option<Ranged>,
}

/// What is known of the exact value that a receiver is to get.
#[derive(Clone, Copy, PartialEq, Eq)]
pub enum AmountRange {
    /// A decimal of a range.
    Decimal(Ranged),
    /// A number of one range over one of another that isn't 0.
    Quotient {
        top: Ranged,
        under: Ranged,
    },
    /// What such a quotient leaves, once it is cut at a scale.
    Remainder {
        top: Ranged,
        under: Ranged,
        scale: u32,
    },
}

/// The digits of a receiver, how many of them stand behind its point, and whether it has a sign.
#[derive(Clone, Copy, PartialEq, Eq)]
pub struct Receiver {
    pub digits: u32,
    pub scale: u32,
    pub signed: bool,
}
