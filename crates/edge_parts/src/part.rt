//! Parts of what an edge of the control graph does, borrowed from its statement.
use cob_data::Sender;
use cob_program::{Atom, Sum, Test};
use dec_num::Mode;
use transfer_ranges::Amount;

/// A divisor: one that stands in a sum, or a whole sum by which receivers are divided.
#[derive(Clone, Copy)]
pub enum Divisor<'a> {
    Inner(&'a Atom),
    Whole(&'a Sum),
}

/// A part of what an edge does. Items are named by their places, counters by the numbers of their statements.
#[derive(Clone, Copy)]
pub enum EdgePart<'a> {
    /// An item's contents are a number.
    Read(u32),
    /// A constant that is no number is asked for one; no program of the profile has this.
    Unread,
    /// A subscript's item is a number. `last` tells a remainder's, whose turn may not come.
    Subscript {
        last: bool,
        item: u32,
    },
    /// The number is that of an occurrence of a table, which has so many.
    Index {
        last: bool,
        item: u32,
        count: u32,
    },
    /// A divisor isn't 0.
    Divide(Divisor<'a>),
    /// An item gets a value.
    Store {
        item: u32,
        mode: Mode,
        amount: Amount<'a>,
    },
    /// Bytes from an offset on, so many, change to anything that the statement may put there.
    Bytes {
        offset: u32,
        length: u32,
    },
    /// A test has this outcome.
    Guard {
        test: &'a Test,
        holds: bool,
    },
    /// The counter of a TIMES is a number.
    ReadCount(u32),
    /// The counter of a TIMES gets the number of a sender.
    SetCount {
        number: u32,
        count: &'a Sender,
    },
    /// The counter of a TIMES gets its own number less one.
    CountDown(u32),
    /// Whether the counter of a TIMES is above 0.
    GuardCount {
        number: u32,
        left: bool,
    },
}
