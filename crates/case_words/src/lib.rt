//! The words in which programs of tests are given cases and answer them, read and written: sums, literals, relations,
//! modes, and what a receiver gets.
//!
//! Words stand between blanks. Those of a sum are its operands, `+` `-` `*` `/` between them, and parentheses; an item
//! is `i` with its place, as `i0`, and `~` is an operand's own sign.
#![tactic(auto)]

mod sums;
mod words;
mod written;

pub use sums::sum_of;
pub use words::{
    how_of, how_word, interval_of, literal_of, mode_of, mode_word, place_of, relation_of,
    relation_word, wanted_of, words_of,
};
pub use written::{write_atom, write_literal, write_sum};
