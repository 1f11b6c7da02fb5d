//! Parts of edges, written.
use case_words::{how_word, mode_word, relation_word, write_atom, write_literal, write_sum};
use cob_data::{Pair, Sender};
use cob_program::{Sum, Test};
use cob_tree::Rel;
use edge_parts::{Divisor, EdgePart};
use std::alloc::AllocError;
use transfer_ranges::Amount;

// ---- senders

// Bytes, each behind a point.
fn write_bytes(text: &mut String, bytes: &[u8]) -> Result<(), AllocError> {
    for byte in bytes {
        write!(text, ".{byte}")?;
    }
    Ok(())
}

fn write_text(text: &mut String, bytes: &[u8]) -> Result<(), AllocError> {
    text.push_str("text")?;
    write_bytes(text, bytes)
}

fn write_sender(text: &mut String, sender: &Sender) -> Result<(), AllocError> {
    match sender {
        Sender::Item(place) => write!(text, "i{place}"),
        Sender::Number(number) => write_literal(text, number),
        Sender::Text(bytes) => write_text(text, bytes.get()),
        Sender::Fill(byte) => write!(text, "fill.{byte}"),
        Sender::Zero => text.push_str("zero"),
    }
}

// ---- tests

fn write_relation(
    text: &mut String,
    left: &Sum,
    relation: Rel,
    right: &Sum,
) -> Result<(), AllocError> {
    text.push_str("number ")?;
    write_sum(text, left)?;
    write!(text, " | {} | ", relation_word(relation))?;
    write_sum(text, right)
}

fn write_pair(text: &mut String, pair: &Pair) -> Result<(), AllocError> {
    text.push(' ')?;
    write_sender(text, &pair.low)?;
    text.push(':')?;
    write_sender(text, &pair.high)
}

fn write_member(text: &mut String, item: u32, ranges: &[Pair]) -> Result<(), AllocError> {
    write!(text, "member i{item}")?;
    for pair in ranges {
        write_pair(text, pair)?;
    }
    Ok(())
}

fn write_test(text: &mut String, test: &Test) -> Result<(), AllocError> {
    match test {
        Test::Number { left, rel, right } => write_relation(text, left, *rel, right),
        Test::Text { .. } => text.push_str("text"),
        Test::Member { item, ranges } => write_member(text, *item, ranges.get()),
        Test::Numeric(item) => write!(text, "numeric i{item}"),
        Test::Always => text.push_str("always"),
    }
}

// ---- stores

fn write_divisor(text: &mut String, divisor: Divisor) -> Result<(), AllocError> {
    match divisor {
        Divisor::Inner(atom) => write_atom(text, atom),
        Divisor::Whole(sum) => write_sum(text, sum),
    }
}

fn write_amount(text: &mut String, amount: Amount) -> Result<(), AllocError> {
    match amount {
        Amount::Moved(sender) => {
            text.push_str("moved ")?;
            write_sender(text, sender)
        }
        Amount::Computed(sum, how) => {
            write!(text, "{} ", how_word(how))?;
            write_sum(text, sum)
        }
        Amount::Remaining(sum, scale) => {
            write!(text, "rest {scale} ")?;
            write_sum(text, sum)
        }
        Amount::Augmented(sender) => {
            text.push_str("augmented ")?;
            write_sender(text, sender)
        }
    }
}

// ---- parts

/// Writes a part of an edge.
pub fn write_part(text: &mut String, part: EdgePart) -> Result<(), AllocError> {
    match part {
        EdgePart::Read(item) => write!(text, "read i{item}"),
        EdgePart::Unread => text.push_str("unread"),
        EdgePart::Subscript { last, item } => write!(text, "subscript {last} i{item}"),
        EdgePart::Index { last, item, count } => write!(text, "index {last} i{item} {count}"),
        EdgePart::Divide(divisor) => {
            text.push_str("divide ")?;
            write_divisor(text, divisor)
        }
        EdgePart::Store { item, mode, amount } => {
            write!(text, "store i{item} {} ", mode_word(mode))?;
            write_amount(text, amount)
        }
        EdgePart::Bytes { offset, length } => write!(text, "bytes {offset} {length}"),
        EdgePart::Guard { test, holds } => {
            write!(text, "guard {holds} ")?;
            write_test(text, test)
        }
        EdgePart::ReadCount(number) => write!(text, "read_count {number}"),
        EdgePart::SetCount { number, count } => {
            write!(text, "set_count {number} ")?;
            write_sender(text, count)
        }
        EdgePart::CountDown(number) => write!(text, "count_down {number}"),
        EdgePart::GuardCount { number, left } => write!(text, "guard_count {left} {number}"),
    }
}
