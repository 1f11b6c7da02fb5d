//! Answers cases of ranges: each line of the standard input is a case, and each gets a line. tests/ranges.py makes them
//! and compares the answers. The parts of a line stand between bars, the words of a part between blanks:
//!
//! `sum | ITEMS | SUM`, `guard | ITEMS | WANTED | SUM | RELATION | SUM`, `member | ITEMS | WANTED | PLACE | ENDS`,
//! `store | MODE RECEIVER | HOW OWN TOP UNDER`, `rest | MODE RECEIVER | TOP UNDER SCALE` and
//! `compute | MODE RECEIVER | ITEMS | SUM`.
//!
//! An item is `DIGITS,SCALE,LOW,HIGH`, a range of decimals `LOW,HIGH,SCALE`, a receiver `DIGITS,SCALE,signed`. A sum has
//! its words between blanks, `i0` for the first item, `~` for a sign of an operand; ends are written `LOW:HIGH`.
#![tactic(auto)]

mod guards;
mod known;
mod shown;
mod stores;
mod sums;
mod words;

use case_words::words_of;
use guards::{guard_case, member_case};
use std::alloc::{AllocError, Global};
use std::io;
use stores::{compute_case, rest_case, store_case};
use sums::sum_case;

/// What a case that can't be read is answered.
const NO_CASE: &str = "no case";

// The answer to a case, nothing where it can't be read.
fn answer_of(alloc: Global, parts: &[Vec<&str>]) -> Result<Option<String>, AllocError> {
    match parts {
        [call, items, sum] if is_word(call, "sum") => sum_case(alloc, items, sum),
        [call, items, wanted, left, rel, right] if is_word(call, "guard") => {
            guard_case(alloc, items, wanted, left, rel, right)
        }
        [call, items, wanted, place, ends] if is_word(call, "member") => {
            member_case(alloc, items, wanted, place, ends)
        }
        [call, receiver, operands] if is_word(call, "store") => store_case(
            alloc, receiver, operands,
        ),
        [call, receiver, operands] if is_word(call, "rest") => rest_case(alloc, receiver, operands),
        [call, receiver, items, sum] if is_word(call, "compute") => {
            compute_case(alloc, receiver, items, sum)
        }
        _ => Ok(None),
    }
}

fn is_word(words: &[&str], word: &str) -> bool {
    match words {
        [one] => *one == word,
        _ => false,
    }
}

fn answer(alloc: Global, line: &str) -> Result<String, AllocError> {
    let mut parts = Vec::new(alloc);
    for part in line.split('|') {
        parts.push(words_of(alloc, part)?)?;
    }
    match answer_of(alloc, &parts)? {
        Some(answer) => Ok(answer),
        None => String::from_str(alloc, NO_CASE),
    }
}

fn main(rt: HostRuntime) -> io::Result<()> {
    for line in rt.lines(rt.alloc()) {
        let answer = answer(rt.alloc(), line?.as_str())?;
        println!(rt; "{answer}")?;
    }
    Ok(())
}
