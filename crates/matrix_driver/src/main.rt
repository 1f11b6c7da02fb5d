//! Answers cases of difference-bound matrices for eight cells, of linear forms over them, of ranges and of classes: each
//! line of the standard input is a case, and each gets a line. tests/matrices.py makes them and compares the answers.
//!
//! A line is the name of a call and its numbers, between blanks. A matrix M is its 81 words, row by row, and a form F
//! its eight coefficients and both ends of its constant; a place is a number from 0 to 8.
//!
//! - `close M`, `row AT M ROW COLUMN`: the closed words, or `none` where a cycle is negative. In the second case the
//!   matrix is closed first; then the words of row AT and of its column are lowered to nine words each, and the row is
//!   closed.
//! - `upper M F`: the bound that the matrix shows of the form.
//! - `assign TO M F`, `demand M F`: the words behind an assignment, and behind the demand that the form is at most 0.
//! - `reclose TO M F`: the matrix is closed, the form is assigned, and the row of its cell is closed.
//! - `add F F`, `scale BY F`: a form, or `none`.
//! - `difference LOW HIGH LOW HIGH`: the ends of the differences of two ranges, whose ends have at most 18 digits.
//! - `class CLASS CLASS`: the class of what has one of the two, which are `unknown` or `numeric`.
#![tactic(auto)]

mod cases;
mod inputs;
mod rows;
mod shown;

use cases::{answer_to, class_case};
use inputs::numbers_of;
use shown::written;
use std::alloc::{AllocError, Global};
use std::io;

/// What a case that can't be read is answered.
const NO_CASE: &str = "no case";

fn answer(alloc: Global, line: &str) -> Result<String, AllocError> {
    let (call, words) = line.split_once(' ').unwrap_or((line, ""));
    let numbers = numbers_of(alloc, words)?;
    let answer = match call {
        "class" => class_case(words),
        _ => answer_to(call, numbers.as_slice()),
    };
    match answer {
        Some(answer) => written(alloc, &answer),
        None => String::from_str(alloc, NO_CASE),
    }
}

fn main(rt: HostRuntime) -> io::Result<()> {
    for line in rt.lines(rt.alloc()) {
        let answer = answer(rt.alloc(), line?.as_str())?;
        println!(rt; "{answer}")?;
    }
    Ok(())
}
