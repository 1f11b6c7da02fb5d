//! Answers the cases that need a library's own call: each line of the standard input is a case, a word for the call and
//! words for what it is given, and each gets a line. tests/cases.py compares the answers. Bytes are written as two
//! hexadecimal digits each.
#![tactic(auto)]

mod command_line;
mod contents;
mod decimals;
mod texts;
mod words;

use command_line::clap_case;
use contents::{edit_case, numeric_case, put_case, text_case, value_case};
use decimals::{fit_case, power_case, quotient_case};
use std::alloc::{AllocError, Global};
use std::io;
use texts::{lines_case, tokens_case};

/// What a case that can't be read is answered.
const NO_CASE: &str = "no case";

// The answer to a case, nothing where it can't be read.
fn answer_of(alloc: Global, call: &str, given: &[&str]) -> Result<Option<String>, AllocError> {
    match call {
        "lines" => lines_case(alloc, given),
        "tokens" => tokens_case(alloc, given),
        "value" => value_case(alloc, given),
        "text" => text_case(alloc, given),
        "numeric" => numeric_case(alloc, given),
        "put" => put_case(alloc, given),
        "edit" => edit_case(alloc, given),
        "quotient" => quotient_case(alloc, given),
        "fit" => fit_case(alloc, given),
        "power" => power_case(alloc, given),
        "clap" => clap_case(alloc, given),
        _ => Ok(None),
    }
}

fn answer(alloc: Global, line: &str) -> Result<String, AllocError> {
    let (call, rest) = line.split_once(' ').unwrap_or((line, ""));
    let given: Vec<&str> = rest.split(' ').collect(alloc)?;
    match answer_of(alloc, call, &given)? {
        Some(answer) => Ok(answer),
        None => String::from_str(alloc, NO_CASE),
    }
}

fn main(rt: HostRuntime) -> io::Result<()> {
    for line in rt.lines(rt.alloc()) {
        let answer = answer(rt.alloc(), line?.as_str())?;
        println!(rt; "{answer}")?;
    }
    Ok(())
}
