//! Tries commands on files and a standard output in memory of which a call fails, or takes few bytes: faults of the
//! outside that no real file shows. The words are paths of files, which stand in memory by these names; each line of the
//! standard input is a case, `MOST FIRST LAST COMMAND..`, or `out MOST FIRST LAST COMMAND..`:
//!
//! - MOST is the most bytes that a call takes. The call on files with each number from FIRST to LAST fails in turn, or
//!   with `out` the write to the standard output.
//! - Commands are `check SOURCE CERT`, `analyse SOURCE CERT`, `trial N`, and `run SOURCE`, whose files have their own
//!   names as paths.
//!
//! Each try is answered by a line, the call's number with the status and whether what is left is right, and by what is
//! shown, which with `out` a line's end follows. Right is that each file is absent, as it was, or a front of what is
//! written where no call fails, and that it is all of that where the status is 0.
//!
//! Open, two reads and close read a whole file; create, write and close make one. Each READ reads a record, and one more
//! reads none at the end. The last row of a command by ample bytes is one call more than it makes, and in that by single
//! bytes none fails, but for R: its source is read by single bytes in 325 calls; open, 80 reads and close then read its
//! record, since a READ doesn't look for the end behind it.
#![tactic(auto)]

mod left;
mod outside;
mod status;

use batch_io::MemFiles;
use left::is_right;
use outside::{AMPLE, files_of, shown, sink_of};
use status::status_of;
use std::{env, io};

/// What a case that can't be read is answered.
const NO_CASE: &str = "no case";

// The files behind a command where no call fails.
fn whole_of(rt: &HostRuntime, names: &[String], words: &[&str]) -> io::Result<MemFiles> {
    let mut files = files_of(rt, names, AMPLE, 0)?;
    let mut sink = sink_of(rt.alloc(), AMPLE, 0)?;
    let _status = status_of(rt.alloc(), words, &mut files, &mut sink);
    Ok(files)
}

/// Whose call fails.
#[derive(Clone, Copy)]
enum Side {
    Files,
    Output,
}

fn try_call(
    rt: &HostRuntime,
    names: &[String],
    words: &[&str],
    most: usize,
    (side, failing): (Side, u64),
    whole: &MemFiles,
) -> io::Result<()> {
    let (of_files, of_output) = match side {
        Side::Files => (failing, 0),
        Side::Output => (0, failing),
    };
    let mut files = files_of(rt, names, most, of_files)?;
    let mut sink = sink_of(rt.alloc(), most, of_output)?;
    let Some(status) = status_of(rt.alloc(), words, &mut files, &mut sink) else {
        return println!(rt; "{NO_CASE}");
    };
    let right = is_right(&files, whole, names, status);
    println!(rt; "{failing}: {status} {right}")?;
    let text = shown(rt.alloc(), sink.bytes())?;
    if let Side::Output = side {
        return println!(rt; "{text}");
    }
    print!(rt; "{text}")
}

fn try_calls(
    rt: &HostRuntime,
    names: &[String],
    words: &[&str],
    side: Side,
    most: u32,
    (first, last): (u32, u32),
) -> io::Result<()> {
    let whole = whole_of(rt, names, words)?;
    for failing in u64::from(first)..u64::from(last) + 1 {
        try_call(rt, names, words, most as usize, (side, failing), &whole)?;
    }
    Ok(())
}

fn number_of(word: &str) -> Option<u32> {
    word.parse::<u32>().ok()
}

fn try_case(rt: &HostRuntime, names: &[String], words: &[&str]) -> io::Result<()> {
    let (side, words) = match words {
        ["out", words @ ..] => (Side::Output, words),
        words => (Side::Files, words),
    };
    let [most, first, last, command @ ..] = words else {
        return println!(rt; "{NO_CASE}");
    };
    match (number_of(most), number_of(first), number_of(last)) {
        (Some(most), Some(first), Some(last)) => {
            try_calls(rt, names, command, side, most, (first, last))
        }
        _ => println!(rt; "{NO_CASE}"),
    }
}

fn main(rt: HostRuntime) -> io::Result<()> {
    let names: Vec<String> = env::args(&rt)?.skip(1).collect(rt.alloc())?;
    for line in rt.lines(rt.alloc()) {
        let line = line?;
        let words: Vec<&str> = line.split(' ').collect(rt.alloc())?;
        try_case(&rt, names.as_slice(), words.as_slice())?;
    }
    Ok(())
}
