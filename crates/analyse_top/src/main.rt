//! Cobsound: a sound size-error analyser for COBOL-85 batch programs, which also runs them.
#![tactic(auto)]

mod top;

use batch_io::{RealFiles, StdSink};
use std::alloc::Global;
use std::io::{self, ErrorKind};
use std::os::fd::AsRawFd;
use std::process::ExitCode;
use std::{env, fs, mem};
use top::cobsound;

// The status where a word of the command isn't text.
const NO_TEXT: u8 = 4;
// The status where the words can't be had for want of memory.
const OUT_OF_MEMORY: u8 = 8;

// The status where the words can't be had.
fn status_without_words(error: io::Error) -> u8 {
    match error.kind() {
        ErrorKind::OutOfMemory => OUT_OF_MEMORY,
        _ => NO_TEXT,
    }
}

// The command's words, without the program's own name; or the status to end with.
fn words_of(rt: &HostRuntime, alloc: Global) -> Result<Vec<String>, u8> {
    let args = env::args(rt).map_err(status_without_words)?;
    args.skip(1).collect(alloc).map_err(|_| OUT_OF_MEMORY)
}

fn status(rt: &HostRuntime) -> u8 {
    let alloc = rt.alloc();
    match words_of(rt, alloc) {
        Ok(words) => cobsound(
            alloc,
            &words,
            &mut RealFiles::new(rt, alloc),
            &mut StdSink::new(rt),
        ),
        Err(status) => status,
    }
}

// Puts what can be read alone in the place of each standard stream that is closed, so that a write to it fails. A file
// that is opened later would take that place, and shown text would go into it.
fn fill_closed_streams(rt: &HostRuntime) {
    for _ in 0..3 {
        match fs::open(rt, "/dev/null") {
            Ok(file) if file.as_raw_fd() <= 2 => mem::forget(file),
            _ => return,
        }
    }
}

fn main(rt: HostRuntime) -> ExitCode {
    fill_closed_streams(&rt);
    ExitCode::from(status(&rt))
}
