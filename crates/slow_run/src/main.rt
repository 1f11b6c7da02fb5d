//! Runs a source by the plain slow step, whose contract is the language's meaning, and shows, writes and answers what
//! `cobsound run` does by the interpreter, so that tests/slow.py can compare both. Each file has its external name as
//! path. The status is 2 where the source is refused, and 70 where the outside fails or memory runs out.
#![tactic(auto)]

mod running;

use cob_front::program_in;
use cob_well_formed::sources_can_be_run;
use running::run_on_files;
use std::process::ExitCode;
use std::{env, fs, io};

const NO_SOURCE: u8 = 4;

const REFUSED: u8 = 2;

const FAILED: u8 = 70;

// Runs the source that the first word names.
fn status(rt: &HostRuntime) -> io::Result<u8> {
    let Some(path) = env::args(rt)?.nth(1) else {
        return Ok(NO_SOURCE);
    };
    let source = fs::read(rt, path.as_str())?;
    sources_can_be_run();
    match program_in(rt.alloc(), source.as_slice()) {
        Ok(program) => run_on_files(rt, &program),
        Err(_) => Ok(REFUSED),
    }
}

fn main(rt: HostRuntime) -> ExitCode {
    ExitCode::from(status(&rt).unwrap_or(FAILED))
}
