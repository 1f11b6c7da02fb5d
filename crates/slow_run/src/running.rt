//! A run on real files, step by step.
ghost use Rattle.cob_program.specs.ActView.{plain_program};
ghost use Rattle.cob_store.specs.WellFormed.{HasWellFormedItems};
ghost use Rattle.cob_world.specs.Doing.{CanDoProgram};

use cob_data::FileDecl;
use cob_program::Program;
use cob_runs::Outcome;
use cob_step::{Run, begin, step};
use std::alloc::{AllocError, Global};
use std::io::{self, Write};
use std::{fs, str};

const MOST_STEPS: u64 = 1_000_000;

/// A file's external name.
fn path_of(file: &FileDecl) -> &str {
    str::from_utf8(file.external.get()).unwrap_or("")
}

// What the files hold, nothing where they aren't there.
fn contents_of(rt: &HostRuntime, files: &[FileDecl]) -> io::Result<Vec<Option<Vec<u8>>>> {
    let mut contents = Vec::new(rt.alloc());
    for file in files {
        contents.push(fs::read(rt, path_of(file)).ok())?;
    }
    Ok(contents)
}

// A run to its end, or to the most steps, and how many steps it took.
fn run_to_end<'a>(
    alloc: Global,
    program: &'a Program,
    contents: Vec<Option<Vec<u8>>>,
) -> Result<(Run<'a>, u64), AllocError>
    requires sound { HasWellFormedItems program.now.layout }
    requires able { CanDoProgram (plain_program program.now) }
{
    let mut run = begin(alloc, program, contents)?;
    for steps in 0..MOST_STEPS {
        if !matches!(run.outcome(), Outcome::Going) {
            return Ok((run, steps));
        }
        step(alloc, &None, &mut run)?;
    }
    Ok((run, MOST_STEPS))
}

// Writes a file that holds other bytes than the path.
fn write_file(rt: &HostRuntime, path: &str, bytes: &[u8]) -> io::Result<()> {
    match fs::read(rt, path) {
        Ok(held) if held.as_slice() == bytes => Ok(()),
        _ => fs::write(rt, path, bytes),
    }
}

fn write_files(rt: &HostRuntime, files: &[FileDecl], run: &Run) -> io::Result<()> {
    for (place, file) in files.iter().enumerate() {
        if let Some(held) = run.world().file(place) {
            if let Some(bytes) = held.bytes() {
                write_file(rt, path_of(file), bytes)?;
            }
        }
    }
    Ok(())
}

// Says why the run didn't come to its end, and gives the status.
fn show_end(rt: &HostRuntime, outcome: Outcome, steps: u64) -> io::Result<u8> {
    match outcome {
        Outcome::Ended => Ok(0),
        Outcome::Going => {
            println!(rt; "E16 steps {steps}")?;
            Ok(10)
        }
        Outcome::IoStop { status, statement } => {
            println!(rt;
                "E17 status {}{} statement {statement}",
                status / 10,
                status % 10
            )?;
            Ok(11)
        }
        Outcome::Fault { kind, statement } => {
            let name = kind.text();
            println!(rt; "E18 {name} statement {statement} step {steps}")?;
            Ok(1)
        }
    }
}

/// Runs a program, shows its text, and writes the files that it has changed. Gives the status.
pub fn run_on_files(rt: &HostRuntime, program: &Program) -> io::Result<u8>
    requires sound { HasWellFormedItems program.now.layout }
    requires able { CanDoProgram (plain_program program.now) }
{
    let files = program.layout.files.get();
    let contents = contents_of(rt, files)?;
    let (run, steps) = run_to_end(rt.alloc(), program, contents)?;
    io::writer(rt).write_all(run.world().shown())?;
    write_files(rt, files, &run)?;
    show_end(rt, run.outcome(), steps)
}
