//! The lines that tell how a run ended.
ghost use Rattle.std.specs.Prelude.{◌≡◌, ◌++◌, OnOk, IfOk};
ghost use Rattle.commands.specs.RunText.{external_at, fault_line, number_line, ragged_line, run_text, stop_line};

use crate::checking::report_text::push_number;
use cob_data::FileDecl;
use cob_interp::RunEnd;
use cob_tree::Kind;
use std::alloc::{AllocError, Global};

// The external name of the file at a place.
fn push_external(text: &mut Vec<u8>, files: &[FileDecl], place: u32) -> Result<(), AllocError>
    ensures { OnOk result (text.new.items ≡ text.old.items ++ external_at files.now place) }
{
    match files.get(place as usize) {
        Some(file) => text.extend_from_slice(file.external.get()),
        None => Ok(()),
    }
}

fn push_ragged(
    text: &mut Vec<u8>,
    files: &[FileDecl],
    place: u32,
    length: u64,
) -> Result<(), AllocError>
    ensures { OnOk result (text.new.items ≡ text.old.items ++ ragged_line (external_at files.now place) length) }
{
    text.extend_from_slice(b"E15 ")?;
    push_external(text, files, place)?;
    text.extend_from_slice(b" length ")?;
    push_number(text, length)?;
    text.extend_from_slice(b"\n")
}

// A line of words before a number.
fn push_number_line(text: &mut Vec<u8>, words: &[u8], number: u64) -> Result<(), AllocError>
    ensures { OnOk result (text.new.items ≡ text.old.items ++ number_line words.now number) }
{
    text.extend_from_slice(words)?;
    push_number(text, number)?;
    text.extend_from_slice(b"\n")
}

fn push_stop(text: &mut Vec<u8>, status: u8, statement: u32) -> Result<(), AllocError>
    ensures { OnOk result (text.new.items ≡ text.old.items ++ stop_line status statement) }
{
    text.extend_from_slice(b"E17 status ")?;
    text.extend_from_slice(&[b'0' + status / 10, b'0' + status % 10])?;
    text.extend_from_slice(b" statement ")?;
    push_number(text, statement)?;
    text.extend_from_slice(b"\n")
}

fn push_fault(text: &mut Vec<u8>, kind: Kind, statement: u32, step: u64) -> Result<(), AllocError>
    ensures { OnOk result (text.new.items ≡ text.old.items ++ fault_line kind statement step) }
{
    text.extend_from_slice(b"E18 ")?;
    text.extend_from_slice(kind.text().as_bytes())?;
    text.extend_from_slice(b" statement ")?;
    push_number(text, statement)?;
    text.extend_from_slice(b" step ")?;
    push_number(text, step)?;
    text.extend_from_slice(b"\n")
}

fn push_run_end(text: &mut Vec<u8>, files: &[FileDecl], end: RunEnd) -> Result<(), AllocError>
    ensures { OnOk result (text.new.items ≡ text.old.items ++ run_text files.now end) }
{
    match end {
        RunEnd::ReadFault => text.extend_from_slice(b"E3 read\n"),
        RunEnd::WriteFault => text.extend_from_slice(b"E4 write\n"),
        RunEnd::Ragged { file, length } => push_ragged(text, files, file, length),
        RunEnd::StepsSpent(count) => push_number_line(text, b"E16 steps ", count),
        RunEnd::IoStop { status, statement } => push_stop(text, status, statement),
        RunEnd::Fault {
            kind,
            statement,
            step,
        } => push_fault(text, kind, statement, step),
        RunEnd::Memory => text.extend_from_slice(b"E19 memory\n"),
    }
}

/// The line that says why a run of a program with these files didn't come to its end.
pub fn run_text(alloc: Global, files: &[FileDecl], end: RunEnd) -> Result<Vec<u8>, AllocError>
    ensures { IfOk result (λ text. text.items ≡ run_text files.now end) }
{
    let mut text = Vec::new(alloc);
    push_run_end(&mut text, files, end)?;
    Ok(text)
}
