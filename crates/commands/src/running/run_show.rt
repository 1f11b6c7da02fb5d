//! How a run ended is shown. Each call gives the process's status.
ghost use Rattle.std.specs.Prelude.{◌≡◌};
ghost use Rattle.commands.specs.Runs.{ShowsEnd, TellsEnd, run_status};

use crate::running::run_text::run_text;
use crate::show::{OUT_OF_MEMORY, READ_FAULT, WRITE_FAULT, show_line};
use batch_io::Sink;
use cob_data::FileDecl;
use cob_interp::{Ending, RunEnd};
use std::alloc::Global;

fn run_status(end: RunEnd) -> u8
    ensures { result ≡ run_status end }
{
    match end {
        RunEnd::Fault { .. } => 1,
        RunEnd::ReadFault => READ_FAULT,
        RunEnd::WriteFault => WRITE_FAULT,
        RunEnd::Memory => OUT_OF_MEMORY,
        RunEnd::StepsSpent(_) => 10,
        RunEnd::IoStop { .. } => 11,
        RunEnd::Ragged { .. } => 12,
    }
}

// Shows the line that says why a run of a program with these files didn't come to its end.
fn show_run_end<O: Sink>(alloc: Global, files: &[FileDecl], end: RunEnd, out: &mut O) -> u8
    ensures { ShowsEnd files.now (O.state out.old) (O.state out.new) end result }
{
    match run_text(alloc, files, end) {
        Ok(text) => show_line(out, &text, run_status(end)),
        Err(_) => show_line(out, b"E19 memory\n", OUT_OF_MEMORY),
    }
}

/// Tells how a run of a program with these files ended: by nothing where it came to its end, or where the sink refused
/// its text, and else by a line.
pub fn show_end<O: Sink>(alloc: Global, files: &[FileDecl], ending: Ending, out: &mut O) -> u8
    ensures { TellsEnd files.now (O.state out.old) (O.state out.new) ending.end ending.sink_refused result }
{
    match (ending.end, ending.sink_refused) {
        (Ok(_), _) => 0,
        (Err(end), true) => run_status(end),
        (Err(end), false) => show_run_end(alloc, files, end, out),
    }
}
