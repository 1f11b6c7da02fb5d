//! What is found is shown. Each call gives the process's status.
ghost use Rattle.std.specs.Prelude.{◌≡◌};
ghost use Rattle.commands.specs.Answer.{refusal_status, status_of, status_unwritten};
ghost use Rattle.commands.specs.Showing.{ShowsIfMemory, ShowsRefusal};
ghost use Rattle.commands.specs.Steps.{ShowsAnswer, ShowsFound};
ghost use Rattle.commands.specs.View.{plain_answer, plain_result};

use crate::answer::{Answer, Stop};
use crate::text::answer_text;
use batch_io::{MakeEnd, Sink, show_whole};
use cob_front::Refusal;
use std::alloc::Global;

/// The status of a refused open or read.
pub const READ_FAULT: u8 = 5;

/// The status of a refused create, write or close.
pub const WRITE_FAULT: u8 = 6;

/// The status where memory ran out.
pub const OUT_OF_MEMORY: u8 = 8;

/// The status of refused certificates.
pub const CERTIFICATE_REFUSED: u8 = 3;

/// Shows an answer, or the line that says why there is none.
pub fn show_found<O: Sink>(alloc: Global, found: Result<Answer, Stop>, out: &mut O) -> u8
    ensures { ShowsFound (O.state out.old) (O.state out.new) (plain_result found.entry) result }
{
    match found {
        Ok(answer) => show_answer(alloc, &answer, out),
        Err(Stop::ReadFault) => show_line(out, b"E3 read\n", READ_FAULT),
        Err(Stop::Memory) => show_line(out, b"E19 memory\n", OUT_OF_MEMORY),
    }
}

/// Shows a text. Gives the first status where it was shown whole, the other where a write of it failed, and
/// `OUT_OF_MEMORY` where memory ran out.
pub fn show_text<O: Sink>(out: &mut O, text: &[u8], whole: u8, failed: u8) -> u8
    ensures { ShowsIfMemory (O.state out.old) (O.state out.new) text.now whole failed result }
{
    match show_whole(out, text) {
        Ok(()) => whole,
        Err(MakeEnd::Failed) => failed,
        Err(MakeEnd::Memory) => OUT_OF_MEMORY,
    }
}

/// Shows a refusal's line. The status stays where it can't be written, unless memory runs out.
pub fn show_line<O: Sink>(out: &mut O, line: &[u8], status: u8) -> u8
    ensures { ShowsRefusal (O.state out.old) (O.state out.new) line.now status result }
{
    show_text(out, line, status, status)
}

// Shows an answer, and gives its status.
fn show_answer<O: Sink>(alloc: Global, answer: &Answer, out: &mut O) -> u8
    ensures { ShowsAnswer (O.state out.old) (O.state out.new) (plain_answer answer.now) result }
{
    match answer_text(alloc, answer) {
        Ok(text) => show_text(out, &text, status_of(answer), status_unwritten(answer)),
        Err(_) => show_line(out, b"E19 memory\n", OUT_OF_MEMORY),
    }
}

fn refusal_status(cause: Refusal) -> u8
    ensures { result ≡ refusal_status cause }
{
    match cause {
        Refusal::Nesting { .. } | Refusal::Limit { .. } => 9,
        Refusal::Memory => OUT_OF_MEMORY,
        Refusal::TooLong
        | Refusal::BadLine { .. }
        | Refusal::BadToken { .. }
        | Refusal::Syntax { .. }
        | Refusal::Outside { .. } => 2,
    }
}

/// The status of an answer that is shown.
pub fn status_of(answer: &Answer) -> u8
    ensures { result ≡ status_of (plain_answer answer.now) }
{
    match answer {
        Answer::Report(alarms) if alarms.is_empty() => 0,
        Answer::Report(_) => 1,
        Answer::Refused(cause) => refusal_status(*cause),
        Answer::CertificateLong
        | Answer::CertificateBad(_)
        | Answer::CertificateMisfit(_, _, _)
        | Answer::NotInductive(_, _, _) => CERTIFICATE_REFUSED,
        Answer::Usage(_) | Answer::NoPaths(_) => 4,
        Answer::Absent(_) => 7,
    }
}

// The status where the answer's text can't be written.
fn status_unwritten(answer: &Answer) -> u8
    ensures { result ≡ status_unwritten (plain_answer answer.now) }
{
    match answer {
        Answer::Report(_) => WRITE_FAULT,
        _ => status_of(answer),
    }
}
