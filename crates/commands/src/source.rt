//! A source of the profile: its program and graph.
ghost use Rattle.std.specs.Prelude.{◌≡◌, false, IfErr, IfOk, IfSome};
ghost use Rattle.batch_io.specs.FilesState.{known_bytes};
ghost use Rattle.cob_program.specs.ActView.{plain_program};
ghost use Rattle.cob_front.specs.Source.{IsSource, Answers};
ghost use Rattle.commands.specs.Answer.{AnswersSource, is_usage};
ghost use Rattle.commands.specs.Profile.{IsProfileCause};
ghost use Rattle.commands.specs.Steps.{Reads, HoldsLaid, IsLaid, answer_to, refused_by_fault};
ghost use Rattle.commands.specs.View.{plain_answer, plain_result};

use crate::answer::{Answer, Stop};
use batch_io::{FileEnd, Files, read_file};
use cob_front::{Refusal, graph_in, program_in};
use cob_graph::Graph;
use cob_lex::SOURCE_LIMIT;
use cob_program::Program;
use std::alloc::Global;

/// A program of the profile, and its graph.
#[derive(Drop)]
pub struct Laid {
    pub program: Program,
    pub graph: Graph,
}

// A source's program with its graph.
fn with_graph(alloc: Global, bytes: &[u8], program: Program) -> Result<Laid, Refusal>
    requires { IsSource bytes.now (plain_program program) }
    ensures { Answers (IsLaid bytes.now) (IsProfileCause bytes.now) result }
{
    match graph_in(alloc, &program) {
        Ok(graph) => Ok(Laid { program, graph }),
        Err(broken) => Err(broken),
    }
}

/// The program of a source of the profile, with its graph. Else the first cause why these bytes aren't such a source,
/// or want of memory.
pub fn laid_in(alloc: Global, bytes: &[u8]) -> Result<Laid, Refusal>
    ensures { Answers (IsLaid bytes.now) (IsProfileCause bytes.now) result }
{
    match program_in(alloc, bytes) {
        Ok(program) => with_graph(alloc, bytes, program),
        Err(cause) => Err(cause),
    }
}

/// The answer to a source that is refused for this cause, or an error where the cause is want of memory.
pub fn answer_to<'a>(cause: Refusal) -> Result<Answer<'a>, Stop>
    ensures { plain_result result ≡ answer_to cause }
{
    match cause {
        Refusal::Memory => Err(Stop::Memory),
        cause => Ok(Answer::Refused(cause)),
    }
}

/// Reads the source of this name, of at most 1,048,576 bytes: its program and graph. Else the answer where there is no
/// such file or it isn't a source of the profile, or why there is none: a read that failed, or want of memory.
pub fn read_source<'a, F: Files>(
    alloc: Global,
    name: &'a str,
    files: &mut F,
) -> Result<Laid, Result<Answer<'a>, Stop>>
    ensures reads { Reads (F.state files.old) (F.state files.new) (refused_by_fault result) }
    ensures holds { IfOk result (HoldsLaid (known_bytes (F.state files.old)) name.now) }
    ensures answer { IfErr result (λ found. IfOk found (λ answer. IfSome (known_bytes (F.state files.old)) (λ contents.
        AnswersSource contents name.now (plain_answer answer)))) }
    ensures usage { IfErr result (λ found. IfOk found (λ answer. is_usage (plain_answer answer) ≡ false)) }
{
    let bytes = match read_file(alloc, files, name, SOURCE_LIMIT) {
        Ok(bytes) => bytes,
        Err(FileEnd::Absent) => return Err(Ok(Answer::Absent(name))),
        Err(FileEnd::Long) => return Err(Ok(Answer::Refused(Refusal::TooLong))),
        Err(FileEnd::Failed) => return Err(Err(Stop::ReadFault)),
        Err(FileEnd::Memory) => return Err(Err(Stop::Memory)),
    };
    match laid_in(alloc, &bytes) {
        Ok(laid) => Ok(laid),
        Err(cause) => Err(answer_to(cause)),
    }
}
