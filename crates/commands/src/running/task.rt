//! `run`: the task that its words ask for, and the run of it.
ghost use Rattle.std.specs.Prelude.{IfErr, IfOk, IfSome, MatchResult, Result};
ghost use Rattle.batch_io.specs.FilesState.{known_bytes};
ghost use Rattle.cob_interp.specs.declared.ends.Ended.{Ended};
ghost use Rattle.cob_interp.specs.declared.ends.RunEnd.{RunEnd};
ghost use Rattle.cob_interp.specs.Runs.{outside};
ghost use Rattle.command_words.specs.Commands.{plain_run};
ghost use Rattle.commands.specs.Steps.{Reads, refused_by_fault, IsLaid};
ghost use Rattle.commands.specs.View.{plain_answer, plain_result};
ghost use Rattle.commands.specs.Runs.{AnswersRun, BlamesIfUsage, HoldsTask, RunsTo};
ghost use Rattle.commands.specs.RunSteps.{IsReady, IsTask, IsNoTask};
ghost use Rattle.commands.specs.RunView.{plain_task};

use crate::answer::{Answer, Stop};
use crate::running::paths::{PathsEnd, paths_of};
use crate::running::run_show::show_end;
use crate::source::{Laid, answer_to, laid_in};
use batch_io::{FileEnd, Files, Sink, read_file};
use cob_front::Refusal;
use cob_interp::run_to_ending;
use cob_lex::SOURCE_LIMIT;
use cob_well_formed::sources_can_be_run;
use command_words::RunWords;
use std::alloc::Global;

/// What the words ask for: a program of the profile with its graph, the path of each of its files, and the most steps
/// that are done.
#[derive(Drop)]
pub struct Task {
    pub laid: Laid,
    pub paths: Vec<String>,
    pub steps: u64,
}

// The task of a program with its graph.
fn with_paths<'a>(
    alloc: Global,
    bytes: &[u8],
    laid: Laid,
    said: &RunWords,
) -> Result<Task, Result<Answer<'a>, Stop>>
    requires { IsLaid bytes.now laid }
    ensures { MatchResult result (IsTask bytes.now (plain_run said.now))
        (λ found. IsNoTask bytes.now (plain_run said.now).names (plain_result found)) }
{
    sources_can_be_run();
    match paths_of(alloc, laid.program.layout.files.get(), &said.names) {
        Ok(paths) => Ok(Task {
            laid,
            paths,
            steps: said.steps,
        }),
        Err(PathsEnd::Refused(word)) => Err(Ok(Answer::NoPaths(word))),
        Err(PathsEnd::Memory) => Err(Err(Stop::Memory)),
    }
}

// The task of a source's bytes, or the answer to them.
fn task_in<'a>(
    alloc: Global,
    bytes: &[u8],
    said: &RunWords,
) -> Result<Task, Result<Answer<'a>, Stop>>
    ensures { MatchResult result (IsTask bytes.now (plain_run said.now))
        (λ found. IsNoTask bytes.now (plain_run said.now).names (plain_result found)) }
{
    match laid_in(alloc, bytes) {
        Ok(laid) => with_paths(alloc, bytes, laid, said),
        Err(cause) => Err(answer_to(cause)),
    }
}

/// Reads the source, and finds what the words ask for. Or else the answer to them, or why there is none.
pub fn task_for<'a, F: Files>(
    alloc: Global,
    said: &RunWords<'a>,
    files: &mut F,
) -> Result<Task, Result<Answer<'a>, Stop>>
    ensures reads { Reads (F.state files.old) (F.state files.new) (refused_by_fault result) }
    ensures holds { IfOk result (λ task.
        HoldsTask (known_bytes (F.state files.old)) (plain_run said.now) (plain_task task)) }
    ensures ready { IfOk result IsReady }
    ensures answer { IfErr result (λ found. IfOk found (λ answer. IfSome (known_bytes (F.state files.old)) (λ contents.
        AnswersRun contents (plain_run said.now) (plain_answer answer)))) }
    ensures blames { IfErr result (λ found. IfOk found (λ answer.
        BlamesIfUsage (plain_run said.now) (plain_answer answer))) }
{
    let bytes = match read_file(alloc, files, said.source, SOURCE_LIMIT) {
        Ok(bytes) => bytes,
        Err(FileEnd::Absent) => return Err(Ok(Answer::Absent(said.source))),
        Err(FileEnd::Long) => return Err(Ok(Answer::Refused(Refusal::TooLong))),
        Err(FileEnd::Failed) => return Err(Err(Stop::ReadFault)),
        Err(FileEnd::Memory) => return Err(Err(Stop::Memory)),
    };
    task_in(alloc, &bytes, said)
}

/// Runs a task (ISO 1989:1985, "Nucleus" and "Sequential I-O"), and tells how the run ended where it didn't come to its
/// end. Gives the process's status.
pub fn run<F: Files, O: Sink>(alloc: Global, task: &Task, files: &mut F, out: &mut O) -> u8
    requires { IsReady task.now }
    ensures { (end : Result Ended RunEnd) × RunsTo (plain_task task.now)
        (outside (F.state files.old) (O.state out.old)) (outside (F.state files.new) (O.state out.new)) end result }
{
    let ending = run_to_ending(
        alloc,
        &task.laid.program,
        &task.laid.graph,
        files,
        &task.paths,
        out,
        task.steps,
    );
    show_end(alloc, task.laid.program.layout.files.get(), ending, out)
}
