//! A program is run on the outside's files.
ghost use Rattle.std.specs.Prelude.{◌≡◌, ℕ, List, true, false, IfOk, IfErr, MatchResult, Result, Err, length, map, string_bytes};
ghost use Rattle.batch_io.specs.FilesState.{FilesState, KeepsIds, known_bytes};
ghost use Rattle.batch_io.specs.SinkState.{SinkState};
ghost use Rattle.cob_graph.specs.Graphs.{IsGraph};
ghost use Rattle.cob_graph.specs.WellFormed.{IsWellFormed};
ghost use Rattle.cob_store.specs.WellFormed.{HasWellFormedItems};
ghost use Rattle.cob_program.specs.ActView.{plain_program};
ghost use Rattle.cob_world.specs.Doing.{CanDoProgram};
ghost use Rattle.cob_interp.specs.declared.ends.Ended.{Ended};
ghost use Rattle.cob_interp.specs.declared.ends.RunEnd.{RunEnd};
ghost use Rattle.cob_interp.specs.Meeting.{FailsBy, end_behind};
ghost use Rattle.cob_interp.specs.Able.{CanBeRun, HasItsFiles};
ghost use Rattle.cob_interp.specs.Readying.{IsFirst, IsRefusal, Sees, AreEmptied};
ghost use Rattle.cob_interp.specs.Runs.{Outside, outside, HasEnded, IsBroken, IfTold, KeepsUnmade, Runs, RunsBefore, TellsOfSink};
ghost use Rattle.cob_interp.specs.Running.{HaltsOff};
ghost use Rattle.cob_interp.specs.Setting.{IsReady, program_of, paths_of};
ghost use Rattle.cob_interp.specs.Told.{AreDistinct};
ghost use Rattle.cob_interp.specs.Touching.{Loses, Touches, makes_none};
ghost use Rattle.cob_interp.specs.Tracking.{AreLeft, AreNone, AreOpen, AreWritten, IsHeldFor, Tracks, purposes_for, purposes_of};
ghost use Rattle.cob_interp.specs.Walking.{by_sink, as_result, is_sink_fault, TellsBySink, is_refused, IsOwnEnd, IsRefused};
ghost use Rattle.cob_program.specs.Act as act;
ghost use Rattle.cob_graph.specs.declared.graph.Graph as graph;

use crate::ends::{Ended, Ending, RunEnd};
use crate::handles::Handles;
use crate::outside::write_out;
use crate::setting::Setting;
use crate::walk::{Halt, flush, walk};
use batch_io::{Files, MakeEnd, Sink};
use cob_graph::Graph;
use cob_graph_laws::ways_tell_of_runs;
use cob_plan::Plan;
use cob_program::Program;
use cob_world::World;
use std::alloc::Global;

/// Writes out what still waits of all files.
fn write_all<F: Files>(
    alloc: Global,
    setting: &Setting,
    files: &mut F,
    handles: &Handles,
    world: &mut World,
) -> Result<(), RunEnd>
    requires ready { IsReady setting.now }
    requires live { AreOpen (F.state files.old) handles.now }
    requires written { AreWritten (paths_of setting.now) (F.state files.old) handles.now world.old.world.files }
    ensures writes { MatchResult result
        (λ _. Sees (paths_of setting.now) (F.state files.old) (F.state files.new) world.old.world world.new.world
        × AreEmptied world.new.world.files (length setting.now.paths.now))
        (λ end. IsRefusal (F.state files.old) (F.state files.new) end) }
    ensures fault { FailsBy true result }
    ensures touches { Touches (paths_of setting.now) makes_none world.old.world (F.state files.old)
        (F.state files.new) }
    ensures loses { IfErr result
        (λ _. Loses (paths_of setting.now) world.old.world (F.state files.old) (F.state files.new)) }
    ensures ids { KeepsIds (F.state files.old) (F.state files.new) }
{
    for place in 0..setting.paths.len() {
        write_out(alloc, setting, files, handles, world, place)?;
    }
    Ok(())
}

/// A refusal of the sink as the run's.
fn refused_by_sink(end: MakeEnd) -> Ending
    ensures end { result.end ≡ Err (by_sink end) }
    ensures refused { result.sink_refused ≡ is_sink_fault end }
{
    match end {
        MakeEnd::Failed => Ending {
            end: Err(RunEnd::WriteFault),
            sink_refused: true,
        },
        MakeEnd::Memory => Ending {
            end: Err(RunEnd::Memory),
            sink_refused: false,
        },
    }
}

/// Behind a refusal: closes all that are still open, whatever that answers.
fn give_up<F: Files>(files: &mut F, handles: &mut Handles, ending: Ending) -> Ending
    requires live { AreOpen (F.state files.old) handles.old }
    requires refused { IsRefused ending.end }
    ensures same { result ≡ ending }
    ensures tracks { Tracks (F.state files.old) (F.state files.new) handles.old handles.new }
    ensures none { AreNone handles.new }
    ensures runs { (p : act.Program) (paths : List (List ℕ)) (budget : ℕ) (start : Outside) (sink : SinkState)
        → RunsBefore p paths budget start (outside (F.state files.old) sink) ending.end
        → Runs p paths budget start (outside (F.state files.new) sink) result.end }
{
    let _ = handles.close_all(files);
    ending
}

/// Behind the run's own end, with what closing answered: a refused close counts where the run came to its end.
fn end_behind(end: Result<Ended, RunEnd>, closed: Result<(), RunEnd>) -> Result<Ended, RunEnd>
    ensures { result ≡ end_behind end closed }
{
    match end {
        Err(own) => Err(own),
        Ok(ended) => match closed {
            Ok(()) => Ok(ended),
            Err(refusal) => Err(refusal),
        },
    }
}

/// What a run comes to that nothing refused, and of which nothing waits: it closes all that are still open.
fn close_handles<F: Files>(
    files: &mut F,
    handles: &mut Handles,
    end: Result<Ended, RunEnd>,
) -> Ending
    requires live { AreOpen (F.state files.old) handles.old }
    requires own { IsOwnEnd end }
    ensures refused { result.sink_refused ≡ false }
    ensures stays { IfErr end (λ e. result.end ≡ Err e) }
    ensures tracks { Tracks (F.state files.old) (F.state files.new) handles.old handles.new }
    ensures none { AreNone handles.new }
    ensures runs { (p : act.Program) (paths : List (List ℕ)) (budget : ℕ) (start : Outside) (sink : SinkState)
        → Runs p paths budget start (outside (F.state files.old) sink) end
        → (HasEnded end → (e : RunEnd) (now : FilesState) → known_bytes now ≡ known_bytes (F.state files.old)
        → IsFirst (λ place writes. IsHeldFor handles.old place writes) start.files now e
        → IsBroken p paths budget start (outside now sink) (Err e))
        → Runs p paths budget start (outside (F.state files.new) sink) result.end }
{
    let closed = handles.close_all(files);
    Ending {
        end: end_behind(end, closed),
        sink_refused: false,
    }
}

/// Behind the run's own end: shows the text that waits, writes out what waits of files, and closes what is still open.
fn finish<F: Files, O: Sink>(
    alloc: Global,
    setting: &Setting,
    files: &mut F,
    handles: &mut Handles,
    world: &mut World,
    out: &mut O,
    end: Result<Ended, RunEnd>,
) -> Ending
    requires ready { IsReady setting.now }
    requires own { IsOwnEnd end }
    requires live { AreOpen (F.state files.old) handles.old }
    requires written { AreWritten (paths_of setting.now) (F.state files.old) handles.old world.old.world.files }
    requires purposes { IfOk end (λ _. purposes_for handles.old ≡ purposes_of world.old.world.files) }
    ensures runs { (budget : ℕ) (start : Outside)
        → HaltsOff (program_of setting.now) setting.now.graph.now (paths_of setting.now) budget start
        (outside (F.state files.old) (O.state out.old)) world.old.world end
        → Runs (program_of setting.now) (paths_of setting.now) budget start
        (outside (F.state files.new) (O.state out.new)) result.end }
    ensures sink { TellsOfSink (O.state out.old) (O.state out.new) result }
    ensures tracks { Tracks (F.state files.old) (F.state files.new) handles.old handles.new }
    ensures none { AreNone handles.new }
{
    match flush(world, out) {
        Err(refusal) => give_up(files, handles, refused_by_sink(refusal)),
        Ok(()) => match write_all(alloc, setting, files, handles, world) {
            Err(refusal) => give_up(
                files,
                handles,
                Ending {
                    end: Err(refusal),
                    sink_refused: false,
                },
            ),
            Ok(()) => close_handles(files, handles, end),
        },
    }
}

/// Whether the outside or memory failed.
fn is_refused(end: RunEnd) -> bool
    ensures { result ≡ is_refused end }
{
    match end {
        RunEnd::ReadFault | RunEnd::WriteFault | RunEnd::Memory => true,
        RunEnd::Ragged { .. }
        | RunEnd::StepsSpent(_)
        | RunEnd::IoStop { .. }
        | RunEnd::Fault { .. } => false,
    }
}

/// What a run comes to that has halted so.
fn ending_of<F: Files, O: Sink>(
    alloc: Global,
    setting: &Setting,
    files: &mut F,
    handles: &mut Handles,
    world: &mut World,
    out: &mut O,
    halted: Result<Ended, Halt>,
) -> Ending
    requires ready { IsReady setting.now }
    requires live { AreOpen (F.state files.old) handles.old }
    requires placed { AreLeft (paths_of setting.now) (F.state files.old) handles.old world.old.world.files
        (as_result halted) }
    ensures runs { (budget : ℕ) (start : Outside)
        → HaltsOff (program_of setting.now) setting.now.graph.now (paths_of setting.now) budget start
        (outside (F.state files.old) (O.state out.old)) world.old.world (as_result halted)
        → Runs (program_of setting.now) (paths_of setting.now) budget start
        (outside (F.state files.new) (O.state out.new)) result.end }
    ensures sink { (first : SinkState) → TellsBySink first (O.state out.old) halted
        → TellsOfSink first (O.state out.new) result }
    ensures tracks { Tracks (F.state files.old) (F.state files.new) handles.old handles.new }
    ensures none { AreNone handles.new }
{
    match halted {
        Ok(ended) => finish(alloc, setting, files, handles, world, out, Ok(ended)),
        Err(Halt::Sink(refusal)) => give_up(files, handles, refused_by_sink(refusal)),
        Err(Halt::End(end)) => {
            if is_refused(end) {
                give_up(
                    files,
                    handles,
                    Ending {
                        end: Err(end),
                        sink_refused: false,
                    },
                )
            } else {
                finish(alloc, setting, files, handles, world, out, Err(end))
            }
        }
    }
}

/// Memory ran out before the first step.
const WANT_OF_MEMORY: Ending = Ending {
    end: Err(RunEnd::Memory),
    sink_refused: false,
};

/// Runs a program as `run_to_ending` does. What is said of files that are never made follows there.
fn run_through<F: Files, O: Sink>(
    alloc: Global,
    program: &Program,
    graph: &Graph,
    files: &mut F,
    paths: &[String],
    out: &mut O,
    budget: u64,
) -> Ending
    requires graph { IsGraph (plain_program program.now) graph.now }
    requires whole { IsWellFormed (plain_program program.now) }
    requires sound { HasWellFormedItems program.now.layout }
    requires able { CanDoProgram (plain_program program.now) }
    requires files { HasItsFiles (plain_program program.now) }
    requires paths { length paths.now ≡ length program.now.layout.files }
    requires distinct { AreDistinct (map string_bytes paths.now) }
    ensures runs { Runs (plain_program program.now) (map string_bytes paths.now) budget
        (outside (F.state files.old) (O.state out.old)) (outside (F.state files.new) (O.state out.new)) result.end }
    ensures sink { TellsOfSink (O.state out.old) (O.state out.new) result }
    ensures ids { KeepsIds (F.state files.old) (F.state files.new) }
{
    ways_tell_of_runs();
    let Ok(plan) = Plan::of(alloc, program, graph) else {
        return WANT_OF_MEMORY;
    };
    let Ok(mut world) = World::first(alloc, program, Vec::new(alloc)) else {
        return WANT_OF_MEMORY;
    };
    let Ok(mut handles) = Handles::none(alloc, paths.len()) else {
        return WANT_OF_MEMORY;
    };
    let setting = Setting {
        program,
        graph,
        plan,
        paths,
    };
    let halted = walk(
        alloc,
        &setting,
        files,
        &mut handles,
        &mut world,
        out,
        budget,
    );
    ending_of(
        alloc,
        &setting,
        files,
        &mut handles,
        &mut world,
        out,
        halted,
    )
}

/// Runs a program as `run` does, and tells whether the sink refused its text.
pub fn run_to_ending<F: Files, O: Sink>(
    alloc: Global,
    program: &Program,
    graph: &Graph,
    files: &mut F,
    paths: &[String],
    out: &mut O,
    budget: u64,
) -> Ending
    requires graph { IsGraph (plain_program program.now) graph.now }
    requires able { CanBeRun (plain_program program.now) }
    requires paths { length paths.now ≡ length program.now.layout.files }
    requires distinct { AreDistinct (map string_bytes paths.now) }
    ensures runs { Runs (plain_program program.now) (map string_bytes paths.now) budget
        (outside (F.state files.old) (O.state out.old)) (outside (F.state files.new) (O.state out.new)) result.end }
    ensures sink { TellsOfSink (O.state out.old) (O.state out.new) result }
    ensures ids { KeepsIds (F.state files.old) (F.state files.new) }
    ensures unmade { IfTold (λ first told. KeepsUnmade (plain_program program.now) (map string_bytes paths.now) first told)
        (known_bytes (F.state files.old)) (known_bytes (F.state files.new)) }
{
    run_through(alloc, program, graph, files, paths, out, budget)
}

/// Runs a program on the outside's files, at most so many steps (ISO 1989:1985, "Nucleus" and "Sequential I-O"; what a
/// record area holds where the standard leaves it undefined stays, and storage without a VALUE begins with spaces).
/// Each file's path stands at its place in the order of the SELECT entries. An input file is read record by record, each
/// where a READ asks for it, into one room of a record's length that is taken when it is opened. What is written to an
/// output file waits in a room of 65,536 bytes, or of one longer record, that is taken then too: it goes out where a WRITE
/// has no room, when the file is closed, and when the run has ended. Shown text goes to `out`.
pub fn run<F: Files, O: Sink>(
    alloc: Global,
    program: &Program,
    graph: &Graph,
    files: &mut F,
    paths: &[String],
    out: &mut O,
    budget: u64,
) -> Result<Ended, RunEnd>
    requires graph { IsGraph (plain_program program.now) graph.now }
    requires able { CanBeRun (plain_program program.now) }
    requires paths { length paths.now ≡ length program.now.layout.files }
    requires distinct { AreDistinct (map string_bytes paths.now) }
    ensures runs { Runs (plain_program program.now) (map string_bytes paths.now) budget
        (outside (F.state files.old) (O.state out.old)) (outside (F.state files.new) (O.state out.new)) result }
    ensures ids { KeepsIds (F.state files.old) (F.state files.new) }
    ensures unmade { IfTold (λ first told. KeepsUnmade (plain_program program.now) (map string_bytes paths.now) first told)
        (known_bytes (F.state files.old)) (known_bytes (F.state files.new)) }
{
    run_to_ending(alloc, program, graph, files, paths, out, budget).end
}
