//! A run from its first node to its end.
ghost use Rattle.std.specs.Prelude.{◌≡◌, ◌+◌, ◌<◌, ℕ, true, false, IfOk, IfErr, MatchResult, Some, None, [], length, slice_get};
ghost use Rattle.batch_io.specs.FilesState.{KeepsIds};
ghost use Rattle.batch_io.specs.SinkState.{SinkState};
ghost use Rattle.cob_program.specs.ActView.{plain_act};
ghost use Rattle.cob_runs.specs.Acts.{decl_at};
ghost use Rattle.cob_runs.specs.State as state;
ghost use Rattle.cob_interp.specs.Runs.{Outside, outside};
ghost use Rattle.cob_interp.specs.Running.{Stands, Arrives, IsAt, GoesOn, HaltsOff};
ghost use Rattle.cob_interp.specs.Setting.{IsReady, StartsAt, FitsPlace, program_of, paths_of};
ghost use Rattle.cob_interp.specs.Readying.{IsRefusal, Sees};
ghost use Rattle.cob_interp.specs.Meeting.{IfFailed, IsMetBy, ShowsRest, is_failure, shows_first};
ghost use Rattle.cob_plan.specs.Stepping.{IsRest};
ghost use Rattle.cob_interp.specs.Rooms.{HasRoom, HasRoomFor, written_by};
ghost use Rattle.cob_interp.specs.Reached.{Reaches, last_of};
ghost use Rattle.cob_interp.specs.Touching.{Touches, makes_none};
ghost use Rattle.cob_interp.specs.Tracking.{AreLeft, AreOpen, ArePlaced, KeepsPlaces, Tracks};
ghost use Rattle.cob_interp.specs.Walking.{as_result, TellsBySink, Flushes, MayFlush, Refuses};

use crate::ends::{Ended, RunEnd};
use crate::handles::{Handles, is_full};
use crate::outside::write_out;
use crate::setting::{Setting, Standing};
use crate::steps::take_step;
use batch_io::{Files, MakeEnd, Sink, show_whole};
use cob_program::Act;
use cob_world::World;
use std::alloc::Global;

/// The most bytes of shown text that wait.
const SHOWN_LIMIT: usize = 8192;

/// Why a run halts: its end, or that the sink refused its text.
#[derive(Clone, Copy)]
pub enum Halt {
    End(RunEnd),
    Sink(MakeEnd),
}

/// Shows the text that waits.
pub fn flush<O: Sink>(world: &mut World, out: &mut O) -> Result<(), MakeEnd>
    ensures kept { world.new.program ≡ world.old.program }
    ensures flushes { MatchResult result
        (λ _. Flushes (O.state out.old) (O.state out.new) world.old.world world.new.world)
        (λ end. Refuses (O.state out.old) (O.state out.new) world.old.world world.new.world end) }
{
    show_whole(out, world.shown())?;
    world.clear_shown();
    Ok(())
}

/// Whether all text is shown before a statement: before one that opens or closes files.
fn shows_first(act: &Act) -> bool
    ensures { result ≡ shows_first (plain_act act.now) }
{
    matches!(act, Act::OpenFiles(_) | Act::CloseFiles(_))
}

/// Whether text that waits is shown before a statement: where all is, or where it is much.
fn is_flushed_before(place: &Standing, world: &World) -> bool
    ensures { shows_first (plain_act place.now.statement.now.act.now) ≡ true → result ≡ true }
{
    shows_first(place.statement.act) || world.shown().len() > SHOWN_LIMIT
}

/// Shows the text that waits, where that's due before a statement.
fn flush_before<O: Sink>(place: &Standing, world: &mut World, out: &mut O) -> Result<(), MakeEnd>
    ensures kept { world.new.program ≡ world.old.program }
    ensures flushes { MatchResult result
        (λ _. MayFlush (O.state out.old) (O.state out.new) world.old.world world.new.world)
        (λ end. Refuses (O.state out.old) (O.state out.new) world.old.world world.new.world end) }
    ensures first { IfOk result (λ _. shows_first (plain_act place.now.statement.now.act.now) ≡ true
        → world.new.world.shown ≡ []) }
{
    if is_flushed_before(place, world) {
        flush(world, out)
    } else {
        Ok(())
    }
}

/// Whether the outside's files failed.
fn is_failure(end: RunEnd) -> bool
    ensures { result ≡ is_failure end }
{
    matches!(end, RunEnd::ReadFault | RunEnd::WriteFault)
}

/// Behind a statement that was refused: where files failed, what still waits of the text is shown. Answers why the run
/// halts.
fn show_rest<O: Sink>(place: &Standing, world: &mut World, out: &mut O, end: RunEnd) -> Halt
    ensures kept { world.new.program ≡ world.old.program }
    ensures shows { ShowsRest (plain_act place.now.statement.now.act.now) (O.state out.old) (O.state out.new)
        world.old.world world.new.world end result }
{
    if shows_first(place.statement.act) {
        return Halt::End(end);
    }
    if !is_failure(end) {
        return Halt::End(end);
    }
    match flush(world, out) {
        Ok(()) => Halt::End(end),
        Err(refusal) => Halt::Sink(refusal),
    }
}

/// The file to which a statement writes a record, if it is a WRITE.
fn written_file(place: &Standing, world: &World) -> Option<usize>
    ensures { result ≡ written_by world.now.program.layout (plain_act place.now.statement.now.act.now) }
{
    match place.statement.act {
        Act::Write { rec, .. } => world.file_of(*rec),
        _ => None,
    }
}

/// Whether there is room for one more record of the file at a place behind those that wait.
fn has_room(setting: &Setting, world: &World, file: usize) -> bool
    ensures { result ≡ true → HasRoom (decl_at setting.now.program.now.layout file)
        (slice_get world.now.world.files file) }
{
    let Some(size) = setting.size(file) else {
        return true;
    };
    match world.file(file) {
        None => true,
        Some(found) => !is_full(found.all().len(), size),
    }
}

/// The file that a statement is to write a record to for which there is no room behind those that wait.
fn full_file(setting: &Setting, place: &Standing, world: &World) -> Option<usize>
    requires runs { world.now.program ≡ setting.now.program.now }
    ensures full { (file : ℕ) → result ≡ Some file
        → written_by setting.now.program.now.layout (plain_act place.now.statement.now.act.now) ≡ Some file }
    ensures room { result ≡ None → HasRoomFor setting.now world.now.world
        (plain_act place.now.statement.now.act.now) }
{
    match written_file(place, world) {
        None => None,
        Some(file) => {
            if has_room(setting, world, file) {
                None
            } else {
                Some(file)
            }
        }
    }
}

/// Before a WRITE: writes out what waits of its file, where there is no room for one more record.
fn make_room<F: Files>(
    alloc: Global,
    setting: &Setting,
    files: &mut F,
    handles: &Handles,
    world: &mut World,
    place: &Standing,
) -> Result<(), RunEnd>
    requires ready { IsReady setting.now }
    requires runs { world.old.program ≡ setting.now.program.now }
    requires live { AreOpen (F.state files.old) handles.now }
    requires placed { ArePlaced (paths_of setting.now) (F.state files.old) handles.now world.old.world.files }
    ensures kept { world.new.program ≡ world.old.program }
    ensures sees { MatchResult result
        (λ _. Sees (paths_of setting.now) (F.state files.old) (F.state files.new) world.old.world world.new.world)
        (λ e. IsRefusal (F.state files.old) (F.state files.new) e) }
    ensures touches { Touches (paths_of setting.now) makes_none world.old.world (F.state files.old)
        (F.state files.new) }
    ensures ids { KeepsIds (F.state files.old) (F.state files.new) }
    ensures places { IfOk result (λ _. KeepsPlaces world.old.world.files world.new.world.files) }
    ensures room { IfOk result (λ _. HasRoomFor setting.now world.new.world
        (plain_act place.now.statement.now.act.now)) }
    ensures met { IsMetBy (last_of 0 (plain_act place.now.statement.now.act.now)) result }
    ensures still { IfErr result (λ _. world.new.world ≡ world.old.world) }
{
    match full_file(setting, place, world) {
        None => Ok(()),
        Some(file) => write_out(alloc, setting, files, handles, world, file),
    }
}

/// Makes room for a record that is to be written, and takes a step. Answers the node behind it.
fn take_roomy_step<F: Files>(
    alloc: Global,
    setting: &Setting,
    files: &mut F,
    handles: &mut Handles,
    world: &mut World,
    place: &Standing,
    node: u32,
    step: u64,
) -> Result<u32, RunEnd>
    requires ready { IsReady setting.now }
    requires runs { world.old.program ≡ setting.now.program.now }
    requires starts { StartsAt setting.now node place.now }
    requires fits { FitsPlace setting.now node place.now }
    requires live { AreOpen (F.state files.old) handles.old }
    requires placed { ArePlaced (paths_of setting.now) (F.state files.old) handles.old world.old.world.files }
    ensures kept { world.new.program ≡ world.old.program }
    ensures rest { IfOk result (λ next. IsRest setting.now.plan.nodes.items next) }
    ensures tracks { Tracks (F.state files.old) (F.state files.new) handles.old handles.new }
    ensures placed { AreLeft (paths_of setting.now) (F.state files.new) handles.new world.new.world.files result }
    ensures takes { (sink : SinkState) (budget steps : ℕ) (start : Outside) → step ≡ steps + 1 → steps < budget
        → Stands (program_of setting.now) setting.now.graph.now (paths_of setting.now) start
        (outside (F.state files.old) sink) world.old.world steps steps node
        → Arrives (program_of setting.now) setting.now.graph.now (paths_of setting.now) budget start
        (outside (F.state files.new) sink) world.new.world step result }
    ensures reaches { Reaches (paths_of setting.now) (plain_act place.now.statement.now.act.now) world.old.world
        (F.state files.old) (F.state files.new) result }
    ensures still { shows_first (plain_act place.now.statement.now.act.now) ≡ false
        → IfFailed result (world.new.world.shown ≡ world.old.world.shown) }
{
    make_room(alloc, setting, files, handles, world, place)?;
    take_step(alloc, setting, files, handles, world, place, node, step)
}

/// Shows text that waits, where that's due, and takes a step. Answers the node behind it.
fn go_on<F: Files, O: Sink>(
    alloc: Global,
    setting: &Setting,
    files: &mut F,
    handles: &mut Handles,
    world: &mut World,
    out: &mut O,
    node: u32,
    step: u64,
) -> Result<u32, Halt>
    requires ready { IsReady setting.now }
    requires rest { IsRest setting.now.plan.nodes.items node }
    requires below { node < length setting.now.plan.nodes.items }
    requires runs { world.old.program ≡ setting.now.program.now }
    requires live { AreOpen (F.state files.old) handles.old }
    requires placed { ArePlaced (paths_of setting.now) (F.state files.old) handles.old world.old.world.files }
    ensures kept { world.new.program ≡ world.old.program }
    ensures rest { IfOk result (λ next. IsRest setting.now.plan.nodes.items next) }
    ensures tracks { Tracks (F.state files.old) (F.state files.new) handles.old handles.new }
    ensures placed { AreLeft (paths_of setting.now) (F.state files.new) handles.new world.new.world.files
        (as_result result) }
    ensures goes { (budget steps : ℕ) (start : Outside) → step ≡ steps + 1 → steps < budget
        → IsAt (program_of setting.now) setting.now.graph.now (paths_of setting.now) budget start
        (outside (F.state files.old) (O.state out.old)) world.old.world steps node
        → GoesOn (program_of setting.now) setting.now.graph.now (paths_of setting.now) budget start
        (outside (F.state files.new) (O.state out.new)) world.new.world step (as_result result) }
    ensures sink { TellsBySink (O.state out.old) (O.state out.new) result }
{
    let place = setting.place(node);
    match flush_before(&place, world, out) {
        Err(end) => Err(Halt::Sink(end)),
        Ok(()) => match take_roomy_step(alloc, setting, files, handles, world, &place, node, step) {
            Err(end) => Err(show_rest(&place, world, out, end)),
            Ok(next) => Ok(next),
        },
    }
}

/// The end of a run whose budget is spent at a node.
fn end_at(setting: &Setting, node: u32, budget: u64) -> Result<Ended, RunEnd>
    requires ready { IsReady setting.now }
    requires rest { IsRest setting.now.plan.nodes.items node }
    ensures { (start now : Outside) (w : state.World)
        → IsAt (program_of setting.now) setting.now.graph.now (paths_of setting.now) budget start now w budget node
        → HaltsOff (program_of setting.now) setting.now.graph.now (paths_of setting.now) budget start now w result }
{
    if setting.is_final(node) {
        return Ok(Ended { steps: budget });
    }
    Err(RunEnd::StepsSpent(budget))
}

/// Runs from the first node until the run ends or the budget of steps is spent.
pub fn walk<F: Files, O: Sink>(
    alloc: Global,
    setting: &Setting,
    files: &mut F,
    handles: &mut Handles,
    world: &mut World,
    out: &mut O,
    budget: u64,
) -> Result<Ended, Halt>
    requires ready { IsReady setting.now }
    requires runs { world.old.program ≡ setting.now.program.now }
    requires live { AreOpen (F.state files.old) handles.old }
    requires placed { ArePlaced (paths_of setting.now) (F.state files.old) handles.old world.old.world.files }
    ensures halts { (start : Outside)
        → IsAt (program_of setting.now) setting.now.graph.now (paths_of setting.now) budget start
        (outside (F.state files.old) (O.state out.old)) world.old.world 0 1
        → HaltsOff (program_of setting.now) setting.now.graph.now (paths_of setting.now) budget start
        (outside (F.state files.new) (O.state out.new)) world.new.world (as_result result) }
    ensures sink { TellsBySink (O.state out.old) (O.state out.new) result }
    ensures tracks { Tracks (F.state files.old) (F.state files.new) handles.old handles.new }
    ensures placed { AreLeft (paths_of setting.now) (F.state files.new) handles.new world.new.world.files
        (as_result result) }
{
    let mut node = 1;
    for steps in 0..budget {
        if setting.is_final(node) {
            return Ok(Ended { steps });
        }
        node = go_on(alloc, setting, files, handles, world, out, node, steps + 1)?;
    }
    match end_at(setting, node, budget) {
        Ok(ended) => Ok(ended),
        Err(end) => Err(Halt::End(end)),
    }
}
