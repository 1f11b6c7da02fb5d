//! READ (ISO 1989:1985, "The READ statement"): the next record is read where the statement asks for it.
ghost use Rattle.std.specs.Prelude.{◌≡◌, ◌+◌, ◌<◌, ℕ, MatchResult, IfSome, Some, None, false, length, slice_get};
ghost use Rattle.batch_io.specs.FilesState.{known_bytes};
ghost use Rattle.batch_io.specs.SinkState.{SinkState};
ghost use Rattle.cob_program.specs.ActView.{plain_act};
ghost use Rattle.cob_interp.specs.declared.parts.Call.TheVariants as call;
ghost use Rattle.cob_interp.specs.declared.ends.RunEnd.TheVariants as end;
ghost use Rattle.cob_interp.specs.Doing.{ReadsPart};
ghost use Rattle.cob_interp.specs.Meeting.{FailsBy, IfFailed};
ghost use Rattle.cob_interp.specs.Readying.{GivesWindow, IsDeclared, IsRestOr, IsReadOn, settled};
ghost use Rattle.cob_interp.specs.Runs.{Outside, outside};
ghost use Rattle.cob_interp.specs.Running.{Stands, Arrives};
ghost use Rattle.cob_interp.specs.Setting.{IsReady, StartsAt, IsCall, IsPlaced, LeadsBy, program_of, paths_of};
ghost use Rattle.cob_interp.specs.Tracking.{IsHeldFor, AreLeft, AreOpen, ArePlaced, Tracks};

use crate::ends::RunEnd;
use crate::handles::Handles;
use crate::nodes::do_part;
use crate::setting::{Setting, Standing};
use batch_io::Files;
use cob_plan::Op;
use cob_world::{FileMode, World};
use std::alloc::Global;

/// The next record of the file at a place, or nothing at its end. A rest that is no record is refused.
fn window_of<F: Files>(
    alloc: Global,
    files: &mut F,
    handles: &mut Handles,
    file: u32,
    size: u32,
    before: usize,
) -> Result<Vec<u8>, RunEnd>
    requires live { AreOpen (F.state files.old) handles.old }
    requires reads { IsHeldFor handles.old file false }
    ensures tracks { Tracks (F.state files.old) (F.state files.new) handles.old handles.new }
    ensures same { known_bytes (F.state files.new) ≡ known_bytes (F.state files.old) }
    ensures kept { handles.new ≡ handles.old }
    ensures gives { MatchResult result
        (λ window. GivesWindow (F.state files.old) (F.state files.new) handles.old file size window.items)
        (λ e. IsRestOr (F.state files.old) (F.state files.new) handles.old file size before e) }
    ensures fault { FailsBy false result }
{
    let (room, count) = handles.next_record(alloc, files, file as usize, size)?;
    if count == room.len() {
        return Ok(room);
    }
    handles.give_room(file as usize, room);
    if count == 0 {
        return Ok(Vec::new(alloc));
    }
    match before.checked_add(count) {
        None => Err(RunEnd::Memory),
        Some(length) => Err(RunEnd::Ragged {
            file,
            length: length as u64,
        }),
    }
}

/// Behind a READ: the file at a place gives its room back, and its place goes on behind so many bytes.
fn settle(
    alloc: Global,
    handles: &mut Handles,
    world: &mut World,
    file: u32,
    before: usize,
) -> Result<(), RunEnd>
    ensures kept { world.new.program ≡ world.old.program }
    ensures same { handles.new ≡ handles.old }
    ensures settles { MatchResult result (λ _. world.new.world ≡ settled file before world.old.world)
        (λ e. e ≡ end.Memory) }
{
    let Some(found) = world.file(file as usize) else {
        return Ok(());
    };
    let Some(place) = before.checked_add(found.place()) else {
        return Err(RunEnd::Memory);
    };
    match world.replace_content(file as usize, Some(Vec::new(alloc)), place) {
        Some(room) if !room.as_slice().is_empty() => handles.give_room(file as usize, room),
        _ => {}
    }
    Ok(())
}

/// How many bytes were read of the file at a place, if it is read and its end wasn't met.
fn read_so_far(world: &World, file: u32) -> Option<usize>
    ensures { IsReadOn (slice_get world.now.world.files file) result }
{
    let found = world.file(file as usize)?;
    match found.mode() {
        FileMode::Reading { ended: false } => Some(found.place()),
        _ => None,
    }
}

/// Does the part of a READ's node, of a file that is read on, of which so many bytes were read.
fn do_window<F: Files>(
    alloc: Global,
    setting: &Setting,
    files: &mut F,
    handles: &mut Handles,
    world: &mut World,
    place: &Standing,
    file: u32,
    before: usize,
    step: u64,
) -> Result<u32, RunEnd>
    requires ready { IsReady setting.now }
    requires runs { world.old.program ≡ setting.now.program.now }
    requires placed { IsPlaced setting.now place.now }
    requires declared { IsDeclared setting.now file }
    requires live { AreOpen (F.state files.old) handles.old }
    requires reads { IsHeldFor handles.old file false }
    ensures kept { world.new.program ≡ world.old.program }
    ensures tracks { Tracks (F.state files.old) (F.state files.new) handles.old handles.new }
    ensures same { known_bytes (F.state files.new) ≡ known_bytes (F.state files.old) }
    ensures ids { handles.new ≡ handles.old }
    ensures reads { ReadsPart setting.now place.now step (F.state files.old) (F.state files.new) handles.old file before
        world.old.world world.new.world result }
    ensures fault { FailsBy false result }
    ensures still { IfFailed result (world.new.world ≡ world.old.world) }
    ensures on { LeadsBy setting.now place.now.plan_node.now.op result }
{
    let size = setting.size_at(file as usize);
    let window = window_of(alloc, files, handles, file, size, before)?;
    let _ = world.replace_content(file as usize, Some(window), 0);
    let next = do_part(alloc, setting, place, world, step);
    settle(alloc, handles, world, file, before)?;
    next
}

/// Does the part of a READ's first node. Answers the next node.
pub fn do_read<F: Files>(
    alloc: Global,
    setting: &Setting,
    files: &mut F,
    handles: &mut Handles,
    world: &mut World,
    place: &Standing,
    node: u32,
    file: u32,
    step: u64,
) -> Result<u32, RunEnd>
    requires ready { IsReady setting.now }
    requires runs { world.old.program ≡ setting.now.program.now }
    requires starts { StartsAt setting.now node place.now }
    requires reads { IsCall (plain_act place.now.statement.now.act.now) (call.Read file) }
    requires live { AreOpen (F.state files.old) handles.old }
    requires placed { ArePlaced (paths_of setting.now) (F.state files.old) handles.old world.old.world.files }
    ensures kept { world.new.program ≡ world.old.program }
    ensures tracks { Tracks (F.state files.old) (F.state files.new) handles.old handles.new }
    ensures same { known_bytes (F.state files.new) ≡ known_bytes (F.state files.old) }
    ensures placed { AreLeft (paths_of setting.now) (F.state files.new) handles.new world.new.world.files result }
    ensures takes { (sink : SinkState) (budget steps : ℕ) (start : Outside) → step ≡ steps + 1 → steps < budget
        → Stands (program_of setting.now) setting.now.graph.now (paths_of setting.now) start
        (outside (F.state files.old) sink) world.old.world steps steps node
        → Arrives (program_of setting.now) setting.now.graph.now (paths_of setting.now) budget start
        (outside (F.state files.new) sink) world.new.world step result }
    ensures fault { FailsBy false result }
    ensures still { IfFailed result (world.new.world ≡ world.old.world) }
    ensures on { LeadsBy setting.now place.now.plan_node.now.op result }
{
    let Op::Read { .. } = place.plan_node.op else {
        unreachable!();
    };
    match read_so_far(world, file) {
        None => do_part(alloc, setting, place, world, step),
        Some(before) => do_window(
            alloc, setting, files, handles, world, place, file, before, step,
        ),
    }
}
