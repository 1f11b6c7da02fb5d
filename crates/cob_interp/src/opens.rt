//! OPEN (ISO 1989:1985, "The OPEN statement").
ghost use Rattle.std.specs.Prelude.{◌≡◌, ℕ, suc, true, IfOk, [], Some, slice_get, take};
ghost use Rattle.batch_io.specs.SinkState.{SinkState};
ghost use Rattle.cob_program.specs.Act.{open_files};
ghost use Rattle.cob_program.specs.ActView.{plain_act};
ghost use Rattle.cob_interp.specs.Runs.{outside};
ghost use Rattle.cob_interp.specs.Setting.{IsReady, IsPlace, IsPlaced, IsWayOn, LeadsBy, paths_of};
ghost use Rattle.cob_interp.specs.Meeting.{IsMetBy};
ghost use Rattle.cob_plan.specs.Stepping.{file_opened};
ghost use Rattle.cob_interp.specs.Reached.{last_opened};
ghost use Rattle.cob_interp.specs.Touching.{Makes, OpensOnly, makes_in};
ghost use Rattle.cob_interp.specs.Tracking.{AreLeft, AreOpen, ArePlaced, Tracks};
ghost use Rattle.cob_interp.specs.Doing.{IsFresh, Leads};

use crate::ends::RunEnd;
use crate::handles::Handles;
use crate::nodes::do_part;
use crate::outside::ready_to_open;
use crate::setting::{Setting, Standing};
use batch_io::Files;
use cob_plan::Op;
use cob_program::Opening;
use cob_world::{FileMode, World};
use std::alloc::Global;

fn opening_in(openings: &[Opening], number: u32) -> Option<Opening>
    ensures { result ≡ slice_get openings.now number }
{
    openings.get(number as usize).copied()
}

/// Whether the file at a place is being written, and nothing waits of it.
fn is_fresh(world: &World, place: u32) -> bool
    ensures { result ≡ true → IsFresh (slice_get world.now.world.files place) }
{
    match world.file(place as usize) {
        None => false,
        Some(found) => match (found.mode(), found.bytes()) {
            (FileMode::Writing, Some(bytes)) => bytes.is_empty(),
            _ => false,
        },
    }
}

/// A file of which nothing waits gets this room, which is empty.
fn fill_with(world: &mut World, place: u32, room: Vec<u8>)
    requires fresh { IsFresh (slice_get world.old.world.files place) }
    requires empty { room.items ≡ [] }
    ensures kept { world.new.program ≡ world.old.program }
    ensures same { world.new.world ≡ world.old.world }
{
    world.set_content(place as usize, Some(room));
}

/// Behind an OPEN: a file that is written gets the room that was taken for it.
fn lend_room(alloc: Global, handles: &mut Handles, world: &mut World, place: u32)
    ensures kept { world.new.program ≡ world.old.program }
    ensures same { world.new.world ≡ world.old.world }
    ensures ids { handles.new ≡ handles.old }
{
    if !is_fresh(world, place) {
        return;
    }
    if let Some(room) = handles.take_empty_room(alloc, place as usize) {
        fill_with(world, place, room);
    }
}

/// Does the part of a node whose statement is an OPEN of these files.
pub fn do_open<F: Files>(
    alloc: Global,
    setting: &Setting,
    files: &mut F,
    handles: &mut Handles,
    place: &Standing,
    openings: &[Opening],
    world: &mut World,
    step: u64,
) -> Result<u32, RunEnd>
    requires ready { IsReady setting.now }
    requires runs { world.old.program ≡ setting.now.program.now }
    requires place { IsPlaced setting.now place.now }
    requires its { plain_act place.now.statement.now.act.now ≡ open_files openings.now }
    requires live { AreOpen (F.state files.old) handles.old }
    requires placed { ArePlaced (paths_of setting.now) (F.state files.old) handles.old world.old.world.files }
    ensures kept { world.new.program ≡ world.old.program }
    ensures tracks { Tracks (F.state files.old) (F.state files.new) handles.old handles.new }
    ensures placed { AreLeft (paths_of setting.now) (F.state files.new) handles.new world.new.world.files result }
    ensures leads { (sink : SinkState) (node budget : ℕ) → IsPlace setting.now node place.now
        → Leads setting.now budget step node (outside (F.state files.old) sink) (outside (F.state files.new) sink)
        world.old.world world.new.world result }
    ensures touches { (k : ℕ) → file_opened place.now.plan_node.now.op ≡ Some k
        → Makes (paths_of setting.now) (makes_in (take (suc k) openings.now)) world.old.world
        (F.state files.old) (F.state files.new) }
    ensures opens { IfOk result (λ _. OpensOnly world.old.world world.new.world) }
    ensures met { (k : ℕ) → file_opened place.now.plan_node.now.op ≡ Some k
        → IsMetBy (open_files (last_opened (suc k) openings.now)) result }
    ensures way { IsWayOn place.now.plan_node.now.op result }
    ensures on { LeadsBy setting.now place.now.plan_node.now.op result }
{
    let Op::Open { file, .. } = place.plan_node.op else {
        unreachable!();
    };
    match opening_in(openings, file) {
        None => unreachable!(),
        Some(opening) => {
            ready_to_open(alloc, setting, files, handles, world, opening)?;
            let next = do_part(alloc, setting, place, world, step);
            lend_room(alloc, handles, world, opening.file);
            next
        }
    }
}
