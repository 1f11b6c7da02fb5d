//! What is done at a node of a step.
ghost use Rattle.std.specs.Prelude.{◌≡◌, ℕ, IfOk, length, slice_get};
ghost use Rattle.batch_io.specs.SinkState.{SinkState};
ghost use Rattle.cob_program.specs.Act.{open_files, close_files};
ghost use Rattle.cob_program.specs.ActView.{plain_act};
ghost use Rattle.cob_interp.specs.Ends.{UnlessRefused};
ghost use Rattle.cob_interp.specs.Runs.{Outside, outside};
ghost use Rattle.cob_interp.specs.Setting.{IsReady, IsPlace, IsPlaced, LeadsBy, paths_of};
ghost use Rattle.cob_interp.specs.Meeting.{IfFailed};
ghost use Rattle.cob_interp.specs.Touching.{Touches, ClosesOnly, makes_none};
ghost use Rattle.cob_interp.specs.Doing.{IsPlain, halted, DoesPart, Leads};
ghost use Rattle.cob_interp.specs.Tracking.{AreLeft, AreOpen, ArePlaced, KeepsPlaces, Tracks};

use crate::ends::RunEnd;
use crate::handles::Handles;
use crate::outside::ready_to_close;
use crate::setting::{Setting, Standing};
use batch_io::Files;
use cob_plan::{DoEnd, Op, do_op};
use cob_world::World;
use std::alloc::Global;

fn halt_of(end: DoEnd, statement: u32, step: u64) -> RunEnd
    ensures { result ≡ halted statement step end }
{
    match end {
        DoEnd::Fault(kind) => RunEnd::Fault {
            kind,
            statement,
            step,
        },
        DoEnd::Stop(status) => RunEnd::IoStop { status, statement },
        DoEnd::Memory => RunEnd::Memory,
    }
}

/// Does the part of a node, where no file has to be made ready for it. Answers the next node.
#[inline(always)]
pub fn do_part(
    alloc: Global,
    setting: &Setting,
    place: &Standing,
    world: &mut World,
    step: u64,
) -> Result<u32, RunEnd>
    requires ready { IsReady setting.now }
    requires runs { world.old.program ≡ setting.now.program.now }
    requires place { IsPlaced setting.now place.now }
    ensures kept { world.new.program ≡ world.old.program }
    ensures does { DoesPart setting.now place.now step world.old.world world.new.world result }
{
    match do_op(alloc, place.statement, &place.plan_node.op, world) {
        Ok(node) => Ok(node),
        Err(end) => Err(halt_of(end, place.statement.number, step)),
    }
}

/// Does the part of a node whose statement neither opens, nor closes, nor reads a file there.
#[inline(always)]
pub fn do_plain(
    alloc: Global,
    setting: &Setting,
    place: &Standing,
    world: &mut World,
    step: u64,
) -> Result<u32, RunEnd>
    requires ready { IsReady setting.now }
    requires runs { world.old.program ≡ setting.now.program.now }
    requires place { IsPlaced setting.now place.now }
    requires plain { IsPlain place.now.plan_node.now.op (plain_act place.now.statement.now.act.now) }
    ensures kept { world.new.program ≡ world.old.program }
    ensures leads { (now : Outside) (node budget : ℕ) → IsPlace setting.now node place.now
        → Leads setting.now budget step node now now world.old.world world.new.world result }
    ensures places { UnlessRefused result (KeepsPlaces world.old.world.files world.new.world.files) }
    ensures fine { IfFailed result ⊥ }
    ensures on { LeadsBy setting.now place.now.plan_node.now.op result }
{
    do_part(alloc, setting, place, world, step)
}

fn file_in(files: &[u32], number: u32) -> Option<u32>
    ensures { result ≡ slice_get files.now number }
{
    files.get(number as usize).copied()
}

/// Does the part of a node whose statement is a CLOSE of these files.
pub fn do_close<F: Files>(
    alloc: Global,
    setting: &Setting,
    files: &mut F,
    handles: &mut Handles,
    place: &Standing,
    closed: &[u32],
    world: &mut World,
    step: u64,
) -> Result<u32, RunEnd>
    requires ready { IsReady setting.now }
    requires runs { world.old.program ≡ setting.now.program.now }
    requires place { IsPlaced setting.now place.now }
    requires its { plain_act place.now.statement.now.act.now ≡ close_files closed.now }
    requires live { AreOpen (F.state files.old) handles.old }
    requires placed { ArePlaced (paths_of setting.now) (F.state files.old) handles.old world.old.world.files }
    ensures kept { world.new.program ≡ world.old.program }
    ensures tracks { Tracks (F.state files.old) (F.state files.new) handles.old handles.new }
    ensures placed { AreLeft (paths_of setting.now) (F.state files.new) handles.new world.new.world.files result }
    ensures leads { (sink : SinkState) (node budget : ℕ) → IsPlace setting.now node place.now
        → Leads setting.now budget step node (outside (F.state files.old) sink) (outside (F.state files.new) sink)
        world.old.world world.new.world result }
    ensures touches { Touches (paths_of setting.now) makes_none world.old.world (F.state files.old)
        (F.state files.new) }
    ensures closes { IfOk result (λ _. ClosesOnly (paths_of setting.now) (F.state files.old) (F.state files.new)
        world.old.world world.new.world) }
    ensures on { LeadsBy setting.now place.now.plan_node.now.op result }
{
    let Op::Close { file, .. } = place.plan_node.op else {
        unreachable!();
    };
    match file_in(closed, file) {
        None => unreachable!(),
        Some(at) => {
            ready_to_close(alloc, setting, files, handles, world, at)?;
            do_part(alloc, setting, place, world, step)
        }
    }
}
