//! A step of the run: all that its statement does, from the node at which it begins to the next such node.
ghost use Rattle.std.specs.Prelude.{◌≡◌, ◌+◌, ◌<◌, ◌⊎◌, ℕ, suc, true, false, IfOk, Some, take};
ghost use Rattle.batch_io.specs.FilesState.{known_bytes};
ghost use Rattle.batch_io.specs.SinkState.{SinkState};
ghost use Rattle.cob_program.specs.Act.{open_files, close_files};
ghost use Rattle.cob_program.specs.ActView.{plain_act};
ghost use Rattle.cob_runs.specs.Effects.{act_at};
ghost use Rattle.cob_interp.specs.declared.parts.Call.TheVariants as call;
ghost use Rattle.cob_interp.specs.Ends.{UnlessRefused};
ghost use Rattle.cob_interp.specs.Runs.{Outside, outside};
ghost use Rattle.cob_interp.specs.Running.{Stands, Arrives};
ghost use Rattle.cob_interp.specs.Setting.{IsReady, IsPlace, StartsAt, FitsPlace, LeadsOn, IsUncalled, IsCall, OpensAt, is_uncalled, program_of, paths_of};
ghost use Rattle.cob_plan.specs.Stepping.{rests, IsWithin, IsRest};
ghost use Rattle.cob_interp.specs.Meeting.{FailsBy, IfFailed, IsMetBy, shows_first};
ghost use Rattle.cob_interp.specs.Reached.{Reaches, last_opened};
ghost use Rattle.cob_interp.specs.Touching.{Touches, Makes, ClosesOnly, OpensOnly, makes_in, makes_none};
ghost use Rattle.cob_interp.specs.Tracking.{AreLeft, AreOpen, ArePlaced, KeepsPlaces, Tracks};
ghost use Rattle.cob_interp.specs.Doing.{IsPlain, Leads};

use crate::ends::RunEnd;
use crate::handles::Handles;
use crate::nodes::{do_close, do_plain};
use crate::opens::do_open;
use crate::parts::{Call, call_of};
use crate::reads::do_read;
use crate::setting::{Setting, Standing};
use batch_io::Files;
use cob_program::Opening;
use cob_world::World;
use std::alloc::Global;

/// Does the part of a node of a step that is underway, where no file is opened, closed or read. Answers the next node.
fn do_node(
    alloc: Global,
    setting: &Setting,
    world: &mut World,
    node: u32,
    statement: u32,
    step: u64,
) -> Result<u32, RunEnd>
    requires ready { IsReady setting.now }
    requires runs { world.old.program ≡ setting.now.program.now }
    requires within { IsWithin setting.now.plan.nodes.items node statement }
    requires goes { rests setting.now.plan.nodes.items node ≡ false }
    requires uncalled { IsUncalled setting.now statement }
    ensures kept { world.new.program ≡ world.old.program }
    ensures leads { (now : Outside) (budget : ℕ)
        → Leads setting.now budget step node now now world.old.world world.new.world result }
    ensures places { UnlessRefused result (KeepsPlaces world.old.world.files world.new.world.files) }
    ensures fine { IfFailed result ⊥ }
    ensures on { LeadsOn setting.now node statement result }
{
    let place = setting.place(node);
    do_plain(alloc, setting, &place, world, step)
}

/// Goes on in a step that is underway, where no file is opened, closed or read, until another begins or the run
/// has ended. Answers the node.
#[inline(never)]
fn go_through(
    alloc: Global,
    setting: &Setting,
    world: &mut World,
    node: u32,
    statement: u32,
    step: u64,
) -> Result<u32, RunEnd>
    requires ready { IsReady setting.now }
    requires runs { world.old.program ≡ setting.now.program.now }
    requires within { IsWithin setting.now.plan.nodes.items node statement }
    requires goes { rests setting.now.plan.nodes.items node ≡ false }
    requires uncalled { IsUncalled setting.now statement }
    ensures rest { IfOk result (λ next. IsRest setting.now.plan.nodes.items next) }
    ensures kept { world.new.program ≡ world.old.program }
    ensures leads { (now : Outside) (budget : ℕ)
        → Leads setting.now budget step node now now world.old.world world.new.world result }
    ensures places { UnlessRefused result (KeepsPlaces world.old.world.files world.new.world.files) }
    ensures fine { IfFailed result ⊥ }
{
    let mut at = node;
    for _part in 0..setting.plan.nodes.len() {
        at = do_node(alloc, setting, world, at, statement, step)?;
        if setting.rests_at(at) {
            return Ok(at);
        }
    }
    unreachable!()
}

/// Does all of a step from the place at which it begins, of a statement that opens, closes and reads no file.
/// Answers the node behind it.
#[inline(always)]
fn go(
    alloc: Global,
    setting: &Setting,
    world: &mut World,
    place: &Standing,
    node: u32,
    step: u64,
) -> Result<u32, RunEnd>
    requires ready { IsReady setting.now }
    requires runs { world.old.program ≡ setting.now.program.now }
    requires place { IsPlace setting.now node place.now }
    requires fits { FitsPlace setting.now node place.now }
    requires uncalled { is_uncalled (plain_act place.now.statement.now.act.now) ≡ true }
    requires plain { IsPlain place.now.plan_node.now.op (plain_act place.now.statement.now.act.now) }
    ensures rest { IfOk result (λ next. IsRest setting.now.plan.nodes.items next) }
    ensures kept { world.new.program ≡ world.old.program }
    ensures leads { (now : Outside) (budget : ℕ)
        → Leads setting.now budget step node now now world.old.world world.new.world result }
    ensures places { UnlessRefused result (KeepsPlaces world.old.world.files world.new.world.files) }
    ensures fine { IfFailed result ⊥ }
{
    let next = do_plain(alloc, setting, place, world, step)?;
    if setting.rests_at(next) {
        return Ok(next);
    }
    go_through(alloc, setting, world, next, place.plan_node.statement, step)
}

/// Opens the next file of an OPEN that is underway. Answers the next node.
fn open_next<F: Files>(
    alloc: Global,
    setting: &Setting,
    files: &mut F,
    handles: &mut Handles,
    world: &mut World,
    node: u32,
    statement: u32,
    openings: &[Opening],
    step: u64,
) -> Result<u32, RunEnd>
    requires ready { IsReady setting.now }
    requires runs { world.old.program ≡ setting.now.program.now }
    requires within { IsWithin setting.now.plan.nodes.items node statement }
    requires its { act_at (program_of setting.now) statement ≡ Some (open_files openings.now) }
    requires live { AreOpen (F.state files.old) handles.old }
    requires placed { ArePlaced (paths_of setting.now) (F.state files.old) handles.old world.old.world.files }
    ensures kept { world.new.program ≡ world.old.program }
    ensures on { LeadsOn setting.now node statement result }
    ensures tracks { Tracks (F.state files.old) (F.state files.new) handles.old handles.new }
    ensures placed { AreLeft (paths_of setting.now) (F.state files.new) handles.new world.new.world.files result }
    ensures leads { (sink : SinkState) (budget : ℕ) → Leads setting.now budget step node
        (outside (F.state files.old) sink) (outside (F.state files.new) sink) world.old.world world.new.world result }
    ensures touches { (k : ℕ) → OpensAt setting.now node k
        → Makes (paths_of setting.now) (makes_in (take (suc k) openings.now)) world.old.world
        (F.state files.old) (F.state files.new) }
    ensures opens { IfOk result (λ _. OpensOnly world.old.world world.new.world) }
    ensures met { (k : ℕ) → OpensAt setting.now node k
        → IsMetBy (open_files (last_opened (suc k) openings.now)) result }
    ensures turn { IfOk result (λ next. (k : ℕ) → OpensAt setting.now node k
        → IsRest setting.now.plan.nodes.items next ⊎ OpensAt setting.now next (k + 1)) }
{
    let place = setting.place(node);
    do_open(
        alloc, setting, files, handles, &place, openings, world, step,
    )
}

/// Opens the files of an OPEN, from its first node on. Answers the node behind it.
fn open_all<F: Files>(
    alloc: Global,
    setting: &Setting,
    files: &mut F,
    handles: &mut Handles,
    world: &mut World,
    node: u32,
    statement: u32,
    openings: &[Opening],
    step: u64,
) -> Result<u32, RunEnd>
    requires ready { IsReady setting.now }
    requires runs { world.old.program ≡ setting.now.program.now }
    requires within { IsWithin setting.now.plan.nodes.items node statement }
    requires its { act_at (program_of setting.now) statement ≡ Some (open_files openings.now) }
    requires begins { OpensAt setting.now node 0 }
    requires live { AreOpen (F.state files.old) handles.old }
    requires placed { ArePlaced (paths_of setting.now) (F.state files.old) handles.old world.old.world.files }
    ensures kept { world.new.program ≡ world.old.program }
    ensures rest { IfOk result (λ next. IsRest setting.now.plan.nodes.items next) }
    ensures tracks { Tracks (F.state files.old) (F.state files.new) handles.old handles.new }
    ensures placed { AreLeft (paths_of setting.now) (F.state files.new) handles.new world.new.world.files result }
    ensures leads { (sink : SinkState) (budget : ℕ) → Leads setting.now budget step node
        (outside (F.state files.old) sink) (outside (F.state files.new) sink) world.old.world world.new.world result }
    ensures reaches { Reaches (paths_of setting.now) (open_files openings.now) world.old.world
        (F.state files.old) (F.state files.new) result }
{
    let mut at = node;
    for _turn in 0..setting.plan.nodes.len() {
        at = open_next(
            alloc, setting, files, handles, world, at, statement, openings, step,
        )?;
        if setting.rests_at(at) {
            return Ok(at);
        }
    }
    unreachable!()
}

/// Closes the next file of a CLOSE that is underway. Answers the next node.
fn close_next<F: Files>(
    alloc: Global,
    setting: &Setting,
    files: &mut F,
    handles: &mut Handles,
    world: &mut World,
    node: u32,
    statement: u32,
    closed: &[u32],
    step: u64,
) -> Result<u32, RunEnd>
    requires ready { IsReady setting.now }
    requires runs { world.old.program ≡ setting.now.program.now }
    requires within { IsWithin setting.now.plan.nodes.items node statement }
    requires its { act_at (program_of setting.now) statement ≡ Some (close_files closed.now) }
    requires live { AreOpen (F.state files.old) handles.old }
    requires placed { ArePlaced (paths_of setting.now) (F.state files.old) handles.old world.old.world.files }
    ensures kept { world.new.program ≡ world.old.program }
    ensures on { LeadsOn setting.now node statement result }
    ensures tracks { Tracks (F.state files.old) (F.state files.new) handles.old handles.new }
    ensures placed { AreLeft (paths_of setting.now) (F.state files.new) handles.new world.new.world.files result }
    ensures leads { (sink : SinkState) (budget : ℕ) → Leads setting.now budget step node
        (outside (F.state files.old) sink) (outside (F.state files.new) sink) world.old.world world.new.world result }
    ensures touches { Touches (paths_of setting.now) makes_none world.old.world (F.state files.old)
        (F.state files.new) }
    ensures closes { IfOk result (λ _. ClosesOnly (paths_of setting.now) (F.state files.old) (F.state files.new)
        world.old.world world.new.world) }
{
    let place = setting.place(node);
    do_close(alloc, setting, files, handles, &place, closed, world, step)
}

/// Closes the files of a CLOSE, from its first node on. Answers the node behind it.
fn close_all<F: Files>(
    alloc: Global,
    setting: &Setting,
    files: &mut F,
    handles: &mut Handles,
    world: &mut World,
    node: u32,
    statement: u32,
    closed: &[u32],
    step: u64,
) -> Result<u32, RunEnd>
    requires ready { IsReady setting.now }
    requires runs { world.old.program ≡ setting.now.program.now }
    requires within { IsWithin setting.now.plan.nodes.items node statement }
    requires its { act_at (program_of setting.now) statement ≡ Some (close_files closed.now) }
    requires live { AreOpen (F.state files.old) handles.old }
    requires placed { ArePlaced (paths_of setting.now) (F.state files.old) handles.old world.old.world.files }
    ensures kept { world.new.program ≡ world.old.program }
    ensures rest { IfOk result (λ next. IsRest setting.now.plan.nodes.items next) }
    ensures tracks { Tracks (F.state files.old) (F.state files.new) handles.old handles.new }
    ensures placed { AreLeft (paths_of setting.now) (F.state files.new) handles.new world.new.world.files result }
    ensures leads { (sink : SinkState) (budget : ℕ) → Leads setting.now budget step node
        (outside (F.state files.old) sink) (outside (F.state files.new) sink) world.old.world world.new.world result }
    ensures touches { Touches (paths_of setting.now) makes_none world.old.world (F.state files.old)
        (F.state files.new) }
{
    let mut at = node;
    for _turn in 0..setting.plan.nodes.len() {
        at = close_next(
            alloc, setting, files, handles, world, at, statement, closed, step,
        )?;
        if setting.rests_at(at) {
            return Ok(at);
        }
    }
    unreachable!()
}

/// Does all of a READ's step from the place at which it begins. Answers the node behind it.
fn go_read<F: Files>(
    alloc: Global,
    setting: &Setting,
    files: &mut F,
    handles: &mut Handles,
    world: &mut World,
    place: &Standing,
    node: u32,
    file: u32,
    step: u64,
) -> Result<u32, RunEnd>
    requires ready { IsReady setting.now }
    requires runs { world.old.program ≡ setting.now.program.now }
    requires starts { StartsAt setting.now node place.now }
    requires fits { FitsPlace setting.now node place.now }
    requires reads { IsCall (plain_act place.now.statement.now.act.now) (call.Read file) }
    requires live { AreOpen (F.state files.old) handles.old }
    requires placed { ArePlaced (paths_of setting.now) (F.state files.old) handles.old world.old.world.files }
    ensures kept { world.new.program ≡ world.old.program }
    ensures rest { IfOk result (λ next. IsRest setting.now.plan.nodes.items next) }
    ensures tracks { Tracks (F.state files.old) (F.state files.new) handles.old handles.new }
    ensures placed { AreLeft (paths_of setting.now) (F.state files.new) handles.new world.new.world.files result }
    ensures same { known_bytes (F.state files.new) ≡ known_bytes (F.state files.old) }
    ensures fault { FailsBy false result }
    ensures still { IfFailed result (world.new.world ≡ world.old.world) }
    ensures takes { (sink : SinkState) (budget steps : ℕ) (start : Outside) → step ≡ steps + 1 → steps < budget
        → Stands (program_of setting.now) setting.now.graph.now (paths_of setting.now) start
        (outside (F.state files.old) sink) world.old.world steps steps node
        → Arrives (program_of setting.now) setting.now.graph.now (paths_of setting.now) budget start
        (outside (F.state files.new) sink) world.new.world step result }
{
    let next = do_read(
        alloc, setting, files, handles, world, place, node, file, step,
    )?;
    if setting.rests_at(next) {
        return Ok(next);
    }
    go_through(alloc, setting, world, next, place.plan_node.statement, step)
}

/// Takes a step from a node at which it begins. Answers the node behind it.
#[tactic(auto, using(crate::proofs::CallLemmas::calls))]
pub fn take_step<F: Files>(
    alloc: Global,
    setting: &Setting,
    files: &mut F,
    handles: &mut Handles,
    world: &mut World,
    place: &Standing,
    node: u32,
    step: u64,
) -> Result<u32, RunEnd>
    requires ready { IsReady setting.now }
    requires runs { world.old.program ≡ setting.now.program.now }
    requires starts { StartsAt setting.now node place.now }
    requires fits { FitsPlace setting.now node place.now }
    requires live { AreOpen (F.state files.old) handles.old }
    requires placed { ArePlaced (paths_of setting.now) (F.state files.old) handles.old world.old.world.files }
    ensures kept { world.new.program ≡ world.old.program }
    ensures rest { IfOk result (λ next. IsRest setting.now.plan.nodes.items next) }
    ensures tracks { Tracks (F.state files.old) (F.state files.new) handles.old handles.new }
    ensures placed { AreLeft (paths_of setting.now) (F.state files.new) handles.new world.new.world.files result }
    ensures takes { (sink : SinkState) (budget steps : ℕ) (start : Outside) → step ≡ steps + 1 → steps < budget
        → Stands (program_of setting.now) setting.now.graph.now (paths_of setting.now) start
        (outside (F.state files.old) sink) world.old.world steps steps node
        → Arrives (program_of setting.now) setting.now.graph.now (paths_of setting.now) budget start
        (outside (F.state files.new) sink) world.new.world step result }
    ensures reaches { Reaches (paths_of setting.now) (plain_act place.now.statement.now.act.now) world.old.world
        (F.state files.old) (F.state files.new) result }
    ensures still { shows_first (plain_act place.now.statement.now.act.now) ≡ false
        → IfFailed result (world.new.world ≡ world.old.world) }
{
    match call_of(place.statement.act) {
        Call::Open(openings) => open_all(
            alloc,
            setting,
            files,
            handles,
            world,
            node,
            place.plan_node.statement,
            openings,
            step,
        ),
        Call::Close(closed) => close_all(
            alloc,
            setting,
            files,
            handles,
            world,
            node,
            place.plan_node.statement,
            closed,
            step,
        ),
        Call::Read(file) => go_read(
            alloc, setting, files, handles, world, place, node, file, step,
        ),
        Call::Other => go(alloc, setting, world, place, node, step),
    }
}
