//! What a node does of its statement.
ghost use Rattle.std.specs.Prelude.{◌≡◌, length, Some, None, is_some};
ghost use Rattle.cob_program.specs.ActView.{plain_act, plain_program};
ghost use Rattle.cob_plan.specs.declared.node.Op.TheVariants as op;
ghost use Rattle.cob_plan.specs.Plan.{IsStatement};
ghost use Rattle.cob_plan.specs.Doing.{Does};
ghost use Rattle.cob_plan.specs.Fitting.{Fits, Assigns, Shows, Counts, Computes, HandlesSize, Tests, Opens, Closes, Reads, Writes};

use crate::assigning::{assign, count_down, set_count, show};
use crate::calling::{close, open, read, write};
use crate::computing::compute;
use crate::deciding::test;
use crate::end::DoEnd;
use crate::next_node::{
    next_after_call, next_after_read, next_by_one_way, next_of_two, without_second,
};
use crate::node::Op;
use crate::statement::Statement;
use cob_world::World;
use std::alloc::Global;

fn do_skip(statement: &Statement, to: u32, world: &World) -> Result<u32, DoEnd>
    requires its { IsStatement (plain_program world.now.program) statement.now }
    ensures { Does (plain_program world.now.program) statement.now.number (op.Skip to) world.now.world world.now.world
        result }
{
    next_by_one_way(Ok(()), to)
}

#[inline(never)]
fn do_assign(alloc: Global, statement: &Statement, to: u32, world: &mut World) -> Result<u32, DoEnd>
    requires its { IsStatement (plain_program world.old.program) statement.now }
    requires fits { Assigns (plain_act statement.now.act.now) }
    ensures value { Does (plain_program world.old.program) statement.now.number (op.Assign to) world.old.world
        world.new.world result }
    ensures kept { world.new.program ≡ world.old.program }
{
    next_by_one_way(assign(alloc, statement.act, world), to)
}

#[inline(never)]
fn do_show(statement: &Statement, to: u32, world: &mut World) -> Result<u32, DoEnd>
    requires its { IsStatement (plain_program world.old.program) statement.now }
    requires fits { Shows (plain_act statement.now.act.now) }
    ensures value { Does (plain_program world.old.program) statement.now.number (op.Show to) world.old.world
        world.new.world result }
    ensures kept { world.new.program ≡ world.old.program }
{
    next_by_one_way(show(statement.act, world), to)
}

#[inline(never)]
fn do_set_count(statement: &Statement, to: u32, world: &mut World) -> Result<u32, DoEnd>
    requires its { IsStatement (plain_program world.old.program) statement.now }
    requires fits { Counts (plain_act statement.now.act.now) }
    ensures value { Does (plain_program world.old.program) statement.now.number (op.SetCount to) world.old.world
        world.new.world result }
    ensures kept { world.new.program ≡ world.old.program }
{
    next_by_one_way(set_count(statement.number, statement.act, world), to)
}

#[inline(never)]
fn do_count_down(statement: &Statement, to: u32, world: &mut World) -> Result<u32, DoEnd>
    requires its { IsStatement (plain_program world.old.program) statement.now }
    ensures value { Does (plain_program world.old.program) statement.now.number (op.CountDown to) world.old.world
        world.new.world result }
    ensures kept { world.new.program ≡ world.old.program }
{
    next_by_one_way(count_down(statement.number, world), to)
}

#[inline(never)]
fn do_compute(
    statement: &Statement,
    fine: u32,
    size: Option<u32>,
    world: &mut World,
) -> Result<u32, DoEnd>
    requires its { IsStatement (plain_program world.old.program) statement.now }
    requires fits { Computes (plain_act statement.now.act.now) }
    requires handles { HandlesSize (is_some size) (plain_act statement.now.act.now) }
    ensures value { Does (plain_program world.old.program) statement.now.number (op.Compute fine size) world.old.world
        world.new.world result }
    ensures kept { world.new.program ≡ world.old.program }
{
    let outcome = compute(statement.act, world);
    match size {
        None => next_by_one_way(without_second(outcome), fine),
        Some(size) => next_of_two(outcome, fine, size),
    }
}

#[inline(never)]
fn do_test(
    statement: &Statement,
    place: u32,
    held: u32,
    other: u32,
    world: &World,
) -> Result<u32, DoEnd>
    requires its { IsStatement (plain_program world.now.program) statement.now }
    requires fits { Tests place (plain_act statement.now.act.now) }
    ensures { Does (plain_program world.now.program) statement.now.number (op.Test place held other) world.now.world
        world.now.world result }
{
    next_of_two(test(statement, place, world), held, other)
}

#[inline(never)]
fn do_open(
    alloc: Global,
    statement: &Statement,
    file: u32,
    fine: u32,
    bad: u32,
    world: &mut World,
) -> Result<u32, DoEnd>
    requires its { IsStatement (plain_program world.old.program) statement.now }
    requires fits { Opens file (plain_act statement.now.act.now) }
    ensures value { Does (plain_program world.old.program) statement.now.number (op.Open file fine bad)
        world.old.world world.new.world result }
    ensures kept { world.new.program ≡ world.old.program }
{
    next_after_call(open(alloc, statement.act, file, world), fine, bad)
}

#[inline(never)]
fn do_close(
    statement: &Statement,
    file: u32,
    fine: u32,
    bad: u32,
    world: &mut World,
) -> Result<u32, DoEnd>
    requires its { IsStatement (plain_program world.old.program) statement.now }
    requires fits { Closes file (plain_act statement.now.act.now) }
    ensures value { Does (plain_program world.old.program) statement.now.number (op.Close file fine bad)
        world.old.world world.new.world result }
    ensures kept { world.new.program ≡ world.old.program }
{
    next_after_call(close(statement.act, file, world), fine, bad)
}

#[inline(never)]
fn do_read(
    statement: &Statement,
    found: u32,
    end: u32,
    bad: u32,
    world: &mut World,
) -> Result<u32, DoEnd>
    requires its { IsStatement (plain_program world.old.program) statement.now }
    requires fits { Reads (plain_act statement.now.act.now) }
    ensures value { Does (plain_program world.old.program) statement.now.number (op.Read found end bad)
        world.old.world world.new.world result }
    ensures kept { world.new.program ≡ world.old.program }
{
    next_after_read(read(statement.act, world), found, end, bad)
}

#[inline(never)]
fn do_write(
    alloc: Global,
    statement: &Statement,
    fine: u32,
    bad: u32,
    world: &mut World,
) -> Result<u32, DoEnd>
    requires its { IsStatement (plain_program world.old.program) statement.now }
    requires fits { Writes (plain_program world.old.program) (plain_act statement.now.act.now) }
    ensures value { Does (plain_program world.old.program) statement.now.number (op.Write fine bad) world.old.world
        world.new.world result }
    ensures kept { world.new.program ≡ world.old.program }
{
    next_after_call(write(alloc, statement.act, world)?, fine, bad)
}

/// Does a node's part of its statement, and tells the number of the node to which that leads. A fault changes storage
/// alone.
#[inline(always)]
pub fn do_op(alloc: Global, statement: &Statement, op: &Op, world: &mut World) -> Result<u32, DoEnd>
    requires its { IsStatement (plain_program world.old.program) statement.now }
    requires fits { Fits (plain_program world.old.program) op.now (plain_act statement.now.act.now) }
    ensures value { Does (plain_program world.old.program) statement.now.number op.now world.old.world world.new.world
        result }
    ensures kept { world.new.program ≡ world.old.program }
{
    match *op {
        Op::Skip { to } => do_skip(statement, to, world),
        Op::Assign { to } => do_assign(alloc, statement, to, world),
        Op::Show { to } => do_show(statement, to, world),
        Op::SetCount { to } => do_set_count(statement, to, world),
        Op::CountDown { to } => do_count_down(statement, to, world),
        Op::Compute { fine, size } => do_compute(statement, fine, size, world),
        Op::Test { test, held, other } => do_test(statement, test, held, other, world),
        Op::Open { file, fine, bad } => do_open(alloc, statement, file, fine, bad, world),
        Op::Close { file, fine, bad } => do_close(statement, file, fine, bad, world),
        Op::Read { found, end, bad } => do_read(statement, found, end, bad, world),
        Op::Write { fine, bad } => do_write(alloc, statement, fine, bad, world),
        Op::Final => unreachable!(),
    }
}
