//! Simple conditions, and whether turns are left.
ghost use Rattle.std.specs.Prelude.{◌≡◌, ◌<◌, ℕ, length, slice_get, Some, None, true, false};
ghost use Rattle.std.specs.Option.{option_map, option_copied};
ghost use Rattle.cob_program.specs.Act as act;
ghost use Rattle.cob_program.specs.ActView.{plain_act, plain_turns, plain_program};
ghost use Rattle.cob_program.specs.LogicView.{plain_test};
ghost use Rattle.cob_runs.specs.Acts.{count_of};
ghost use Rattle.cob_runs.specs.Steps.{is_left};
ghost use Rattle.cob_runs.specs.Effects.{edge_decided, edge_tested, tests_in_act, is_times};
ghost use Rattle.cob_calc.specs.Comparing.{CanTest};
ghost use Rattle.cob_plan.specs.Listing.{plain_tests};
ghost use Rattle.cob_plan.specs.Plan.{IsStatement};
ghost use Rattle.cob_plan.specs.Doing.{Forks};
ghost use Rattle.cob_plan.specs.Fitting.{Tests};

use crate::end::DoEnd;
use crate::statement::Statement;
use cob_program::{Act, Test, Turns};
use cob_world::World;

fn test_at<'b>(statement: &'b Statement, place: u32) -> Option<&'b Test>
    ensures { option_map plain_test (option_copied result) ≡ slice_get (plain_tests statement.now.tests.items) place }
{
    match statement.tests.as_slice().get(place as usize) {
        None => None,
        Some(test) => Some(*test),
    }
}

fn decide(test: &Test, world: &World) -> Result<bool, DoEnd>
    requires able { CanTest world.now.program.layout (plain_test test.now) }
    ensures { (number : ℕ) → Forks
        (edge_decided (plain_program world.now.program) number None world.now.world true (Some (plain_test test.now)))
        (edge_decided (plain_program world.now.program) number None world.now.world false (Some (plain_test test.now)))
        world.now.world world.now.world result }
{
    match world.test(test) {
        Ok(holds) => Ok(holds),
        Err(kind) => Err(DoEnd::Fault(kind)),
    }
}

// The simple condition at a place among those of the statement.
fn decide_at(statement: &Statement, place: u32, world: &World) -> Result<bool, DoEnd>
    requires its { IsStatement (plain_program world.now.program) statement.now }
    requires there { place < length (tests_in_act (plain_act statement.now.act.now)) }
    ensures { (number : ℕ) → Forks
        (edge_decided (plain_program world.now.program) number None world.now.world true
        (slice_get (tests_in_act (plain_act statement.now.act.now)) place))
        (edge_decided (plain_program world.now.program) number None world.now.world false
        (slice_get (tests_in_act (plain_act statement.now.act.now)) place))
        world.now.world world.now.world result }
{
    match test_at(statement, place) {
        None => unreachable!(),
        Some(test) => decide(test, world),
    }
}

// Whether turns are left.
fn is_left(number: u32, world: &World) -> bool
    ensures { result ≡ is_left (count_of number world.now.world) }
{
    match world.count_of(number) {
        None => false,
        Some(count) => count > 0,
    }
}

fn is_times(act: &Act) -> bool
    ensures { result ≡ is_times (plain_act act.now) }
{
    match act {
        Act::Perform { turns, .. } => are_times(turns),
        _ => false,
    }
}

fn are_times(turns: &Turns) -> bool
    ensures { (body : act.Body) → result ≡ is_times (act.perform body (plain_turns turns.now)) }
{
    match turns {
        Turns::Times(_) => true,
        _ => false,
    }
}

/// Whether turns of a loop with TIMES are left, or else whether the simple condition at a place holds.
pub fn test(statement: &Statement, place: u32, world: &World) -> Result<bool, DoEnd>
    requires its { IsStatement (plain_program world.now.program) statement.now }
    requires fits { Tests place (plain_act statement.now.act.now) }
    ensures { Forks
        (edge_tested (plain_program world.now.program) statement.now.number None world.now.world true place
        (plain_act statement.now.act.now))
        (edge_tested (plain_program world.now.program) statement.now.number None world.now.world false place
        (plain_act statement.now.act.now))
        world.now.world world.now.world result }
{
    if is_times(statement.act) {
        Ok(is_left(statement.number, world))
    } else {
        decide_at(statement, place, world)
    }
}
