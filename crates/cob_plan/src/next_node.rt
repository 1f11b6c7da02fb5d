//! The node to which a node leads, by what its part of a statement came to.
ghost use Rattle.std.specs.Prelude.{◌≡◌, ℕ, Some, None, Ok, true, false, Contains};
ghost use Rattle.cob_program.specs.Act as act;
ghost use Rattle.cob_runs.specs.declared.action.Action.{Action};
ghost use Rattle.cob_runs.specs.declared.action.Action.TheVariants as action;
ghost use Rattle.cob_runs.specs.State.{World};
ghost use Rattle.cob_runs.specs.Effects.{Effect, act_at, effect_of, file_call, is_handled};
ghost use Rattle.cob_plan.specs.declared.node.Op.{Op};
ghost use Rattle.cob_plan.specs.declared.node.Op.TheVariants as op;
ghost use Rattle.cob_plan.specs.Plan.{op_edges};
ghost use Rattle.cob_plan.specs.Doing.{Does, Meets, Forks, IsCall, IsTaking};
ghost use Rattle.cob_plan.specs.Leading.{Leads};

use crate::called::{Called, Taken};
use crate::end::DoEnd;
use cob_world::is_fine;

/// The only way on.
pub fn next_by_one_way(outcome: Result<(), DoEnd>, to: u32) -> Result<u32, DoEnd>
    ensures { (p : act.Program) (number : ℕ) (a : act.Act) (o : Op) (x : Action) (old now : World)
        → Leads p number a o x to → Meets (effect_of p number None old x a) old now outcome
        → Does p number o old now result }
{
    match outcome {
        Ok(()) => Ok(to),
        Err(end) => Err(end),
    }
}

/// The first of two ways on, if so, or else the second.
pub fn next_of_two(outcome: Result<bool, DoEnd>, first: u32, second: u32) -> Result<u32, DoEnd>
    ensures { (p : act.Program) (number : ℕ) (a : act.Act) (o : Op) (x y : Action) (old now : World)
        → Leads p number a o x first → Leads p number a o y second
        → Forks (effect_of p number None old x a) (effect_of p number None old y a) old now outcome
        → Does p number o old now result }
{
    match outcome {
        Ok(true) => Ok(first),
        Ok(false) => Ok(second),
        Err(end) => Err(end),
    }
}

/// What a part comes to where there is no second way on.
pub fn without_second(outcome: Result<bool, DoEnd>) -> Result<(), DoEnd>
    requires first { ¬ outcome ≡ Ok false }
    ensures { (first second : Effect) (old now : World) → Forks first second old now outcome
        → Meets first old now result }
{
    match outcome {
        Ok(true) => Ok(()),
        Ok(false) => unreachable!(),
        Err(end) => Err(end),
    }
}

/// Where a call on a file goes on: by its status.
pub fn next_after_call(called: Called, fine: u32, bad: u32) -> Result<u32, DoEnd>
    ensures { (p : act.Program) (number k : ℕ) (a : act.Act) (o : Op) (x : Action) (old now : World)
        → Leads p number a o x fine → Contains (op_edges o) (action.Bad k, bad)
        → effect_of p number None old x a ≡ file_call p number None old true k a
        → IsCall p number k old now a called → Does p number o old now result }
{
    if is_fine(called.status) {
        Ok(fine)
    } else if called.handled {
        Ok(bad)
    } else {
        Err(DoEnd::Stop(called.status))
    }
}

/// Where a READ goes on: by its status.
pub fn next_after_read(taken: Taken, found: u32, end: u32, bad: u32) -> Result<u32, DoEnd>
    ensures { (p : act.Program) (number : ℕ) (a : act.Act) (old now : World) → act_at p number ≡ Some a
        → IsTaking p number 0 old now a taken → Does p number (op.Read found end bad) old now result }
{
    if is_fine(taken.status) {
        Ok(found)
    } else if taken.status == 10 {
        if taken.end_handled {
            Ok(end)
        } else {
            Err(DoEnd::Stop(10))
        }
    } else if taken.handled {
        Ok(bad)
    } else {
        Err(DoEnd::Stop(taken.status))
    }
}
