//! The simple conditions of statements, in the order of their nodes.
ghost use Rattle.std.specs.Prelude.{◌≡◌, ◌++◌, ◌∷◌, [], map, IfOk, OnOk};
ghost use Rattle.cob_program.specs.LogicView.{plain_logic, plain_test, plain_logics};
ghost use Rattle.cob_program.specs.ActView.{plain_act, plain_when, plain_turns, plain_whens};
ghost use Rattle.cob_runs.specs.Effects.{tests_of, tests_among, tests_in_list, tests_in_whens, tests_in_turns, tests_in_act};
ghost use Rattle.cob_plan.specs.Listing.{plain_tests, tests_in_when};

use cob_program::{Act, Logic, Test, Turns, When};
use std::alloc::{AllocError, Global};

#[cycle(logic)]
fn add_logic<'a>(tests: &mut Vec<&'a Test>, logic: &'a Logic) -> Result<(), AllocError>
    ensures { OnOk result (plain_tests tests.new.items ≡ plain_tests tests.old.items ++ tests_of (plain_logic logic.now)) }
{
    match logic {
        Logic::All(parts) | Logic::Any(parts) => add_logics(tests, parts),
        Logic::Not(part) => add_logic(tests, part),
        Logic::Test(test) => add_test(tests, test),
    }
}

#[cycle(logic)]
fn add_logics<'a>(tests: &mut Vec<&'a Test>, parts: &'a [Logic]) -> Result<(), AllocError>
    ensures { OnOk result (plain_tests tests.new.items ≡ plain_tests tests.old.items ++ tests_among (plain_logics parts.now)) }
{
    for part in parts {
        add_logic(tests, part)?;
    }
    Ok(())
}

fn add_test<'a>(tests: &mut Vec<&'a Test>, test: &'a Test) -> Result<(), AllocError>
    ensures { OnOk result (plain_tests tests.new.items ≡ plain_tests tests.old.items ++ plain_test test.now ∷ []) }
{
    tests.push(test)?;
    Ok(())
}

fn add_list<'a>(tests: &mut Vec<&'a Test>, list: &'a [Logic]) -> Result<(), AllocError>
    ensures { OnOk result (plain_tests tests.new.items ≡ plain_tests tests.old.items ++ tests_in_list (map plain_logic list.now)) }
{
    for logic in list {
        add_logic(tests, logic)?;
    }
    Ok(())
}

fn add_when<'a>(tests: &mut Vec<&'a Test>, when: &'a When) -> Result<(), AllocError>
    ensures { OnOk result (plain_tests tests.new.items ≡ plain_tests tests.old.items ++ tests_in_when (plain_when when.now)) }
{
    add_list(tests, when.tests.get())
}

fn add_whens<'a>(tests: &mut Vec<&'a Test>, whens: &'a [When]) -> Result<(), AllocError>
    ensures { OnOk result (plain_tests tests.new.items ≡ plain_tests tests.old.items ++ tests_in_whens (plain_whens whens.now)) }
{
    for when in whens {
        add_when(tests, when)?;
    }
    Ok(())
}

fn add_turns<'a>(tests: &mut Vec<&'a Test>, turns: &'a Turns) -> Result<(), AllocError>
    ensures { OnOk result (plain_tests tests.new.items ≡ plain_tests tests.old.items ++ tests_in_turns (plain_turns turns.now)) }
{
    match turns {
        Turns::Until { test, .. } | Turns::Varying { test, .. } => add_logic(tests, test),
        Turns::Once | Turns::Times(_) => Ok(()),
    }
}

fn add_act<'a>(tests: &mut Vec<&'a Test>, act: &'a Act) -> Result<(), AllocError>
    ensures { OnOk result (plain_tests tests.new.items ≡ plain_tests tests.old.items ++ tests_in_act (plain_act act.now)) }
{
    match act {
        Act::If { test, .. } => add_logic(tests, test),
        Act::Evaluate { whens, .. } => add_whens(tests, whens),
        Act::Perform { turns, .. } => add_turns(tests, turns),
        _ => Ok(()),
    }
}

/// The simple conditions of a statement, but not those of the statements in its lists.
pub fn tests_of<'a>(alloc: Global, act: &'a Act) -> Result<Vec<&'a Test>, AllocError>
    ensures { IfOk result (λ tests. plain_tests tests.items ≡ tests_in_act (plain_act act.now)) }
{
    let mut tests = Vec::new(alloc);
    add_act(&mut tests, act)?;
    Ok(tests)
}
