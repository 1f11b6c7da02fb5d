//! The simple conditions of a statement, in the order of its nodes.
#![tactic(auto, using(crate::proofs::HandingLaws::handing))]

ghost use Rattle.std.specs.Prelude.{◌≡◌, ◌++◌, [], ◌∷◌, map, slice_get, IfOk};
ghost use Rattle.std.specs.Option.{option_map, option_copied};
ghost use Rattle.cob_program.specs.Act as act;
ghost use Rattle.cob_program.specs.ActView.{plain_act, plain_turns, plain_whens, plain_when};
ghost use Rattle.cob_program.specs.LogicView.{plain_logic, plain_logics, plain_test};
ghost use Rattle.cob_runs.specs.Effects.{tests_of, tests_among, tests_in_list, tests_in_whens, tests_in_turns, tests_in_act};
ghost use Rattle.edge_parts.specs.PartView.{plain_reference};
ghost use Rattle.edge_parts.specs.Pieces.{tests_in_when};
ghost use Rattle.edge_parts.specs.Handing.{Takes, goes_on};

use crate::taker::{Going, Search, Taker, TestTaker, found, into_list, no_tests, push_test};
use cob_program::{Act, Logic, Test, Turns, When};
use std::alloc::{AllocError, Global};
use std::ops::ControlFlow;

#[cycle(logic)]
fn push_of<'a>(tests: &mut TestTaker<'a>, logic: &'a Logic) -> Going
    ensures { Takes plain_reference tests.old (tests_of (plain_logic logic.now)) (goes_on result) tests.new }
{
    match logic {
        Logic::All(parts) | Logic::Any(parts) => push_among(tests, parts),
        Logic::Not(part) => push_of(tests, part),
        Logic::Test(test) => push_test(tests, test),
    }
}

#[cycle(logic)]
fn push_among<'a>(tests: &mut TestTaker<'a>, parts: &'a [Logic]) -> Going
    ensures { Takes plain_reference tests.old (tests_among (plain_logics parts.now)) (goes_on result) tests.new }
{
    for part in parts {
        push_of(tests, part)?;
    }
    ControlFlow::Continue(())
}

fn push_in_list<'a>(tests: &mut TestTaker<'a>, list: &'a [Logic]) -> Going
    ensures { Takes plain_reference tests.old (tests_in_list (map plain_logic list.now)) (goes_on result) tests.new }
{
    for logic in list {
        push_of(tests, logic)?;
    }
    ControlFlow::Continue(())
}

fn push_in_when<'a>(tests: &mut TestTaker<'a>, when: &'a When) -> Going
    ensures { Takes plain_reference tests.old (tests_in_when (plain_when when.now)) (goes_on result) tests.new }
{
    push_in_list(tests, when.tests.get())
}

fn push_in_whens<'a>(tests: &mut TestTaker<'a>, whens: &'a [When]) -> Going
    ensures { Takes plain_reference tests.old (tests_in_whens (plain_whens whens.now)) (goes_on result) tests.new }
{
    for when in whens {
        push_in_when(tests, when)?;
    }
    ControlFlow::Continue(())
}

fn push_in_turns<'a>(tests: &mut TestTaker<'a>, turns: &'a Turns) -> Going
    ensures { Takes plain_reference tests.old (tests_in_turns (plain_turns turns.now)) (goes_on result) tests.new }
{
    match turns {
        Turns::Until { test, .. } | Turns::Varying { test, .. } => push_of(tests, test),
        Turns::Once | Turns::Times(_) => no_tests(tests),
    }
}

fn push_in_act<'a>(tests: &mut TestTaker<'a>, act: &'a Act) -> Going
    ensures { Takes plain_reference tests.old (tests_in_act (plain_act act.now)) (goes_on result) tests.new }
{
    match act {
        Act::If { test, .. } => push_of(tests, test),
        Act::Evaluate { whens, .. } => push_in_whens(tests, whens),
        Act::Perform { turns, .. } => push_in_turns(tests, turns),
        _ => no_tests(tests),
    }
}

/// The simple conditions of a statement.
pub fn tests_in<'a>(alloc: Global, act: &'a Act) -> Result<Vec<&'a Test>, AllocError>
    ensures { IfOk result (λ tests. map plain_reference tests.items ≡ tests_in_act (plain_act act.now)) }
{
    let mut tests = Taker::List(Vec::new(alloc));
    match push_in_act(&mut tests, act) {
        ControlFlow::Continue(_) => into_list(tests),
        ControlFlow::Break(_) => Err(AllocError),
    }
}

/// The simple condition of a statement with a number, which counts from 0.
pub fn test_at(act: &Act, place: u32) -> Option<&Test>
    ensures { option_map plain_test (option_copied result) ≡ slice_get (tests_in_act (plain_act act.now)) place }
{
    let mut tests = Taker::Search(Search {
        left: place,
        found: None,
    });
    match push_in_act(&mut tests, act) {
        ControlFlow::Continue(_) => None,
        ControlFlow::Break(_) => found(&tests),
    }
}
