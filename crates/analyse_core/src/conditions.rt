//! The literals of conditions, from left to right.
ghost use Rattle.std.specs.Prelude.{◌≡◌, ◌++◌, map, OnOk};
ghost use Rattle.cob_program.specs.LogicView.{plain_logic, plain_logics, plain_test};
ghost use Rattle.analyse_core.specs.Literals.{
  logic_literals,
  logics_literals,
  test_literals,
  tests_literals,
  numbers_of,
};

use crate::literals::{add_pairs, add_sender};
use crate::sums::add_sum;
use cob_program::{Logic, Test};
use cob_tree::Num;
use std::alloc::AllocError;

fn add_test<'a>(literals: &mut Vec<&'a Num>, test: &'a Test) -> Result<(), AllocError>
    ensures { OnOk result (numbers_of literals.new.items ≡ numbers_of literals.old.items ++ test_literals (plain_test test.now)) }
{
    match test {
        Test::Number { left, right, .. } => {
            add_sum(literals, left)?;
            add_sum(literals, right)
        }
        Test::Text { left, right, .. } => {
            add_sender(literals, left)?;
            add_sender(literals, right)
        }
        Test::Member { ranges, .. } => add_pairs(literals, ranges.get()),
        Test::Numeric(_) | Test::Always => Ok(()),
    }
}

#[cycle(conditions)]
fn add_logics<'a>(literals: &mut Vec<&'a Num>, parts: &'a [Logic]) -> Result<(), AllocError>
    ensures { OnOk result (numbers_of literals.new.items ≡ numbers_of literals.old.items ++ logics_literals (plain_logics parts.now)) }
{
    for part in parts {
        add_logic(literals, part)?;
    }
    Ok(())
}

/// Adds the literals of a condition.
#[cycle(conditions)]
pub fn add_logic<'a>(literals: &mut Vec<&'a Num>, logic: &'a Logic) -> Result<(), AllocError>
    ensures { OnOk result (numbers_of literals.new.items ≡ numbers_of literals.old.items ++ logic_literals (plain_logic logic.now)) }
{
    match logic {
        Logic::All(parts) => add_logics(literals, parts),
        Logic::Any(parts) => add_logics(literals, parts),
        Logic::Not(part) => add_logic(literals, part),
        Logic::Test(test) => add_test(literals, test),
    }
}

/// Adds the literals of the conditions of a WHEN.
pub fn add_tests<'a>(literals: &mut Vec<&'a Num>, tests: &'a [Logic]) -> Result<(), AllocError>
    ensures { OnOk result (numbers_of literals.new.items
        ≡ numbers_of literals.old.items ++ tests_literals (map plain_logic tests.now)) }
{
    for test in tests {
        add_logic(literals, test)?;
    }
    Ok(())
}
