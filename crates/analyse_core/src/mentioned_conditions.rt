//! The items of relations, from left to right.
ghost use Rattle.std.specs.Prelude.{◌≡◌, ◌++◌, map, OnOk};
ghost use Rattle.cob_program.specs.LogicView.{plain_logic, plain_logics, plain_test};
ghost use Rattle.analyse_core.specs.Mentions.{logic_mentions, logics_mentions, test_mentions, tests_mentions};

use crate::mention::{Mention, add_side};
use crate::mentioned_sums::add_sum;
use cob_program::{Logic, Test};
use std::alloc::AllocError;

// A condition-name, a value or range of a WHEN, and a class test have none.
fn add_test(mentions: &mut Vec<Mention>, test: &Test) -> Result<(), AllocError>
    ensures { OnOk result (mentions.new.items ≡ mentions.old.items ++ test_mentions (plain_test test.now)) }
{
    match test {
        Test::Number { left, right, .. } => {
            add_sum(mentions, left)?;
            add_sum(mentions, right)
        }
        Test::Text { left, right, .. } => {
            add_side(mentions, left)?;
            add_side(mentions, right)
        }
        Test::Member { .. } | Test::Numeric(_) | Test::Always => Ok(()),
    }
}

#[cycle(conditions)]
fn add_logics(mentions: &mut Vec<Mention>, parts: &[Logic]) -> Result<(), AllocError>
    ensures { OnOk result (mentions.new.items ≡ mentions.old.items ++ logics_mentions (plain_logics parts.now)) }
{
    for part in parts {
        add_logic(mentions, part)?;
    }
    Ok(())
}

/// Adds the items in the relations of a condition.
#[cycle(conditions)]
pub fn add_logic(mentions: &mut Vec<Mention>, logic: &Logic) -> Result<(), AllocError>
    ensures { OnOk result (mentions.new.items ≡ mentions.old.items ++ logic_mentions (plain_logic logic.now)) }
{
    match logic {
        Logic::All(parts) => add_logics(mentions, parts),
        Logic::Any(parts) => add_logics(mentions, parts),
        Logic::Not(part) => add_logic(mentions, part),
        Logic::Test(test) => add_test(mentions, test),
    }
}

/// Adds the items in the relations of the conditions of a WHEN, from left to right.
pub fn add_tests(mentions: &mut Vec<Mention>, tests: &[Logic]) -> Result<(), AllocError>
    ensures { OnOk result (mentions.new.items ≡ mentions.old.items ++ tests_mentions (map plain_logic tests.now)) }
{
    for test in tests {
        add_logic(mentions, test)?;
    }
    Ok(())
}
