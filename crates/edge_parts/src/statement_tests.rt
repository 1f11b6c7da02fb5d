//! The simple conditions of a statement, listed once for all its edges.
ghost use Rattle.std.specs.Prelude.{◌≡◌, map, slice_get};
ghost use Rattle.std.specs.Option.{option_map, option_copied};
ghost use Rattle.cob_program.specs.LogicView.{plain_test};
ghost use Rattle.cob_program.specs.ActView.{plain_stmt};
ghost use Rattle.edge_parts.specs.PartView.{plain_reference, stmt_tests};

use crate::tests_of::tests_in;
use cob_program::{Stmt, Test};
use cob_runs::Action;
use std::alloc::{AllocError, Global};

fn test_among<'a>(tests: &[&'a Test], place: u32) -> Option<&'a Test>
    ensures { option_map plain_test (option_copied result) ≡ slice_get (map plain_reference tests.now) place }
{
    match tests.get(place as usize) {
        None => None,
        Some(test) => Some(*test),
    }
}

/// The simple conditions of a statement. Who works the edges of many statements out makes one for each statement, and
/// hands `EdgeWork::among` that of the edge's own: then all edges of a statement with n tests take n steps, and not n
/// times n. To keep the last one alone doesn't do, since the edges of an EVALUATE stand apart from each other.
#[derive(Drop)]
pub struct StatementTests<'a> {
    pub statement: &'a Stmt,
    tests: Vec<&'a Test>,
    ghost listed: { ∥ map plain_reference tests.items ≡ stmt_tests (plain_stmt statement.now) ∥₁ },
}

impl<'a> StatementTests<'a> {
    ghost use Rattle.std.specs.Prelude.{◌≡◌, IfOk, slice_get};
    ghost use Rattle.std.specs.Option.{option_map, option_copied};
    ghost use Rattle.cob_program.specs.ActView.{plain_stmt};
    ghost use Rattle.cob_program.specs.LogicView.{plain_test};
    ghost use Rattle.edge_parts.specs.PartView.{edge_test, stmt_tests};

    /// Lists those of a statement.
    pub fn new(alloc: Global, statement: &'a Stmt) -> Result<StatementTests<'a>, AllocError>
        ensures { IfOk result (λ tests. tests.statement.now ≡ statement.now) }
    {
        let tests = tests_in(alloc, &statement.act)?;
        Ok(StatementTests { statement, tests })
    }

    fn at(&self, place: u32) -> Option<&'a Test>
        ensures { ∥ option_map plain_test (option_copied result)
            ≡ slice_get (stmt_tests (plain_stmt self.now.statement.now)) place ∥₁ }
    {
        test_among(&self.tests, place)
    }

    /// The one that an edge of the statement goes by.
    pub fn test_of(&self, action: Action) -> Option<&'a Test>
        ensures { ∥ option_map plain_test (option_copied result)
            ≡ edge_test (plain_stmt self.now.statement.now) action ∥₁ }
    {
        match action {
            Action::True(place) | Action::False(place) => self.at(place),
            _ => None,
        }
    }
}
