//! What an edge of the control graph does: its parts in their order, worked out once.
ghost use Rattle.std.specs.Prelude.{◌≡◌, map, IfOk};
ghost use Rattle.std.specs.Option.{option_map, option_copied};
ghost use Rattle.cob_program.specs.ActView.{plain_program, plain_stmt};
ghost use Rattle.cob_program.specs.LogicView.{plain_test};
ghost use Rattle.edge_parts.specs.PartView.{plain_part, edge_parts, edge_test};

use crate::part::EdgePart;
use crate::part_edges::{push_edge, test_of};
use crate::statement_tests::StatementTests;
use crate::taker::{Taker, into_list};
use cob_program::{Program, Stmt, Test};
use cob_runs::Action;
use std::alloc::{AllocError, Global};
use std::ops::ControlFlow;

/// What an edge does: the parts of its statement's action, in their order.
#[derive(Drop)]
pub struct EdgeWork<'a> {
    pub program: &'a Program,
    pub statement: &'a Stmt,
    pub action: Action,
    pub parts: Vec<EdgePart<'a>>,
    ghost listed: { ∥ map plain_part parts.items
        ≡ edge_parts (plain_program program.now) (plain_stmt statement.now) action ∥₁ },
}

// The parts of an edge that goes by a simple condition, if it does.
fn listed<'a>(
    alloc: Global,
    program: &Program,
    statement: &'a Stmt,
    action: Action,
    test: Option<&'a Test>,
) -> Result<Vec<EdgePart<'a>>, AllocError>
    ensures { IfOk result (λ parts. option_map plain_test (option_copied test.entry) ≡ edge_test (plain_stmt statement.now) action
        → map plain_part parts.items ≡ edge_parts (plain_program program.now) (plain_stmt statement.now) action) }
{
    let mut parts = Taker::List(Vec::new(alloc));
    match push_edge(&mut parts, program, statement, action, test) {
        ControlFlow::Continue(_) => into_list(parts),
        ControlFlow::Break(_) => Err(AllocError),
    }
}

impl<'a> EdgeWork<'a> {
    /// The parts of what a statement does by an action. A simple condition is looked for from the statement's first one,
    /// so that all edges of an IF with n tests take n times n steps: `among` takes n.
    pub fn new(
        alloc: Global,
        program: &'a Program,
        statement: &'a Stmt,
        action: Action,
    ) -> Result<EdgeWork<'a>, AllocError>
        ensures program { IfOk result (λ work. work.program.now ≡ program.now) }
        ensures statement { IfOk result (λ work. work.statement.now ≡ statement.now) }
        ensures action { IfOk result (λ work. work.action ≡ action) }
    {
        let parts = listed(
            alloc,
            program,
            statement,
            action,
            test_of(statement, action),
        )?;
        Ok(EdgeWork {
            program,
            statement,
            action,
            parts,
        })
    }

    /// The same, where the statement's simple conditions are listed.
    pub fn among(
        alloc: Global,
        program: &'a Program,
        tests: &StatementTests<'a>,
        action: Action,
    ) -> Result<EdgeWork<'a>, AllocError>
        ensures program { IfOk result (λ work. work.program.now ≡ program.now) }
        ensures statement { IfOk result (λ work. work.statement.now ≡ tests.now.statement.now) }
        ensures action { IfOk result (λ work. work.action ≡ action) }
    {
        let statement = tests.statement;
        let parts = listed(alloc, program, statement, action, tests.test_of(action))?;
        Ok(EdgeWork {
            program,
            statement,
            action,
            parts,
        })
    }
}
