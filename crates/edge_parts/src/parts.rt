//! The parts of an edge by their numbers.
ghost use Rattle.std.specs.Prelude.{◌≡◌, ◌-◌, ◌^◌, min, length, slice_get};
ghost use Rattle.std.specs.Option.{option_map};
ghost use Rattle.cob_program.specs.ActView.{plain_stmt, plain_program};
ghost use Rattle.edge_parts.specs.PartView.{plain_part, edge_parts};

use crate::part::EdgePart;
use crate::part_edges::{push_edge, test_of};
use crate::taker::{Search, Taker, found, left};
use cob_program::{Program, Stmt};
use cob_runs::Action;
use std::ops::ControlFlow;

/// How many parts an edge of a statement has; `u32::MAX` stands for more, too. It goes over all of them, takes no memory.
pub fn part_count(program: &Program, statement: &Stmt, action: Action) -> u32
    ensures { result
        ≡ min (length (edge_parts (plain_program program.now) (plain_stmt statement.now) action)) (2 ^ 32 - 1) }
{
    let mut parts = Taker::Search(Search {
        left: u32::MAX,
        found: None,
    });
    match push_edge(
        &mut parts,
        program,
        statement,
        action,
        test_of(statement, action),
    ) {
        ControlFlow::Break(_) => u32::MAX,
        ControlFlow::Continue(_) => u32::MAX - left(&parts),
    }
}

/// The part of an edge with a number, which counts from 0. It goes over those before it and takes no memory: a loop over
/// the parts takes `EdgeWork`.
pub fn part_at<'a>(
    program: &Program,
    statement: &'a Stmt,
    action: Action,
    k: u32,
) -> Option<EdgePart<'a>>
    ensures { option_map plain_part result
        ≡ slice_get (edge_parts (plain_program program.now) (plain_stmt statement.now) action) k }
{
    let mut parts = Taker::Search(Search {
        left: k,
        found: None,
    });
    match push_edge(
        &mut parts,
        program,
        statement,
        action,
        test_of(statement, action),
    ) {
        ControlFlow::Continue(_) => None,
        ControlFlow::Break(_) => found(&parts),
    }
}
