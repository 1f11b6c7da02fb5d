//! What is known before a part of an edge.
ghost use Rattle.std.proofs.Props.{props};
ghost use Rattle.cob_program.specs.ActView.{plain_program};
ghost use Rattle.cell_layer.specs.ProgramRows.{IsRowOf};

use crate::edge::kept::Kept;
use cob_program::{Act, Program};
use cob_runs::{Action, Cell};

/// What is known of a program's cells before a part of an edge of a statement, and what is kept beside it.
#[derive(Drop)]
pub(crate) struct Before<'a> {
    pub program: &'a Program,
    pub cells: &'a [Cell],
    pub act: &'a Act,
    pub action: Action,
    pub row: &'a [i128],
    pub kept: Kept,
    pub ghost row_of: { IsRowOf (plain_program program.now) cells.now row.now } by { Prim.hlevel props },
}
