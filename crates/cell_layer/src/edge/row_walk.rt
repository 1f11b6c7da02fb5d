//! A row of a program's cells that is led along an edge.
ghost use Rattle.std.proofs.Props.{props};
ghost use Rattle.cob_program.specs.ActView.{plain_program};
ghost use Rattle.cell_layer.specs.Forgetting.{AreMarks};
ghost use Rattle.cell_layer.specs.ProgramRows.{IsRowOf};

use crate::edge::kept::Kept;
use cob_program::{Act, Program};
use cob_runs::{Action, Cell};

/// A row of what is known of a program's cells on its way along an edge of a statement, and what is kept beside it. The
/// marks tell which cells have bytes of each other's items.
#[derive(Drop)]
pub(crate) struct Walk<'a> {
    pub program: &'a Program,
    pub cells: &'a [Cell],
    pub marks: &'a [Vec<bool>],
    pub act: &'a Act,
    pub action: Action,
    pub row: &'a mut [i128],
    pub kept: Kept,
    pub ghost row_of: { IsRowOf (plain_program program.now) cells.now row.now } by { Prim.hlevel props },
    pub ghost marked: { AreMarks (plain_program program.now) cells.now marks.now } by { Prim.hlevel props },
}
