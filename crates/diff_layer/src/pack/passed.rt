//! A part that the row of cells has passed.
ghost use Rattle.interval_domain.specs.Elements.{CellsFit};
ghost use Rattle.interval_domain.specs.Rows.{cells_of};
ghost use Rattle.cell_steps.specs.OwnRanges.{owns};
ghost use Rattle.cell_layer.specs.ProgramRows.{IsRowOf};
ghost use Rattle.diff_layer.specs.Views.{program_of};
ghost use Rattle.diff_layer.specs.AtMostOne.{cells_prop};

use crate::pack::moment::Moment;

/// A part that the row of cells has passed: what is known before it, and the row behind it.
#[derive(Drop)]
pub struct Passed<'a, 'b, 'c> {
    pub moment: Moment<'a, 'b>,
    pub row: &'c [i128],
    pub ghost row_of: { IsRowOf (program_of moment.items) moment.items.cells.now row.now },
    pub ghost fit: { CellsFit (owns (program_of moment.items)) (cells_of row.now) } by { cells_prop (owns (program_of moment.items)) (cells_of row.now) },
}
