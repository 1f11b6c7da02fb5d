//! Items that are read.
ghost use Rattle.std.specs.Prelude.{◌≡◌, true, if◌then◌else◌};
ghost use Rattle.cob_program.specs.ActView.{plain_program};
ghost use Rattle.interval_domain.specs.Elements.{CellsFit};
ghost use Rattle.interval_domain.specs.Rows.{cells_of};
ghost use Rattle.cob_graph.specs.declared.homes.Home.TheVariants.{Item as of_item};
ghost use Rattle.cell_steps.specs.OwnRanges.{owns};
ghost use Rattle.cell_steps.specs.Cells.{is_table};
ghost use Rattle.cell_steps.specs.Steps.{read_cells};
ghost use Rattle.cell_layer.specs.ProgramRows.{IsRowOf};
ghost use Rattle.cell_layer.specs.SmallCells.{has_small_cells};

use crate::row::items::item_range;
use crate::row::knowing::know_item;
use crate::row::pictures::{is_small_item, is_table};
use cob_program::Program;
use cob_runs::Cell;

/// What is read has a number, of its own range where nothing else is known. An item with more digits than the arithmetic
/// works with has no cell.
pub(crate) fn read_item(program: &Program, cells: &[Cell], row: &mut [i128], place: u32)
    requires row { IsRowOf (plain_program program.now) cells.now row.old }
    requires fits { CellsFit (owns (plain_program program.now)) (cells_of row.old) }
    requires small { has_small_cells (plain_program program.now) ≡ true }
    ensures cells { cells_of row.new ≡ read_cells (plain_program program.now) (of_item place) (cells_of row.old) }
    ensures row { IsRowOf (plain_program program.now) cells.now row.new }
{
    if !is_small_item(&program.layout, place) {
        return;
    }
    let range = item_range(program, cells, row, place);
    know_item(program, cells, row, place, range.units);
}

/// The same of an item that is no table's; of a table one occurrence alone is read, which tells nothing of the others.
pub(crate) fn read_one(program: &Program, cells: &[Cell], row: &mut [i128], place: u32)
    requires row { IsRowOf (plain_program program.now) cells.now row.old }
    requires fits { CellsFit (owns (plain_program program.now)) (cells_of row.old) }
    requires small { has_small_cells (plain_program program.now) ≡ true }
    ensures cells { cells_of row.new ≡ (if is_table program.now.layout place then cells_of row.old
        else read_cells (plain_program program.now) (of_item place) (cells_of row.old)) }
    ensures row { IsRowOf (plain_program program.now) cells.now row.new }
{
    if !is_table(&program.layout, place) {
        read_item(program, cells, row, place);
    }
}
