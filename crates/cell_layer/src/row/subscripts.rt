//! What subscripts leave of the items that they are.
ghost use Rattle.std.specs.Prelude.{◌≡◌, true, false, pos, Some, None};
ghost use Rattle.cob_program.specs.ActView.{plain_program};
ghost use Rattle.cob_program.specs.Bounds.{is_small};
ghost use Rattle.cob_calc.specs.Contents.{bound_at};
ghost use Rattle.interval_domain.specs.Rows.{cells_of};
ghost use Rattle.cob_graph.specs.declared.homes.Home.TheVariants.{Item as of_item};
ghost use Rattle.cob_graph.specs.Homes.{homes_of};
ghost use Rattle.cell_steps.specs.Cells.{units_of};
ghost use Rattle.cell_steps.specs.Clearing.{lies_in_table};
ghost use Rattle.cell_steps.specs.Steps.{table, indexed_cells};
ghost use Rattle.cell_layer.specs.ProgramRows.{IsRowOf};

use crate::row::items::item_range;
use crate::row::knowing::know_item;
use cob_program::Program;
use cob_runs::Cell;
use interval_domain::Interval;
use transfer_ranges::met;

// the numbers that name an occurrence
fn table(count: u32) -> Interval
    ensures { result ≡ table count }
{
    Interval {
        low: 1,
        high: i128::from(count),
    }
}

// The numbers of an item that is no operand.
fn item_units(program: &Program, cells: &[Cell], row: &[i128], item: u32) -> Interval
    requires row { IsRowOf (plain_program program.now) cells.now row.now }
    requires small { is_small (bound_at program.now.layout item) ≡ true }
    ensures { result ≡ units_of program.now.layout (homes_of (plain_program program.now)) (cells_of row.now) (of_item item) }
{
    item_range(program, cells, row, item).units
}

/// Whether each number of an item names an occurrence of a table of so many.
pub(crate) fn lies_in_table(
    program: &Program,
    cells: &[Cell],
    row: &[i128],
    item: u32,
    count: u32,
) -> bool
    requires row { IsRowOf (plain_program program.now) cells.now row.now }
    requires small { is_small (bound_at program.now.layout item) ≡ true }
    ensures { result ≡ lies_in_table count
        (units_of program.now.layout (homes_of (plain_program program.now)) (cells_of row.now) (of_item item)) }
{
    let units = item_units(program, cells, row, item);
    1 <= units.low && units.high <= i128::from(count)
}

/// The numbers of an item that name an occurrence are left of it; nothing where none does.
pub(crate) fn index_item(
    program: &Program,
    cells: &[Cell],
    row: &mut [i128],
    item: u32,
    count: u32,
) -> bool
    requires row { IsRowOf (plain_program program.now) cells.now row.old }
    requires small { is_small (bound_at program.now.layout item) ≡ true }
    ensures on { result ≡ true → indexed_cells (plain_program program.now) item count (cells_of row.old) ≡ Some (cells_of row.new) }
    ensures off { result ≡ false → indexed_cells (plain_program program.now) item count (cells_of row.old) ≡ None }
    ensures row { IsRowOf (plain_program program.now) cells.now row.new }
{
    match met(item_units(program, cells, row, item), table(count)) {
        None => false,
        Some(units) => {
            know_item(program, cells, row, item, units);
            true
        }
    }
}
