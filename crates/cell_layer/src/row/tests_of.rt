//! What tests leave of a row.
ghost use Rattle.std.specs.Prelude.{◌≡◌, true, false, Some, None, IfSome};
ghost use Rattle.cob_program.specs.ActView.{plain_program};
ghost use Rattle.cob_program.specs.Logic.{numeric};
ghost use Rattle.cob_program.specs.LogicView.{plain_test};
ghost use Rattle.cob_calc.specs.Contents.{bound_at};
ghost use Rattle.transfer_ranges.specs.Guards.{guarded};
ghost use Rattle.transfer_ranges.specs.Small.{is_small_test};
ghost use Rattle.interval_domain.specs.Elements.{CellsFit};
ghost use Rattle.interval_domain.specs.Known.{IsOrdered};
ghost use Rattle.interval_domain.specs.Rows.{cells_of};
ghost use Rattle.cob_graph.specs.Homes.{homes_of};
ghost use Rattle.cell_steps.specs.OwnRanges.{owns};
ghost use Rattle.cell_steps.specs.Cells.{is_numeric};
ghost use Rattle.cell_steps.specs.Stores.{range_at};
ghost use Rattle.cell_steps.specs.Steps.{cut_cells, all_cut, guarded_cells};
ghost use Rattle.cell_layer.specs.ProgramRows.{IsRowOf};
ghost use Rattle.cell_layer.specs.SmallCells.{has_small_cells};
ghost use Rattle.cell_layer.specs.Tests.{class_item, IsOrderedCut, AreOrderedCuts};

use crate::row::items::{KnownItems, item_is_numeric};
use crate::row::knowing::know_item;
use crate::row::pictures::is_table;
use crate::row::reads::read_one;
use cob_program::{Program, Test};
use cob_runs::Cell;
use transfer_ranges::{Cut, Cuts, guarded};

// ---- class tests

fn class_item(test: &Test) -> Option<u32>
    ensures { result ≡ class_item (plain_test test.now) }
{
    match test {
        Test::Numeric(item) => Some(*item),
        Test::Number { .. } | Test::Text { .. } | Test::Member { .. } | Test::Always => None,
    }
}

// An item that is numeric is as if it was read.
fn guard_class(
    program: &Program,
    cells: &[Cell],
    row: &mut [i128],
    place: u32,
    wanted: bool,
) -> bool
    requires row { IsRowOf (plain_program program.now) cells.now row.old }
    requires fits { CellsFit (owns (plain_program program.now)) (cells_of row.old) }
    requires small { has_small_cells (plain_program program.now) ≡ true }
    ensures on { result ≡ true → guarded_cells (plain_program program.now) (numeric place) wanted (cells_of row.old) ≡ Some (cells_of row.new) }
    ensures off { result ≡ false → guarded_cells (plain_program program.now) (numeric place) wanted (cells_of row.old) ≡ None }
    ensures row { IsRowOf (plain_program program.now) cells.now row.new }
{
    if wanted {
        read_one(program, cells, row, place);
        return true;
    }
    !item_is_numeric(program, cells, row, place)
}

// ---- tests of numbers

fn cuts_of(
    program: &Program,
    cells: &[Cell],
    row: &[i128],
    test: &Test,
    wanted: bool,
) -> Option<Cuts>
    requires row { IsRowOf (plain_program program.now) cells.now row.now }
    requires fits { CellsFit (owns (plain_program program.now)) (cells_of row.now) }
    requires small { is_small_test (bound_at program.now.layout) program.now.layout (plain_test test.now) ≡ true }
    requires other { class_item (plain_test test.now) ≡ None }
    ensures value { result ≡ guarded program.now.layout (range_at (plain_program program.now) (cells_of row.now))
        (is_numeric program.now.layout (homes_of (plain_program program.now)) (cells_of row.now)) (plain_test test.now) wanted }
    ensures ordered { IfSome result AreOrderedCuts }
{
    let items = KnownItems {
        program,
        cells,
        row,
    };
    guarded(&items, &program.layout, test, wanted)
}

// Of a table's item a test tells of one occurrence alone.
fn cut_item(program: &Program, cells: &[Cell], row: &mut [i128], cut: Cut)
    requires row { IsRowOf (plain_program program.now) cells.now row.old }
    requires ordered { IsOrdered (Some cut.units) }
    ensures cells { cells_of row.new ≡ cut_cells (plain_program program.now) (cells_of row.old) (Some cut) }
    ensures row { IsRowOf (plain_program program.now) cells.now row.new }
{
    if !is_table(&program.layout, cut.item) {
        know_item(program, cells, row, cut.item, cut.units);
    }
}

fn cut(program: &Program, cells: &[Cell], row: &mut [i128], cut: Option<Cut>)
    requires row { IsRowOf (plain_program program.now) cells.now row.old }
    requires ordered { IsOrderedCut cut }
    ensures cells { cells_of row.new ≡ cut_cells (plain_program program.now) (cells_of row.old) cut }
    ensures row { IsRowOf (plain_program program.now) cells.now row.new }
{
    match cut {
        None => {}
        Some(cut) => cut_item(program, cells, row, cut),
    }
}

fn cut_all(program: &Program, cells: &[Cell], row: &mut [i128], cuts: Cuts)
    requires row { IsRowOf (plain_program program.now) cells.now row.old }
    requires ordered { AreOrderedCuts cuts }
    ensures cells { cells_of row.new ≡ all_cut (plain_program program.now) (cells_of row.old) cuts }
    ensures row { IsRowOf (plain_program program.now) cells.now row.new }
{
    cut(program, cells, row, cuts.left);
    cut(program, cells, row, cuts.right);
}

fn guard_numbers(
    program: &Program,
    cells: &[Cell],
    row: &mut [i128],
    test: &Test,
    wanted: bool,
) -> bool
    requires row { IsRowOf (plain_program program.now) cells.now row.old }
    requires fits { CellsFit (owns (plain_program program.now)) (cells_of row.old) }
    requires small { is_small_test (bound_at program.now.layout) program.now.layout (plain_test test.now) ≡ true }
    requires other { class_item (plain_test test.now) ≡ None }
    ensures on { result ≡ true → guarded_cells (plain_program program.now) (plain_test test.now) wanted (cells_of row.old) ≡ Some (cells_of row.new) }
    ensures off { result ≡ false → guarded_cells (plain_program program.now) (plain_test test.now) wanted (cells_of row.old) ≡ None }
    ensures row { IsRowOf (plain_program program.now) cells.now row.new }
{
    match cuts_of(program, cells, row, test, wanted) {
        None => false,
        Some(cuts) => {
            cut_all(program, cells, row, cuts);
            true
        }
    }
}

/// What a test leaves of a row where it has the outcome that is wanted; nothing where it can't have it.
pub(crate) fn guard_row(
    program: &Program,
    cells: &[Cell],
    row: &mut [i128],
    test: &Test,
    wanted: bool,
) -> bool
    requires row { IsRowOf (plain_program program.now) cells.now row.old }
    requires fits { CellsFit (owns (plain_program program.now)) (cells_of row.old) }
    requires small { is_small_test (bound_at program.now.layout) program.now.layout (plain_test test.now) ≡ true }
    requires small_cells { has_small_cells (plain_program program.now) ≡ true }
    ensures on { result ≡ true → guarded_cells (plain_program program.now) (plain_test test.now) wanted (cells_of row.old) ≡ Some (cells_of row.new) }
    ensures off { result ≡ false → guarded_cells (plain_program program.now) (plain_test test.now) wanted (cells_of row.old) ≡ None }
    ensures row { IsRowOf (plain_program program.now) cells.now row.new }
{
    match class_item(test) {
        Some(place) => guard_class(program, cells, row, place, wanted),
        None => guard_numbers(program, cells, row, test, wanted),
    }
}
