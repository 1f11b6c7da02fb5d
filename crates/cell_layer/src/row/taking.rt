//! What is known of a sum.
ghost use Rattle.std.specs.Prelude.{◌≡◌, true, is_some, Some};
ghost use Rattle.cob_program.specs.ActView.{plain_program};
ghost use Rattle.cob_program.specs.SumView.{plain_sum};
ghost use Rattle.cob_calc.specs.Contents.{bound_at};
ghost use Rattle.sum_ranges.specs.Taking.{is_small_taken};
ghost use Rattle.transfer_ranges.specs.Operands.{is_whole, taken_sum};
ghost use Rattle.interval_domain.specs.Elements.{CellsFit};
ghost use Rattle.interval_domain.specs.Rows.{cells_of};
ghost use Rattle.cell_steps.specs.OwnRanges.{owns};
ghost use Rattle.cell_steps.specs.Stores.{range_at};
ghost use Rattle.cell_layer.specs.ProgramRows.{IsRowOf};
ghost use Rattle.cell_layer.specs.Taking.{taken_of};

use crate::row::items::KnownItems;
use crate::row::scales::{Taken, with_scales};
use cob_program::{How, Program, Sum};
use cob_runs::Cell;
use transfer_ranges::{Amount, Taken as Ranges, operands};

fn how_of(root: bool) -> How
    ensures { is_whole result ≡ root }
{
    if root { How::Whole } else { How::Plus }
}

fn ranges_of(
    program: &Program,
    cells: &[Cell],
    row: &[i128],
    sum: &Sum,
    root: bool,
) -> Option<Ranges>
    requires row { IsRowOf (plain_program program.now) cells.now row.now }
    requires fits { CellsFit (owns (plain_program program.now)) (cells_of row.now) }
    requires small { is_small_taken (bound_at program.now.layout) root (plain_sum sum.now) ≡ true }
    ensures { result ≡ taken_sum (range_at (plain_program program.now) (cells_of row.now)) root (plain_sum sum.now) }
{
    let items = KnownItems {
        program,
        cells,
        row,
    };
    operands(&items, Amount::Computed(sum, how_of(root)))
}

/// What is known of a sum of the program, which keeps the rule of bounds as each does that stands in a source, and in which
/// no divisor is 0 alone. Items that aren't known have the ranges of their pictures. `root` says that the whole sum is
/// stored: a quotient that is its last operation then stays exact.
pub fn taken(program: &Program, cells: &[Cell], row: &[i128], sum: &Sum, root: bool) -> Taken
    requires row { IsRowOf (plain_program program.now) cells.now row.now }
    requires fits { CellsFit (owns (plain_program program.now)) (cells_of row.now) }
    requires small { is_small_taken (bound_at program.now.layout) root (plain_sum sum.now) ≡ true }
    requires divided { is_some (taken_of (plain_program program.now) (cells_of row.now) root (plain_sum sum.now)) ≡ true }
    ensures { taken_of (plain_program program.now) (cells_of row.now) root (plain_sum sum.now) ≡ Some result }
{
    match ranges_of(program, cells, row, sum, root) {
        Some(taken) => with_scales(taken),
        None => unreachable!(),
    }
}
