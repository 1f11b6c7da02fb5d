//! Counters of PERFORM with TIMES.
ghost use Rattle.std.specs.Prelude.{◌≡◌, not, true};
ghost use Rattle.std.specs.Option.{option_map_or};
ghost use Rattle.cob_program.specs.ActView.{plain_program};
ghost use Rattle.transfer_ranges.specs.ResultRanges.{lowered, count_may_fail};
ghost use Rattle.interval_domain.specs.Elements.{CellsFit};
ghost use Rattle.interval_domain.specs.Rows.{cells_of};
ghost use Rattle.cell_steps.specs.OwnRanges.{owns};
ghost use Rattle.cob_graph.specs.Homes.{homes_of};
ghost use Rattle.cob_graph.specs.declared.homes.Home.TheVariants.{Count as of_count};
ghost use Rattle.cell_steps.specs.Cells.{units_of};
ghost use Rattle.cell_layer.specs.ProgramRows.{IsRowOf};

use crate::row::counters;
use cob_program::Program;
use cob_runs::Cell;
use transfer_ranges::{Taken, counted, lowered};

/// Whether a counter holds what was taken for it.
pub(crate) fn count_fits(common: Option<Taken>) -> bool
    ensures { result ≡ option_map_or (λ c. not (count_may_fail c.top.units)) common true }
{
    match common {
        None => true,
        Some(taken) => !counted(taken.top.units).may_fail,
    }
}

/// Whether a counter holds its own number less one.
pub(crate) fn count_down_fits(
    program: &Program,
    cells: &[Cell],
    row: &[i128],
    statement: u32,
) -> bool
    requires row { IsRowOf (plain_program program.now) cells.now row.now }
    requires fits { CellsFit (owns (plain_program program.now)) (cells_of row.now) }
    ensures { result ≡ not (count_may_fail (lowered (units_of program.now.layout (homes_of (plain_program program.now)) (cells_of row.now) (of_count statement)))) }
{
    let units = counters::count_units(program, cells, row, statement);
    !counted(lowered(units)).may_fail
}
