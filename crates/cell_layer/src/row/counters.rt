//! Counters of PERFORMs with TIMES.
ghost use Rattle.std.specs.Prelude.{◌≡◌, true, false, Some, None};
ghost use Rattle.std.specs.Option.{option_map};
ghost use Rattle.cob_program.specs.ActView.{plain_program};
ghost use Rattle.transfer_ranges.specs.ResultRanges.{lowered, count_range};
ghost use Rattle.interval_domain.specs.Elements.{CellsFit};
ghost use Rattle.interval_domain.specs.Rows.{cells_of};
ghost use Rattle.cob_graph.specs.declared.homes.Home.TheVariants.{Count as of_count};
ghost use Rattle.cell_steps.specs.OwnRanges.{picture_range, owns};
ghost use Rattle.cob_graph.specs.Homes.{homes_of};
ghost use Rattle.cell_steps.specs.Cells.{is_known, known_or, units_of};
ghost use Rattle.cell_steps.specs.Steps.{known_as, read_cells, counted_cells};
ghost use Rattle.cell_layer.specs.ProgramRows.{IsRowOf};

use crate::row::knowing::{know_count, known_of_count};
use cob_program::Program;
use cob_runs::Cell;
use interval_domain::Interval;
use transfer_ranges::{count_kept, counted, lowered};

const MOST: i128 = 999_999_999_999_999_999;

// A counter has 18 digits and a sign.
fn known_or_own(known: Option<Interval>) -> Interval
    ensures { result ≡ known_or (picture_range 18 true) known }
{
    match known {
        None => Interval {
            low: -MOST,
            high: MOST,
        },
        Some(units) => units,
    }
}

/// The numbers of a counter.
pub fn count_units(program: &Program, cells: &[Cell], row: &[i128], statement: u32) -> Interval
    requires { IsRowOf (plain_program program.now) cells.now row.now }
    ensures { result ≡ units_of program.now.layout (homes_of (plain_program program.now)) (cells_of row.now) (of_count statement) }
{
    known_or_own(known_of_count(program, cells, row, statement))
}

/// Whether a counter is known to have a number.
pub(crate) fn count_is_known(
    program: &Program,
    cells: &[Cell],
    row: &[i128],
    statement: u32,
) -> bool
    requires { IsRowOf (plain_program program.now) cells.now row.now }
    ensures { result ≡ is_known (homes_of (plain_program program.now)) (cells_of row.now) (of_count statement) }
{
    known_of_count(program, cells, row, statement).is_some()
}

/// A counter that is read has a number, of its own range where nothing else is known.
pub(crate) fn read_count(program: &Program, cells: &[Cell], row: &mut [i128], statement: u32)
    requires row { IsRowOf (plain_program program.now) cells.now row.old }
    requires fits { CellsFit (owns (plain_program program.now)) (cells_of row.old) }
    ensures cells { cells_of row.new ≡ read_cells (plain_program program.now) (of_count statement) (cells_of row.old) }
    ensures row { IsRowOf (plain_program program.now) cells.now row.new }
{
    let units = count_units(program, cells, row, statement);
    know_count(program, cells, row, statement, units);
}

/// What the test of a loop leaves of its counter; nothing where it can't have the outcome that is wanted.
pub(crate) fn guard_count(
    program: &Program,
    cells: &[Cell],
    row: &mut [i128],
    statement: u32,
    wanted: bool,
) -> bool
    requires { IsRowOf (plain_program program.now) cells.now row.old }
    ensures on { result ≡ true → counted_cells (plain_program program.now) statement wanted (cells_of row.old) ≡ Some (cells_of row.new) }
    ensures off { result ≡ false → counted_cells (plain_program program.now) statement wanted (cells_of row.old) ≡ None }
    ensures row { IsRowOf (plain_program program.now) cells.now row.new }
{
    match count_kept(count_units(program, cells, row, statement), wanted) {
        None => false,
        Some(units) => {
            know_count(program, cells, row, statement, units);
            true
        }
    }
}

/// A counter gets one of some numbers, as far as it holds them; nothing where it holds none.
pub(crate) fn set_count(
    program: &Program,
    cells: &[Cell],
    row: &mut [i128],
    statement: u32,
    units: Interval,
) -> bool
    requires { IsRowOf (plain_program program.now) cells.now row.old }
    ensures on { result ≡ true → option_map (known_as (plain_program program.now) (of_count statement) (cells_of row.old)) (count_range units) ≡ Some (cells_of row.new) }
    ensures off { result ≡ false → option_map (known_as (plain_program program.now) (of_count statement) (cells_of row.old)) (count_range units) ≡ None }
    ensures row { IsRowOf (plain_program program.now) cells.now row.new }
{
    match counted(units).units {
        None => false,
        Some(held) => {
            know_count(program, cells, row, statement, held);
            true
        }
    }
}

/// A counter gets its own number less one.
pub(crate) fn count_down(
    program: &Program,
    cells: &[Cell],
    row: &mut [i128],
    statement: u32,
) -> bool
    requires row { IsRowOf (plain_program program.now) cells.now row.old }
    requires fits { CellsFit (owns (plain_program program.now)) (cells_of row.old) }
    ensures on { result ≡ true → option_map (known_as (plain_program program.now) (of_count statement) (cells_of row.old))
        (count_range (lowered (units_of program.now.layout (homes_of (plain_program program.now)) (cells_of row.old) (of_count statement))))
        ≡ Some (cells_of row.new) }
    ensures off { result ≡ false → option_map (known_as (plain_program program.now) (of_count statement) (cells_of row.old))
        (count_range (lowered (units_of program.now.layout (homes_of (plain_program program.now)) (cells_of row.old) (of_count statement))))
        ≡ None }
    ensures row { IsRowOf (plain_program program.now) cells.now row.new }
{
    let units = lowered(count_units(program, cells, row, statement));
    set_count(program, cells, row, statement, units)
}
