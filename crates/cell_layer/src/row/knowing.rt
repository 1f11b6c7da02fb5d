//! What is known of a cell, by its home.
ghost use Rattle.std.specs.Prelude.{◌≡◌, Some};
ghost use Rattle.cob_program.specs.ActView.{plain_program};
ghost use Rattle.cob_graph.specs.declared.homes.Home.TheVariants.{Item as of_item, Count as of_count};
ghost use Rattle.cob_graph.specs.Homes.{homes_of};
ghost use Rattle.cell_steps.specs.Storages.{known_of};
ghost use Rattle.interval_domain.specs.Known.{IsOrdered, joined_known};
ghost use Rattle.interval_domain.specs.Rows.{IsReached, cells_of};
ghost use Rattle.cell_steps.specs.Cells.{with_known};
ghost use Rattle.cell_layer.specs.ProgramRows.{known_in, set_in, IsCellNumber, IsRowOf};

use cob_graph::{cell_of, cell_of_count};
use cob_program::Program;
use cob_runs::Cell;
use interval_domain::{Interval, hull, known_at, set_known};

// ---- by a number

fn known_in(row: &[i128], cell: Option<usize>) -> Option<Interval>
    requires reached { IsReached row.now }
    requires within { IsCellNumber (cells_of row.now) cell }
    ensures value { result ≡ known_in (cells_of row.now) cell }
    ensures ordered { IsOrdered result }
{
    match cell {
        None => None,
        Some(k) => known_at(row, k),
    }
}

fn set_in(row: &mut [i128], cell: Option<usize>, known: Option<Interval>)
    requires reached { IsReached row.old }
    requires within { IsCellNumber (cells_of row.old) cell }
    requires ordered { IsOrdered known }
    ensures cells { cells_of row.new ≡ set_in (cells_of row.old) cell known }
    ensures reached { IsReached row.new }
{
    match cell {
        None => {}
        Some(k) => set_known(row, k, known),
    }
}

// ---- of two

pub(crate) fn joined_known(a: Option<Interval>, b: Option<Interval>) -> Option<Interval>
    requires a { IsOrdered a }
    requires b { IsOrdered b }
    ensures value { result ≡ joined_known a b }
    ensures ordered { IsOrdered result }
{
    match (a, b) {
        (Some(a), Some(b)) => Some(hull(a, b)),
        _ => None,
    }
}

// ---- by a home

/// What is known of an item.
pub fn known_of_item(
    program: &Program,
    cells: &[Cell],
    row: &[i128],
    place: u32,
) -> Option<Interval>
    requires { IsRowOf (plain_program program.now) cells.now row.now }
    ensures value { result ≡ known_of (homes_of (plain_program program.now)) (cells_of row.now) (of_item place) }
    ensures ordered { IsOrdered result }
{
    known_in(row, cell_of(cells, place))
}

/// What is known of the counter of a TIMES.
pub fn known_of_count(
    program: &Program,
    cells: &[Cell],
    row: &[i128],
    statement: u32,
) -> Option<Interval>
    requires { IsRowOf (plain_program program.now) cells.now row.now }
    ensures value { result ≡ known_of (homes_of (plain_program program.now)) (cells_of row.now) (of_count statement) }
    ensures ordered { IsOrdered result }
{
    known_in(row, cell_of_count(program, cells, statement))
}

/// Sets what is known of an item. One without a cell changes nothing.
pub(crate) fn set_item(
    program: &Program,
    cells: &[Cell],
    row: &mut [i128],
    place: u32,
    known: Option<Interval>,
)
    requires row { IsRowOf (plain_program program.now) cells.now row.old }
    requires ordered { IsOrdered known }
    ensures cells { cells_of row.new ≡ with_known (of_item place) known (homes_of (plain_program program.now)) (cells_of row.old) }
    ensures row { IsRowOf (plain_program program.now) cells.now row.new }
{
    set_in(row, cell_of(cells, place), known);
}

/// The numbers of an item lie in an interval.
pub(crate) fn know_item(
    program: &Program,
    cells: &[Cell],
    row: &mut [i128],
    place: u32,
    units: Interval,
)
    requires row { IsRowOf (plain_program program.now) cells.now row.old }
    requires ordered { IsOrdered (Some units) }
    ensures cells { cells_of row.new ≡ with_known (of_item place) (Some units) (homes_of (plain_program program.now)) (cells_of row.old) }
    ensures row { IsRowOf (plain_program program.now) cells.now row.new }
{
    set_item(program, cells, row, place, Some(units));
}

/// The numbers of the counter of a TIMES lie in an interval.
pub(crate) fn know_count(
    program: &Program,
    cells: &[Cell],
    row: &mut [i128],
    statement: u32,
    units: Interval,
)
    requires row { IsRowOf (plain_program program.now) cells.now row.old }
    requires ordered { IsOrdered (Some units) }
    ensures cells { cells_of row.new ≡ with_known (of_count statement) (Some units) (homes_of (plain_program program.now)) (cells_of row.old) }
    ensures row { IsRowOf (plain_program program.now) cells.now row.new }
{
    set_in(row, cell_of_count(program, cells, statement), Some(units));
}
