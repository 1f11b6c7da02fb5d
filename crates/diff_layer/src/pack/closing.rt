//! Matrices lowered to what is known of their cells, and closed.
ghost use Rattle.std.specs.Prelude.{◌≡◌, ◌-◌, ◌^◌, ◌≤◌, length, List, IsTrue, Some, None, if◌then◌else◌};
ghost use Rattle.cob_program.specs.ActView.{plain_program};
ghost use Rattle.diff_bounds.specs.Matrix.{IsMatrix};
ghost use Rattle.interval_domain.specs.Known.{Known, IsOrdered};
ghost use Rattle.interval_domain.specs.Elements.{CellsFit};
ghost use Rattle.interval_domain.specs.Rows.{cells_of};
ghost use Rattle.cob_graph.specs.Homes.{homes_of};
ghost use Rattle.cell_steps.specs.OwnRanges.{owns};
ghost use Rattle.cell_steps.specs.Storages.{known_of};
ghost use Rattle.cell_layer.specs.ProgramRows.{IsRowOf};
ghost use Rattle.diff_steps.specs.Matrices.{put_closed};
ghost use Rattle.diff_steps.specs.Packs as packs;
ghost use Rattle.diff_steps.specs.Packs.{size_of};
ghost use Rattle.diff_steps.specs.Steps.{all_closed};
ghost use Rattle.diff_layer.specs.KnownCells.{cell, known_cells};
ghost use Rattle.diff_layer.specs.Closed.{IsClosedBy, IsClosedRow};
ghost use Rattle.diff_layer.specs.Plans.{plain_plan, plain_plans, IsPlanOf, ArePlansOf, matrices_for, IsRowFor};

use crate::forms::cells::unit_of;
use crate::pack::matrix_closing::KnownCell;
use crate::pack::plans::{PackPlan, words_for};
use cell_layer::{known_of_count, known_of_item};
use cob_graph::Home;
use cob_program::Program;
use cob_runs::Cell;
use interval_domain::Interval;

// what a row says of what a cell is of
fn known_of(program: &Program, cells: &[Cell], row: &[i128], cell: Home) -> Option<Interval>
    requires { IsRowOf (plain_program program.now) cells.now row.now }
    ensures value { result ≡ known_of (homes_of (plain_program program.now)) (cells_of row.now) cell }
    ensures ordered { IsOrdered result }
{
    match cell {
        Home::Item(place) => known_of_item(program, cells, row, place),
        Home::Count(statement) => known_of_count(program, cells, row, statement),
    }
}

fn known_cell(program: &Program, cells: &[Cell], row: &[i128], decimals: u32, of: Home) -> KnownCell
    requires row { IsRowOf (plain_program program.now) cells.now row.now }
    requires decimals { decimals ≤ 37 }
    ensures { result ≡ cell (known_of (homes_of (plain_program program.now)) (cells_of row.now) of)
        (10 ^ (decimals - packs.decimals_of program.now.layout of)) }
{
    KnownCell {
        known: known_of(program, cells, row, of),
        unit: unit_of(&program.layout, decimals, of),
    }
}

// what a row says of each cell of a pack
fn know_cells(
    program: &Program,
    cells: &[Cell],
    row: &[i128],
    plan: &PackPlan,
    known: &mut [KnownCell],
)
    requires row { IsRowOf (plain_program program.now) cells.now row.now }
    requires plan { IsPlanOf (plain_program program.now) plan.now }
    requires many { length known.old ≡ length plan.now.cells.items }
    ensures { known.new ≡ known_cells program.now.layout (homes_of (plain_program program.now)) (cells_of row.now)
        (plain_plan plan.now) }
{
    let pack = plan.cells.as_slice();
    for k in 0..known.len() {
        known[k] = known_cell(program, cells, row, plan.decimals, pack[k]);
    }
}

fn close(program: &Program, cells: &[Cell], plan: &PackPlan, row: &[i128], m: &mut [i128]) -> bool
    requires row { IsRowOf (plain_program program.now) cells.now row.now }
    requires fits { CellsFit (owns (plain_program program.now)) (cells_of row.now) }
    requires plan { IsPlanOf (plain_program program.now) plan.now }
    requires matrix { IsMatrix (size_of (plain_plan plan.now)) m.old }
    ensures value { put_closed program.now.layout (homes_of (plain_program program.now)) (cells_of row.now)
        (plain_plan plan.now) m.old
        ≡ (if result then Some m.new else None) }
    ensures width { length m.new ≡ length m.old }
    ensures matrix { IsTrue result → IsMatrix (size_of (plain_plan plan.now)) m.new }
    ensures stays { IsTrue result → IsClosedBy (plain_program program.now) (cells_of row.now) (plain_plan plan.now)
        m.new }
{
    let mut room = [KnownCell {
        known: None,
        unit: 1,
    }; 8];
    let size = plan.cells.as_slice().len();
    let known = &mut room[..size];
    know_cells(program, cells, row, plan, known);
    crate::pack::matrix_closing::close_pack(size, m, known)
}

/// Lowers a matrix to what is known of its cells and closes it, where a part has made it of one that was closed by what
/// was known of cells.
pub(crate) fn close_again(
    program: &Program,
    cells: &[Cell],
    plan: &PackPlan,
    row: &[i128],
    last: &[i128],
    m: &mut [i128],
) -> bool
    requires row { IsRowOf (plain_program program.now) cells.now row.now }
    requires fits { CellsFit (owns (plain_program program.now)) (cells_of row.now) }
    requires plan { IsPlanOf (plain_program program.now) plan.now }
    requires last { IsMatrix (size_of (plain_plan plan.now)) last.now }
    requires closed { (known : List Known) × CellsFit (owns (plain_program program.now)) known
        × IsClosedBy (plain_program program.now) known (plain_plan plan.now) last.now }
    requires matrix { IsMatrix (size_of (plain_plan plan.now)) m.old }
    ensures value { put_closed program.now.layout (homes_of (plain_program program.now)) (cells_of row.now)
        (plain_plan plan.now) m.old
        ≡ (if result then Some m.new else None) }
    ensures width { length m.new ≡ length m.old }
    ensures matrix { IsTrue result → IsMatrix (size_of (plain_plan plan.now)) m.new }
    ensures stays { IsTrue result → IsClosedBy (plain_program program.now) (cells_of row.now) (plain_plan plan.now)
        m.new }
{
    let mut room = [KnownCell {
        known: None,
        unit: 1,
    }; 8];
    let size = plan.cells.as_slice().len();
    let known = &mut room[..size];
    know_cells(program, cells, row, plan, known);
    crate::pack::matrix_closing::close_again(size, m, last, known)
}

/// Lowers the matrices of all packs to what is known of their cells, and closes them. Answers false where a cycle of one
/// is negative; the words then aren't told.
pub fn close_all(
    program: &Program,
    cells: &[Cell],
    plans: &[PackPlan],
    row: &[i128],
    out: &mut [i128],
) -> bool
    requires row { IsRowOf (plain_program program.now) cells.now row.now }
    requires fits { CellsFit (owns (plain_program program.now)) (cells_of row.now) }
    requires plans { ArePlansOf (plain_program program.now) plans.now }
    requires matrices { IsRowFor plans.now out.old }
    ensures closed { all_closed (plain_program program.now) (cells_of row.now) (plain_plans plans.now)
        (matrices_for plans.now out.old)
        ≡ (if result then Some (matrices_for plans.now out.new) else None) }
    ensures width { length out.new ≡ length out.old }
    ensures matrices { IsTrue result → IsRowFor plans.now out.new }
    ensures stays { IsTrue result → IsClosedRow (plain_program program.now) (cells_of row.now) plans.now out.new }
{
    match plans {
        [] => true,
        [plan, plans @ ..] => {
            let (first, rest) = out.split_at_mut(words_for(plan));
            close(program, cells, plan, row, first) && close_all(program, cells, plans, row, rest)
        }
    }
}
