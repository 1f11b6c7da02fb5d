//! The matrices behind a part that the row has passed. One is closed again where the part has changed its words or what is
//! known of its pack's cells; else it is closed still.
ghost use Rattle.std.specs.Prelude.{◌≡◌, length, List, IsTrue, Some, None, if◌then◌else◌};
ghost use Rattle.std.specs.List.{AllByRecursion};
ghost use Rattle.cob_data.specs.declared.extent.Extent.{Extent};
ghost use Rattle.cob_program.specs.ActView.{plain_program};
ghost use Rattle.edge_parts.specs.PartView.{plain_part};
ghost use Rattle.diff_bounds.specs.Matrix.{IsMatrix};
ghost use Rattle.cob_graph.specs.Graphs.{cells_of as program_cells};
ghost use Rattle.interval_domain.specs.Rows.{IsReached, cells_of};
ghost use Rattle.cob_graph.specs.Numbers.{number_of};
ghost use Rattle.cob_graph.specs.Homes.{homes_of};
ghost use Rattle.cell_layer.specs.Kept.{latest_of};
ghost use Rattle.cell_layer.specs.ProgramRows.{known_in, IsCellNumber};
ghost use Rattle.diff_steps.specs.Matrices.{put_closed};
ghost use Rattle.diff_steps.specs.Packs.{size_of};
ghost use Rattle.diff_steps.specs.Steps.{each_pack, all_closed};
ghost use Rattle.diff_layer.specs.Closed.{IsClosedBy, IsClosedRow, IsKnownAlike, IsIdle};
ghost use Rattle.diff_layer.specs.Parts.{CanChange, IsWrittenTo, plan_changed};
ghost use Rattle.diff_layer.specs.Passed.{program_in, known_before, known_behind};
ghost use Rattle.diff_layer.specs.Plans.{plain_plan, plain_plans, IsPlanOf, ArePlansOf, matrices_for};

use crate::pack::changing::change_plan;
use crate::pack::closing::close_again;
use crate::pack::passed::Passed;
use crate::pack::plans::{PackPlan, words_for};
use cob_graph::{Home, cell_of, cell_of_count};
use cob_program::Program;
use cob_runs::Cell;
use edge_parts::EdgePart;
use interval_domain::{Interval, known_at};

// whether two lists of words are one
fn is_same(one: &[i128], other: &[i128]) -> bool
    ensures { IsTrue result → one.now ≡ other.now }
{
    one == other
}

// ---- what is known of cells

// the number of a pack's cell among those of the program
fn number_of(program: &Program, cells: &[Cell], cell: Home) -> Option<usize>
    requires { cells.now ≡ program_cells (plain_program program.now) }
    ensures { result ≡ number_of (plain_program program.now) cell }
{
    match cell {
        Home::Item(place) => cell_of(cells, place),
        Home::Count(statement) => cell_of_count(program, cells, statement),
    }
}

fn is_same_interval(one: Option<Interval>, other: Option<Interval>) -> bool
    ensures { IsTrue result → one ≡ other }
{
    match one {
        None => other.is_none(),
        Some(one) => match other {
            None => false,
            Some(other) => one.low == other.low && one.high == other.high,
        },
    }
}

// whether two rows say the same of the cell with a number
fn is_numbered_alike(before: &[i128], row: &[i128], number: Option<usize>) -> bool
    requires before { IsReached before.now }
    requires row { IsReached row.now }
    requires within { IsCellNumber (cells_of before.now) number }
    requires too { IsCellNumber (cells_of row.now) number }
    ensures { IsTrue result → known_in (cells_of before.now) number ≡ known_in (cells_of row.now) number }
{
    match number {
        None => true,
        Some(k) => is_same_interval(known_at(before, k), known_at(row, k)),
    }
}

// whether the rows before the part and behind it say the same of a cell of a pack
fn is_known_alike(passed: &Passed, cell: &Home) -> bool
    ensures { IsTrue result → IsKnownAlike (program_in passed.now) (known_before passed.now) (known_behind passed.now)
        cell.now }
{
    let items = &passed.moment.items;
    is_numbered_alike(
        items.row,
        passed.row,
        number_of(items.program, items.cells, *cell),
    )
}

fn are_known_alike(passed: &Passed, pack: &[Home]) -> bool
    ensures { IsTrue result → AllByRecursion (IsKnownAlike (program_in passed.now) (known_before passed.now)
        (known_behind passed.now)) pack.now }
{
    match pack {
        [] => true,
        [cell, pack @ ..] => is_known_alike(passed, cell) && are_known_alike(passed, pack),
    }
}

// ---- packs

// whether neither the words of a pack have changed nor what is known of its cells
fn is_unchanged(passed: &Passed, plan: &PackPlan, last: &[i128], m: &[i128]) -> bool
    ensures words { IsTrue result → last.now ≡ m.now }
    ensures known { IsTrue result → AllByRecursion (IsKnownAlike (program_in passed.now) (known_before passed.now)
        (known_behind passed.now)) (plain_plan plan.now) }
{
    is_same(last, m) && are_known_alike(passed, plan.cells.as_slice())
}

// closes what a part has made of a matrix that was closed before it
fn close_behind(passed: &Passed, plan: &PackPlan, last: &[i128], m: &mut [i128]) -> bool
    requires plan { IsPlanOf (program_in passed.now) plan.now }
    requires last { IsMatrix (size_of (plain_plan plan.now)) last.now }
    requires closed { IsClosedBy (program_in passed.now) (known_before passed.now) (plain_plan plan.now) last.now }
    requires matrix { IsMatrix (size_of (plain_plan plan.now)) m.old }
    ensures value { put_closed (program_in passed.now).layout (homes_of (program_in passed.now))
        (known_behind passed.now) (plain_plan plan.now) m.old
        ≡ (if result then Some m.new else None) }
    ensures width { length m.new ≡ length m.old }
    ensures matrix { IsTrue result → IsMatrix (size_of (plain_plan plan.now)) m.new }
    ensures stays { IsTrue result → IsClosedBy (program_in passed.now) (known_behind passed.now) (plain_plan plan.now)
        m.new }
{
    let items = &passed.moment.items;
    is_unchanged(passed, plan, last, m)
        || close_again(items.program, items.cells, plan, passed.row, last, m)
}

// leads the matrix of a pack over the part
fn pass_pack(passed: &Passed, part: EdgePart, plan: &PackPlan, m: &mut [i128]) -> bool
    requires plan { IsPlanOf (program_in passed.now) plan.now }
    requires can { CanChange (program_in passed.now) (known_before passed.now) passed.now.moment.kept.common
        (plain_part part) }
    requires matrix { IsMatrix (size_of (plain_plan plan.now)) m.old }
    requires closed { IsClosedBy (program_in passed.now) (known_before passed.now) (plain_plan plan.now) m.old }
    ensures value { (wrote : List Extent) → IsWrittenTo (program_in passed.now).layout wrote passed.now.moment.written
        (plain_part part.entry)
        → put_closed (program_in passed.now).layout (homes_of (program_in passed.now)) (known_behind passed.now)
        (plain_plan plan.now)
        (plan_changed (program_in passed.now) (known_before passed.now) passed.now.moment.kept.common
        (latest_of passed.now.moment.kept) wrote
        (plain_part part.entry) (plain_plan plan.now) m.old)
        ≡ (if result then Some m.new else None) }
    ensures width { length m.new ≡ length m.old }
    ensures matrix { IsTrue result → IsMatrix (size_of (plain_plan plan.now)) m.new }
    ensures stays { IsTrue result → IsClosedBy (program_in passed.now) (known_behind passed.now) (plain_plan plan.now)
        m.new }
{
    let mut room = [0; 81];
    let last = &mut room[..m.len()];
    last.copy_from_slice(m);
    change_plan(&passed.moment, plan, m, part);
    close_behind(passed, plan, last, m)
}

fn pass_packs(passed: &Passed, part: EdgePart, plans: &[PackPlan], out: &mut [i128]) -> bool
    requires plans { ArePlansOf (program_in passed.now) plans.now }
    requires can { CanChange (program_in passed.now) (known_before passed.now) passed.now.moment.kept.common
        (plain_part part) }
    requires matrices { IsClosedRow (program_in passed.now) (known_before passed.now) plans.now out.old }
    ensures closed { (wrote : List Extent) → IsWrittenTo (program_in passed.now).layout wrote passed.now.moment.written
        (plain_part part.entry)
        → all_closed (program_in passed.now) (known_behind passed.now) (plain_plans plans.now)
        (each_pack (plan_changed (program_in passed.now) (known_before passed.now) passed.now.moment.kept.common
        (latest_of passed.now.moment.kept) wrote (plain_part part.entry))
        (plain_plans plans.now) (matrices_for plans.now out.old))
        ≡ (if result then Some (matrices_for plans.now out.new) else None) }
    ensures matrices { IsTrue result → IsClosedRow (program_in passed.now) (known_behind passed.now) plans.now out.new }
{
    match plans {
        [] => true,
        [plan, plans @ ..] => {
            let (first, rest) = out.split_at_mut(words_for(plan));
            pass_pack(passed, part, plan, first) && pass_packs(passed, part, plans, rest)
        }
    }
}

// ---- the row

// whether a part changes no matrix
fn is_idle(part: EdgePart) -> bool
    ensures { IsTrue result → IsIdle (plain_part part.entry) }
{
    match part {
        EdgePart::Read(_)
        | EdgePart::Unread
        | EdgePart::Subscript { .. }
        | EdgePart::Index { .. }
        | EdgePart::Divide(_)
        | EdgePart::ReadCount(_)
        | EdgePart::GuardCount { .. } => true,
        EdgePart::Store { .. }
        | EdgePart::Bytes { .. }
        | EdgePart::Guard { .. }
        | EdgePart::SetCount { .. }
        | EdgePart::CountDown(_) => false,
    }
}

// whether a part has changed neither a matrix nor the row
fn is_untouched(part: EdgePart, before: &[i128], row: &[i128]) -> bool
    ensures idle { IsTrue result → IsIdle (plain_part part.entry) }
    ensures same { IsTrue result → before.now ≡ row.now }
{
    is_idle(part) && is_same(before, row)
}

/// Leads the matrices over a part that the row has passed. Answers false where a cycle is negative behind it; the words
/// then aren't told.
pub(crate) fn pass(passed: &Passed, part: EdgePart, plans: &[PackPlan], out: &mut [i128]) -> bool
    requires plans { ArePlansOf (program_in passed.now) plans.now }
    requires can { CanChange (program_in passed.now) (known_before passed.now) passed.now.moment.kept.common
        (plain_part part) }
    requires matrices { IsClosedRow (program_in passed.now) (known_before passed.now) plans.now out.old }
    ensures closed { (wrote : List Extent) → IsWrittenTo (program_in passed.now).layout wrote passed.now.moment.written
        (plain_part part.entry)
        → all_closed (program_in passed.now) (known_behind passed.now) (plain_plans plans.now)
        (each_pack (plan_changed (program_in passed.now) (known_before passed.now) passed.now.moment.kept.common
        (latest_of passed.now.moment.kept) wrote (plain_part part.entry))
        (plain_plans plans.now) (matrices_for plans.now out.old))
        ≡ (if result then Some (matrices_for plans.now out.new) else None) }
    ensures matrices { IsTrue result → IsClosedRow (program_in passed.now) (known_behind passed.now) plans.now out.new }
{
    is_untouched(part, passed.moment.items.row, passed.row) || pass_packs(passed, part, plans, out)
}
