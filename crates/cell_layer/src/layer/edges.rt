//! What edges make of rows, in place, and the kinds of faults that they clear.
ghost use Rattle.std.specs.Prelude.{◌≡◌, ◌≤◌, ◌<◌, ◌&&◌, not, if◌then◌else◌, true, false, length, slice_index_or, Some, None};
ghost use Rattle.std.specs.List.{AllByRecursion};
ghost use Rattle.cob_tree.specs.Kinds.{kinds_of};
ghost use Rattle.cob_program.specs.ActView.{plain_program};
ghost use Rattle.cob_edge_parts.specs.Parts.{has_phrase, is_handled};
ghost use Rattle.interval_domain.specs.Elements.{CellsFit};
ghost use Rattle.interval_domain.specs.Rows.{IsReached, cells_of, row_from, width_of};
ghost use Rattle.graph_runs.specs.Places.{no_edge};
ghost use Rattle.cell_steps.specs.OwnRanges.{owns};
ghost use Rattle.cell_laws.specs.Layer.{row_for, edge_cells, edge_clears};
ghost use Rattle.cell_laws.specs.Sizes.{IsSmallPart};
ghost use Rattle.cell_layer.specs.Forgetting.{AreMarks};
ghost use Rattle.cell_layer.specs.ProgramRows.{IsRowOf};
ghost use Rattle.cell_layer.specs.SmallCells.{has_small_cells};
ghost use Rattle.cell_layer.specs.Kept.{seen};
ghost use Rattle.cell_layer.specs.Walks.{steps_small, clears_all_small, CanStep};
ghost use Rattle.cell_layer.specs.Edges.{CanWalk, statement_post, statement_clears};
ghost use Rattle.cell_layer.specs.Works.{program_of, statement_of, act_of, parts_in};

use crate::edge::faults::cleared_by_part;
use crate::edge::kept::Kept;
use crate::edge::walking::walk_part;
use crate::layer::works::EdgeWorks;
use cob_program::Act;
use cob_runs::{Action, Cell};
use cob_tree::Kinds;
use edge_parts::EdgeWork;
use interval_domain::set_unreached;

// whether the statement has ON SIZE ERROR
fn has_phrase(work: &EdgeWork) -> bool
    ensures { result ≡ has_phrase (act_of work.now) }
{
    matches!(&work.statement.act, Act::Arith { size: Some(_), .. })
}

// whether the edge goes to the list of ON SIZE ERROR
fn is_handled(work: &EdgeWork) -> bool
    ensures { result ≡ is_handled (act_of work.now) work.now.action }
{
    match work.action {
        Action::Size => has_phrase(work),
        _ => false,
    }
}

// an edge of size errors isn't taken where no receiver may keep its value
fn finish(work: &EdgeWork, any_fail: bool, row: &mut [i128])
    requires { IsReached row.old }
    ensures { row.new ≡ row_from (length row.old)
        (if is_handled (act_of work.now) work.now.action && not any_fail then None else Some (cells_of row.old)) }
{
    if is_handled(work) && !any_fail {
        set_unreached(row);
    }
}

// leads a row over all parts of an edge; answers false where no run passes them
fn walk_parts(
    cells: &[Cell],
    marks: &[Vec<bool>],
    work: &EdgeWork,
    row: &mut [i128],
    kept: &mut Kept,
) -> bool
    requires row { IsRowOf (program_of work.now) cells.now row.old }
    requires marks { AreMarks (program_of work.now) cells.now marks.now }
    requires small_cells { has_small_cells (program_of work.now) ≡ true }
    requires small { AllByRecursion (IsSmallPart (program_of work.now) (act_of work.now) work.now.action) (parts_in work.now) }
    requires can { CanStep (program_of work.now) (act_of work.now) work.now.action (seen row.old kept.old) }
    ensures on { result ≡ true → steps_small (program_of work.now) (act_of work.now) work.now.action (parts_in work.now) (seen row.old kept.old)
        ≡ Some (seen row.new kept.new) }
    ensures off { result ≡ false → steps_small (program_of work.now) (act_of work.now) work.now.action (parts_in work.now) (seen row.old kept.old)
        ≡ None }
    ensures row { IsRowOf (program_of work.now) cells.now row.new }
{
    for part in work.parts.as_slice() {
        if !walk_part(cells, marks, work, *part, row, kept) {
            return false;
        }
    }
    true
}

// makes of a row what an edge makes of it
fn walk_edge(cells: &[Cell], marks: &[Vec<bool>], work: &EdgeWork, row: &mut [i128])
    requires marks { AreMarks (program_of work.now) cells.now marks.now }
    requires can { CanWalk (program_of work.now) cells.now (statement_of work.now) work.now.action row.old }
    ensures { row.new ≡ row_from (width_of (owns (program_of work.now)))
        (statement_post (program_of work.now) (statement_of work.now) work.now.action (cells_of row.old)) }
{
    let mut kept = Kept::new();
    if walk_parts(cells, marks, work, row, &mut kept) {
        finish(work, kept.any_fail, row);
    } else {
        set_unreached(row);
    }
}

// the kinds of faults that no part of an edge meets, each on what those before it left
fn parts_cleared(
    cells: &[Cell],
    marks: &[Vec<bool>],
    work: &EdgeWork,
    row: &mut [i128],
    kept: &mut Kept,
) -> Kinds
    requires row { IsRowOf (program_of work.now) cells.now row.old }
    requires marks { AreMarks (program_of work.now) cells.now marks.now }
    requires small_cells { has_small_cells (program_of work.now) ≡ true }
    requires small { AllByRecursion (IsSmallPart (program_of work.now) (act_of work.now) work.now.action) (parts_in work.now) }
    requires can { CanStep (program_of work.now) (act_of work.now) work.now.action (seen row.old kept.old) }
    ensures { result ≡ kinds_of (clears_all_small (program_of work.now) (act_of work.now) work.now.action (parts_in work.now)
        (seen row.old kept.old)) }
{
    let mut cleared = Kinds::all();
    for part in work.parts.as_slice() {
        cleared = cleared.both(cleared_by_part(cells, work, *part, row, kept));
        if !walk_part(cells, marks, work, *part, row, kept) {
            return cleared;
        }
    }
    cleared
}

/// The kinds of faults that no part of an edge meets. What the lent row holds is lost.
pub fn cleared_by_edge(
    cells: &[Cell],
    marks: &[Vec<bool>],
    work: &EdgeWork,
    row: &[i128],
    lent: &mut [i128],
) -> Kinds
    requires marks { AreMarks (program_of work.now) cells.now marks.now }
    requires can { CanWalk (program_of work.now) cells.now (statement_of work.now) work.now.action row.now }
    requires lent { length lent.old ≡ length row.now }
    ensures { result ≡ kinds_of (statement_clears (program_of work.now) (statement_of work.now) work.now.action (cells_of row.now)) }
{
    lent.copy_from_slice(row);
    parts_cleared(cells, marks, work, lent, &mut Kept::new())
}

// ---- edges of a graph, by their numbers, which count from 0

/// Makes of a row what an edge makes of it.
pub(crate) fn post_edge(works: &EdgeWorks, at: usize, row: &mut [i128])
    requires edge { at < length works.now.graph.now.edges }
    requires reached { IsReached row.old }
    requires fits { CellsFit (owns (plain_program works.now.program.now)) (cells_of row.old) }
    ensures { row.new ≡ row_for (plain_program works.now.program.now)
        (edge_cells (plain_program works.now.program.now) works.now.graph.now
        (slice_index_or works.now.graph.now.edges at no_edge) (cells_of row.old)) }
{
    match works.at(at) {
        Some(work) => walk_edge(works.graph.cells.get(), works.marks.as_slice(), work, row),
        None => {}
    }
}

/// The kinds of faults that no part of an edge meets. What the lent row holds is lost.
pub(crate) fn edge_cleared(works: &EdgeWorks, at: usize, row: &[i128], lent: &mut [i128]) -> Kinds
    requires edge { at < length works.now.graph.now.edges }
    requires reached { IsReached row.now }
    requires fits { CellsFit (owns (plain_program works.now.program.now)) (cells_of row.now) }
    requires lent { length lent.old ≡ length row.now }
    ensures { result ≡ kinds_of (λ kind. edge_clears (plain_program works.now.program.now) works.now.graph.now kind (cells_of row.now)
        (slice_index_or works.now.graph.now.edges at no_edge)) }
{
    match works.at(at) {
        Some(work) => cleared_by_edge(
            works.graph.cells.get(),
            works.marks.as_slice(),
            work,
            row,
            lent,
        ),
        None => Kinds::all(),
    }
}
