//! The walk over the parts of an edge.
ghost use Rattle.std.specs.Prelude.{◌≡◌, ◌&&◌, ◌||◌, ◌++◌, not, length, List, Some, None, IsTrue, if◌then◌else◌};
ghost use Rattle.cob_data.specs.declared.extent.Extent.{Extent};
ghost use Rattle.cob_edge_parts.specs.Parts.{is_handled};
ghost use Rattle.edge_parts.specs.PartView.{plain_part};
ghost use Rattle.cell_laws.specs.Sizes.{IsSmallPart};
ghost use Rattle.interval_domain.specs.Elements.{CellsFit};
ghost use Rattle.interval_domain.specs.Rows.{cells_of};
ghost use Rattle.cell_steps.specs.OwnRanges.{owns};
ghost use Rattle.cell_layer.specs.Kept.{seen, latest_of};
ghost use Rattle.cell_layer.specs.ProgramRows.{IsRowOf};
ghost use Rattle.cell_layer.specs.Walks.{CanStep};
ghost use Rattle.cell_layer.specs.Works.{program_of, act_of};
ghost use Rattle.diff_steps.specs.Steps.{each_pack, all_closed};
ghost use Rattle.diff_layer.specs.PackWriting.{are_written};
ghost use Rattle.diff_layer.specs.Closed.{IsClosedRow};
ghost use Rattle.diff_layer.specs.Parts.{CanChange, IsOfEdge, IsWrittenTo, plan_changed};
ghost use Rattle.diff_layer.specs.PackEdges.{
  program_on,
  statement_on,
  act_on,
  action_on,
  packs_on,
  matrices_on,
  bytes_on,
  Tells,
};
ghost use Rattle.diff_layer.specs.Plans.{IsRowFor};
ghost use Rattle.diff_layer.specs.Walks.{seen2, step2_small, passed_to, closed_walked, statement_walked};
ghost use Rattle.diff_layer.specs.Works.{bytes_of};
ghost use Rattle.diff_layer.specs.Writing.{edge_items};

use crate::forms::writing::writes_operands;
use crate::pack::closing::close_all;
use crate::pack::edge::{PackEdge, PackState};
use crate::pack::moment::Moment;
use crate::pack::passed::Passed;
use crate::pack::passing::pass;
use cell_layer::{Kept, KnownItems, walk_part};
use cob_program::Act;
use cob_runs::Action;
use edge_parts::{EdgePart, EdgeWork};

// whether a part writes to bytes of the items of the operands
fn writes(work: &EdgeWork, part: EdgePart) -> bool
    ensures { result ≡ are_written (program_of work.now).layout (bytes_of work.now (plain_part part.entry))
        (edge_items (act_of work.now) work.now.action) }
{
    writes_operands(work.program, &work.statement.act, work.action, part)
}

// whether this part or an earlier one writes to bytes of the items of the operands
fn written_behind(work: &EdgeWork, part: EdgePart, written: bool) -> bool
    ensures { result ≡ (written
        || are_written (program_of work.now).layout (bytes_of work.now (plain_part part.entry))
        (edge_items (act_of work.now) work.now.action)) }
{
    written || writes(work, part)
}

// Leads the matrices over a part that the row has passed, by what is kept behind it and by what was written before it.
fn pass_matrices(
    edge: &PackEdge,
    part: EdgePart,
    before: &[i128],
    row: &[i128],
    state: PackState,
    out: &mut [i128],
) -> bool
    requires before { IsRowOf (program_on edge.now) edge.now.cells.now before.now }
    requires row { IsRowOf (program_on edge.now) edge.now.cells.now row.now }
    requires fits { CellsFit (owns (program_on edge.now)) (cells_of before.now) }
    requires fit { CellsFit (owns (program_on edge.now)) (cells_of row.now) }
    requires can { CanChange (program_on edge.now) (cells_of before.now) state.kept.common (plain_part part) }
    requires matrices { IsClosedRow (program_on edge.now) (cells_of before.now) edge.now.plans.now out.old }
    ensures closed { (wrote : List Extent) → IsWrittenTo (program_on edge.now).layout wrote state.written
        (plain_part part.entry)
        → all_closed (program_on edge.now) (cells_of row.now) (packs_on edge.now)
        (each_pack (plan_changed (program_on edge.now) (cells_of before.now) state.kept.common (latest_of state.kept)
        wrote (plain_part part.entry))
        (packs_on edge.now) (matrices_on edge.now out.old))
        ≡ (if result then Some (matrices_on edge.now out.new) else None) }
    ensures matrices { IsTrue result → IsClosedRow (program_on edge.now) (cells_of row.now) edge.now.plans.now out.new }
{
    let work = edge.work;
    let passed = Passed {
        moment: Moment {
            items: KnownItems {
                program: work.program,
                cells: edge.cells,
                row: before,
            },
            act: &work.statement.act,
            action: work.action,
            kept: state.kept,
            written: state.written,
        },
        row,
    };
    pass(&passed, part, edge.plans, out)
}

/// Leads both rows over a part, beside room for the row before it. Answers false where no run passes it.
pub(crate) fn step(
    edge: &PackEdge,
    part: &EdgePart,
    row: &mut [i128],
    before: &mut [i128],
    state: &mut PackState,
    out: &mut [i128],
) -> bool
    requires row { IsRowOf (program_on edge.now) edge.now.cells.now row.old }
    requires room { length before.old ≡ length row.old }
    requires small { IsSmallPart (program_on edge.now) (act_on edge.now) (action_on edge.now) (plain_part part.now) }
    requires of_edge { IsOfEdge (program_on edge.now) (act_on edge.now) (action_on edge.now) (plain_part part.now) }
    requires can { CanStep (program_on edge.now) (act_on edge.now) (action_on edge.now) (seen row.old state.old.kept) }
    requires matrices { IsClosedRow (program_on edge.now) (cells_of row.old) edge.now.plans.now out.old }
    ensures steps { (wrote : List Extent)
        → Tells edge.now wrote state.old.written
        → step2_small (program_on edge.now) (packs_on edge.now) (act_on edge.now) (action_on edge.now)
        (plain_part part.now)
        (seen row.old state.old.kept) (seen2 wrote (matrices_on edge.now out.old))
        ≡ passed_to result (seen row.new state.new.kept)
        (seen2 (bytes_on edge.now (plain_part part.now) ++ wrote) (matrices_on edge.now out.new)) }
    ensures writes { (wrote : List Extent)
        → Tells edge.now wrote state.old.written
        → Tells edge.now (bytes_on edge.now (plain_part part.now) ++ wrote) state.new.written }
    ensures row { IsRowOf (program_on edge.now) edge.now.cells.now row.new }
    ensures room { length before.new ≡ length row.new }
    ensures can { IsTrue result → CanStep (program_on edge.now) (act_on edge.now) (action_on edge.now)
        (seen row.new state.new.kept) }
    ensures matrices { IsTrue result → IsClosedRow (program_on edge.now) (cells_of row.new) edge.now.plans.now out.new }
{
    before.copy_from_slice(row);
    let written = state.written;
    let mut kept = state.kept;
    let passes = walk_part(edge.cells, edge.marks, edge.work, *part, row, &mut kept);
    *state = PackState {
        kept,
        written: written_behind(edge.work, *part, written),
    };
    passes && pass_matrices(edge, *part, before, row, PackState { kept, written }, out)
}

// an edge of size errors isn't taken where no receiver may keep its value
fn is_taken(work: &EdgeWork, any_fail: bool) -> bool
    ensures { result ≡ not (is_handled (act_of work.now) work.now.action && not any_fail) }
{
    match work.action {
        Action::Size => !matches!(&work.statement.act, Act::Arith { size: Some(_), .. })
            || any_fail,
        _ => true,
    }
}

// leads both rows over all parts of an edge, where the matrices are closed
fn walk_closed(edge: &PackEdge, row: &mut [i128], before: &mut [i128], out: &mut [i128]) -> bool
    requires row { IsRowOf (program_on edge.now) edge.now.cells.now row.old }
    requires fits { CellsFit (owns (program_on edge.now)) (cells_of row.old) }
    requires room { length before.old ≡ length row.old }
    requires matrices { IsClosedRow (program_on edge.now) (cells_of row.old) edge.now.plans.now out.old }
    ensures { closed_walked (program_on edge.now) (packs_on edge.now) (statement_on edge.now) (action_on edge.now)
        (cells_of row.old) (matrices_on edge.now out.old)
        ≡ (if result then Some (matrices_on edge.now out.new) else None) }
{
    let mut state = PackState {
        kept: Kept::new(),
        written: false,
    };
    let parts = edge.work.parts.as_slice();
    for part in parts {
        if !step(edge, part, row, before, &mut state, out) {
            return false;
        }
    }
    is_taken(edge.work, state.kept.any_fail)
}

/// Makes of the matrices of all packs what an edge makes of them, beside room for a row. The row of what is known of
/// cells goes along, and what it then holds isn't told. Answers false where no run passes the edge; then the
/// matrices' words aren't told either.
pub fn walk_packs(edge: &PackEdge, row: &mut [i128], before: &mut [i128], out: &mut [i128]) -> bool
    requires row { IsRowOf (program_on edge.now) edge.now.cells.now row.old }
    requires fits { CellsFit (owns (program_on edge.now)) (cells_of row.old) }
    requires room { length before.old ≡ length row.old }
    requires matrices { IsRowFor edge.now.plans.now out.old }
    ensures { statement_walked (program_on edge.now) (packs_on edge.now) (statement_on edge.now) (action_on edge.now)
        (cells_of row.old) (matrices_on edge.now out.old)
        ≡ (if result then Some (matrices_on edge.now out.new) else None) }
{
    close_all(edge.work.program, edge.cells, edge.plans, row, out)
        && walk_closed(edge, row, before, out)
}
