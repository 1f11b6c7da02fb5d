//! What is kept beside the row along an edge.
ghost use Rattle.std.specs.Prelude.{◌≡◌, ◌&&◌, true, List, ℤ};
ghost use Rattle.cob_program.specs.ActView.{plain_act, plain_program};
ghost use Rattle.cob_calc.specs.Contents.{bound_at};
ghost use Rattle.cob_edge_parts.specs.Parts.{is_handled};
ghost use Rattle.transfer_ranges.specs.SmallAmounts.{has_small_sum};
ghost use Rattle.interval_domain.specs.Elements.{CellsFit};
ghost use Rattle.interval_domain.specs.Rows.{cells_of};
ghost use Rattle.cell_steps.specs.OwnRanges.{owns};
ghost use Rattle.transfer_ranges.specs.EdgeOperands.{edge_operands, operands_vanish};
ghost use Rattle.cell_steps.specs.Seen.{beginning};
ghost use Rattle.cell_steps.specs.Stores.{range_at};
ghost use Rattle.cell_layer.specs.ProgramRows.{IsRowOf};
ghost use Rattle.cell_layer.specs.Kept.{seen, latest_of};
ghost use Rattle.cell_layer.specs.Latest.{nothing_stored};
ghost use Rattle.cell_layer.specs.Walks.{if_sent_small, with_taken_small, CanStep};

use crate::row::sums::{operands, operands_vanish, sends_small};
use cob_program::{Act, Program};
use cob_runs::{Action, Cell};
use edge_parts::is_handled;
use transfer_ranges::Taken;

/// What happened on the parts of an edge so far.
#[derive(Clone, Copy)]
pub struct Kept {
    /// The operands of the edge, as they were before the first part that wrote; nothing where a divisor among them is 0
    /// alone, or where the arithmetic doesn't work with the number that the edge sends.
    pub common: Option<Taken>,
    /// What the value of the latest store is worked out of: its range, or, of a quotient or a remainder, those of what is
    /// divided and of what divides; nothing where a divisor is 0 alone.
    pub result: Option<Taken>,
    /// A divisor may have been 0.
    pub may_zero: bool,
    /// The receiver of the latest store may keep its value, on an edge of size errors.
    pub may_fail: bool,
    /// The receiver of the latest store may get its result.
    pub may_fit: bool,
    /// A receiver may have kept its value.
    pub any_fail: bool,
    pub(crate) written: bool,
}

impl Kept {
    /// What is kept before the first part: nothing has happened.
    pub fn new() -> Kept
        ensures begins { (row : List ℤ) → seen row result ≡ beginning (cells_of row) }
        ensures latest { latest_of result ≡ nothing_stored }
    {
        Kept {
            common: None,
            result: None,
            may_zero: false,
            may_fail: false,
            may_fit: false,
            any_fail: false,
            written: false,
        }
    }
}

fn small_operands(
    program: &Program,
    cells: &[Cell],
    row: &[i128],
    act: &Act,
    action: Action,
) -> Option<Taken>
    requires row { IsRowOf (plain_program program.now) cells.now row.now }
    requires fits { CellsFit (owns (plain_program program.now)) (cells_of row.now) }
    requires sum { has_small_sum (bound_at program.now.layout) (plain_act act.now) ≡ true }
    ensures { result ≡ if_sent_small (plain_program program.now) (plain_act act.now) action
        (edge_operands (range_at (plain_program program.now) (cells_of row.now)) (plain_act act.now) action) }
{
    if sends_small(program, act, action) {
        operands(program, cells, row, act, action)
    } else {
        None
    }
}

// Whether a divisor of operands may be 0, on an edge of size errors.
fn may_vanish(program: &Program, cells: &[Cell], row: &[i128], act: &Act, action: Action) -> bool
    requires row { IsRowOf (plain_program program.now) cells.now row.now }
    requires fits { CellsFit (owns (plain_program program.now)) (cells_of row.now) }
    requires sum { has_small_sum (bound_at program.now.layout) (plain_act act.now) ≡ true }
    ensures { result ≡ (is_handled (plain_act act.now) action
        && operands_vanish (range_at (plain_program program.now) (cells_of row.now)) (plain_act act.now)) }
{
    is_handled(act, action) && operands_vanish(program, cells, row, act)
}

fn take(
    program: &Program,
    cells: &[Cell],
    row: &[i128],
    act: &Act,
    action: Action,
    kept: Kept,
) -> Kept
    requires row { IsRowOf (plain_program program.now) cells.now row.now }
    requires fits { CellsFit (owns (plain_program program.now)) (cells_of row.now) }
    requires sum { has_small_sum (bound_at program.now.layout) (plain_act act.now) ≡ true }
    ensures same { seen row.now result ≡ with_taken_small (plain_program program.now) (plain_act act.now) action (seen row.now kept) }
    ensures written { result.written ≡ true }
    ensures latest { latest_of result ≡ latest_of kept }
{
    if kept.written {
        return kept;
    }
    let vanishes = may_vanish(program, cells, row, act, action);
    Kept {
        common: small_operands(program, cells, row, act, action),
        result: kept.result,
        may_zero: kept.may_zero || vanishes,
        may_fail: kept.may_fail,
        may_fit: kept.may_fit,
        any_fail: kept.any_fail,
        written: true,
    }
}

/// What is kept once operands are taken, which they are before the first part that writes.
pub(crate) fn taken(
    program: &Program,
    cells: &[Cell],
    row: &[i128],
    act: &Act,
    action: Action,
    kept: Kept,
) -> Kept
    requires row { IsRowOf (plain_program program.now) cells.now row.now }
    requires sum { has_small_sum (bound_at program.now.layout) (plain_act act.now) ≡ true }
    requires can { CanStep (plain_program program.now) (plain_act act.now) action (seen row.now kept) }
    ensures same { seen row.now result ≡ with_taken_small (plain_program program.now) (plain_act act.now) action (seen row.now kept) }
    ensures written { result.written ≡ true }
    ensures latest { latest_of result ≡ latest_of kept }
    ensures can { CanStep (plain_program program.now) (plain_act act.now) action (seen row.now result) }
{
    take(program, cells, row, act, action, kept)
}

/// What is kept where the operands of the edge are taken, right before the first part that writes.
pub fn with_operands(
    program: &Program,
    cells: &[Cell],
    row: &[i128],
    act: &Act,
    action: Action,
    kept: &Kept,
) -> Kept
    requires row { IsRowOf (plain_program program.now) cells.now row.now }
    requires sum { has_small_sum (bound_at program.now.layout) (plain_act act.now) ≡ true }
    requires can { CanStep (plain_program program.now) (plain_act act.now) action (seen row.now kept.now) }
    ensures same { seen row.now result ≡ with_taken_small (plain_program program.now) (plain_act act.now) action (seen row.now kept.now) }
    ensures written { result.written ≡ true }
    ensures latest { latest_of result ≡ latest_of kept.now }
    ensures can { CanStep (plain_program program.now) (plain_act act.now) action (seen row.now result) }
{
    taken(program, cells, row, act, action, *kept)
}
