//! What the sums and senders of a statement can be.
ghost use Rattle.std.specs.Prelude.{◌≡◌, true};
ghost use Rattle.std.specs.Option.{option_map};
ghost use Rattle.cob_program.specs.ActView.{plain_act, plain_program};
ghost use Rattle.cob_program.specs.Sum.{group};
ghost use Rattle.cob_program.specs.SumView.{plain_sum};
ghost use Rattle.cob_program.specs.Bounds.{is_small_sum, is_small_atom};
ghost use Rattle.cob_calc.specs.Contents.{bound_at};
ghost use Rattle.sum_ranges.specs.SumRanges.{atom_range};
ghost use Rattle.sum_ranges.specs.Vanishing.{holds_zero, may_be_zero};
ghost use Rattle.sum_ranges.specs.Working.{AreBounded};
ghost use Rattle.interval_domain.specs.Elements.{CellsFit};
ghost use Rattle.interval_domain.specs.Rows.{cells_of};
ghost use Rattle.cell_steps.specs.OwnRanges.{owns};
ghost use Rattle.transfer_ranges.specs.EdgeOperands.{edge_operands, operands_vanish};
ghost use Rattle.cell_steps.specs.Stores.{range_at};
ghost use Rattle.edge_parts.specs.PartView.{plain_divisor};
ghost use Rattle.transfer_ranges.specs.AmountView.{plain_amount};
ghost use Rattle.transfer_ranges.specs.SmallAmounts.{is_small_sender, has_small_sum};
ghost use Rattle.cell_laws.specs.Sizes.{is_small_sent, sends_small};
ghost use Rattle.cell_layer.specs.ProgramRows.{IsRowOf};

use crate::row::items::KnownItems;
use crate::row::pictures::{is_small_item, is_small_literal};
use cob_data::{Layout, Sender};
use cob_program::{Act, Program, Sum};
use cob_runs::{Action, Cell};
use edge_parts::Divisor;
use sum_ranges::{Ranged, Ranges, atom_range, may_vanish, sum_range};
use transfer_ranges::{Amount, Taken, edge_amount};

// ---- divisors

/// The range of a divisor; nothing where one in it is 0 alone.
pub(crate) fn divisor_range(
    program: &Program,
    cells: &[Cell],
    row: &[i128],
    divisor: Divisor,
) -> Option<Ranged>
    requires row { IsRowOf (plain_program program.now) cells.now row.now }
    requires fits { CellsFit (owns (plain_program program.now)) (cells_of row.now) }
    requires small { is_small_atom (bound_at program.now.layout) (plain_divisor divisor) ≡ true }
    ensures { result ≡ atom_range (range_at (plain_program program.now) (cells_of row.now)) (plain_divisor divisor.entry) }
{
    let items = KnownItems {
        program,
        cells,
        row,
    };
    match divisor {
        Divisor::Inner(atom) => atom_range(&items, atom),
        Divisor::Whole(sum) => sum_range(&items, sum),
    }
}

pub(crate) fn holds_zero(range: Option<Ranged>) -> bool
    ensures { result ≡ holds_zero range }
{
    match range {
        None => false,
        Some(range) => range.units.low <= 0 && 0 <= range.units.high,
    }
}

// Whether a whole sum may be 0, or a divisor in it.
fn sum_may_be_zero<R: Ranges>(ranges: &R, sum: &Sum) -> bool
    requires bounded { AreBounded (R.range_at ranges.now) (R.bound_at ranges.now) }
    requires small { is_small_sum (R.bound_at ranges.now) (plain_sum sum.now) ≡ true }
    ensures { result ≡ may_be_zero (R.range_at ranges.now) (group (plain_sum sum.now)) }
{
    may_vanish(ranges, sum) || holds_zero(sum_range(ranges, sum))
}

/// Whether a divisor may be 0, or one that stands in it.
pub(crate) fn may_be_zero(program: &Program, cells: &[Cell], row: &[i128], divisor: Divisor) -> bool
    requires row { IsRowOf (plain_program program.now) cells.now row.now }
    requires fits { CellsFit (owns (plain_program program.now)) (cells_of row.now) }
    requires small { is_small_atom (bound_at program.now.layout) (plain_divisor divisor) ≡ true }
    ensures { result ≡ may_be_zero (range_at (plain_program program.now) (cells_of row.now)) (plain_divisor divisor.entry) }
{
    let items = KnownItems {
        program,
        cells,
        row,
    };
    match divisor {
        Divisor::Inner(atom) => sum_ranges::may_be_zero(&items, atom),
        Divisor::Whole(sum) => sum_may_be_zero(&items, sum),
    }
}

// ---- operands

/// The operands of an edge; nothing where a divisor in its sum is 0 alone.
pub(crate) fn operands(
    program: &Program,
    cells: &[Cell],
    row: &[i128],
    act: &Act,
    action: Action,
) -> Option<Taken>
    requires row { IsRowOf (plain_program program.now) cells.now row.now }
    requires fits { CellsFit (owns (plain_program program.now)) (cells_of row.now) }
    requires sum { has_small_sum (bound_at program.now.layout) (plain_act act.now) ≡ true }
    requires sender { sends_small (plain_program program.now) (plain_act act.now) action ≡ true }
    ensures { result ≡ edge_operands (range_at (plain_program program.now) (cells_of row.now)) (plain_act act.now) action }
{
    let items = KnownItems {
        program,
        cells,
        row,
    };
    match edge_amount(act, action) {
        None => None,
        Some(amount) => transfer_ranges::operands(&items, amount),
    }
}

/// Whether a divisor of the statement's sum may be 0.
pub(crate) fn operands_vanish(program: &Program, cells: &[Cell], row: &[i128], act: &Act) -> bool
    requires row { IsRowOf (plain_program program.now) cells.now row.now }
    requires fits { CellsFit (owns (plain_program program.now)) (cells_of row.now) }
    requires sum { has_small_sum (bound_at program.now.layout) (plain_act act.now) ≡ true }
    ensures { result ≡ operands_vanish (range_at (plain_program program.now) (cells_of row.now)) (plain_act act.now) }
{
    let items = KnownItems {
        program,
        cells,
        row,
    };
    transfer_ranges::operands_vanish(&items, act)
}

// ---- senders

fn is_small_sender(layout: &Layout, sender: &Sender) -> bool
    ensures { result ≡ is_small_sender (bound_at layout.now) sender.now }
{
    match sender {
        Sender::Item(place) => is_small_item(layout, *place),
        Sender::Number(number) => is_small_literal(number),
        Sender::Text(text) => text.get().len() <= 18,
        Sender::Fill(_) | Sender::Zero => true,
    }
}

fn is_small_sent(layout: &Layout, amount: Option<Amount>) -> bool
    ensures { result ≡ is_small_sent (bound_at layout.now) (option_map plain_amount amount.entry) }
{
    match amount {
        Some(Amount::Moved(sender)) => is_small_sender(layout, sender),
        Some(Amount::Augmented(sender)) => is_small_sender(layout, sender),
        Some(Amount::Computed(_, _) | Amount::Remaining(_, _)) | None => true,
    }
}

/// Whether the arithmetic works with the number that an edge sends, if it sends one.
pub(crate) fn sends_small(program: &Program, act: &Act, action: Action) -> bool
    ensures { result ≡ sends_small (plain_program program.now) (plain_act act.now) action }
{
    is_small_sent(&program.layout, edge_amount(act, action))
}
