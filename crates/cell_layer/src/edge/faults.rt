//! The kinds of faults that what is known before a part shows not to be met there.
ghost use Rattle.std.specs.Prelude.{◌≡◌, ◌||◌, not, true, IfSome};
ghost use Rattle.std.specs.Option.{option_map_or};
ghost use Rattle.cob_tree.specs.Kinds.{kinds_of};
ghost use Rattle.cob_program.specs.ActView.{plain_act, plain_program};
ghost use Rattle.cob_program.specs.Bounds.{is_small};
ghost use Rattle.cob_runs.specs.Contents.{form_at};
ghost use Rattle.cob_calc.specs.Contents.{bound_at};
ghost use Rattle.cob_edge_parts.specs.Parts as part;
ghost use Rattle.edge_parts.specs.PartView.{plain_part};
ghost use Rattle.transfer_ranges.specs.AmountView.{plain_amount};
ghost use Rattle.transfer_ranges.specs.Receivers.{receiver_of};
ghost use Rattle.transfer_ranges.specs.ResultRanges.{may_fail};
ghost use Rattle.transfer_ranges.specs.Sizes.{IsReceiver, IsSmallAmount};
ghost use Rattle.transfer_ranges.specs.SmallAmounts.{has_small_sum};
ghost use Rattle.transfer_ranges.specs.Working.{CanWork, amount_from};
ghost use Rattle.interval_domain.specs.Elements.{CellsFit};
ghost use Rattle.interval_domain.specs.Rows.{cells_of};
ghost use Rattle.cell_steps.specs.OwnRanges.{owns};
ghost use Rattle.cell_steps.specs.Clearing.{is_misfit, has_quotient, all_fit};
ghost use Rattle.transfer_ranges.specs.EdgeOperands.{amount_of};
ghost use Rattle.cell_steps.specs.Stores.{range_at};
ghost use Rattle.cell_laws.specs.Sizes.{IsSmallPart, IsSmallStore};
ghost use Rattle.cell_layer.specs.ProgramRows.{IsRowOf};
ghost use Rattle.cell_layer.specs.Kept.{seen, latest_of};
ghost use Rattle.cell_layer.specs.Walks.{with_taken_small, clears_small, CanStep};
ghost use Rattle.cell_layer.specs.Works.{program_of, act_of};

use crate::edge::before::Before;
use crate::edge::counting::{count_down_fits, count_fits};
use crate::edge::dividing::divisor_clears;
use crate::edge::kept::{Kept, taken};
use crate::row::counters::count_is_known;
use crate::row::items::{item_is_numeric, item_range};
use crate::row::subscripts::lies_in_table;
use cob_runs::Cell;
use cob_tree::{Kind, Kinds};
use dec_num::Mode;
use edge_parts::{EdgePart, EdgeWork, has_phrase};
use sum_ranges::Ranged;
use transfer_ranges::{Amount, AmountRange, Receiver, Taken, amount_of, receiver_at, result_range};

// ---- quotients

fn has_quotient(amount: Amount) -> bool
    ensures { result ≡ has_quotient (plain_amount amount.entry) }
{
    match amount {
        Amount::Remaining(sum, _) => sum.is_quotient(),
        Amount::Moved(_) | Amount::Computed(_, _) | Amount::Augmented(_) => true,
    }
}

// ---- stores

// the kinds but that of a misfit, unless the value fits
fn cleared_where(amount: Amount, fits: bool) -> Kinds
    ensures { result ≡ kinds_of (λ kind. not (is_misfit (plain_amount amount.entry) kind) || fits) }
{
    match amount {
        Amount::Moved(_) => Kinds::all().put(Kind::Truncation, fits),
        Amount::Computed(_, _) | Amount::Remaining(_, _) | Amount::Augmented(_) => {
            Kinds::all().put(Kind::Size, fits)
        }
    }
}

fn amount_fits(amount: Option<AmountRange>, receiver: Receiver, mode: Mode) -> bool
    requires receiver { IsReceiver receiver }
    requires small { IfSome amount IsSmallAmount }
    ensures { result ≡ option_map_or (λ r. not (may_fail mode receiver r)) amount true }
{
    match amount {
        None => true,
        Some(amount) => !result_range(amount, receiver, mode).may_fail,
    }
}

fn operands_fit(
    amount: Amount,
    own: Ranged,
    common: Option<Taken>,
    receiver: Receiver,
    mode: Mode,
) -> bool
    requires receiver { IsReceiver receiver }
    requires can { IfSome common (CanWork (plain_amount amount) own) }
    requires small { IfSome (amount_from common (plain_amount amount) own) IsSmallAmount }
    ensures { result ≡ option_map_or
        (λ c. option_map_or (λ r. not (may_fail mode receiver r)) (amount_of (plain_amount amount.entry) own c) true)
        common true }
{
    match common {
        None => true,
        Some(taken) => amount_fits(amount_of(amount, own, taken), receiver, mode),
    }
}

impl<'a> Before<'a> {
    // Whether each result fits, by these operands.
    fn results_fit(&self, place: u32, mode: Mode, amount: Amount, common: Option<Taken>) -> bool
        requires fits { CellsFit (owns (plain_program self.now.program.now)) (cells_of self.now.row.now) }
        requires own { is_small (bound_at (plain_program self.now.program.now).layout place) ≡ true }
        requires receiver { IsReceiver (receiver_of (form_at (plain_program self.now.program.now).layout place)) }
        requires can { IfSome common (CanWork (plain_amount amount) (range_at (plain_program self.now.program.now) (cells_of self.now.row.now) place)) }
        requires small { IfSome (amount_from common (plain_amount amount) (range_at (plain_program self.now.program.now) (cells_of self.now.row.now) place)) IsSmallAmount }
        ensures { result ≡ option_map_or
            (λ c. option_map_or (λ r. not (may_fail mode (receiver_of (form_at (plain_program self.now.program.now).layout place)) r))
            (amount_of (plain_amount amount.entry) (range_at (plain_program self.now.program.now) (cells_of self.now.row.now) place) c) true)
            common true }
    {
        let own = item_range(self.program, self.cells, self.row, place);
        let receiver = receiver_at(&self.program.layout, place);
        operands_fit(amount, own, common, receiver, mode)
    }

    /// What is kept once operands are taken, right before the first part that writes.
    pub fn with_operands(&self) -> Kept
        requires sum { has_small_sum (bound_at (plain_program self.now.program.now).layout) (plain_act self.now.act.now) ≡ true }
        requires can { CanStep (plain_program self.now.program.now) (plain_act self.now.act.now) self.now.action (seen self.now.row.now self.now.kept) }
        ensures same { seen self.now.row.now result ≡ with_taken_small (plain_program self.now.program.now) (plain_act self.now.act.now) self.now.action (seen self.now.row.now self.now.kept) }
        ensures written { result.written ≡ true }
        ensures latest { latest_of result ≡ latest_of self.now.kept }
        ensures can { CanStep (plain_program self.now.program.now) (plain_act self.now.act.now) self.now.action (seen self.now.row.now result) }
    {
        taken(
            self.program,
            self.cells,
            self.row,
            self.act,
            self.action,
            self.kept,
        )
    }

    // Whether a store's results fit, once operands are taken.
    fn all_fit(&self, place: u32, mode: Mode, amount: Amount, moment: Kept) -> bool
        requires small { IsSmallStore (plain_program self.now.program.now) (plain_act self.now.act.now) self.now.action place (plain_amount amount) }
        requires can { CanStep (plain_program self.now.program.now) (plain_act self.now.act.now) self.now.action (seen self.now.row.now moment) }
        requires written { moment.written ≡ true }
        ensures { result ≡ all_fit (plain_program self.now.program.now) (plain_act self.now.act.now) self.now.action (seen self.now.row.now moment) place mode (plain_amount amount.entry) }
    {
        has_quotient(amount) && self.results_fit(place, mode, amount, moment.common)
    }

    // A misfit is handled where there is a phrase for it.
    fn store_cleared(&self, place: u32, mode: Mode, amount: Amount) -> Kinds
        requires small { IsSmallStore (plain_program self.now.program.now) (plain_act self.now.act.now) self.now.action place (plain_amount amount) }
        requires can { CanStep (plain_program self.now.program.now) (plain_act self.now.act.now) self.now.action (seen self.now.row.now self.now.kept) }
        ensures { result ≡ kinds_of (clears_small (plain_program self.now.program.now) (plain_act self.now.act.now) self.now.action
            (part.store place mode (plain_amount amount.entry)) (seen self.now.row.now self.now.kept)) }
    {
        if has_phrase(self.act) {
            return Kinds::all();
        }
        let moment = self.with_operands();
        cleared_where(amount, self.all_fit(place, mode, amount, moment))
    }

    /// The kinds of faults that no run meets at a part.
    pub fn cleared(&self, part: EdgePart) -> Kinds
        requires small { IsSmallPart (plain_program self.now.program.now) (plain_act self.now.act.now) self.now.action (plain_part part) }
        requires can { CanStep (plain_program self.now.program.now) (plain_act self.now.act.now) self.now.action (seen self.now.row.now self.now.kept) }
        ensures { result ≡ kinds_of (clears_small (plain_program self.now.program.now) (plain_act self.now.act.now) self.now.action (plain_part part.entry) (seen self.now.row.now self.now.kept)) }
    {
        let all = Kinds::all();
        match part {
            EdgePart::Read(place) => all.put(
                Kind::Class,
                item_is_numeric(self.program, self.cells, self.row, place),
            ),
            EdgePart::Unread => all.put(Kind::Class, false),
            EdgePart::Subscript { item, .. } => all.put(
                Kind::Class,
                item_is_numeric(self.program, self.cells, self.row, item),
            ),
            EdgePart::Index { item, count, .. } => all.put(
                Kind::Subscript,
                lies_in_table(self.program, self.cells, self.row, item, count),
            ),
            EdgePart::Divide(divisor) => all.put(
                Kind::Zero,
                divisor_clears(self.program, self.cells, self.row, self.act, divisor),
            ),
            EdgePart::Store { item, mode, amount } => self.store_cleared(item, mode, amount),
            EdgePart::ReadCount(number) => all.put(
                Kind::Class,
                count_is_known(self.program, self.cells, self.row, number),
            ),
            EdgePart::SetCount { .. } => {
                all.put(Kind::Size, count_fits(self.with_operands().common))
            }
            EdgePart::CountDown(number) => all.put(
                Kind::Size,
                count_down_fits(self.program, self.cells, self.row, number),
            ),
            EdgePart::Bytes { .. } | EdgePart::Guard { .. } | EdgePart::GuardCount { .. } => all,
        }
    }
}

/// The kinds of faults that no run meets at a part of an edge.
pub fn cleared_by_part(
    cells: &[Cell],
    work: &EdgeWork,
    part: EdgePart,
    row: &[i128],
    kept: &Kept,
) -> Kinds
    requires row { IsRowOf (program_of work.now) cells.now row.now }
    requires small { IsSmallPart (program_of work.now) (act_of work.now) work.now.action (plain_part part) }
    requires can { CanStep (program_of work.now) (act_of work.now) work.now.action (seen row.now kept.now) }
    ensures { result ≡ kinds_of (clears_small (program_of work.now) (act_of work.now) work.now.action (plain_part part.entry)
        (seen row.now kept.now)) }
{
    let before = Before {
        program: work.program,
        cells,
        act: &work.statement.act,
        action: work.action,
        row,
        kept: *kept,
    };
    before.cleared(part)
}
