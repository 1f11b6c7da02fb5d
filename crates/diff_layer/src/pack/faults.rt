//! The kinds of faults that what is known of cells and of differences before a part shows not to be met there.
ghost use Rattle.std.specs.Prelude.{◌≡◌, ◌≤◌, true, length, List, neg_ℤ, int_le, IfSome};
ghost use Rattle.dec_num.specs.declared.types.Mode.TheVariants.{Trunc};
ghost use Rattle.cob_tree.specs.Kinds.{kinds_of};
ghost use Rattle.cob_data.specs.declared.extent.Extent.{Extent};
ghost use Rattle.cob_program.specs.Bounds.{is_small, is_small_atom};
ghost use Rattle.cob_calc.specs.Contents.{bound_at};
ghost use Rattle.edge_parts.specs.PartView.{plain_part, plain_divisor};
ghost use Rattle.transfer_ranges.specs.AmountView.{plain_amount};
ghost use Rattle.diff_bounds.specs.Matrix.{IsMatrix};
ghost use Rattle.cell_laws.specs.Sizes.{IsSmallPart, IsSmallStore};
ghost use Rattle.sum_ranges.specs.Sizes.{IsSmallRange};
ghost use Rattle.transfer_ranges.specs.Receivers.{counter};
ghost use Rattle.transfer_ranges.specs.ResultRanges.{near_range, most};
ghost use Rattle.transfer_ranges.specs.Sizes.{IsReceiver, IsSmallAmount};
ghost use Rattle.transfer_ranges.specs.SmallAmounts.{has_small_sum};
ghost use Rattle.transfer_ranges.specs.Working.{CanWork, amount_from as found_amount};
ghost use Rattle.interval_domain.specs.Elements.{CellsFit};
ghost use Rattle.interval_domain.specs.Rows.{cells_of};
ghost use Rattle.cell_steps.specs.OwnRanges.{owns};
ghost use Rattle.cell_steps.specs.Stores.{range_at};
ghost use Rattle.cell_layer.specs.Kept.{seen};
ghost use Rattle.cell_layer.specs.ProgramRows.{IsRowOf};
ghost use Rattle.cell_layer.specs.Walks.{with_taken_small, clears_small, CanStep};
ghost use Rattle.diff_steps.specs.Clearing.{some_pack, clears_part2};
ghost use Rattle.diff_steps.specs.Packs.{size_of};
ghost use Rattle.diff_layer.specs.PackWriting.{amount_items, are_written};
ghost use Rattle.diff_layer.specs.Closed.{IsClosedRow};
ghost use Rattle.diff_layer.specs.Clears.{
  divisor_apart,
  both_shown,
  range_shown,
  amount_shown,
  store_shown,
  count_shown,
  taken_shown,
  store_cleared,
  set_cleared,
  down_cleared,
  index_cleared,
  part_cleared,
  IsSetCount,
};
ghost use Rattle.diff_layer.specs.Moments.{program_at, known_at, act_at, seen_at, packs_in, words_in, AreMatricesOf};
ghost use Rattle.diff_layer.specs.Parts.{CanChange, IsOfEdge, IsStoreOf, IsWrittenTo};
ghost use Rattle.diff_layer.specs.PackEdges.{
  program_on,
  statement_on,
  act_on,
  action_on,
  packs_on,
  matrices_on,
  Tells,
};
ghost use Rattle.diff_layer.specs.Plans.{plain_plan, plain_plans, IsPlanOf, ArePlansOf, matrices_for, IsRowFor};
ghost use Rattle.diff_layer.specs.Walks.{seen2, closed_clears, statement_clears2};
ghost use Rattle.diff_layer.specs.Writing.{edge_items};
ghost use Rattle.diff_layer.specs.Views.{program_of, known_in};

use crate::forms::operands::has_operands;
use crate::forms::sides::divisor_form;
use crate::pack::closing::close_all;
use crate::pack::edge::{PackEdge, PackState};
use crate::pack::ends::{end_is_shown, high_end_fits, low_end_fits};
use crate::pack::indexing::{Indexed, index_clears};
use crate::pack::matrix_bounds::is_apart;
use crate::pack::moment::{Matrices, Moment, Slot};
use crate::pack::plans::{PackPlan, view_of, words_for};
use crate::pack::walking::step;
use cell_layer::{Kept, KnownItems, cleared_by_part, count_units, item_range, with_operands};
use cob_tree::{Kind, Kinds};
use dec_num::Mode;
use edge_parts::{Divisor, EdgePart};
use interval_domain::Interval;
use sum_ranges::Ranged;
use transfer_ranges::{
    Amount, AmountRange, Receiver, Taken, amount_from, is_remainder, lowered, receiver_at,
};

// the greatest number of a counter
const LARGEST: i128 = 999_999_999_999_999_999;

// ---- divisors

// whether the matrix of a pack shows that a divisor isn't 0
fn is_apart_in(items: &KnownItems, plan: &PackPlan, m: &[i128], divisor: Divisor) -> bool
    requires fits { CellsFit (owns (program_of items.now)) (known_in items.now) }
    requires plan { IsPlanOf (program_of items.now) plan.now }
    requires small { is_small_atom (bound_at (program_of items.now).layout) (plain_divisor divisor) ≡ true }
    requires matrix { IsMatrix (size_of (plain_plan plan.now)) m.now }
    ensures { result ≡ divisor_apart (program_of items.now) (known_in items.now) (plain_divisor divisor.entry)
        (plain_plan plan.now) m.now }
{
    let pack = view_of(plan);
    is_apart(pack.cells.len(), m, divisor_form(items, &pack, divisor))
}

fn is_apart_in_some(items: &KnownItems, plans: &[PackPlan], out: &[i128], divisor: Divisor) -> bool
    requires fits { CellsFit (owns (program_of items.now)) (known_in items.now) }
    requires plans { ArePlansOf (program_of items.now) plans.now }
    requires small { is_small_atom (bound_at (program_of items.now).layout) (plain_divisor divisor) ≡ true }
    requires matrices { IsRowFor plans.now out.now }
    ensures { result ≡ some_pack (divisor_apart (program_of items.now) (known_in items.now)
        (plain_divisor divisor.entry))
        (plain_plans plans.now) (matrices_for plans.now out.now) }
{
    match plans {
        [] => false,
        [plan, plans @ ..] => {
            let (first, rest) = out.split_at(words_for(plan));
            is_apart_in(items, plan, first, divisor)
                || is_apart_in_some(items, plans, rest, divisor)
        }
    }
}

// ---- ends

// whether both ends fit, each by the range or by a matrix
fn ends_fit(
    moment: &Moment,
    matrices: &Matrices,
    part: EdgePart,
    slot: Slot,
    high: bool,
    low: bool,
) -> bool
    requires matrices { AreMatricesOf (program_at moment.now) matrices.now }
    requires can { CanChange (program_at moment.now) (known_at moment.now) moment.now.kept.common (plain_part part) }
    requires digits { slot.receiver.digits ≤ 18 }
    requires scale { slot.receiver.scale ≤ 18 }
    ensures { (wrote : List Extent) → IsWrittenTo (program_at moment.now).layout wrote moment.now.written
        (plain_part part.entry)
        → result ≡ both_shown (program_at moment.now) (known_at moment.now) moment.now.kept.common wrote
        (plain_part part.entry) slot.mode slot.receiver high low
        (packs_in matrices.now) (words_in matrices.now) }
{
    let plans = matrices.plans;
    let words = matrices.words;
    (high || end_is_shown(moment, plans, words, part, slot, false))
        && (low || end_is_shown(moment, plans, words, part, slot, true))
}

// ---- stores

// whether a decimal of a range fits
fn decimal_fits(
    moment: &Moment,
    matrices: &Matrices,
    part: EdgePart,
    slot: Slot,
    range: Ranged,
) -> bool
    requires matrices { AreMatricesOf (program_at moment.now) matrices.now }
    requires can { CanChange (program_at moment.now) (known_at moment.now) moment.now.kept.common (plain_part part) }
    requires receiver { IsReceiver slot.receiver }
    requires range { IsSmallRange range }
    ensures { (wrote : List Extent) → IsWrittenTo (program_at moment.now).layout wrote moment.now.written
        (plain_part part.entry)
        → result ≡ range_shown (program_at moment.now) (known_at moment.now) moment.now.kept.common wrote
        (plain_part part.entry) slot.mode slot.receiver
        (packs_in matrices.now) (words_in matrices.now) (near_range slot.mode slot.receiver.scale range) }
{
    let high = high_end_fits(slot.mode, slot.receiver, range);
    let low = low_end_fits(slot.mode, slot.receiver, range);
    ends_fit(moment, matrices, part, slot, high, low)
}

// whether a result fits that the first layer doesn't show to fit: a quotient has no form
fn amount_fits(
    moment: &Moment,
    matrices: &Matrices,
    part: EdgePart,
    slot: Slot,
    amount: Option<AmountRange>,
) -> bool
    requires matrices { AreMatricesOf (program_at moment.now) matrices.now }
    requires can { CanChange (program_at moment.now) (known_at moment.now) moment.now.kept.common (plain_part part) }
    requires receiver { IsReceiver slot.receiver }
    requires small { IfSome amount IsSmallAmount }
    ensures { (wrote : List Extent) → IsWrittenTo (program_at moment.now).layout wrote moment.now.written
        (plain_part part.entry)
        → result ≡ amount_shown (program_at moment.now) (known_at moment.now) moment.now.kept.common wrote
        (plain_part part.entry) slot.mode slot.receiver
        (packs_in matrices.now) (words_in matrices.now) amount }
{
    match amount {
        None => true,
        Some(AmountRange::Decimal(range)) => decimal_fits(moment, matrices, part, slot, range),
        Some(AmountRange::Quotient { .. } | AmountRange::Remainder { .. }) => false,
    }
}

// what a receiver is to get
fn amount_for(
    items: &KnownItems,
    place: u32,
    amount: Amount,
    common: Option<Taken>,
) -> Option<AmountRange>
    requires own { is_small (bound_at (program_of items.now).layout place) ≡ true }
    requires can { IfSome common (CanWork (plain_amount amount)
        (range_at (program_of items.now) (known_in items.now) place)) }
    ensures { result ≡ found_amount common (plain_amount amount.entry)
        (range_at (program_of items.now) (known_in items.now) place) }
{
    let own = item_range(items.program, items.cells, items.row, place);
    amount_from(amount, own, common)
}

// whether a store fits that the first layer doesn't show to fit, where its operands are taken; no run comes to one
// whose operands have no range
fn store_fits(moment: &Moment, matrices: &Matrices, place: u32, mode: Mode, amount: Amount) -> bool
    requires matrices { AreMatricesOf (program_at moment.now) matrices.now }
    requires small { IsSmallStore (program_at moment.now) (act_at moment.now) moment.now.action place
        (plain_amount amount) }
    requires of_edge { IsStoreOf (program_at moment.now) (act_at moment.now) moment.now.action (plain_amount amount) }
    requires can { CanStep (program_at moment.now) (act_at moment.now) moment.now.action (seen_at moment.now) }
    requires taken { moment.now.kept.written ≡ true }
    ensures { (wrote : List Extent) → moment.now.written ≡ are_written (program_at moment.now).layout wrote
        (amount_items (plain_amount amount.entry))
        → result ≡ store_shown (program_at moment.now) (known_at moment.now) moment.now.kept.common wrote place mode
        (plain_amount amount.entry)
        (packs_in matrices.now) (words_in matrices.now) }
{
    let items = &moment.items;
    if !has_operands(items, amount, moment.written) {
        return true;
    }
    let found = amount_for(items, place, amount, moment.kept.common);
    let part = EdgePart::Store {
        item: place,
        mode,
        amount,
    };
    let receiver = receiver_at(&items.program.layout, place);
    amount_fits(moment, matrices, part, Slot { mode, receiver }, found)
}

// ---- counters

fn counter() -> Receiver
    ensures { result ≡ counter }
{
    Receiver {
        digits: 18,
        scale: 0,
        signed: true,
    }
}

fn is_not_above(units: Interval) -> bool
    ensures { result ≡ int_le units.high (most 18) }
{
    units.high <= LARGEST
}

fn is_not_below(units: Interval) -> bool
    ensures { result ≡ int_le (neg_ℤ (most 18)) units.low }
{
    -LARGEST <= units.low
}

// whether a number of an interval fits a counter
fn counter_fits(moment: &Moment, matrices: &Matrices, part: EdgePart, units: Interval) -> bool
    requires matrices { AreMatricesOf (program_at moment.now) matrices.now }
    requires can { CanChange (program_at moment.now) (known_at moment.now) moment.now.kept.common (plain_part part) }
    ensures { (wrote : List Extent) → IsWrittenTo (program_at moment.now).layout wrote moment.now.written
        (plain_part part.entry)
        → result ≡ range_shown (program_at moment.now) (known_at moment.now) moment.now.kept.common wrote
        (plain_part part.entry) Trunc counter
        (packs_in matrices.now) (words_in matrices.now) units }
{
    let slot = Slot {
        mode: Mode::Trunc,
        receiver: counter(),
    };
    let high = is_not_above(units);
    let low = is_not_below(units);
    ends_fit(moment, matrices, part, slot, high, low)
}

// whether what a counter is set to fits
fn set_fits(moment: &Moment, matrices: &Matrices, part: EdgePart) -> bool
    requires matrices { AreMatricesOf (program_at moment.now) matrices.now }
    requires can { CanChange (program_at moment.now) (known_at moment.now) moment.now.kept.common (plain_part part) }
    ensures { (wrote : List Extent) → IsWrittenTo (program_at moment.now).layout wrote moment.now.written
        (plain_part part.entry)
        → result ≡ count_shown (program_at moment.now) (known_at moment.now) moment.now.kept.common wrote
        (plain_part part.entry)
        (packs_in matrices.now) (words_in matrices.now) }
{
    match moment.kept.common {
        None => true,
        Some(taken) => counter_fits(moment, matrices, part, taken.top.units),
    }
}

// ---- where operands are taken

// what is kept where the operands are taken
fn taken(moment: &Moment) -> Kept
    requires sum { has_small_sum (bound_at (program_at moment.now).layout) (act_at moment.now) ≡ true }
    requires can { CanStep (program_at moment.now) (act_at moment.now) moment.now.action (seen_at moment.now) }
    ensures same { seen moment.now.items.row.now result ≡ with_taken_small (program_at moment.now) (act_at moment.now)
        moment.now.action (seen_at moment.now) }
    ensures written { result.written ≡ true }
    ensures can { CanStep (program_at moment.now) (act_at moment.now) moment.now.action
        (seen moment.now.items.row.now result) }
{
    let items = &moment.items;
    with_operands(
        items.program,
        items.cells,
        items.row,
        moment.act,
        moment.action,
        &moment.kept,
    )
}

// whether a store fits, where its operands are taken
fn taken_fits(moment: &Moment, matrices: &Matrices, place: u32, mode: Mode, amount: Amount) -> bool
    requires matrices { AreMatricesOf (program_at moment.now) matrices.now }
    requires small { IsSmallStore (program_at moment.now) (act_at moment.now) moment.now.action place
        (plain_amount amount) }
    requires of_edge { IsStoreOf (program_at moment.now) (act_at moment.now) moment.now.action (plain_amount amount) }
    requires can { CanStep (program_at moment.now) (act_at moment.now) moment.now.action (seen_at moment.now) }
    ensures { (wrote : List Extent) → moment.now.written ≡ are_written (program_at moment.now).layout wrote
        (amount_items (plain_amount amount.entry))
        → result ≡ taken_shown (program_at moment.now) (packs_in matrices.now) (act_at moment.now) moment.now.action
        place mode (plain_amount amount.entry)
        (seen_at moment.now) (seen2 wrote (words_in matrices.now)) }
{
    let items = &moment.items;
    let moment = Moment {
        items: KnownItems {
            program: items.program,
            cells: items.cells,
            row: items.row,
        },
        act: moment.act,
        action: moment.action,
        kept: taken(moment),
        written: moment.written,
    };
    store_fits(&moment, matrices, place, mode, amount)
}

// whether a store's fault is not met, where the first layer doesn't show it
fn store_clears(
    moment: &Moment,
    matrices: &Matrices,
    place: u32,
    mode: Mode,
    amount: Amount,
) -> bool
    requires matrices { AreMatricesOf (program_at moment.now) matrices.now }
    requires small { IsSmallStore (program_at moment.now) (act_at moment.now) moment.now.action place
        (plain_amount amount) }
    requires of_edge { IsStoreOf (program_at moment.now) (act_at moment.now) moment.now.action (plain_amount amount) }
    requires can { CanStep (program_at moment.now) (act_at moment.now) moment.now.action (seen_at moment.now) }
    ensures { (wrote : List Extent) → moment.now.written ≡ are_written (program_at moment.now).layout wrote
        (amount_items (plain_amount amount.entry))
        → result ≡ store_cleared (program_at moment.now) (packs_in matrices.now) (act_at moment.now) moment.now.action
        place mode (plain_amount amount.entry)
        (seen_at moment.now) (seen2 wrote (words_in matrices.now)) }
{
    if is_remainder(amount) {
        return false;
    }
    taken_fits(moment, matrices, place, mode, amount)
}

// ---- parts

fn set_clears(moment: &Moment, matrices: &Matrices, part: EdgePart) -> bool
    requires matrices { AreMatricesOf (program_at moment.now) matrices.now }
    requires sum { has_small_sum (bound_at (program_at moment.now).layout) (act_at moment.now) ≡ true }
    requires can { CanStep (program_at moment.now) (act_at moment.now) moment.now.action (seen_at moment.now) }
    requires sets { IsSetCount (plain_part part) }
    ensures { (wrote : List Extent) → IsWrittenTo (program_at moment.now).layout wrote moment.now.written
        (plain_part part.entry)
        → result ≡ set_cleared (program_at moment.now) (packs_in matrices.now) (act_at moment.now) moment.now.action
        (plain_part part.entry)
        (seen_at moment.now) (seen2 wrote (words_in matrices.now)) }
{
    let items = &moment.items;
    let moment = Moment {
        items: KnownItems {
            program: items.program,
            cells: items.cells,
            row: items.row,
        },
        act: moment.act,
        action: moment.action,
        kept: taken(moment),
        written: moment.written,
    };
    set_fits(&moment, matrices, part)
}

fn down_clears(moment: &Moment, matrices: &Matrices, number: u32) -> bool
    requires matrices { AreMatricesOf (program_at moment.now) matrices.now }
    ensures { (wrote : List Extent) → result ≡ down_cleared (program_at moment.now) (packs_in matrices.now) number
        (seen_at moment.now) (seen2 wrote (words_in matrices.now)) }
{
    let items = &moment.items;
    let units = lowered(count_units(items.program, items.cells, items.row, number));
    counter_fits(moment, matrices, EdgePart::CountDown(number), units)
}

fn index_is_shown(moment: &Moment, matrices: &Matrices, index: Indexed, fault: Kind) -> bool
    requires matrices { AreMatricesOf (program_at moment.now) matrices.now }
    requires small { is_small (bound_at (program_at moment.now).layout index.item) ≡ true }
    ensures { (wrote : List Extent) → result ≡ index_cleared (program_at moment.now) (packs_in matrices.now) index.item
        index.count (seen_at moment.now) (seen2 wrote (words_in matrices.now)) fault }
{
    match fault {
        Kind::Subscript => index_clears(&moment.items, matrices, index),
        Kind::Size | Kind::Zero | Kind::Class | Kind::Truncation => false,
    }
}

// whether the fault of a part is not met, where the first layer doesn't show it
fn is_shown(moment: &Moment, matrices: &Matrices, part: EdgePart, fault: Kind) -> bool
    requires matrices { AreMatricesOf (program_at moment.now) matrices.now }
    requires small { IsSmallPart (program_at moment.now) (act_at moment.now) moment.now.action (plain_part part) }
    requires of_edge { IsOfEdge (program_at moment.now) (act_at moment.now) moment.now.action (plain_part part) }
    requires can { CanStep (program_at moment.now) (act_at moment.now) moment.now.action (seen_at moment.now) }
    ensures { (wrote : List Extent) → IsWrittenTo (program_at moment.now).layout wrote moment.now.written
        (plain_part part.entry)
        → result ≡ part_cleared (program_at moment.now) (packs_in matrices.now) (act_at moment.now) moment.now.action
        (plain_part part.entry)
        (seen_at moment.now) (seen2 wrote (words_in matrices.now)) fault }
{
    match part {
        EdgePart::Divide(divisor) => match fault {
            Kind::Zero => is_apart_in_some(&moment.items, matrices.plans, matrices.words, divisor),
            Kind::Size | Kind::Class | Kind::Truncation | Kind::Subscript => false,
        },
        EdgePart::Index { item, count, .. } => {
            index_is_shown(moment, matrices, Indexed { item, count }, fault)
        }
        EdgePart::Store { item, mode, amount } => {
            store_clears(moment, matrices, item, mode, amount)
        }
        EdgePart::SetCount { .. } => match fault {
            Kind::Size => set_clears(moment, matrices, part),
            Kind::Zero | Kind::Class | Kind::Truncation | Kind::Subscript => false,
        },
        EdgePart::CountDown(number) => match fault {
            Kind::Size => down_clears(moment, matrices, number),
            Kind::Zero | Kind::Class | Kind::Truncation | Kind::Subscript => false,
        },
        EdgePart::Read(_)
        | EdgePart::Unread
        | EdgePart::Subscript { .. }
        | EdgePart::Bytes { .. }
        | EdgePart::Guard { .. }
        | EdgePart::ReadCount(_)
        | EdgePart::GuardCount { .. } => false,
    }
}

// whether the fault of a part is not met
fn clears(
    moment: &Moment,
    matrices: &Matrices,
    part: EdgePart,
    by_cells: Kinds,
    fault: Kind,
) -> bool
    requires matrices { AreMatricesOf (program_at moment.now) matrices.now }
    requires small { IsSmallPart (program_at moment.now) (act_at moment.now) moment.now.action (plain_part part) }
    requires of_edge { IsOfEdge (program_at moment.now) (act_at moment.now) moment.now.action (plain_part part) }
    requires can { CanStep (program_at moment.now) (act_at moment.now) moment.now.action (seen_at moment.now) }
    requires cells { by_cells ≡ kinds_of (clears_small (program_at moment.now) (act_at moment.now) moment.now.action
        (plain_part part) (seen_at moment.now)) }
    ensures { (wrote : List Extent) → moment.now.written ≡ are_written (program_at moment.now).layout wrote
        (edge_items (act_at moment.now) moment.now.action)
        → result ≡ clears_part2 (program_at moment.now) (packs_in matrices.now) (act_at moment.now) moment.now.action
        (plain_part part.entry)
        (seen_at moment.now) (seen2 wrote (words_in matrices.now)) fault }
{
    by_cells.has(fault) || is_shown(moment, matrices, part, fault)
}

// the kinds of faults of a part that aren't met, by those that what is known of cells clears
fn kinds_cleared(moment: &Moment, matrices: &Matrices, part: EdgePart, by_cells: Kinds) -> Kinds
    requires matrices { AreMatricesOf (program_at moment.now) matrices.now }
    requires small { IsSmallPart (program_at moment.now) (act_at moment.now) moment.now.action (plain_part part) }
    requires of_edge { IsOfEdge (program_at moment.now) (act_at moment.now) moment.now.action (plain_part part) }
    requires can { CanStep (program_at moment.now) (act_at moment.now) moment.now.action (seen_at moment.now) }
    requires cells { by_cells ≡ kinds_of (clears_small (program_at moment.now) (act_at moment.now) moment.now.action
        (plain_part part) (seen_at moment.now)) }
    ensures { (wrote : List Extent) → moment.now.written ≡ are_written (program_at moment.now).layout wrote
        (edge_items (act_at moment.now) moment.now.action)
        → result ≡ kinds_of (clears_part2 (program_at moment.now) (packs_in matrices.now) (act_at moment.now)
        moment.now.action (plain_part part.entry)
        (seen_at moment.now) (seen2 wrote (words_in matrices.now))) }
{
    Kinds {
        size: clears(moment, matrices, part, by_cells, Kind::Size),
        truncation: clears(moment, matrices, part, by_cells, Kind::Truncation),
        zero: clears(moment, matrices, part, by_cells, Kind::Zero),
        class: clears(moment, matrices, part, by_cells, Kind::Class),
        subscript: clears(moment, matrices, part, by_cells, Kind::Subscript),
    }
}

// the kinds of faults of a part of an edge that aren't met
fn cleared(edge: &PackEdge, part: &EdgePart, row: &[i128], state: PackState, out: &[i128]) -> Kinds
    requires row { IsRowOf (program_on edge.now) edge.now.cells.now row.now }
    requires small { IsSmallPart (program_on edge.now) (act_on edge.now) (action_on edge.now) (plain_part part.now) }
    requires of_edge { IsOfEdge (program_on edge.now) (act_on edge.now) (action_on edge.now) (plain_part part.now) }
    requires can { CanStep (program_on edge.now) (act_on edge.now) (action_on edge.now) (seen row.now state.kept) }
    requires matrices { IsRowFor edge.now.plans.now out.now }
    ensures { (wrote : List Extent) → Tells edge.now wrote state.written
        → result ≡ kinds_of (clears_part2 (program_on edge.now) (packs_on edge.now) (act_on edge.now)
        (action_on edge.now) (plain_part part.now)
        (seen row.now state.kept) (seen2 wrote (matrices_on edge.now out.now))) }
{
    let work = edge.work;
    let moment = Moment {
        items: KnownItems {
            program: work.program,
            cells: edge.cells,
            row,
        },
        act: &work.statement.act,
        action: work.action,
        kept: state.kept,
        written: state.written,
    };
    let matrices = Matrices {
        plans: edge.plans,
        words: out,
    };
    let by_cells = cleared_by_part(edge.cells, work, *part, row, &state.kept);
    kinds_cleared(&moment, &matrices, *part, by_cells)
}

// the kinds that all parts of an edge clear, where the matrices are closed
fn cleared_closed(edge: &PackEdge, row: &mut [i128], before: &mut [i128], out: &mut [i128]) -> Kinds
    requires row { IsRowOf (program_on edge.now) edge.now.cells.now row.old }
    requires fits { CellsFit (owns (program_on edge.now)) (cells_of row.old) }
    requires room { length before.old ≡ length row.old }
    requires matrices { IsClosedRow (program_on edge.now) (cells_of row.old) edge.now.plans.now out.old }
    ensures { result ≡ kinds_of (λ fault. closed_clears (program_on edge.now) (packs_on edge.now)
        (statement_on edge.now) (action_on edge.now)
        (cells_of row.old) fault (matrices_on edge.now out.old)) }
{
    let mut state = PackState {
        kept: Kept::new(),
        written: false,
    };
    let mut all = Kinds::all();
    let parts = edge.work.parts.as_slice();
    for part in parts {
        all = all.both(cleared(edge, part, row, state, out));
        if !step(edge, part, row, before, &mut state, out) {
            return all;
        }
    }
    all
}

/// The kinds of faults that both layers show no part of an edge to meet, beside room for a row. What it makes of the
/// words on the way isn't told.
pub fn packs_cleared(
    edge: &PackEdge,
    row: &mut [i128],
    before: &mut [i128],
    out: &mut [i128],
) -> Kinds
    requires row { IsRowOf (program_on edge.now) edge.now.cells.now row.old }
    requires fits { CellsFit (owns (program_on edge.now)) (cells_of row.old) }
    requires room { length before.old ≡ length row.old }
    requires matrices { IsRowFor edge.now.plans.now out.old }
    ensures { result ≡ kinds_of (statement_clears2 (program_on edge.now) (packs_on edge.now) (statement_on edge.now)
        (action_on edge.now)
        (cells_of row.old) (matrices_on edge.now out.old)) }
{
    if !close_all(edge.work.program, edge.cells, edge.plans, row, out) {
        return Kinds::all();
    }
    cleared_closed(edge, row, before, out)
}
