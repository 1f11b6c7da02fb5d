//! The ends of what a receiver gets, by the first layer and by the matrices.
ghost use Rattle.std.specs.Prelude.{
  ◌≡◌,
  ◌≤◌,
  ◌<◌,
  ◌≤ℤ◌,
  ◌^◌,
  ◌||◌,
  length,
  List,
  pos,
  neg_ℤ,
  int_le,
  unsigned_abs,
  Option,
  Some,
  IfSome,
};
ghost use Rattle.std.specs.Option.{option_map_or};
ghost use Rattle.cob_data.specs.declared.extent.Extent.{Extent};
ghost use Rattle.edge_parts.specs.PartView.{plain_part};
ghost use Rattle.diff_bounds.specs.Matrix.{IsMatrix};
ghost use Rattle.diff_bounds.specs.declared.form.lin.Lin.{Lin};
ghost use Rattle.sum_ranges.specs.Sizes.{IsSmallRange};
ghost use Rattle.transfer_ranges.specs.ResultRanges.{most, near_range};
ghost use Rattle.transfer_ranges.specs.Sizes.{IsReceiver};
ghost use Rattle.diff_steps.specs.Clearing.{high_fits, low_fits, some_pack, high_shown, low_shown};
ghost use Rattle.diff_steps.specs.Packs.{Pack, size_of, pack_decimals};
ghost use Rattle.diff_layer.specs.Forms.{IsFormOf};
ghost use Rattle.diff_layer.specs.Receiving.{upper_if, upper_negated_if};
ghost use Rattle.diff_layer.specs.Ends.{part_form, end_in_pack, some_end};
ghost use Rattle.diff_layer.specs.Parts.{CanChange, IsWrittenTo};
ghost use Rattle.diff_layer.specs.Plans.{plain_plan, plain_plans, IsPlanOf, ArePlansOf, matrices_for, IsRowFor};
ghost use Rattle.diff_layer.specs.Moments.{program_at, known_at};
ghost use Rattle.diff_layer.specs.Views.{plain_pack, HasUnit};

use crate::forms::amounts::amount_form;
use crate::forms::lowered::lowered_form;
use crate::forms::receivers::{shows_high, shows_low};
use crate::forms::senders::set_form;
use crate::forms::view::PackView;
use crate::pack::moment::{Moment, Slot};
use crate::pack::plans::{PackPlan, view_of, words_for};
use dec_num::{Fit, Mode, Scaled, fit};
use diff_bounds::Lin;
use edge_parts::EdgePart;
use sum_ranges::Ranged;
use transfer_ranges::Receiver;

// ---- by the matrices

// the form of what a receiver gets, over a pack
fn form_for(moment: &Moment, pack: &PackView, part: EdgePart) -> Option<Lin>
    requires unit { HasUnit (program_at moment.now).layout pack.now }
    requires can { CanChange (program_at moment.now) (known_at moment.now) moment.now.kept.common (plain_part part) }
    ensures value { (wrote : List Extent) → IsWrittenTo (program_at moment.now).layout wrote moment.now.written
        (plain_part part.entry)
        → result ≡ part_form (program_at moment.now) (known_at moment.now) moment.now.kept.common wrote
        (plain_part part.entry) (plain_pack pack.now) }
    ensures of_pack { IfSome result (IsFormOf (length pack.now.cells.now)) }
{
    let items = &moment.items;
    let common = moment.kept.common;
    match part {
        EdgePart::Store { item, amount, .. } => {
            amount_form(items, pack, item, amount, common, moment.written)
        }
        EdgePart::SetCount { count, .. } => set_form(items, pack, count, common, moment.written),
        EdgePart::CountDown(number) => lowered_form(items, pack, number),
        EdgePart::Read(_)
        | EdgePart::Unread
        | EdgePart::Subscript { .. }
        | EdgePart::Index { .. }
        | EdgePart::Divide(_)
        | EdgePart::Bytes { .. }
        | EdgePart::Guard { .. }
        | EdgePart::ReadCount(_)
        | EdgePart::GuardCount { .. } => None,
    }
}

fn end_fits(
    size: usize,
    m: &[i128],
    form: Option<Lin>,
    slot: Slot,
    decimals: u32,
    low: bool,
) -> bool
    requires size { size ≤ 8 }
    requires m { IsMatrix size m.now }
    requires form { IfSome form (IsFormOf size) }
    requires digits { slot.receiver.digits ≤ 18 }
    requires scale { slot.receiver.scale ≤ 18 }
    requires decimals { decimals ≤ 18 }
    ensures { result ≡ end_in_pack size decimals m.now form slot.mode slot.receiver low }
{
    if low {
        shows_low(size, m, form, slot.mode, slot.receiver, decimals)
    } else {
        shows_high(size, m, form, slot.mode, slot.receiver, decimals)
    }
}

// whether the matrix of a pack shows that an end of what the receiver gets fits it
fn pack_shows(
    moment: &Moment,
    plan: &PackPlan,
    m: &[i128],
    part: EdgePart,
    slot: Slot,
    low: bool,
) -> bool
    requires plan { IsPlanOf (program_at moment.now) plan.now }
    requires can { CanChange (program_at moment.now) (known_at moment.now) moment.now.kept.common (plain_part part) }
    requires matrix { IsMatrix (size_of (plain_plan plan.now)) m.now }
    requires digits { slot.receiver.digits ≤ 18 }
    requires scale { slot.receiver.scale ≤ 18 }
    ensures { (wrote : List Extent) → IsWrittenTo (program_at moment.now).layout wrote moment.now.written
        (plain_part part.entry)
        → result ≡ end_in_pack (size_of (plain_plan plan.now))
        (pack_decimals (program_at moment.now).layout (plain_plan plan.now)) m.now
        (part_form (program_at moment.now) (known_at moment.now) moment.now.kept.common wrote (plain_part part.entry)
        (plain_plan plan.now))
        slot.mode slot.receiver low }
{
    let pack = view_of(plan);
    let form = form_for(moment, &pack, part);
    end_fits(pack.cells.len(), m, form, slot, plan.decimals, low)
}

/// Whether the matrix of some pack shows that an end of what the receiver of a part gets fits it: the low end, or the high
/// one.
pub(crate) fn end_is_shown(
    moment: &Moment,
    plans: &[PackPlan],
    out: &[i128],
    part: EdgePart,
    slot: Slot,
    low: bool,
) -> bool
    requires plans { ArePlansOf (program_at moment.now) plans.now }
    requires can { CanChange (program_at moment.now) (known_at moment.now) moment.now.kept.common (plain_part part) }
    requires matrices { IsRowFor plans.now out.now }
    requires digits { slot.receiver.digits ≤ 18 }
    requires scale { slot.receiver.scale ≤ 18 }
    ensures { (wrote : List Extent) → IsWrittenTo (program_at moment.now).layout wrote moment.now.written
        (plain_part part.entry)
        → result ≡ some_end (program_at moment.now) (known_at moment.now) moment.now.kept.common wrote
        (plain_part part.entry)
        slot.mode slot.receiver low (plain_plans plans.now) (matrices_for plans.now out.now) }
{
    match plans {
        [] => false,
        [plan, plans @ ..] => {
            let (first, rest) = out.split_at(words_for(plan));
            pack_shows(moment, plan, first, part, slot, low)
                || end_is_shown(moment, plans, rest, part, slot, low)
        }
    }
}

// ---- by the first layer

// whether a number, cut or rounded, is at most the greatest one of a receiver
fn is_at_most(mode: Mode, receiver: Receiver, units: i128, scale: u32) -> bool
    requires receiver { IsReceiver receiver }
    requires scale { scale ≤ 37 }
    requires units { unsigned_abs units < 10 ^ 37 }
    ensures high { result ≡ high_fits mode receiver scale (Some units) }
    ensures low { result ≡ low_fits mode receiver scale (Some units) }
{
    match fit(
        Scaled { units, scale },
        receiver.digits,
        receiver.scale,
        mode,
    ) {
        Fit::Stored(_) => true,
        Fit::TooBig => units < 0,
    }
}

/// Whether the high end of a range fits a receiver.
pub(crate) fn high_end_fits(mode: Mode, receiver: Receiver, range: Ranged) -> bool
    requires receiver { IsReceiver receiver }
    requires range { IsSmallRange range }
    ensures { result ≡ int_le (near_range mode receiver.scale range).high (most receiver.digits) }
{
    is_at_most(mode, receiver, range.units.high, range.scale)
}

/// Whether the low end of a range fits a receiver.
pub(crate) fn low_end_fits(mode: Mode, receiver: Receiver, range: Ranged) -> bool
    requires receiver { IsReceiver receiver }
    requires range { IsSmallRange range }
    ensures { result ≡ int_le (neg_ℤ (most receiver.digits)) (near_range mode receiver.scale range).low }
{
    is_at_most(mode, receiver, -range.units.low, range.scale)
}
