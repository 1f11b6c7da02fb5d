//! Forms of operands.
ghost use Rattle.std.specs.Prelude.{◌≡◌, ◌||◌, ◌≤◌, true, false, is_some, Option, List, IfSome};
ghost use Rattle.cob_data.specs.declared.extent.Extent.{Extent};
ghost use Rattle.cob_program.specs.SumView.{plain_sum};
ghost use Rattle.cob_calc.specs.Contents.{bound_at};
ghost use Rattle.transfer_ranges.specs.AmountView.{plain_amount};
ghost use Rattle.sum_ranges.specs.SumRanges.{quotient_range, sum_range};
ghost use Rattle.sum_ranges.specs.Taking.{is_small_taken};
ghost use Rattle.sum_forms.specs.Values.{IsForm};
ghost use Rattle.transfer_ranges.specs.Operands.{is_whole};
ghost use Rattle.transfer_ranges.specs.Stores as stores;
ghost use Rattle.transfer_ranges.specs.SmallAmounts.{is_small_amount};
ghost use Rattle.transfer_ranges.specs.Working.{CanSettle};
ghost use Rattle.interval_domain.specs.Elements.{CellsFit};
ghost use Rattle.cell_steps.specs.OwnRanges.{owns};
ghost use Rattle.transfer_ranges.specs.EdgeOperands.{settled};
ghost use Rattle.cell_steps.specs.Stores.{range_at};
ghost use Rattle.transfer_ranges.specs.declared.amounts.Taken as declared_taken;
ghost use Rattle.diff_steps.specs.Forms as forms;
ghost use Rattle.diff_layer.specs.Sizes.{HasSmallTop};
ghost use Rattle.diff_layer.specs.Views.{item_cell, program_of, known_in, taken_at};
ghost use Rattle.diff_layer.specs.Working.{taken_by, operands_by};
ghost use Rattle.diff_layer.specs.PackWriting.{amount_items, are_written};

use crate::forms::sums::form_read;
use crate::forms::taken::{kept_form, settled_operands};
use crate::forms::view::PackView;
use cell_layer::KnownItems;
use cob_program::{How, Sum};
use diff_bounds::Lin;
use sum_ranges::Ranged;
use transfer_ranges::{Amount, Taken, operands};

// what operands were; a quotient that isn't stored as it is has been cut
fn form_taken(decimals: u32, common: Option<Taken>, whole: bool) -> Option<Lin>
    requires decimals { decimals ≤ 37 }
    requires kept { IfSome common HasSmallTop }
    requires can { whole ≡ false → IfSome common CanSettle }
    ensures value { result ≡ taken_by decimals common whole }
    ensures good { IfSome result IsForm }
{
    if whole {
        return kept_form(decimals, common);
    }
    kept_form(decimals, settled_operands(common))
}

/// The form of the operands of a sum.
pub(crate) fn operands_form(
    items: &KnownItems,
    pack: &PackView,
    sum: &Sum,
    whole: bool,
    common: Option<Taken>,
    written: bool,
) -> Option<Lin>
    requires fits { CellsFit (owns (program_of items.now)) (known_in items.now) }
    requires small { is_small_taken (bound_at (program_of items.now).layout) whole (plain_sum sum.now) ≡ true }
    requires kept { IfSome common HasSmallTop }
    requires can { whole ≡ false → IfSome common CanSettle }
    ensures value { result ≡ operands_by pack.now.decimals (item_cell pack.now)
        (range_at (program_of items.now) (known_in items.now)) common written whole (plain_sum sum.now) }
    ensures good { IfSome result IsForm }
{
    if written {
        return form_taken(pack.decimals, common, whole);
    }
    form_read(items, pack, sum, whole)
}

// ---- whether there are some

// whether what divides isn't 0 alone
fn has_quotient(top: Ranged, under: Ranged) -> bool
    ensures { result ≡ is_some (quotient_range top under) }
{
    1 <= under.units.high || under.units.low < 0
}

fn settles(taken: Taken) -> bool
    ensures { result ≡ is_some (settled taken) }
{
    match taken.under {
        None => true,
        Some(under) => has_quotient(taken.top, under),
    }
}

fn operands_of(items: &KnownItems, amount: Amount) -> Option<Taken>
    requires fits { CellsFit (owns (program_of items.now)) (known_in items.now) }
    requires small { is_small_amount (bound_at (program_of items.now).layout) (plain_amount amount) ≡ true }
    ensures { result ≡ stores.operands (range_at (program_of items.now) (known_in items.now))
        (plain_amount amount.entry) }
{
    operands(items, amount)
}

fn has_range(items: &KnownItems, sum: &Sum, how: How) -> bool
    requires fits { CellsFit (owns (program_of items.now)) (known_in items.now) }
    requires small { is_small_taken (bound_at (program_of items.now).layout) (is_whole how) (plain_sum sum.now) ≡ true }
    ensures { result ≡ is_some (sum_range (range_at (program_of items.now) (known_in items.now)) (plain_sum sum.now)) }
{
    match operands_of(items, Amount::Computed(sum, how)) {
        None => false,
        Some(taken) => settles(taken),
    }
}

/// Whether operands that are read off their items have a range; they have none where a divisor among them is 0 alone.
/// `written` says whether the edge has written to bytes of their items.
pub fn has_operands(items: &KnownItems, amount: Amount, written: bool) -> bool
    requires fits { CellsFit (owns (program_of items.now)) (known_in items.now) }
    requires small { is_small_amount (bound_at (program_of items.now).layout) (plain_amount amount) ≡ true }
    ensures { (common : Option declared_taken.Taken) (wrote : List Extent) → written ≡ are_written
        (program_of items.now).layout wrote (amount_items (plain_amount amount.entry))
        → result ≡ forms.has_operands (program_of items.now) (taken_at (known_in items.now) common) wrote
        (plain_amount amount.entry) }
{
    match amount {
        Amount::Computed(sum, how) => written || has_range(items, sum, how),
        Amount::Moved(_) | Amount::Remaining(_, _) | Amount::Augmented(_) => true,
    }
}
