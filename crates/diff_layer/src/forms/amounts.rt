//! Forms of what receivers get.
ghost use Rattle.std.specs.Prelude.{◌≡◌, length, ◌≤◌, true, false, List, Some, None, IfSome};
ghost use Rattle.cob_data.specs.declared.extent.Extent.{Extent};
ghost use Rattle.cob_program.specs.Bounds.{is_small};
ghost use Rattle.cob_program.specs.SumView.{plain_sum};
ghost use Rattle.cob_calc.specs.Contents.{bound_at};
ghost use Rattle.cob_edge_parts.specs.Parts as part;
ghost use Rattle.transfer_ranges.specs.AmountView.{plain_amount};
ghost use Rattle.sum_ranges.specs.SumRanges.{product_range};
ghost use Rattle.sum_ranges.specs.Sizes.{IsSmallRange};
ghost use Rattle.sum_ranges.specs.Taking.{is_small_taken};
ghost use Rattle.sum_ranges.specs.Working.{CanMultiplyRanges};
ghost use Rattle.sum_forms.specs.Constants as constants;
ghost use Rattle.sum_forms.specs.Values.{IsForm};
ghost use Rattle.transfer_ranges.specs.Operands.{is_whole};
ghost use Rattle.transfer_ranges.specs.SmallAmounts.{is_small_amount};
ghost use Rattle.transfer_ranges.specs.Working.{CanSettle, CanWork};
ghost use Rattle.interval_domain.specs.Elements.{CellsFit};
ghost use Rattle.cell_steps.specs.OwnRanges.{owns};
ghost use Rattle.cell_steps.specs.Stores.{range_at};
ghost use Rattle.diff_steps.specs.Forms as forms;
ghost use Rattle.diff_layer.specs.Forms.{IsFormOf};
ghost use Rattle.diff_layer.specs.Sizes.{HasSmallTop};
ghost use Rattle.diff_layer.specs.Views.{plain_pack, item_cell, HasUnit, program_of, known_in, taken_at};
ghost use Rattle.diff_layer.specs.Working.{settled_if, own_by, product_by, multiplied_by, computed_by, amount_by};
ghost use Rattle.diff_layer.specs.PackWriting.{amount_items, are_written};

use crate::forms::literals::whole_sum;
use crate::forms::operands::operands_form;
use crate::forms::senders::form_of_sender;
use crate::forms::small_forms::{added, scaled, turned};
use crate::forms::taken::settled_operands;
use crate::forms::view::{PackView, cell_in};
use cell_layer::{KnownItems, item_range};
use cob_graph::Home;
use cob_program::{How, Sum};
use diff_bounds::Lin;
use sum_forms::{cell_form, range_form};
use sum_ranges::{Ranged, factor_range};
use transfer_ranges::{Amount, Taken};

// ---- the receiver's own number

fn own_range(items: &KnownItems, place: u32) -> Ranged
    requires fits { CellsFit (owns (program_of items.now)) (known_in items.now) }
    requires own { is_small (bound_at (program_of items.now).layout place) ≡ true }
    ensures value { result ≡ range_at (program_of items.now) (known_in items.now) place }
    ensures small { IsSmallRange result }
{
    item_range(items.program, items.cells, items.row, place)
}

pub(crate) fn own_form(items: &KnownItems, pack: &PackView, place: u32) -> Option<Lin>
    requires fits { CellsFit (owns (program_of items.now)) (known_in items.now) }
    requires own { is_small (bound_at (program_of items.now).layout place) ≡ true }
    ensures value { result ≡ own_by pack.now.decimals (item_cell pack.now)
        (range_at (program_of items.now) (known_in items.now)) place }
    ensures good { IfSome result IsForm }
{
    match cell_in(pack, Home::Item(place)) {
        Some(cell) => Some(cell_form(cell)),
        None => range_form(pack.decimals, own_range(items, place)),
    }
}

// ---- products

#[tactic(auto, using(crate::proofs::Premises::product_of_small))]
fn product(own: Ranged, by: Ranged) -> Option<Ranged>
    requires { CanMultiplyRanges own by }
    ensures value { result ≡ Some (product_range own by) }
    ensures small { IfSome result IsSmallRange }
{
    factor_range(false, own, by)
}

fn form_of_product(decimals: u32, own: Ranged, by: Ranged) -> Option<Lin>
    requires decimals { decimals ≤ 37 }
    requires can { CanMultiplyRanges own by }
    ensures value { result ≡ constants.range_form decimals (product_range own by) }
    ensures good { IfSome result IsForm }
{
    match product(own, by) {
        None => None,
        Some(range) => range_form(decimals, range),
    }
}

// the receiver's own number times what the operands were
fn product_form(
    items: &KnownItems,
    pack: &PackView,
    place: u32,
    common: Option<Taken>,
) -> Option<Lin>
    requires fits { CellsFit (owns (program_of items.now)) (known_in items.now) }
    requires own { is_small (bound_at (program_of items.now).layout place) ≡ true }
    requires kept { IfSome common HasSmallTop }
    requires can { IfSome common CanSettle }
    requires product { IfSome (settled_if common) (λ t. CanMultiplyRanges
        (range_at (program_of items.now) (known_in items.now) place) t.top) }
    ensures value { result ≡ product_by pack.now.decimals (item_cell pack.now)
        (range_at (program_of items.now) (known_in items.now)) common place }
    ensures good { IfSome result IsForm }
{
    match settled_operands(common) {
        None => None,
        Some(taken) => form_of_product(pack.decimals, own_range(items, place), taken.top),
    }
}

fn multiplied_form(
    items: &KnownItems,
    pack: &PackView,
    place: u32,
    whole: Option<i128>,
    common: Option<Taken>,
) -> Option<Lin>
    requires fits { CellsFit (owns (program_of items.now)) (known_in items.now) }
    requires own { is_small (bound_at (program_of items.now).layout place) ≡ true }
    requires kept { IfSome common HasSmallTop }
    requires can { IfSome common CanSettle }
    requires product { IfSome (settled_if common) (λ t. CanMultiplyRanges
        (range_at (program_of items.now) (known_in items.now) place) t.top) }
    ensures value { result ≡ multiplied_by pack.now.decimals (item_cell pack.now)
        (range_at (program_of items.now) (known_in items.now)) common place whole }
    ensures good { IfSome result IsForm }
{
    match whole {
        Some(by) => scaled(own_form(items, pack, place), by),
        None => product_form(items, pack, place, common),
    }
}

// ---- amounts

// the result of a sum, and of the receiver's own number where `how` says so
fn computed_form(
    items: &KnownItems,
    pack: &PackView,
    place: u32,
    sum: &Sum,
    how: How,
    common: Option<Taken>,
    written: bool,
) -> Option<Lin>
    requires fits { CellsFit (owns (program_of items.now)) (known_in items.now) }
    requires own { is_small (bound_at (program_of items.now).layout place) ≡ true }
    requires sum { is_small_taken (bound_at (program_of items.now).layout) (is_whole how) (plain_sum sum.now) ≡ true }
    requires kept { IfSome common HasSmallTop }
    requires can { IfSome common (CanWork (part.computed (plain_sum sum.now) how)
        (range_at (program_of items.now) (known_in items.now) place)) }
    ensures value { result ≡ computed_by pack.now.decimals (item_cell pack.now)
        (range_at (program_of items.now) (known_in items.now)) common written
        place (plain_sum sum.now) how }
    ensures good { IfSome result IsForm }
{
    match how {
        How::Whole => operands_form(items, pack, sum, true, common, written),
        How::Plus => {
            let more = operands_form(items, pack, sum, false, common, written);
            added(own_form(items, pack, place), more)
        }
        How::Minus => {
            let less = operands_form(items, pack, sum, false, common, written);
            added(own_form(items, pack, place), turned(less))
        }
        How::Times => multiplied_form(items, pack, place, whole_sum(sum), common),
        How::Under => None,
    }
}

fn form_of_amount(
    items: &KnownItems,
    pack: &PackView,
    place: u32,
    amount: Amount,
    common: Option<Taken>,
    written: bool,
) -> Option<Lin>
    requires fits { CellsFit (owns (program_of items.now)) (known_in items.now) }
    requires own { is_small (bound_at (program_of items.now).layout place) ≡ true }
    requires sum { is_small_amount (bound_at (program_of items.now).layout) (plain_amount amount) ≡ true }
    requires kept { IfSome common HasSmallTop }
    requires can { IfSome common (CanWork (plain_amount amount)
        (range_at (program_of items.now) (known_in items.now) place)) }
    ensures value { result ≡ amount_by pack.now.decimals (item_cell pack.now)
        (range_at (program_of items.now) (known_in items.now)) common written
        place (plain_amount amount.entry) }
    ensures good { IfSome result IsForm }
{
    match amount {
        Amount::Moved(sender) => form_of_sender(pack, sender, common, written),
        Amount::Computed(sum, how) => computed_form(items, pack, place, sum, how, common, written),
        Amount::Remaining(_, _) => None,
        Amount::Augmented(sender) => added(
            own_form(items, pack, place),
            form_of_sender(pack, sender, common, written),
        ),
    }
}

/// The form of what the item at a place gets, where operands are taken: `common` is what they were then, and `written`
/// says whether the edge has written to bytes of the items that they are read of. A quotient that stays exact and a
/// remainder have none; nor has one whose numbers would reach 10^37 in absolute value.
pub fn amount_form(
    items: &KnownItems,
    pack: &PackView,
    place: u32,
    amount: Amount,
    common: Option<Taken>,
    written: bool,
) -> Option<Lin>
    requires unit { HasUnit (program_of items.now).layout pack.now }
    requires fits { CellsFit (owns (program_of items.now)) (known_in items.now) }
    requires own { is_small (bound_at (program_of items.now).layout place) ≡ true }
    requires sum { is_small_amount (bound_at (program_of items.now).layout) (plain_amount amount) ≡ true }
    requires kept { IfSome common HasSmallTop }
    requires can { IfSome common (CanWork (plain_amount amount)
        (range_at (program_of items.now) (known_in items.now) place)) }
    ensures value { (wrote : List Extent) → written ≡ are_written (program_of items.now).layout wrote
        (amount_items (plain_amount amount.entry))
        → result ≡ forms.amount_form (program_of items.now) (plain_pack pack.now)
        (taken_at (known_in items.now) common) wrote place (plain_amount amount.entry) }
    ensures of_pack { IfSome result (IsFormOf (length pack.now.cells.now)) }
{
    form_of_amount(items, pack, place, amount, common, written)
}
