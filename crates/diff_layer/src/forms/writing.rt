//! Whether an edge has written to bytes of the items that its operands are read of.
ghost use Rattle.std.specs.Prelude.{◌≡◌, ◌∷◌, [], if◌then◌else◌, map};
ghost use Rattle.std.specs.Option.{option_map};
ghost use Rattle.cob_program.specs.ActView.{plain_act};
ghost use Rattle.cob_program.specs.Sum.{parts_of, factors_of};
ghost use Rattle.cob_program.specs.SumView.{plain_sum, plain_part as plain_product, plain_factor, plain_atom};
ghost use Rattle.cob_runs.specs.Computing.{items_in, items_in_parts, items_in_factors, items_in_atom};
ghost use Rattle.edge_parts.specs.PartView.{plain_part};
ghost use Rattle.transfer_ranges.specs.AmountView.{plain_amount};
ghost use Rattle.cell_steps.specs.Stores.{keeps_receiver};
ghost use Rattle.diff_steps.specs.Moments.{is_written, item_bytes};
ghost use Rattle.diff_layer.specs.PackWriting.{sender_items, are_written};
ghost use Rattle.diff_layer.specs.Writing.{product_items, items_of_amount, edge_items, part_bytes};

use crate::pack::gone::item_at;
use cell_layer::bytes_from;
use cob_data::{Extent, Layout, Sender, share_extents};
use cob_program::{Act, Atom, Factor, Part, Program, Sum};
use cob_runs::Action;
use edge_parts::{EdgePart, keeps_receiver};
use transfer_ranges::{Amount, edge_amount};

// whether some of these bytes are of an occurrence of the item at a place
fn are_of(layout: &Layout, extent: &Extent, place: u32) -> bool
    ensures { result ≡ is_written layout.now (extent.now ∷ []) place }
{
    match item_at(layout, place) {
        None => false,
        Some(item) => share_extents(extent, &item.extent()),
    }
}

// ---- sums

#[cycle(written)]
fn are_of_atom(layout: &Layout, extent: &Extent, atom: &Atom) -> bool
    ensures { result ≡ are_written layout.now (extent.now ∷ []) (items_in_atom (plain_atom atom.now)) }
{
    match atom {
        Atom::Item(place) => are_of(layout, extent, *place),
        Atom::Number(_) => false,
        Atom::Group(sum) => are_of_sum(layout, extent, sum),
    }
}

#[cycle(written)]
fn are_of_factors(layout: &Layout, extent: &Extent, factors: &[Factor]) -> bool
    ensures { result ≡ are_written layout.now (extent.now ∷ [])
        (items_in_factors (factors_of (map plain_factor factors.now))) }
{
    for factor in factors {
        if are_of_atom(layout, extent, &factor.atom) {
            return true;
        }
    }
    false
}

#[cycle(written)]
fn are_of_product(layout: &Layout, extent: &Extent, product: &Part) -> bool
    ensures { result ≡ are_written layout.now (extent.now ∷ []) (product_items (plain_product product.now)) }
{
    are_of_factors(layout, extent, &product.factors)
}

#[cycle(written)]
fn are_of_products(layout: &Layout, extent: &Extent, products: &[Part]) -> bool
    ensures { result ≡ are_written layout.now (extent.now ∷ [])
        (items_in_parts (parts_of (map plain_product products.now))) }
{
    for product in products {
        if are_of_product(layout, extent, product) {
            return true;
        }
    }
    false
}

/// Whether bytes are of an item of a sum.
#[cycle(written)]
fn are_of_sum(layout: &Layout, extent: &Extent, sum: &Sum) -> bool
    ensures { result ≡ are_written layout.now (extent.now ∷ []) (items_in (plain_sum sum.now)) }
{
    are_of_products(layout, extent, &sum.parts)
}

// ---- operands

fn are_of_sender(layout: &Layout, extent: &Extent, sender: &Sender) -> bool
    ensures { result ≡ are_written layout.now (extent.now ∷ []) (sender_items sender.now) }
{
    match sender {
        Sender::Item(place) => are_of(layout, extent, *place),
        Sender::Number(_) | Sender::Text(_) | Sender::Fill(_) | Sender::Zero => false,
    }
}

fn are_of_amount(layout: &Layout, extent: &Extent, amount: Option<Amount>) -> bool
    ensures { result ≡ are_written layout.now (extent.now ∷ [])
        (items_of_amount (option_map plain_amount amount.entry)) }
{
    match amount {
        None => false,
        Some(Amount::Moved(sender)) => are_of_sender(layout, extent, sender),
        Some(Amount::Augmented(sender)) => are_of_sender(layout, extent, sender),
        Some(Amount::Computed(sum, _)) => are_of_sum(layout, extent, sum),
        Some(Amount::Remaining(sum, _)) => are_of_sum(layout, extent, sum),
    }
}

fn are_of_operands(layout: &Layout, extent: &Extent, act: &Act, action: Action) -> bool
    ensures { result ≡ are_written layout.now (extent.now ∷ []) (edge_items (plain_act act.now) action) }
{
    are_of_amount(layout, extent, edge_amount(act, action))
}

fn item_is_of_operands(layout: &Layout, place: u32, act: &Act, action: Action) -> bool
    ensures { result ≡ are_written layout.now (item_bytes layout.now place) (edge_items (plain_act act.now) action) }
{
    match item_at(layout, place) {
        None => false,
        Some(item) => are_of_operands(layout, &item.extent(), act, action),
    }
}

// Whether a store writes to bytes of such an item, which it doesn't on an edge that keeps its receiver.
#[tactic(auto, using(crate::proofs::Items::nothing_written))]
fn store_is_of_operands(layout: &Layout, place: u32, act: &Act, action: Action) -> bool
    ensures { result ≡ are_written layout.now (if keeps_receiver (plain_act act.now) action then [] else item_bytes
        layout.now place)
        (edge_items (plain_act act.now) action) }
{
    if keeps_receiver(act, action) {
        return false;
    }
    item_is_of_operands(layout, place, act, action)
}

/// Whether a part writes to bytes of the items of the edge's operands.
#[tactic(auto, using(crate::proofs::Items::nothing_written))]
pub(crate) fn writes_operands(program: &Program, act: &Act, action: Action, part: EdgePart) -> bool
    ensures { result ≡ are_written program.now.layout
        (part_bytes (keeps_receiver (plain_act act.now) action) program.now.layout (plain_part part.entry))
        (edge_items (plain_act act.now) action) }
{
    match part {
        EdgePart::Store { item, .. } => store_is_of_operands(&program.layout, item, act, action),
        EdgePart::Bytes { offset, length } => are_of_operands(
            &program.layout,
            &bytes_from(offset, length),
            act,
            action,
        ),
        EdgePart::Read(_)
        | EdgePart::Unread
        | EdgePart::Subscript { .. }
        | EdgePart::Index { .. }
        | EdgePart::Divide(_)
        | EdgePart::Guard { .. }
        | EdgePart::ReadCount(_)
        | EdgePart::SetCount { .. }
        | EdgePart::CountDown(_)
        | EdgePart::GuardCount { .. } => false,
    }
}
