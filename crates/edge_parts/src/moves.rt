//! Parts of MOVE: the sender is read once, then each receiver gets its value or its bytes.
#![tactic(auto, using(crate::proofs::HandingLaws::handing))]

ghost use Rattle.std.specs.Prelude.{◌≡◌, ◌++◌, [], ◌∷◌, if◌then◌else◌};
ghost use Rattle.std.specs.List.{list_any};
ghost use Rattle.cob_runs.specs.Contents.{form_at};
ghost use Rattle.cob_edge_parts.specs.Parts.{number_reads, is_read_for, item_bytes, receiver_parts, receivers_parts, move_parts, from_parts, into_parts};
ghost use Rattle.edge_parts.specs.PartView.{plain_part};
ghost use Rattle.edge_parts.specs.Pieces.{sender_reads};
ghost use Rattle.edge_parts.specs.Handing.{Takes, goes_on};

use crate::part::EdgePart;
use crate::part_items::{gets_value, is_read_for, item_at};
use crate::part_senders::push_number_read;
use crate::taker::{Going, PartTaker, no_parts, push_part};
use cob_data::{Layout, Sender};
use dec_num::Mode;
use std::ops::ControlFlow;
use transfer_ranges::Amount;

// Whether the sender is read for one of the items.
fn is_read(layout: &Layout, from: &Sender, to: &[u32]) -> bool
    ensures { result ≡ list_any (λ place. is_read_for layout.now (form_at layout.now place) from.now) to.now }
{
    for place in to {
        if is_read_for(layout, *place, from) {
            return true;
        }
    }
    false
}

fn push_sender_read<'a>(
    parts: &mut PartTaker<'a>,
    layout: &Layout,
    from: &Sender,
    to: &[u32],
) -> Going
    ensures { Takes plain_part parts.old (sender_reads layout.now from.now to.now) (goes_on result) parts.new }
{
    if is_read(layout, from, to) {
        push_number_read(parts, from)
    } else {
        no_parts(parts)
    }
}

/// The bytes of the item at a place.
pub fn push_bytes<'a>(parts: &mut PartTaker<'a>, layout: &Layout, place: u32) -> Going
    ensures { Takes plain_part parts.old (item_bytes layout.now place) (goes_on result) parts.new }
{
    match item_at(layout, place) {
        None => no_parts(parts),
        Some(item) => push_part(
            parts,
            EdgePart::Bytes {
                offset: item.offset,
                length: item.length,
            },
        ),
    }
}

fn push_receiver<'a>(
    parts: &mut PartTaker<'a>,
    layout: &Layout,
    from: &'a Sender,
    place: u32,
) -> Going
    ensures { Takes plain_part parts.old (receiver_parts layout.now from.now place) (goes_on result) parts.new }
{
    if gets_value(layout, place, from) {
        push_part(
            parts,
            EdgePart::Store {
                item: place,
                mode: Mode::Trunc,
                amount: Amount::Moved(from),
            },
        )
    } else {
        push_bytes(parts, layout, place)
    }
}

fn push_receivers<'a>(
    parts: &mut PartTaker<'a>,
    layout: &Layout,
    from: &'a Sender,
    to: &[u32],
) -> Going
    ensures { Takes plain_part parts.old (receivers_parts layout.now from.now to.now) (goes_on result) parts.new }
{
    for place in to {
        push_receiver(parts, layout, from, *place)?;
    }
    ControlFlow::Continue(())
}

/// A MOVE.
pub fn push_move<'a>(
    parts: &mut PartTaker<'a>,
    layout: &Layout,
    from: &'a Sender,
    to: &[u32],
) -> Going
    ensures { Takes plain_part parts.old (move_parts layout.now from.now to.now) (goes_on result) parts.new }
{
    push_sender_read(parts, layout, from, to)?;
    push_receivers(parts, layout, from, to)
}

/// WRITE's FROM.
pub fn push_from<'a>(
    parts: &mut PartTaker<'a>,
    layout: &Layout,
    rec: u32,
    from: &'a Option<Sender>,
) -> Going
    ensures { Takes plain_part parts.old (from_parts layout.now rec from.now) (goes_on result) parts.new }
{
    match from {
        None => no_parts(parts),
        Some(sender) => push_move(parts, layout, sender, &[rec]),
    }
}

/// READ's INTO.
pub fn push_into<'a>(parts: &mut PartTaker<'a>, layout: &Layout, into: Option<u32>) -> Going
    ensures { Takes plain_part parts.old (into_parts layout.now into) (goes_on result) parts.new }
{
    match into {
        None => no_parts(parts),
        Some(place) => push_bytes(parts, layout, place),
    }
}
