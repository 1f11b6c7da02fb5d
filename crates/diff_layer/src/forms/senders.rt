//! Forms of senders.
ghost use Rattle.std.specs.Prelude.{◌≡◌, ◌<◌, ◌==◌, length, List, IfSome};
ghost use Rattle.cob_data.specs.declared.extent.Extent.{Extent};
ghost use Rattle.sum_forms.specs.Values.{IsForm};
ghost use Rattle.diff_steps.specs.Forms as forms;
ghost use Rattle.diff_steps.specs.Forms.{is_whole_sender};
ghost use Rattle.diff_layer.specs.Forms.{IsFormOf};
ghost use Rattle.diff_layer.specs.Sizes.{HasSmallTop};
ghost use Rattle.diff_layer.specs.Views.{plain_pack, item_cell, HasUnit, program_of, known_in, taken_at};
ghost use Rattle.diff_layer.specs.Working.{item_by, sender_by};
ghost use Rattle.diff_layer.specs.PackWriting.{sender_items, are_written};

use crate::forms::cells::item_decimals;
use crate::forms::taken::kept_form;
use crate::forms::view::{PackView, cell_in};
use cell_layer::KnownItems;
use cob_data::{Layout, Sender};
use cob_graph::Home;
use diff_bounds::Lin;
use sum_forms::cell_form;
use transfer_ranges::Taken;

// the value of a cell of the pack, where the edge hasn't written to the item
fn item_form(pack: &PackView, place: u32, common: Option<Taken>, written: bool) -> Option<Lin>
    requires kept { IfSome common HasSmallTop }
    ensures value { result ≡ item_by pack.now.decimals (item_cell pack.now) common written (item_cell pack.now place) }
    ensures good { IfSome result IsForm }
{
    match cell_in(pack, Home::Item(place)) {
        None => kept_form(pack.decimals, common),
        Some(cell) => {
            if written {
                kept_form(pack.decimals, common)
            } else {
                Some(cell_form(cell))
            }
        }
    }
}

/// The form of a sender.
pub(crate) fn form_of_sender(
    pack: &PackView,
    sender: &Sender,
    common: Option<Taken>,
    written: bool,
) -> Option<Lin>
    requires kept { IfSome common HasSmallTop }
    ensures value { result ≡ sender_by pack.now.decimals (item_cell pack.now) common written sender.now }
    ensures good { IfSome result IsForm }
{
    match sender {
        Sender::Item(place) => item_form(pack, *place, common, written),
        Sender::Number(_) | Sender::Text(_) | Sender::Fill(_) | Sender::Zero => {
            kept_form(pack.decimals, common)
        }
    }
}

// ---- counters

fn is_whole_sender(layout: &Layout, sender: &Sender) -> bool
    ensures { result ≡ is_whole_sender layout.now sender.now }
{
    match sender {
        Sender::Item(place) => item_decimals(layout, *place) == 0,
        Sender::Number(number) => number.scale == 0,
        Sender::Text(_) | Sender::Fill(_) | Sender::Zero => true,
    }
}

/// The form of what a counter is set to, where operands are taken: `common` is what they were then, and `written` says
/// whether the edge has written to bytes of the sender's item. A sender with decimals has none.
pub fn set_form(
    items: &KnownItems,
    pack: &PackView,
    sender: &Sender,
    common: Option<Taken>,
    written: bool,
) -> Option<Lin>
    requires unit { HasUnit (program_of items.now).layout pack.now }
    requires kept { IfSome common HasSmallTop }
    ensures value { (wrote : List Extent) → written ≡ are_written (program_of items.now).layout wrote
        (sender_items sender.now)
        → result ≡ forms.set_form (program_of items.now) (plain_pack pack.now) (taken_at (known_in items.now) common)
        wrote sender.now }
    ensures of_pack { IfSome result (IsFormOf (length pack.now.cells.now)) }
{
    if is_whole_sender(&items.program.layout, sender) {
        return form_of_sender(pack, sender, common, written);
    }
    None
}
