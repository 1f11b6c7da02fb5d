//! What is read of senders.
#![tactic(auto, using(crate::proofs::HandingLaws::handing))]

ghost use Rattle.std.specs.Prelude.{◌≡◌};
ghost use Rattle.std.specs.List.{list_all};
ghost use Rattle.std.specs.Char.{is_ascii_digit};
ghost use Rattle.cob_edge_parts.specs.Parts.{number_reads, text_reads};
ghost use Rattle.edge_parts.specs.PartView.{plain_part};
ghost use Rattle.edge_parts.specs.Pieces.{text_number_reads};
ghost use Rattle.edge_parts.specs.Handing.{Takes, goes_on};

use crate::part::EdgePart;
use crate::part_items::is_number_item;
use crate::taker::{Going, PartTaker, no_parts, push_part};
use cob_data::{Layout, Sender};

fn are_digits(text: &[u8]) -> bool
    ensures { result ≡ list_all is_ascii_digit text.now }
{
    text.iter().all(|byte| byte.is_ascii_digit())
}

// A text that isn't all digits is no number.
fn push_text_read<'a>(parts: &mut PartTaker<'a>, text: &[u8]) -> Going
    ensures { Takes plain_part parts.old (text_number_reads text.now) (goes_on result) parts.new }
{
    if are_digits(text) {
        no_parts(parts)
    } else {
        push_part(parts, EdgePart::Unread)
    }
}

/// What is read of a sender as a number.
pub fn push_number_read<'a>(parts: &mut PartTaker<'a>, sender: &Sender) -> Going
    ensures { Takes plain_part parts.old (number_reads sender.now) (goes_on result) parts.new }
{
    match sender {
        Sender::Item(place) => push_part(parts, EdgePart::Read(*place)),
        Sender::Text(text) => push_text_read(parts, text.get()),
        Sender::Fill(_) => push_part(parts, EdgePart::Unread),
        Sender::Number(_) | Sender::Zero => no_parts(parts),
    }
}

/// What is read of a sender as text, which a numeric item gives by its number.
pub fn push_text_side_read<'a>(parts: &mut PartTaker<'a>, layout: &Layout, sender: &Sender) -> Going
    ensures { Takes plain_part parts.old (text_reads layout.now sender.now) (goes_on result) parts.new }
{
    if is_number_item(layout, sender) {
        push_number_read(parts, sender)
    } else {
        no_parts(parts)
    }
}
