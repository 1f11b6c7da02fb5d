//! The numbers that senders can be.
ghost use Rattle.std.specs.Prelude.{◌≡◌, ◌≤◌, true, length};
ghost use Rattle.std.specs.Option.{option_map};
ghost use Rattle.cob_tree.specs.declared.form.Form.TheVariants as form;
ghost use Rattle.cob_runs.specs.Contents.{number_in};
ghost use Rattle.sum_ranges.specs.Ranged.{point};
ghost use Rattle.sum_ranges.specs.Working.{AreBounded};
ghost use Rattle.transfer_ranges.specs.Stores.{sender_range};
ghost use Rattle.transfer_ranges.specs.SmallAmounts.{is_small_sender};

use cob_data::Sender;
use cob_tree::Form;
use num_bytes::value;
use sum_ranges::{Ranged, Ranges, literal_range, point};

// The number that a text of at most 18 bytes is read as.
fn text_range(text: &[u8]) -> Option<Ranged>
    requires { length text.now ≤ 18 }
    ensures { result ≡ option_map point (number_in (form.Text (length text.now)) text.now) }
{
    let form = Form::Text {
        length: text.len() as u32,
    };
    match value(&form, text) {
        None => None,
        Some(units) => Some(point(i128::from(units), 0)),
    }
}

/// A sender's number; nothing where it has none.
pub fn sender_range<R: Ranges>(ranges: &R, sender: &Sender) -> Option<Ranged>
    requires bounded { AreBounded (R.range_at ranges.now) (R.bound_at ranges.now) }
    requires small { is_small_sender (R.bound_at ranges.now) sender.now ≡ true }
    ensures { result ≡ sender_range (R.range_at ranges.now) sender.now }
{
    match sender {
        Sender::Item(place) => Some(ranges.range(*place)),
        Sender::Number(number) => Some(literal_range(number)),
        Sender::Text(text) => text_range(text.get()),
        Sender::Fill(_) => None,
        Sender::Zero => Some(point(0, 0)),
    }
}
