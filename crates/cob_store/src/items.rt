//! Items by their places, and their bytes in storage.
ghost use Rattle.std.specs.Prelude.{◌≡◌, ◌≤◌, ◌<◌, ◌+◌, length, IfSome};
ghost use Rattle.std.specs.Option.{option_copied};
ghost use Rattle.cob_runs.specs.Contents.{area, item_at, form_at, bytes_at};
ghost use Rattle.cob_store.specs.WellFormed.{HasWellFormedItems, IsWellFormedItem, IsWellFormedForm};

use cob_data::{Item, Layout};
use cob_tree::Form;

/// The item at a place, if there is one.
pub fn item_at(layout: &Layout, place: u32) -> Option<&Item>
    requires { HasWellFormedItems layout.now }
    ensures value { option_copied result ≡ item_at layout.now place }
    ensures sound { IfSome result (λ i. IsWellFormedItem layout.now i.now) }
{
    layout.items.get().get(place as usize)
}

// So many bytes of storage.
pub(crate) fn area(storage: &[u8], offset: u32, count: u32) -> &[u8]
    requires { offset + count ≤ length storage.now }
    ensures { result.now ≡ area storage.now offset count }
{
    let from = offset as usize;
    &storage[from..from + count as usize]
}

/// The bytes of the item at a place; none where there is no item.
#[tactic(auto, using(crate::proofs::Parts::first_within))]
pub fn bytes_at<'a>(layout: &Layout, storage: &'a [u8], place: u32) -> &'a [u8]
    requires sound { HasWellFormedItems layout.now }
    requires whole { length storage.now ≡ layout.now.storage }
    ensures value { result.now ≡ bytes_at layout.now storage.now place }
    ensures form { IsWellFormedForm (form_at layout.now place) (length result.now) }
{
    match item_at(layout, place) {
        Some(item) => area(storage, item.offset, item.length),
        None => &[],
    }
}

/// The form of the item at a place.
pub fn form_at(layout: &Layout, place: u32) -> &Form
    requires { place < length layout.now.items }
    ensures { result.now ≡ form_at layout.now place }
{
    &layout.items.get()[place as usize].form
}
