//! Numbers stored in items, where their digits hold them.
ghost use Rattle.std.specs.Prelude.{◌≡◌, ◌≤◌, ◌<◌, ◌+◌, ◌^◌, length, pos, unsigned_abs, is_some, IsTrue};
ghost use Rattle.dec_num.specs.Exact.{near};
ghost use Rattle.dec_num.specs.Fit.{MatchFit};
ghost use Rattle.dec_num.specs.Scaled.{value_of};
ghost use Rattle.cob_program.specs.Bounds.{IsSmall};
ghost use Rattle.cob_runs.specs.Contents.{form_at, length_at, digits_of, scale_of, bytes_of, if_held, stored, filled_at};
ghost use Rattle.cob_runs.specs.Moves.{takes_number};
ghost use Rattle.cob_store.specs.WellFormed.{HasWellFormedItems, IsWellFormedForm};
ghost use Rattle.cob_store.specs.Storing.{filled_if};

use crate::items::item_at;
use crate::numbers::scale_of;
use cob_data::Layout;
use cob_tree::Form;
use dec_num::{Fit, Mode, Scaled, fit, pow10};
use num_bytes::{edit, put};

/// How many digits an item of this form has.
pub fn digits_of(form: &Form) -> u32
    ensures { result ≡ digits_of form.now }
{
    match form {
        Form::Number { digits, .. } | Form::Edited { digits, .. } => *digits,
        Form::Group | Form::Text { .. } => 0,
    }
}

// The absolute value.
fn size_of(units: i64, digits: u32) -> i64
    requires held { unsigned_abs units < 10 ^ digits }
    requires digits { digits ≤ 18 }
    ensures { result ≡ pos (unsigned_abs units) }
{
    units.unsigned_abs() as i64
}

/// Writes the number of so many units into the bytes of an item of this form, whose digits hold it. An item without a
/// sign gets the absolute value.
pub fn write_units(form: &Form, units: i64, bytes: &mut [u8])
    requires takes { IsTrue (takes_number form.now) }
    requires sound { IsWellFormedForm form.now (length bytes.old) }
    requires held { unsigned_abs units < 10 ^ digits_of form.now }
    ensures { bytes.new ≡ bytes_of form.now units }
{
    match form {
        Form::Number { signed: true, .. } => put(form, units, bytes),
        Form::Number { digits, .. } => put(form, size_of(units, *digits), bytes),
        Form::Edited { digits, .. } => edit(form, size_of(units, *digits), bytes),
        Form::Group | Form::Text { .. } => {}
    }
}

/// Puts the bytes into the item at a place; they are as many as its own.
#[tactic(auto, using(crate::proofs::Parts::first_within))]
pub fn fill_bytes(layout: &Layout, storage: &mut [u8], place: u32, bytes: &[u8])
    requires sound { HasWellFormedItems layout.now }
    requires whole { length storage.old ≡ layout.now.storage }
    requires length { length bytes.now ≡ length_at layout.now place }
    ensures { storage.new ≡ filled_at layout.now storage.old place bytes.now }
{
    if let Some(item) = item_at(layout, place) {
        let from = item.offset as usize;
        let to = from + item.length as usize;
        storage[from..to].copy_from_slice(bytes);
    }
}

// Puts the number into the item at a place.
#[tactic(auto, using(crate::proofs::Parts::first_within))]
fn fill_units(layout: &Layout, storage: &mut [u8], place: u32, units: i64)
    requires sound { HasWellFormedItems layout.now }
    requires whole { length storage.old ≡ layout.now.storage }
    requires takes { IsTrue (takes_number (form_at layout.now place)) }
    requires held { unsigned_abs units < 10 ^ digits_of (form_at layout.now place) }
    ensures { storage.new ≡ filled_at layout.now storage.old place (bytes_of (form_at layout.now place) units) }
{
    if let Some(item) = item_at(layout, place) {
        let from = item.offset as usize;
        let to = from + item.length as usize;
        write_units(&item.form, units, &mut storage[from..to]);
    }
}

fn limit_of(form: &Form) -> u128
    requires { digits_of form.now ≤ 18 }
    ensures { result ≡ 10 ^ digits_of form.now }
{
    pow10(digits_of(form)) as u128
}

// The least number that the item at a place doesn't hold.
fn ten_of(layout: &Layout, place: u32) -> u128
    requires sound { HasWellFormedItems layout.now }
    requires takes { IsTrue (takes_number (form_at layout.now place)) }
    ensures value { result ≡ 10 ^ digits_of (form_at layout.now place) }
    ensures bound { result ≤ 10 ^ 18 }
{
    match item_at(layout, place) {
        Some(item) => limit_of(&item.form),
        None => 1,
    }
}

/// Puts the number of so many units of the item's scale into the item at a place, where its digits hold it; otherwise
/// storage stays as it is. An item without a sign gets the absolute value. Answers whether it is held.
pub fn store_units(layout: &Layout, storage: &mut [u8], place: u32, units: i128) -> bool
    requires sound { HasWellFormedItems layout.now }
    requires whole { length storage.old ≡ layout.now.storage }
    requires takes { IsTrue (takes_number (form_at layout.now place)) }
    ensures held { result ≡ is_some (if_held (form_at layout.now place) units) }
    ensures storage { storage.new ≡ filled_if layout.now storage.old place (if_held (form_at layout.now place) units) }
{
    let limit = ten_of(layout, place);
    if units.unsigned_abs() < limit {
        fill_units(layout, storage, place, units as i64);
        true
    } else {
        false
    }
}

// The value in units of the item at a place, if its digits hold it.
fn fit_in(layout: &Layout, place: u32, value: Scaled, mode: Mode) -> Fit
    requires sound { HasWellFormedItems layout.now }
    requires takes { IsTrue (takes_number (form_at layout.now place)) }
    requires small { IsSmall value }
    ensures { MatchFit result
        (λ z. (z ≡ near mode (value_of value) (pos (scale_of (form_at layout.now place))))
        × (unsigned_abs z < 10 ^ digits_of (form_at layout.now place)))
        (10 ^ digits_of (form_at layout.now place)
        ≤ unsigned_abs (near mode (value_of value) (pos (scale_of (form_at layout.now place))))) }
{
    match item_at(layout, place) {
        Some(item) => fit(value, digits_of(&item.form), scale_of(&item.form), mode),
        None => Fit::TooBig,
    }
}

/// Stores the value in the item at a place, cut or rounded to its scale, where its digits hold it; otherwise storage stays
/// as it is (ISO 1989:1985, "The ROUNDED phrase"). Answers whether it is held.
#[inline(always)]
pub fn store_at(layout: &Layout, storage: &mut [u8], place: u32, value: Scaled, mode: Mode) -> bool
    requires sound { HasWellFormedItems layout.now }
    requires whole { length storage.old ≡ layout.now.storage }
    requires takes { IsTrue (takes_number (form_at layout.now place)) }
    requires small { IsSmall value }
    ensures held { result ≡ is_some (stored mode (form_at layout.now place) (value_of value)) }
    ensures storage { storage.new
        ≡ filled_if layout.now storage.old place (stored mode (form_at layout.now place) (value_of value)) }
{
    match fit_in(layout, place, value, mode) {
        Fit::Stored(units) => {
            fill_units(layout, storage, place, units);
            true
        }
        Fit::TooBig => false,
    }
}
