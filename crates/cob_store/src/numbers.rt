//! The numbers that items and literals hold.
ghost use Rattle.std.specs.Prelude.{◌≡◌, ◌≤◌, length, pos, IfSome};
ghost use Rattle.cob_program.specs.Bounds.{IsWithin, form_bound, literal_bound};
ghost use Rattle.cob_program.specs.Values.{negated, numeral, literal};
ghost use Rattle.cob_runs.specs.Contents.{form_at, scale_of, scaled_by, number_in, number_at};
ghost use Rattle.cob_store.specs.WellFormed.{HasWellFormedItems, IsWellFormedForm, IsShort, IsShortLiteral};

use crate::items::{area, item_at};
use cob_data::Layout;
use cob_tree::{Form, Num};
use dec_num::Scaled;
use num_bytes::value;

/// How many decimals an item of this form has.
pub fn scale_of(form: &Form) -> u32
    ensures { result ≡ scale_of form.now }
{
    match form {
        Form::Number { scale, .. } | Form::Edited { scale, .. } => *scale,
        Form::Group | Form::Text { .. } => 0,
    }
}

fn scaled(units: i64, scale: u32) -> Scaled
    ensures { result ≡ scaled_by scale units }
{
    Scaled {
        units: i128::from(units),
        scale,
    }
}

/// The number that the bytes of an item of this form are read as, if they are numeric.
#[inline(always)]
pub fn number_in(form: &Form, bytes: &[u8]) -> Option<Scaled>
    requires sound { IsWellFormedForm form.now (length bytes.now) }
    requires short { IsShort form.now }
    ensures value { result ≡ number_in form.now bytes.now }
    ensures bound { IfSome result (λ v. IsWithin v (form_bound form.now)) }
{
    let scale = scale_of(form);
    match form {
        Form::Number { .. } | Form::Text { .. } => match value(form, bytes) {
            Some(units) => Some(scaled(units, scale)),
            None => None,
        },
        Form::Group | Form::Edited { .. } => None,
    }
}

/// The number that the item at a place holds, if its contents are numeric; a text is read as a whole number, and has at
/// most 18 bytes (ISO 1989:1985, "Class condition").
#[inline(always)]
#[tactic(auto, using(crate::proofs::Parts::first_within))]
pub fn number_at(layout: &Layout, storage: &[u8], place: u32) -> Option<Scaled>
    requires sound { HasWellFormedItems layout.now }
    requires whole { length storage.now ≡ layout.now.storage }
    requires short { IsShort (form_at layout.now place) }
    ensures value { result ≡ number_at layout.now storage.now place }
    ensures bound { IfSome result (λ v. IsWithin v (form_bound (form_at layout.now place))) }
{
    match item_at(layout, place) {
        Some(item) => number_in(&item.form, area(storage, item.offset, item.length)),
        None => None,
    }
}

// The number that digits write, of which each counts as 9 at most.
fn numeral(digits: &[u8]) -> u64
    requires { length digits.now ≤ 18 }
    ensures { result ≡ numeral 0 digits.now }
{
    let mut size = 0;
    for digit in digits {
        size = size * 10 + u64::from(digit.saturating_sub(b'0').min(9));
    }
    size
}

fn negated(minus: bool, size: u64) -> i128
    ensures { result ≡ (negated minus (record { units = pos size; scale = 0 })).units }
{
    if minus {
        -i128::from(size)
    } else {
        i128::from(size)
    }
}

/// The number that a literal of at most 18 digits writes (ISO 1989:1985, "Literals").
pub fn literal(number: &Num) -> Scaled
    requires { IsShortLiteral number.now }
    ensures value { result ≡ literal number.now }
    ensures bound { IsWithin result (literal_bound number.now) }
{
    Scaled {
        units: negated(number.sign == b'-', numeral(number.digits.get())),
        scale: number.scale,
    }
}
