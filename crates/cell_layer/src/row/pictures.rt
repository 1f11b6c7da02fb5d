//! The own ranges of items, by their forms.
ghost use Rattle.std.specs.Prelude.{◌≡◌, ◌≤◌, true};
ghost use Rattle.std.specs.Option.{option_copied};
ghost use Rattle.cob_program.specs.Bounds.{of_digits, form_bound, literal_bound, is_small};
ghost use Rattle.cob_runs.specs.Contents.{item_at, form_at, scale_of};
ghost use Rattle.cob_calc.specs.Contents.{bound_at};
ghost use Rattle.cell_steps.specs.Cells.{is_table};
ghost use Rattle.cell_steps.specs.OwnRanges.{largest, picture_range, form_range};

use cob_data::{Item, Layout};
use cob_tree::{Form, Num};
use dec_num::pow10;
use interval_domain::Interval;

/// How many digits the numbers of an item have, how many of these are decimals, and whether there are numbers below 0.
#[derive(Clone, Copy)]
pub(crate) struct Picture {
    pub digits: u32,
    pub scale: u32,
    pub signed: bool,
}

fn picture_of(form: &Form) -> Picture
    ensures range { picture_range result.digits result.signed ≡ form_range form.now }
    ensures scale { result.scale ≡ scale_of form.now }
    ensures bound { of_digits result.digits result.scale ≡ form_bound form.now }
{
    match form {
        Form::Number {
            digits,
            scale,
            signed,
            ..
        } => Picture {
            digits: *digits,
            scale: *scale,
            signed: *signed,
        },
        Form::Edited { digits, scale, .. } => Picture {
            digits: *digits,
            scale: *scale,
            signed: false,
        },
        Form::Text { length } => Picture {
            digits: *length,
            scale: 0,
            signed: false,
        },
        Form::Group => Picture {
            digits: 0,
            scale: 0,
            signed: false,
        },
    }
}

pub(crate) fn item_at(layout: &Layout, place: u32) -> Option<&Item>
    ensures { option_copied result ≡ item_at layout.now place }
{
    layout.items.get().get(place as usize)
}

/// Whether an item is a table's. Of such an item a test or a read tells of one occurrence alone.
pub fn is_table(layout: &Layout, place: u32) -> bool
    ensures { result ≡ is_table layout.now place }
{
    match item_at(layout, place) {
        None => false,
        Some(item) => item.stride != 0,
    }
}

/// The picture of an item; a text is read as a number without a sign.
pub(crate) fn picture_at(layout: &Layout, place: u32) -> Picture
    ensures range { picture_range result.digits result.signed ≡ form_range (form_at layout.now place) }
    ensures scale { result.scale ≡ scale_of (form_at layout.now place) }
    ensures bound { of_digits result.digits result.scale ≡ bound_at layout.now place }
{
    match item_at(layout, place) {
        None => Picture {
            digits: 0,
            scale: 0,
            signed: false,
        },
        Some(item) => picture_of(&item.form),
    }
}

// ---- smallness

/// Whether the arithmetic works with numbers of so many digits and decimals.
#[tactic(auto, using(crate::proofs::Digits::small_digits))]
pub(crate) fn is_small(digits: u32, scale: u32) -> bool
    ensures { result ≡ is_small (of_digits digits scale) }
{
    digits <= 37 && scale <= 37
}

/// Whether the arithmetic works with the numbers of an item.
pub fn is_small_item(layout: &Layout, place: u32) -> bool
    ensures { result ≡ is_small (bound_at layout.now place) }
{
    let picture = picture_at(layout, place);
    is_small(picture.digits, picture.scale)
}

/// Whether it works with a literal.
#[tactic(auto, using(crate::proofs::Digits::small_digits))]
pub(crate) fn is_small_literal(number: &Num) -> bool
    ensures { result ≡ is_small (literal_bound number.now) }
{
    number.digits.get().len() <= 37 && number.scale <= 37
}

// ---- own ranges

#[tactic(auto, using(crate::proofs::Digits::less_one))]
fn largest(digits: u32) -> i128
    requires { digits ≤ 37 }
    ensures { result ≡ largest digits }
{
    pow10(digits) - 1
}

/// The numbers of so many digits.
pub(crate) fn picture_range(digits: u32, signed: bool) -> Interval
    requires { digits ≤ 37 }
    ensures { result ≡ picture_range digits signed }
{
    let most = largest(digits);
    if signed {
        Interval {
            low: -most,
            high: most,
        }
    } else {
        Interval { low: 0, high: most }
    }
}
