//! Forms less a value, without some of their terms, and negated.
ghost use Rattle.std.specs.Prelude.{◌≡◌, ℕ, ◌+◌, ◌^◌, ◌<◌, ◌≤◌, true, pos, negsuc, ◌≤ℤ◌, unsigned_abs};
ghost use Rattle.diff_bounds.specs.Forms.{is_small, IsSmallForm};
ghost use Rattle.diff_bounds.specs.Results.{multiple_of};
ghost use Rattle.diff_bounds.specs.Upper.{coef_at, without};
ghost use Rattle.diff_bounds.specs.Assigned.{less_place};
ghost use Rattle.diff_bounds.specs.Changed.{IsSet, IsLess, IsWithout};

use crate::{Lin, lin_scale};
use dec_num::LIMIT;

/// The form times -1.
pub fn negated(form: &Lin) -> Lin
    requires form { IsSmallForm form.now }
    requires ordered { form.now.constant.low ≤ℤ form.now.constant.high }
    ensures value { result ≡ multiple_of form.now (negsuc 0) }
    ensures small { IsSmallForm result }
{
    match lin_scale(form, -1) {
        Some(negated) => negated,
        None => *form,
    }
}

// whether the coefficients of the form less the value at a place are small
pub(crate) fn has_less(form: &Lin, place: usize) -> bool
    requires form { IsSmallForm form.now }
    requires place { place ≤ 8 }
    ensures { result ≡ is_small (less_place place (coef_at form.now.coefs) place) }
{
    place == 0 || 1 - LIMIT < form.coefs[place - 1]
}

// the form with another coefficient at a place
fn with_coefficient(form: &Lin, place: usize, coefficient: i128) -> Lin
    requires first { 1 ≤ place }
    requires last { place ≤ 8 }
    ensures { IsSet form.now result place coefficient }
{
    let mut coefs = form.coefs;
    coefs[place - 1] = coefficient;
    Lin {
        coefs,
        constant: form.constant,
    }
}

// the form less the value at a place
pub(crate) fn less(form: &Lin, place: usize) -> Lin
    requires form { IsSmallForm form.now }
    requires place { place ≤ 8 }
    requires small { is_small (less_place place (coef_at form.now.coefs) place) ≡ true }
    ensures { IsLess place form.now result }
{
    if place == 0 {
        return *form;
    }
    with_coefficient(form, place, form.coefs[place - 1] - 1)
}

// the form without the terms of two places
pub(crate) fn without(form: &Lin, first: usize, second: usize) -> Lin
    requires form { IsSmallForm form.now }
    requires first { first ≤ 8 }
    requires second { second ≤ 8 }
    ensures { IsWithout first second form.now result }
{
    let mut coefs = form.coefs;
    if first != 0 {
        coefs[first - 1] = 0;
    }
    if second != 0 {
        coefs[second - 1] = 0;
    }
    Lin {
        coefs,
        constant: form.constant,
    }
}
