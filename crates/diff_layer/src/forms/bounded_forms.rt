//! Forms with another sign, and with an error.
ghost use Rattle.std.specs.Prelude.{◌≡◌, ◌≤ℤ◌, ℕ, true, IfSome};
ghost use Rattle.diff_bounds.specs.Values.{IsOver};
ghost use Rattle.sum_forms.specs.Constants.{constant_form};
ghost use Rattle.sum_forms.specs.SumForms.{turned_form, turned_if};
ghost use Rattle.diff_steps.specs.Stores.{widened_form};
ghost use Rattle.diff_steps.specs.Guards.{strictly, at_most};
ghost use Rattle.diff_layer.specs.Forms.{IsFormOf};

use diff_bounds::{Lin, lin_add, lin_scale};
use interval_domain::Interval;

// how many cells a pack has at most
const CELLS: usize = 8;

// a constant's form
fn constant(numbers: Interval) -> Lin
    ensures { result ≡ constant_form numbers }
{
    Lin {
        coefs: [0; CELLS],
        constant: numbers,
    }
}

// the form times -1
fn negated(form: &Lin) -> Option<Lin>
    requires { form.now.constant.low ≤ℤ form.now.constant.high }
    ensures value { result ≡ turned_form true form.now }
    ensures of_pack { (size : ℕ) → IsOver size form.now → IfSome result (IsFormOf size) }
{
    lin_scale(form, -1)
}

/// The form times -1, if there is one.
pub fn turned(form: Option<Lin>) -> Option<Lin>
    requires { IfSome form (λ f. f.constant.low ≤ℤ f.constant.high) }
    ensures value { result ≡ turned_if true form }
    ensures of_pack { (size : ℕ) → IfSome form (IsOver size) → IfSome result (IsFormOf size) }
{
    match form {
        Some(form) => negated(&form),
        None => None,
    }
}

// the form plus a number of an interval, if its numbers are small
pub(crate) fn widened(form: &Lin, error: Interval) -> Option<Lin>
    requires form { form.now.constant.low ≤ℤ form.now.constant.high }
    requires error { error.low ≤ℤ error.high }
    ensures value { result ≡ widened_form form.now error }
    ensures of_pack { (size : ℕ) → IsOver size form.now → IfSome result (IsFormOf size) }
{
    lin_add(form, &constant(error))
}

// the form plus 1
fn one_more(form: &Lin) -> Option<Lin>
    requires { form.now.constant.low ≤ℤ form.now.constant.high }
    ensures value { result ≡ strictly true form.now }
    ensures of_pack { (size : ℕ) → IsOver size form.now → IfSome result (IsFormOf size) }
{
    widened(form, Interval { low: 1, high: 1 })
}

// the form that is at most 0 where this one is: at most 0 if it may be even, and else below 0
pub(crate) fn at_most(fine: bool, even: bool, form: Option<Lin>) -> Option<Lin>
    requires { IfSome form (λ f. f.constant.low ≤ℤ f.constant.high) }
    ensures value { result ≡ at_most fine even form }
    ensures of_pack { (size : ℕ) → IfSome form (IsFormOf size) → IfSome result (IsFormOf size) }
{
    match form {
        Some(form) if fine && !even => one_more(&form),
        other => other,
    }
}
