//! Sums and multiples of linear forms.
ghost use Rattle.std.specs.Prelude.{◌≡◌, ℕ, ℤ, ◌≤ℤ◌, SomeIff, IfSome};
ghost use Rattle.interval_domain.specs.Bounds.{IsLeast};
ghost use Rattle.interval_domain.specs.Results.{IsSum};
ghost use Rattle.interval_domain.specs.Corners.{span};
ghost use Rattle.diff_bounds.specs.Forms.{values, coefs_of, together, AreSmallCoefs, IsSmallConstant, IsSmallForm, if_small};
ghost use Rattle.diff_bounds.specs.Results.{sum_of, multiple_of, added_coefs, scaled_coefs, added_constant, scaled_constant, IsExactly, IsMultiple};

use crate::form::lin::{CELLS, Lin};
use crate::form::small::{small_product, small_sum};
use interval_domain::Interval;

// the form, where both parts are there
fn put_together(coefs: Option<[i128; 8]>, constant: Option<Interval>) -> Option<Lin>
    ensures { result ≡ together coefs constant }
{
    match (coefs, constant) {
        (Some(coefs), Some(constant)) => Some(Lin { coefs, constant }),
        (Some(_), None) => None,
        (None, _) => None,
    }
}

// the sum of both coefficients of each cell, if all are small
fn coef_sums(a: &Lin, b: &Lin) -> Option<[i128; 8]>
    ensures { SomeIff result (AreSmallCoefs (added_coefs a.now b.now)) (coefs_of (added_coefs a.now b.now)) }
{
    let mut coefs = [0; CELLS];
    for k in 0..CELLS {
        coefs[k] = small_sum(a.coefs[k], b.coefs[k])?;
    }
    Some(coefs)
}

// the sums of the ends, if both are small
fn constant_sum(a: Interval, b: Interval) -> Option<Interval>
    ensures { SomeIff result (IsSmallConstant (added_constant a b)) (added_constant a b) }
{
    Some(Interval {
        low: small_sum(a.low, b.low)?,
        high: small_sum(a.high, b.high)?,
    })
}

/// The form whose values are the sums of a value of `a` and a value of `b`, whatever the cells hold. None
/// exactly where a coefficient or an end of the constant would not be below 10^37 in absolute value.
pub fn lin_add(a: &Lin, b: &Lin) -> Option<Lin>
    requires a { a.now.constant.low ≤ℤ a.now.constant.high }
    requires b { b.now.constant.low ≤ℤ b.now.constant.high }
    ensures small { SomeIff result (IsSmallForm (sum_of a.now b.now)) (sum_of a.now b.now) }
    ensures computed { result ≡ if_small (sum_of a.now b.now) }
    ensures values { IfSome result (λ f. (cells : ℕ → ℤ) →
        IsExactly (IsSum (values a.now cells) (values b.now cells)) (values f cells)) }
    ensures ordered { IfSome result (λ f. f.constant.low ≤ℤ f.constant.high) }
{
    put_together(coef_sums(a, b), constant_sum(a.constant, b.constant))
}

// each coefficient times the factor, if all products are small
fn coef_multiples(a: &Lin, by: i128) -> Option<[i128; 8]>
    ensures { SomeIff result (AreSmallCoefs (scaled_coefs a.now by)) (coefs_of (scaled_coefs a.now by)) }
{
    let mut coefs = [0; CELLS];
    for k in 0..CELLS {
        coefs[k] = small_product(a.coefs[k], by)?;
    }
    Some(coefs)
}

// the interval from the lesser to the greater of two numbers
fn between(x: i128, y: i128) -> Interval
    ensures { result ≡ span x y }
{
    Interval {
        low: x.min(y),
        high: x.max(y),
    }
}

// the ends times the factor, if both products are small
fn constant_multiple(a: Interval, by: i128) -> Option<Interval>
    ensures { SomeIff result (IsSmallConstant (scaled_constant a by)) (scaled_constant a by) }
{
    let one = small_product(a.low, by)?;
    let other = small_product(a.high, by)?;
    Some(between(one, other))
}

/// The form whose values are the least interval that holds `by` times each value of `a`, whatever the cells
/// hold. None exactly where a coefficient or an end of the constant would not be below 10^37 in absolute value.
pub fn lin_scale(a: &Lin, by: i128) -> Option<Lin>
    requires { a.now.constant.low ≤ℤ a.now.constant.high }
    ensures small { SomeIff result (IsSmallForm (multiple_of a.now by)) (multiple_of a.now by) }
    ensures computed { result ≡ if_small (multiple_of a.now by) }
    ensures values { IfSome result (λ f. (cells : ℕ → ℤ) →
        IsLeast (IsMultiple (values a.now cells) by) (values f cells)) }
    ensures ordered { IfSome result (λ f. f.constant.low ≤ℤ f.constant.high) }
{
    put_together(coef_multiples(a, by), constant_multiple(a.constant, by))
}
