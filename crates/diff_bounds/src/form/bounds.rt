//! The bounds that a matrix shows of a form.
ghost use Rattle.std.specs.Prelude.{◌≡◌, ℕ, ◌+◌, ◌*◌, ◌^◌, ◌<◌, ◌≤◌, ℤ, pos, neg_ℤ, ◌≤ℤ◌, unsigned_abs, length, Some, IsTrue, false};
ghost use Rattle.diff_bounds.specs.Forms.{IsSmallForm};
ghost use Rattle.diff_bounds.specs.Matrix.{word, IsMatrix, IsWord};
ghost use Rattle.diff_bounds.specs.Numbers.{number_of, word_of, added, times};
ghost use Rattle.diff_bounds.specs.Upper.{terms, without, by_zero, by_pair, least_to, upper, coef_at, upper_of};
ghost use Rattle.diff_bounds.specs.FormSums.{sum_of, IsWithin, AreCoefs, ArePair};

use crate::Lin;
use crate::form::sums::{cut_whole, plus, plus_pair, scaled};
use crate::form::terms::{place_of, terms_of};
use crate::matrix::words::NONE;

// the form's bound by row 0
#[tactic(auto, using(crate::proofs::Signs::terms_without_none))]
fn bound_by_zero(size: usize, m: &[i128], coefs: &[i128], high: i128) -> i128
    requires size { size ≤ 8 }
    requires m { IsMatrix size m.now }
    requires coefs { AreCoefs size coefs.now }
    requires high { unsigned_abs high < 10 ^ 37 }
    ensures { result ≡ word_of (by_zero (word (size + 1) m.now) (coef_at coefs.now) high size) }
{
    cut_whole(plus(terms_of(size, m, coefs, 0, 0), high))
}

// the pair's term, by the bound of the difference
fn pair_part(size: usize, m: &[i128], factor: i128, x: usize, y: usize) -> i128
    requires size { size ≤ 8 }
    requires m { IsMatrix size m.now }
    requires factor { pos 1 ≤ℤ factor }
    requires x { x ≤ size }
    requires y { y ≤ size }
    ensures value { sum_of result ≡ times (unsigned_abs factor) (number_of (word (size + 1) m.now x y)) }
    ensures small { IsWithin 1 result }
{
    scaled(factor, m[place_of(size + 1, x, y)])
}

// the other terms and the constant
fn rest_part(size: usize, m: &[i128], coefs: &[i128], high: i128, x: usize, y: usize) -> i128
    requires size { size ≤ 8 }
    requires m { IsMatrix size m.now }
    requires coefs { AreCoefs size coefs.now }
    requires high { unsigned_abs high < 10 ^ 37 }
    ensures value { sum_of result ≡ added (terms (word (size + 1) m.now) (without x y (coef_at coefs.now)) size) (Some high) }
    ensures small { IsWithin 9 result }
{
    plus(terms_of(size, m, coefs, x, y), high)
}

// a factor above 0 and its opposite
fn is_pair(factor: i128, other: i128) -> bool
    requires factor { unsigned_abs factor < 10 ^ 37 }
    requires other { unsigned_abs other < 10 ^ 37 }
    ensures pair { IsTrue result → ArePair factor other }
    ensures apart { result ≡ false → ¬ ArePair factor other }
{
    if factor < 1 {
        return false;
    }
    let sum = factor + other;
    if sum < 0 {
        return false;
    }
    sum < 1
}

// the form's bound by the difference of two places, where their coefficients are opposite
#[tactic(auto, using(crate::proofs::Signs::pair_apart))]
fn bound_by_pair(size: usize, m: &[i128], coefs: &[i128], high: i128, x: usize, y: usize) -> i128
    requires size { size ≤ 8 }
    requires m { IsMatrix size m.now }
    requires coefs { AreCoefs size coefs.now }
    requires high { unsigned_abs high < 10 ^ 37 }
    requires x { (1 ≤ x) × (x ≤ size) }
    requires y { (1 ≤ y) × (y ≤ size) }
    ensures { result ≡ word_of (by_pair (word (size + 1) m.now) (coef_at coefs.now) high size x y (coef_at coefs.now x) (coef_at coefs.now y)) }
{
    let factor = coefs[x - 1];
    let other = coefs[y - 1];
    if !is_pair(factor, other) {
        return NONE;
    }
    let rest = rest_part(size, m, coefs, high, x, y);
    cut_whole(plus_pair(pair_part(size, m, factor, x, y), rest))
}

// the least of the bounds by pairs with one place
fn bound_by_pairs(size: usize, m: &[i128], coefs: &[i128], high: i128, x: usize) -> i128
    requires size { size ≤ 8 }
    requires m { IsMatrix size m.now }
    requires coefs { AreCoefs size coefs.now }
    requires high { unsigned_abs high < 10 ^ 37 }
    requires x { (1 ≤ x) × (x ≤ size) }
    ensures { result ≡ word_of (least_to size (λ y. by_pair (word (size + 1) m.now) (coef_at coefs.now) high size x y (coef_at coefs.now x) (coef_at coefs.now y))) }
{
    let mut best = NONE;
    for k in 0..size {
        best = best.min(bound_by_pair(size, m, coefs, high, x, k + 1));
    }
    best
}

// the least of all bounds
fn least_bound(size: usize, m: &[i128], coefs: &[i128], high: i128) -> i128
    requires size { size ≤ 8 }
    requires m { IsMatrix size m.now }
    requires coefs { AreCoefs size coefs.now }
    requires high { unsigned_abs high < 10 ^ 37 }
    ensures { result ≡ word_of (upper (word (size + 1) m.now) (coef_at coefs.now) high size) }
{
    let mut best = NONE;
    for k in 0..size {
        best = best.min(bound_by_pairs(size, m, coefs, high, k + 1));
    }
    let first = bound_by_zero(size, m, coefs, high);
    first.min(best)
}

/// The least bound that the matrix shows of the form, as a word: 10^38 where it shows none.
pub fn upper(size: usize, m: &[i128], form: &Lin) -> i128
    requires size { size ≤ 8 }
    requires m { IsMatrix size m.now }
    requires form { IsSmallForm form.now }
    ensures bound { result ≡ word_of (upper_of size m.now form.now) }
    ensures word { IsWord result }
{
    least_bound(size, m, &form.coefs, form.constant.high)
}
