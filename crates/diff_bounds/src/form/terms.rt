//! The terms of a form, each by the bound of its value against 0.
ghost use Rattle.std.specs.Prelude.{◌≡◌, ◌+◌, ◌*◌, ◌^◌, ◌<◌, ◌≤◌, unsigned_abs, length};
ghost use Rattle.diff_bounds.specs.Matrix.{word, IsMatrix};
ghost use Rattle.diff_bounds.specs.Upper.{term, terms, without, coef_at};
ghost use Rattle.diff_bounds.specs.FormSums.{sum_of, IsWithin, AreCoefs};

use crate::form::sums::{plus, scaled};

// the place of a word, where a row has so many
pub(crate) fn place_of(places: usize, row: usize, column: usize) -> usize
    requires few { places ≤ 9 }
    requires row { row < places }
    requires column { column < places }
    ensures value { result ≡ row * places + column }
    ensures within { result < places * places }
{
    row * places + column
}

// a coefficient times the value at a place, by its bound against 0
#[tactic(auto, using(crate::proofs::Signs::term_zero))]
fn term_of(size: usize, m: &[i128], place: usize, coefficient: i128) -> i128
    requires size { size ≤ 8 }
    requires m { IsMatrix size m.now }
    requires place { place ≤ size }
    requires small { unsigned_abs coefficient < 10 ^ 37 }
    ensures value { sum_of result ≡ term (word (size + 1) m.now) place coefficient }
    ensures small { IsWithin 1 result }
{
    if coefficient == 0 {
        0
    } else if 0 < coefficient {
        scaled(coefficient, m[place_of(size + 1, place, 0)])
    } else {
        scaled(-coefficient, m[place_of(size + 1, 0, place)])
    }
}

// the coefficient of a place, but 0 for two of them
fn coefficient_of(coefs: &[i128], place: usize, x: usize, y: usize) -> i128
    requires first { 1 ≤ place }
    requires last { place ≤ length coefs.now }
    ensures { result ≡ without x y (coef_at coefs.now) place }
{
    if place == x || place == y {
        0
    } else {
        coefs[place - 1]
    }
}

// the form's terms but two
pub(crate) fn terms_of(size: usize, m: &[i128], coefs: &[i128], x: usize, y: usize) -> i128
    requires size { size ≤ 8 }
    requires m { IsMatrix size m.now }
    requires coefs { AreCoefs size coefs.now }
    ensures value { sum_of result ≡ terms (word (size + 1) m.now) (without x y (coef_at coefs.now)) size }
    ensures small { IsWithin 8 result }
{
    let mut total = 0;
    for k in 0..size {
        total = plus(
            total,
            term_of(size, m, k + 1, coefficient_of(coefs, k + 1, x, y)),
        );
    }
    total
}
