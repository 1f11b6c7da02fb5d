//! Demands that a form is at most 0.
ghost use Rattle.std.specs.Prelude.{◌≡◌, ℕ, ◌+◌, ◌*◌, ◌/◌, ◌%◌, ◌^◌, ◌<◌, ◌≤◌, ◌≤ℤ◌, length, pos, slice_index_or, unsigned_abs, List, ℤ, Option};
ghost use Rattle.std.specs.Int.{int_min};
ghost use Rattle.diff_bounds.specs.Forms.{IsSmallForm};
ghost use Rattle.diff_bounds.specs.Matrix.{word, IsMatrix, IsWord};
ghost use Rattle.diff_bounds.specs.Storages.{StandsIn};
ghost use Rattle.diff_bounds.specs.Numbers.{number_of, word_of};
ghost use Rattle.diff_bounds.specs.Upper.{coef_at};
ghost use Rattle.diff_bounds.specs.Values.{IsOver};
ghost use Rattle.diff_bounds.specs.Demanded.{divided, if_positive, if_opposite, factor, demanded, lowered, AreDemanded, IsMet};

use crate::Lin;
use crate::form::altered::{negated, without};
use crate::form::bounds::upper;
use crate::matrix::words::NONE;

// the first of two coefficients, where the other one is its opposite
fn opposite_factor(first: i128, second: i128) -> i128
    requires first { unsigned_abs first < 10 ^ 37 }
    requires second { unsigned_abs second < 10 ^ 37 }
    ensures { if_positive result ≡ if_opposite first second }
{
    if first + second == 0 { first } else { 0 }
}

// the factor of the difference of two values, if above 0
fn factor_of(form: &Lin, row: usize, column: usize) -> i128
    requires form { IsSmallForm form.now }
    requires row { row ≤ 8 }
    requires column { column ≤ 8 }
    ensures { if_positive result ≡ factor (coef_at form.now.coefs) row column }
{
    if row == 0 {
        if column == 0 {
            0
        } else {
            -form.coefs[column - 1]
        }
    } else if column == 0 {
        form.coefs[row - 1]
    } else {
        opposite_factor(form.coefs[row - 1], form.coefs[column - 1])
    }
}

// the bound divided, rounded down
fn quotient(bound: i128, factor: i128) -> i128
    requires bound { IsWord bound }
    requires factor { pos 1 ≤ℤ factor }
    ensures { result ≡ word_of (divided (number_of bound) (unsigned_abs factor)) }
{
    if NONE <= bound {
        NONE
    } else {
        bound.div_euclid(factor)
    }
}

// what the demand bounds the difference of two values by
fn demanded_word(size: usize, m: &[i128], form: &Lin, row: usize, column: usize) -> i128
    requires size { size ≤ 8 }
    requires m { IsMatrix size m.now }
    requires form { IsSmallForm form.now }
    requires ordered { form.now.constant.low ≤ℤ form.now.constant.high }
    requires row { row ≤ size }
    requires column { column ≤ size }
    ensures { result ≡ word_of (demanded (word (size + 1) m.now) (coef_at form.now.coefs) form.now.constant.low size row column) }
{
    let factor = factor_of(form, row, column);
    if factor < 1 {
        return NONE;
    }
    let rest = negated(&without(form, row, column));
    quotient(upper(size, m, &rest), factor)
}

// lowers each word by what the demand bounds its difference by over the old matrix
fn lower_words(size: usize, m: &mut [i128], old: &[i128], form: &Lin)
    requires size { size ≤ 8 }
    requires old { IsMatrix size old.now }
    requires same { m.old ≡ old.now }
    requires form { IsSmallForm form.now }
    requires ordered { form.now.constant.low ≤ℤ form.now.constant.high }
    ensures { (k : ℕ) → k < length m.old → slice_index_or m.new k (pos 0)
        ≡ lowered (word (size + 1) m.old) (coef_at form.now.coefs) form.now.constant.low size (k / (size + 1)) (k % (size + 1)) }
{
    let places = size + 1;
    for k in 0..m.len() {
        m[k] = m[k].min(demanded_word(size, old, form, k / places, k % places));
    }
}

/// Lowers the words by the demand that the form is at most 0, each by a bound over the matrix as it was.
///
/// Where values stand in the matrix and one of the numbers that the form can be is at most 0, they stand in what is
/// left.
pub fn demand(size: usize, m: &mut [i128], form: &Lin)
    requires size { size ≤ 8 }
    requires m { IsMatrix size m.old }
    requires form { IsSmallForm form.now }
    requires ordered { form.now.constant.low ≤ℤ form.now.constant.high }
    requires over { IsOver size form.now }
    ensures words { AreDemanded size (word (size + 1) m.old) form.now (word (size + 1) m.new) }
    ensures matrix { IsMatrix size m.new }
    ensures meaning { (cells : ℕ → Option ℤ) → StandsIn (size + 1) (word (size + 1) m.old) cells → IsMet size cells form.now
        → StandsIn (size + 1) (word (size + 1) m.new) cells }
{
    let mut room = [0; 81];
    let old = &mut room[..m.len()];
    old.copy_from_slice(m);
    lower_words(size, m, old, form);
}
