//! Assignments of forms.
ghost use Rattle.std.specs.Prelude.{◌≡◌, ◌≢◌, ℕ, ◌+◌, ◌*◌, ◌<◌, ◌≤◌, ◌≤ℤ◌, length, pos, slice_index_or, slice_set, ℤ, Option};
ghost use Rattle.diff_bounds.specs.Forms.{IsSmallForm};
ghost use Rattle.diff_bounds.specs.Matrix.{word, IsMatrix};
ghost use Rattle.diff_bounds.specs.Storages.{StandsIn};
ghost use Rattle.diff_bounds.specs.Numbers.{word_of};
ghost use Rattle.diff_bounds.specs.Upper.{coef_at};
ghost use Rattle.diff_bounds.specs.Values.{IsOver};
ghost use Rattle.diff_bounds.specs.Assigned.{upper_less, less_upper, AreAssigned, with_value, IsValue};

use crate::Lin;
use crate::form::altered::{has_less, less, negated};
use crate::form::bounds::upper;
use crate::matrix::words::NONE;

// as many words as a row can have
type Words = [i128; 9];

// the place of a word, where a row has so many
pub(crate) fn place_of(places: usize, row: usize, column: usize) -> usize
    requires few { places ≤ 9 }
    requires row { row < places }
    requires column { column < places }
    ensures value { result ≡ row * places + column }
    ensures within { result < places * places }
{
    row * places + column
}

// the bound of the form less the value at a place
fn row_word(size: usize, m: &[i128], form: &Lin, place: usize) -> i128
    requires size { size ≤ 8 }
    requires m { IsMatrix size m.now }
    requires form { IsSmallForm form.now }
    requires place { place ≤ size }
    ensures { result ≡ word_of (upper_less (word (size + 1) m.now) place (coef_at form.now.coefs) form.now.constant.high size) }
{
    if has_less(form, place) {
        upper(size, m, &less(form, place))
    } else {
        NONE
    }
}

// the bound of the value at a place less the form
fn column_word(size: usize, m: &[i128], form: &Lin, place: usize) -> i128
    requires size { size ≤ 8 }
    requires m { IsMatrix size m.now }
    requires form { IsSmallForm form.now }
    requires ordered { form.now.constant.low ≤ℤ form.now.constant.high }
    requires place { place ≤ size }
    ensures { result ≡ word_of (less_upper (word (size + 1) m.now) place (coef_at form.now.coefs) form.now.constant.low size) }
{
    if has_less(form, place) {
        upper(size, m, &negated(&less(form, place)))
    } else {
        NONE
    }
}

// puts a word, but for the diagonal
fn put_off_diagonal(places: usize, m: &mut [i128], row: usize, column: usize, word: i128)
    requires few { places ≤ 9 }
    requires width { length m.old ≡ places * places }
    requires row { row < places }
    requires column { column < places }
    ensures kept { row ≡ column → m.new ≡ m.old }
    ensures put { row ≢ column → m.new ≡ slice_set m.old (row * places + column) word }
{
    if row == column {
        return;
    }
    m[place_of(places, row, column)] = word;
}

// puts words into a row, but for the diagonal
pub(crate) fn put_row(places: usize, m: &mut [i128], row: usize, words: &[i128])
    requires few { places ≤ 9 }
    requires width { length m.old ≡ places * places }
    requires row { row < places }
    requires room { places ≤ length words.now }
    ensures row { (j : ℕ) → j < places → j ≢ row → word places m.new row j ≡ slice_index_or words.now j (pos 0) }
    ensures others { (i j : ℕ) → i < places → j < places → i ≢ row → word places m.new i j ≡ word places m.old i j }
    ensures diagonal { word places m.new row row ≡ word places m.old row row }
{
    for column in 0..places {
        put_off_diagonal(places, m, row, column, words[column]);
    }
}

// puts words into a column, but for the diagonal
pub(crate) fn put_column(places: usize, m: &mut [i128], column: usize, words: &[i128])
    requires few { places ≤ 9 }
    requires width { length m.old ≡ places * places }
    requires column { column < places }
    requires room { places ≤ length words.now }
    ensures column { (i : ℕ) → i < places → i ≢ column → word places m.new i column ≡ slice_index_or words.now i (pos 0) }
    ensures others { (i j : ℕ) → i < places → j < places → j ≢ column → word places m.new i j ≡ word places m.old i j }
    ensures diagonal { word places m.new column column ≡ word places m.old column column }
{
    for row in 0..places {
        put_off_diagonal(places, m, row, column, words[row]);
    }
}

// the words of the row of a cell to which the form is assigned
fn row_words(size: usize, m: &[i128], form: &Lin, words: &mut [i128])
    requires size { size ≤ 8 }
    requires m { IsMatrix size m.now }
    requires form { IsSmallForm form.now }
    requires room { size + 1 ≤ length words.old }
    ensures { (j : ℕ) → j < size + 1 → slice_index_or words.new j (pos 0) ≡ word_of (upper_less (word (size + 1) m.now) j (coef_at form.now.coefs) form.now.constant.high size) }
{
    for place in 0..size + 1 {
        words[place] = row_word(size, m, form, place);
    }
}

// the words of its column
fn column_words(size: usize, m: &[i128], form: &Lin, words: &mut [i128])
    requires size { size ≤ 8 }
    requires m { IsMatrix size m.now }
    requires form { IsSmallForm form.now }
    requires ordered { form.now.constant.low ≤ℤ form.now.constant.high }
    requires room { size + 1 ≤ length words.old }
    ensures { (i : ℕ) → i < size + 1 → slice_index_or words.new i (pos 0) ≡ word_of (less_upper (word (size + 1) m.now) i (coef_at form.now.coefs) form.now.constant.low size) }
{
    for place in 0..size + 1 {
        words[place] = column_word(size, m, form, place);
    }
}

/// Makes the words of a cell's row and of its column bounds of the form, as the matrix was, and keeps the others.
///
/// Where values stand in the matrix and one of the numbers that the form can be is assigned to the cell, the values
/// behind the assignment stand in what is left. A word is none where a coefficient of the form less a value would
/// reach 10^37 in absolute value.
pub fn assign(size: usize, m: &mut [i128], to: usize, form: &Lin)
    requires size { size ≤ 8 }
    requires m { IsMatrix size m.old }
    requires first { 1 ≤ to }
    requires last { to ≤ size }
    requires form { IsSmallForm form.now }
    requires ordered { form.now.constant.low ≤ℤ form.now.constant.high }
    requires over { IsOver size form.now }
    ensures words { AreAssigned size (word (size + 1) m.old) to form.now (word (size + 1) m.new) }
    ensures matrix { IsMatrix size m.new }
    ensures meaning { (cells : ℕ → Option ℤ) (z : ℤ) → StandsIn (size + 1) (word (size + 1) m.old) cells → IsValue size cells form.now z
        → StandsIn (size + 1) (word (size + 1) m.new) (with_value cells to z) }
{
    let mut row: Words = [NONE; 9];
    row_words(size, m, form, &mut row);
    let mut column: Words = [NONE; 9];
    column_words(size, m, form, &mut column);
    put_row(size + 1, m, to, &row);
    put_column(size + 1, m, to, &column);
}
