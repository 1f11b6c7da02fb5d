//! Matrices that are closed anew where one row and its column have changed.
ghost use Rattle.std.specs.Prelude.{◌≡◌, ◌≢◌, ◌⊎◌, ◌+◌, ◌<◌, ◌≤◌, length, IsTrue};
ghost use Rattle.diff_bounds.specs.Matrix.{word, IsMatrix};
ghost use Rattle.diff_bounds.specs.Settled.{IsTightBut};

use crate::inputs::{Input, bound_of};
use crate::shown::Answer;
use diff_bounds::{add_bound, assign, close, close_row, closed_words_are_tight, settled};

// lowers a word of one row or of its column
#[tactic(auto, using(diff_bounds::proofs::Tight::tight_but_one))]
fn lower(m: &mut [i128; 81], at: usize, row: usize, column: usize, number: i128)
    requires matrix { IsMatrix 8 m.old }
    requires tight { IsTightBut 9 at (word 9 m.old) }
    requires row { row ≤ 8 }
    requires column { column ≤ 8 }
    requires different { row ≢ column }
    requires one { (row ≡ at) ⊎ (column ≡ at) }
    ensures matrix { IsMatrix 8 m.new }
    ensures tight { IsTightBut 9 at (word 9 m.new) }
{
    if let Some(most) = bound_of(number) {
        add_bound(8, m, row, column, most);
    }
}

// lowers the words of one row and of its column
fn lower_all(m: &mut [i128; 81], at: usize, row: &[i128], column: &[i128])
    requires matrix { IsMatrix 8 m.old }
    requires tight { IsTightBut 9 at (word 9 m.old) }
    requires at { at ≤ 8 }
    requires row { length row.now ≡ 9 }
    requires column { length column.now ≡ 9 }
    ensures matrix { IsMatrix 8 m.new }
    ensures tight { IsTightBut 9 at (word 9 m.new) }
{
    for place in 0..9usize {
        if place != at {
            lower(m, at, at, place, row[place]);
            lower(m, at, place, at, column[place]);
        }
    }
}

// closes the matrix, and says whether it is settled then
fn is_tight(m: &mut [i128; 81]) -> bool
    requires { IsMatrix 8 m.old }
    ensures matrix { IsTrue result → IsMatrix 8 m.new }
    ensures tight { IsTrue result → (at : _) → IsTightBut 9 at (word 9 m.new) }
{
    if !close(8, m) {
        return false;
    }
    closed_words_are_tight(8);
    settled(8, m)
}

// the words with the row closed
fn row_closed(m: &[i128; 81], at: usize) -> Answer
    requires m { IsMatrix 8 m.now }
    requires at { at ≤ 8 }
    requires tight { IsTightBut 9 at (word 9 m.now) }
{
    let mut words = *m;
    if close_row(8, &mut words, at) {
        Answer::Words(words)
    } else {
        Answer::None
    }
}

/// The words of a matrix that is closed, lowered in one row and in its column, and closed anew.
pub fn row_case(m: &[i128; 81], at: usize, row: &[i128], column: &[i128]) -> Option<Answer>
    requires m { IsMatrix 8 m.now }
    requires at { at ≤ 8 }
    requires row { length row.now ≡ 9 }
    requires column { length column.now ≡ 9 }
{
    let mut words = *m;
    if !is_tight(&mut words) {
        return None;
    }
    lower_all(&mut words, at, row, column);
    Some(row_closed(&words, at))
}

/// The words of a matrix that is closed, and closed anew behind an assignment.
#[tactic(auto, using(crate::proofs::Whole::over_all, crate::proofs::Whole::tight_behind))]
pub fn reclose_case(input: &Input, to: usize) -> Option<Answer>
    requires first { 1 ≤ to }
    requires last { to ≤ 8 }
{
    let mut words = input.words;
    if !is_tight(&mut words) {
        return None;
    }
    assign(8, &mut words, to, &input.form);
    Some(row_closed(&words, to))
}
