//! The closing of a matrix: least sums over all paths.
ghost use Rattle.std.specs.Prelude.{◌≡◌, ◌≢◌, ℕ, ◌+◌, ◌*◌, ◌<◌, ◌≤◌, ◌↔◌, length, pos, false, IsTrue, slice_index_or, ℤ, Option};
ghost use Rattle.diff_bounds.specs.Matrix.{word, IsMatrix, IsWord};
ghost use Rattle.diff_bounds.specs.Paths.{cut_of, HasNoNegativeCycle, IsClosure};
ghost use Rattle.diff_bounds.specs.Storages.{StandsIn};
ghost use Rattle.diff_bounds.specs.Sums.{IsShort, IsSumOf, IsLesser, IsThrough, IsTight, IsNegativeTrip, NegativeCycle};

use crate::matrix::words::{LARGEST, NONE, place_of};

// no path between two places
const NO_PATH: i128 = i128::MAX;

// the lesser of the best sum so far and the sum of two sums
#[inline(always)]
fn lesser(best: i128, first: i128, second: i128) -> i128
    requires first { IsShort first }
    requires second { IsShort second }
    ensures { IsLesser best first second result }
{
    if first < NO_PATH && second < NO_PATH {
        best.min(first + second)
    } else {
        best
    }
}

// the word, with no path for none
#[inline(always)]
fn sum_of(word: i128) -> i128
    ensures { IsSumOf word result }
{
    if word < NONE { word } else { NO_PATH }
}

// a sum as a word
#[inline(always)]
fn cut(sum: i128) -> i128
    ensures { result ≡ cut_of sum }
{
    if LARGEST < sum {
        NONE
    } else {
        sum.max(-LARGEST)
    }
}

// puts no path where there is no bound
fn open_sums(m: &mut [i128])
    ensures { (k : ℕ) → k < length m.old → IsSumOf (slice_index_or m.old k (pos 0)) (slice_index_or m.new k (pos 0)) }
{
    for k in 0..m.len() {
        m[k] = sum_of(m[k]);
    }
}

// cuts each sum
fn cut_sums(m: &mut [i128])
    ensures { (k : ℕ) → k < length m.old → slice_index_or m.new k (pos 0) ≡ cut_of (slice_index_or m.old k (pos 0)) }
{
    for k in 0..m.len() {
        m[k] = cut(m[k]);
    }
}

// lets the sums of a row go through one more place
fn lower_row(places: usize, m: &mut [i128], via: usize, row: usize)
    requires few { places ≤ 9 }
    requires width { length m.old ≡ places * places }
    requires via { via < places }
    requires row { row < places }
    requires first { IsShort (word places m.old row via) }
    requires second { (j : ℕ) → j < places → IsShort (word places m.old via j) }
    ensures row { (j : ℕ) → j < places → IsLesser (word places m.old row j) (word places m.old row via) (word places m.old via j) (word places m.new row j) }
    ensures others { (i j : ℕ) → i < places → j < places → i ≢ row → word places m.new i j ≡ word places m.old i j }
{
    let first = m[place_of(places, row, via)];
    if first < NO_PATH {
        for column in 0..places {
            let second = m[place_of(places, via, column)];
            let at = place_of(places, row, column);
            m[at] = lesser(m[at], first, second);
        }
    }
}

// lets the sums go through one more place, unless a round trip to it is negative
fn go_through(places: usize, m: &mut [i128], via: usize) -> bool
    requires few { places ≤ 9 }
    requires width { length m.old ≡ places * places }
    requires via { via < places }
    requires short { (i j : ℕ) → i < places → j < places → IsShort (word places m.old i j) }
    requires diagonal { (i : ℕ) → i < places → word places m.old i i ≡ pos 0 }
    ensures through { IsTrue result → IsThrough places via (word places m.old) (word places m.new) }
    ensures diagonal { IsTrue result → (i : ℕ) → i < places → word places m.new i i ≡ pos 0 }
    ensures negative { result ≡ false → (i : ℕ) × (i < places) × IsNegativeTrip (word places m.old) i via }
{
    for row in 0..places {
        lower_row(places, m, via, row);
        if m[place_of(places, row, row)] < 0 {
            return false;
        }
    }
    true
}

// puts the least sums, unless a cycle is negative
fn least_sums(places: usize, m: &mut [i128]) -> bool
    requires few { places ≤ 9 }
    requires width { length m.old ≡ places * places }
    requires words { (i j : ℕ) → i < places → j < places → IsWord (word places m.old i j) }
    requires diagonal { (i : ℕ) → i < places → word places m.old i i ≡ pos 0 }
    ensures least { IsTrue result → IsTight places places (word places m.old) (word places m.new) }
    ensures negative { result ≡ false → NegativeCycle places (word places m.old) }
{
    open_sums(m);
    for via in 0..places {
        if !go_through(places, m, via) {
            return false;
        }
    }
    true
}

/// Puts in each word the least sum of words over all paths from its row to its column, if no cycle has a
/// negative sum, and says whether that is so.
///
/// Each sum is taken over a whole path and then cut: above 10^37 it is none, and below -10^37 it is -10^37.
/// After `false` the words are not to be used. The sums are found by Floyd's and Warshall's algorithm.
pub fn close(size: usize, m: &mut [i128]) -> bool
    requires size { size ≤ 8 }
    requires m { IsMatrix size m.old }
    ensures cycles { IsTrue result ↔ HasNoNegativeCycle (size + 1) (word (size + 1) m.old) }
    ensures sums { IsTrue result → IsClosure (size + 1) (word (size + 1) m.old) (word (size + 1) m.new) }
    ensures matrix { IsTrue result → IsMatrix size m.new }
    ensures meaning { IsTrue result → (cells : ℕ → Option ℤ) → StandsIn (size + 1) (word (size + 1) m.old) cells ↔ StandsIn (size + 1) (word (size + 1) m.new) cells }
    ensures empty { result ≡ false → (cells : ℕ → Option ℤ) → ¬ StandsIn (size + 1) (word (size + 1) m.old) cells }
{
    let places = size + 1;
    if !least_sums(places, m) {
        return false;
    }
    cut_sums(m);
    true
}
