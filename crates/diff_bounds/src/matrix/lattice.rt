//! Bounds added, the order, the join and the widening of matrices.
ghost use Rattle.std.specs.Prelude.{◌≡◌, ◌≢◌, ℕ, ◌+◌, ◌<◌, ◌≤◌, ◌↔◌, ◌⊎◌, List, ℤ, pos, neg_ℤ, ◌≤ℤ◌, ◌<ℤ◌, Option, length, false, IsTrue, slice_index_or};
ghost use Rattle.std.specs.Int.{int_min};
ghost use Rattle.diff_bounds.specs.Matrix.{word, none, largest, IsMatrix, IsWord};
ghost use Rattle.diff_bounds.specs.Storages.{StandsIn, DifferBy, value_at};
ghost use Rattle.diff_bounds.specs.Order.{IsAtMost, IsJoin, IsLeastAbove};
ghost use Rattle.diff_bounds.specs.Widening.{AreThresholds, IsNext, IsWidened, AreWidened};
ghost use Rattle.diff_bounds.specs.Lattice.{joined, widened};

use crate::matrix::words::{NONE, place_of, word_count};

/// Bounds the value at `row` minus the value at `column` by `most`, where no lesser bound is there yet.
pub fn add_bound(size: usize, m: &mut [i128], row: usize, column: usize, most: i128)
    requires size { size ≤ 8 }
    requires m { IsMatrix size m.old }
    requires row { row ≤ size }
    requires column { column ≤ size }
    requires different { row ≢ column }
    requires low { neg_ℤ largest ≤ℤ most }
    requires high { most ≤ℤ largest }
    ensures lowered { word (size + 1) m.new row column ≡ int_min (word (size + 1) m.old row column) most }
    ensures others { (i j : ℕ) → i ≤ size → j ≤ size → (i ≢ row) ⊎ (j ≢ column) → word (size + 1) m.new i j ≡ word (size + 1) m.old i j }
    ensures matrix { IsMatrix size m.new }
    ensures meaning { (cells : ℕ → Option ℤ) → StandsIn (size + 1) (word (size + 1) m.new) cells
        ↔ (StandsIn (size + 1) (word (size + 1) m.old) cells × DifferBy most (value_at cells row) (value_at cells column)) }
{
    let at = place_of(size + 1, row, column);
    m[at] = m[at].min(most);
}

/// Whether each word of `a` is at most the word of `b`.
pub fn leq(size: usize, a: &[i128], b: &[i128]) -> bool
    requires size { size ≤ 8 }
    requires a { IsMatrix size a.now }
    requires b { IsMatrix size b.now }
    ensures { IsTrue result ↔ IsAtMost a.now b.now }
{
    for k in 0..word_count(size) {
        if b[k] < a[k] {
            return false;
        }
    }
    true
}

/// Makes `a` the least matrix above both: each word is the greater of the two.
pub fn join(size: usize, a: &mut [i128], b: &[i128])
    requires size { size ≤ 8 }
    requires a { IsMatrix size a.old }
    requires b { IsMatrix size b.now }
    ensures words { IsJoin a.old b.now a.new }
    ensures least { IsLeastAbove a.old b.now a.new }
    ensures matrix { IsMatrix size a.new }
    ensures row { a.new ≡ joined size a.old b.now }
{
    for k in 0..word_count(size) {
        a[k] = a[k].max(b[k]);
    }
}

// the threshold, if it isn't below z and is less than the least so far
fn nearer(least: i128, threshold: i128, z: i128) -> i128
    ensures kept { result ≤ℤ least }
    ensures taken { z ≤ℤ threshold → result ≤ℤ threshold }
    ensures one { (result ≡ least) ⊎ ((z ≤ℤ threshold) × (result ≡ threshold)) }
{
    if z <= threshold && threshold < least {
        threshold
    } else {
        least
    }
}

// the least threshold at or above z, or none
fn next_threshold(thresholds: &[i128], z: i128) -> i128
    requires z { z ≤ℤ none }
    ensures { IsNext thresholds.now z result }
{
    let mut least = NONE;
    for k in 0..thresholds.len() {
        least = nearer(least, thresholds[k], z);
    }
    least
}

// kept, or moved to the next threshold
fn widened_word(old: i128, reached: i128, thresholds: &[i128]) -> i128
    requires reached { reached ≤ℤ none }
    ensures { IsWidened thresholds.now old reached result }
{
    if old < reached {
        next_threshold(thresholds, reached)
    } else {
        old
    }
}

// widens each word
fn widen_words(size: usize, a: &mut [i128], b: &[i128], thresholds: &[i128])
    requires size { size ≤ 8 }
    requires a { IsMatrix size a.old }
    requires b { IsMatrix size b.now }
    requires thresholds { AreThresholds thresholds.now }
    ensures words { AreWidened thresholds.now a.old b.now a.new }
    ensures matrix { IsMatrix size a.new }
    ensures row { a.new ≡ widened size thresholds.now a.old b.now }
{
    for k in 0..word_count(size) {
        a[k] = widened_word(a[k], b[k], thresholds);
    }
}

/// Widens `a` by `b`, and says whether a word grew.
///
/// A word that doesn't grow is kept, so that the matrix isn't closed. One that grows goes to the least
/// threshold at or above it, or to none where there is no such threshold (Cousot and Cousot 1977).
pub fn widen(size: usize, a: &mut [i128], b: &[i128], thresholds: &[i128]) -> bool
    requires size { size ≤ 8 }
    requires a { IsMatrix size a.old }
    requires b { IsMatrix size b.now }
    requires thresholds { AreThresholds thresholds.now }
    ensures words { AreWidened thresholds.now a.old b.now a.new }
    ensures grows { (result ≡ false) ↔ IsAtMost b.now a.old }
    ensures matrix { IsMatrix size a.new }
    ensures row { a.new ≡ widened size thresholds.now a.old b.now }
{
    let grows = !leq(size, b, a);
    widen_words(size, a, b, thresholds);
    grows
}
