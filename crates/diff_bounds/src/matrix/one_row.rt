//! The closing of a matrix that is tight but for one row and its column.
ghost use Rattle.std.specs.Prelude.{◌≡◌, ◌≢◌, ℕ, ◌+◌, ◌*◌, ◌<◌, ◌≤◌, ◌≤ℤ◌, ◌↔◌, length, pos, false, IsTrue, slice_index_or, if◌then◌else◌, ℤ, Option, Some, None};
ghost use Rattle.diff_bounds.specs.Matrix.{word, IsMatrix, IsBound, IsWord};
ghost use Rattle.diff_bounds.specs.Paths.{HasNoNegativeCycle, IsClosure};
ghost use Rattle.diff_bounds.specs.Storages.{StandsIn};
ghost use Rattle.diff_bounds.specs.Closed.{closed};
ghost use Rattle.diff_bounds.specs.Settled.{IsTightBut};
ghost use Rattle.diff_bounds.specs.RowSums.{no_sum, IsPair, IsBetter, AreInto, AreFrom, IsNegative, IsNegativeAt, IsLowered, AreLowered};

use crate::matrix::words::{LARGEST, NONE, place_of};

// No sum. It is less than what none and a number add up to.
const NO_SUM: i128 = 50_000_000_000_000_000_000_000_000_000_000_000_000;

// as many sums as a matrix can have rows
type Sums = [i128; 9];

// the lesser of the best sum so far and the sum of two words; a sum with none is greater than every best one
#[inline(always)]
fn better(best: i128, number: i128, word: i128) -> i128
    requires best { best ≤ℤ no_sum }
    requires number { IsWord number }
    requires bound { IsBound number }
    requires word { IsWord word }
    ensures { IsBetter best number word result }
{
    best.min(number + word)
}

// lets the sums from each place to one go over one more place
fn lower_into(places: usize, m: &[i128], at: usize, over: usize, sums: &mut [i128])
    requires few { places ≤ 9 }
    requires width { length m.now ≡ places * places }
    requires words { (i j : ℕ) → i < places → j < places → IsWord (word places m.now i j) }
    requires at { at < places }
    requires over { over < places }
    requires room { places ≤ length sums.old }
    requires sums { (i : ℕ) → i < places → slice_index_or sums.old i (pos 0) ≤ℤ no_sum }
    ensures { (i : ℕ) → i < places → IsBetter (slice_index_or sums.old i (pos 0)) (word places m.now i over) (word places m.now over at) (slice_index_or sums.new i (pos 0)) }
{
    let number = m[place_of(places, over, at)];
    if number < NONE {
        for row in 0..places {
            sums[row] = better(sums[row], number, m[place_of(places, row, over)]);
        }
    }
}

// lets the sums from one place to each go over one more place
fn lower_from(places: usize, m: &[i128], at: usize, over: usize, sums: &mut [i128])
    requires few { places ≤ 9 }
    requires width { length m.now ≡ places * places }
    requires words { (i j : ℕ) → i < places → j < places → IsWord (word places m.now i j) }
    requires at { at < places }
    requires over { over < places }
    requires room { places ≤ length sums.old }
    requires sums { (j : ℕ) → j < places → slice_index_or sums.old j (pos 0) ≤ℤ no_sum }
    ensures { (j : ℕ) → j < places → IsBetter (slice_index_or sums.old j (pos 0)) (word places m.now at over) (word places m.now over j) (slice_index_or sums.new j (pos 0)) }
{
    let number = m[place_of(places, at, over)];
    if number < NONE {
        for column in 0..places {
            sums[column] = better(sums[column], number, m[place_of(places, over, column)]);
        }
    }
}

// the least sums from each place to one
fn sums_into(places: usize, m: &[i128], at: usize, sums: &mut [i128])
    requires few { places ≤ 9 }
    requires width { length m.now ≡ places * places }
    requires words { (i j : ℕ) → i < places → j < places → IsWord (word places m.now i j) }
    requires at { at < places }
    requires room { places ≤ length sums.old }
    requires none { (i : ℕ) → i < places → slice_index_or sums.old i (pos 0) ≡ no_sum }
    ensures { AreInto places at (word places m.now) sums.new }
{
    for over in 0..places {
        lower_into(places, m, at, over, sums);
    }
}

// the least sums from one place to each
fn sums_from(places: usize, m: &[i128], at: usize, sums: &mut [i128])
    requires few { places ≤ 9 }
    requires width { length m.now ≡ places * places }
    requires words { (i j : ℕ) → i < places → j < places → IsWord (word places m.now i j) }
    requires at { at < places }
    requires room { places ≤ length sums.old }
    requires none { (j : ℕ) → j < places → slice_index_or sums.old j (pos 0) ≡ no_sum }
    ensures { AreFrom places at (word places m.now) sums.new }
{
    for over in 0..places {
        lower_from(places, m, at, over, sums);
    }
}

// whether a word and a sum are both there and add up to less than 0
fn is_negative(word: i128, sum: i128) -> bool
    requires word { IsWord word }
    requires sum { IsPair sum }
    ensures { IsTrue result ↔ IsNegative word sum }
{
    if word < NONE && sum < NO_SUM {
        word + sum < 0
    } else {
        false
    }
}

// whether a round trip from the place is negative
fn is_negative_trip(places: usize, m: &[i128], at: usize, into: &[i128]) -> bool
    requires few { places ≤ 9 }
    requires width { length m.now ≡ places * places }
    requires words { (i j : ℕ) → i < places → j < places → IsWord (word places m.now i j) }
    requires at { at < places }
    requires room { places ≤ length into.now }
    requires into { AreInto places at (word places m.now) into.now }
    ensures some { IsTrue result → (v : ℕ) × (v < places) × IsNegativeAt at (word places m.now) into.now v }
    ensures none { result ≡ false → (v : ℕ) → v < places → ¬ IsNegativeAt at (word places m.now) into.now v }
{
    for over in 0..places {
        if is_negative(m[place_of(places, at, over)], into[over]) {
            return true;
        }
    }
    false
}

// the lesser of the word and the cut of two sums; no sum and another one add up to more than a word can be
#[inline(always)]
fn lowered(word: i128, first: i128, second: i128) -> i128
    requires word { IsWord word }
    requires first { IsPair first }
    requires second { IsPair second }
    ensures { IsLowered word first second result }
{
    let sum = first + second;
    if sum < word && sum <= LARGEST {
        sum.max(-LARGEST)
    } else {
        word
    }
}

// lowers the words of a row to the ways over the place
fn lower_row(places: usize, m: &mut [i128], row: usize, first: i128, from: &[i128])
    requires few { places ≤ 9 }
    requires width { length m.old ≡ places * places }
    requires row { row < places }
    requires words { (j : ℕ) → j < places → IsWord (word places m.old row j) }
    requires first { IsPair first }
    requires room { places ≤ length from.now }
    requires from { (j : ℕ) → j < places → IsPair (slice_index_or from.now j (pos 0)) }
    ensures row { (j : ℕ) → j < places → IsLowered (word places m.old row j) first (slice_index_or from.now j (pos 0)) (word places m.new row j) }
    ensures others { (i j : ℕ) → i < places → j < places → i ≢ row → word places m.new i j ≡ word places m.old i j }
{
    for column in 0..places {
        let at = place_of(places, row, column);
        m[at] = lowered(m[at], first, from[column]);
    }
}

// lowers each word to the way over the place
fn lower_words(places: usize, m: &mut [i128], into: &[i128], from: &[i128])
    requires few { places ≤ 9 }
    requires width { length m.old ≡ places * places }
    requires words { (i j : ℕ) → i < places → j < places → IsWord (word places m.old i j) }
    requires into_room { places ≤ length into.now }
    requires into { (j : ℕ) → j < places → IsPair (slice_index_or into.now j (pos 0)) }
    requires from_room { places ≤ length from.now }
    requires from { (j : ℕ) → j < places → IsPair (slice_index_or from.now j (pos 0)) }
    ensures { AreLowered places into.now from.now (word places m.old) (word places m.new) }
{
    for row in 0..places {
        lower_row(places, m, row, into[row], from);
    }
}

/// Does what `close` of `diff_bounds` does, where no more than the words of one row and of its column are above
/// a sum of two words.
pub fn close_row(size: usize, m: &mut [i128], at: usize) -> bool
    requires size { size ≤ 8 }
    requires m { IsMatrix size m.old }
    requires at { at ≤ size }
    requires tight { IsTightBut (size + 1) at (word (size + 1) m.old) }
    ensures cycles { IsTrue result ↔ HasNoNegativeCycle (size + 1) (word (size + 1) m.old) }
    ensures sums { IsTrue result → IsClosure (size + 1) (word (size + 1) m.old) (word (size + 1) m.new) }
    ensures matrix { IsTrue result → IsMatrix size m.new }
    ensures closed { closed size m.old ≡ (if result then Some m.new else None) }
    ensures meaning { IsTrue result → (cells : ℕ → Option ℤ) → StandsIn (size + 1) (word (size + 1) m.old) cells ↔ StandsIn (size + 1) (word (size + 1) m.new) cells }
    ensures empty { result ≡ false → (cells : ℕ → Option ℤ) → ¬ StandsIn (size + 1) (word (size + 1) m.old) cells }
{
    let places = size + 1;
    let mut into: Sums = [NO_SUM; 9];
    sums_into(places, m, at, &mut into);
    if is_negative_trip(places, m, at, &into) {
        return false;
    }
    let mut from: Sums = [NO_SUM; 9];
    sums_from(places, m, at, &mut from);
    lower_words(places, m, &into, &from);
    true
}
