//! Sums of numbers that may be none.
ghost use Rattle.std.specs.Prelude.{◌≡◌, ℕ, ◌+◌, ◌≤◌, pos, ◌≤ℤ◌, unsigned_abs, Some};
ghost use Rattle.diff_bounds.specs.Matrix.{IsWord};
ghost use Rattle.diff_bounds.specs.Numbers.{number_of, word_of, added, cut, times};
ghost use Rattle.diff_bounds.specs.FormSums.{sum_of, IsWithin};

use crate::matrix::words::{LARGEST, NONE};

// none among sums
const NO_SUM: i128 = i128::MAX;

// a number as a sum: none above the largest, the least below
fn cut_part(z: i128) -> i128
    ensures value { sum_of result ≡ cut (Some z) }
    ensures small { IsWithin 1 result }
{
    if LARGEST < z { NO_SUM } else { z.max(-LARGEST) }
}

// a word times a factor above 0, cut
pub(crate) fn scaled(factor: i128, word: i128) -> i128
    requires factor { pos 1 ≤ℤ factor }
    requires word { IsWord word }
    ensures value { sum_of result ≡ times (unsigned_abs factor) (number_of word) }
    ensures small { IsWithin 1 result }
{
    if NONE <= word {
        return NO_SUM;
    }
    match factor.checked_mul(word) {
        Some(product) => cut_part(product),
        None if word < 0 => -LARGEST,
        None => NO_SUM,
    }
}

// the sum of two sums, where there are both
pub(crate) fn plus(first: i128, second: i128) -> i128
    requires first { IsWithin 8 first }
    requires second { IsWithin 1 second }
    ensures value { sum_of result ≡ added (sum_of first) (sum_of second) }
    ensures small { (n : ℕ) → n ≤ 8 → IsWithin n first → IsWithin (n + 1) result }
{
    if first < NO_SUM && second < NO_SUM {
        first + second
    } else {
        NO_SUM
    }
}

// the pair's part and the rest
pub(crate) fn plus_pair(pair: i128, rest: i128) -> i128
    requires pair { IsWithin 1 pair }
    requires rest { IsWithin 9 rest }
    ensures { sum_of result ≡ added (sum_of pair) (sum_of rest) }
{
    if pair < NO_SUM && rest < NO_SUM {
        pair + rest
    } else {
        NO_SUM
    }
}

// a sum as a word, cut
pub(crate) fn cut_whole(sum: i128) -> i128
    ensures { result ≡ word_of (cut (sum_of sum)) }
{
    if LARGEST < sum {
        NONE
    } else {
        sum.max(-LARGEST)
    }
}
