//! The least row, in which no storage stands.
ghost use Rattle.std.specs.Prelude.{◌≡◌, ℕ, ◌≤◌, ◌<◌, length, slice_index_or, pos, ◌≤ℤ◌, Bool, true, ◌↔◌};
ghost use Rattle.std.specs.List.{AllByRecursion};
ghost use Rattle.diff_bounds.specs.Lattice.{matrix_of, bottom_word};
ghost use Rattle.diff_bounds.specs.PackRows.{words_of, matrices_beside, are_at_most, is_least, lists_of};

use crate::matrix::words::LARGEST;
use crate::rows::sizes::words_of;

// the least word of a matrix off its diagonal
const LOWEST: i128 = -LARGEST;

// a word of the least matrix
fn least_word(size: usize, at: usize) -> i128
    requires { size ≤ 8 }
    ensures { result ≡ bottom_word size at }
{
    if at / (size + 1) == at % (size + 1) {
        0
    } else {
        LOWEST
    }
}

/// Makes the least matrix of so many cells, whatever it held.
pub fn set_least_matrix(size: usize, m: &mut [i128])
    requires size { size ≤ 8 }
    requires width { length m.old ≡ words_of size }
    ensures { m.new ≡ matrix_of size (bottom_word size) }
{
    for at in 0..m.len() {
        m[at] = least_word(size, at);
    }
}

fn is_least_matrix(size: usize, m: &[i128]) -> bool
    requires size { size ≤ 8 }
    requires width { length m.now ≡ words_of size }
    ensures { result ≡ are_at_most m.now (matrix_of size (bottom_word size)) }
{
    for at in 0..m.len() {
        if least_word(size, at) < m[at] {
            return false;
        }
    }
    true
}

/// Makes the least row, whatever it held.
pub fn set_least(sizes: &[usize], thresholds: &[Vec<i128>], row: &mut [i128])
    requires small { AllByRecursion (λ n. n ≤ 8) sizes.now }
    requires width { length row.old ≡ (matrices_beside sizes.now (lists_of thresholds.now)).width }
    ensures { row.new ≡ (matrices_beside sizes.now (lists_of thresholds.now)).least }
{
    match sizes {
        [] => {}
        [size, sizes @ ..] => match thresholds {
            [] => {}
            [_, thresholds @ ..] => {
                let (first, rest) = row.split_at_mut(words_of(*size));
                set_least_matrix(*size, first);
                set_least(sizes, thresholds, rest);
            }
        },
    }
}

/// Whether a row is the least one: whether no word is above its word.
#[tactic(auto, using(crate::proofs::PackRows::first_and_rest))]
pub fn is_least(sizes: &[usize], thresholds: &[Vec<i128>], row: &[i128]) -> bool
    requires small { AllByRecursion (λ n. n ≤ 8) sizes.now }
    requires width { length row.now ≡ (matrices_beside sizes.now (lists_of thresholds.now)).width }
    ensures { result ≡ is_least sizes.now (lists_of thresholds.now) row.now }
{
    match sizes {
        [] => true,
        [size, sizes @ ..] => match thresholds {
            [] => true,
            [_, thresholds @ ..] => {
                let (first, rest) = row.split_at(words_of(*size));
                is_least_matrix(*size, first) & is_least(sizes, thresholds, rest)
            }
        },
    }
}
