//! The order of rows.
ghost use Rattle.std.specs.Prelude.{◌≡◌, ℕ, ◌≤◌, ◌↔◌, IsTrue};
ghost use Rattle.std.specs.List.{AllByRecursion};
ghost use Rattle.dom_laws.specs.Lattice.{IsElement};
ghost use Rattle.diff_bounds.specs.PackRows.{matrices_beside, lists_of};

use crate::matrix::lattice::leq;
use crate::rows::sizes::words_of;

/// Whether each word of `a` is at most the word of `b`.
pub fn leq_rows(sizes: &[usize], thresholds: &[Vec<i128>], a: &[i128], b: &[i128]) -> bool
    requires small { AllByRecursion (λ n. n ≤ 8) sizes.now }
    requires a { IsElement (matrices_beside sizes.now (lists_of thresholds.now)) a.now }
    requires b { IsElement (matrices_beside sizes.now (lists_of thresholds.now)) b.now }
    ensures { IsTrue result ↔ (matrices_beside sizes.now (lists_of thresholds.now)).Below a.now b.now }
{
    match sizes {
        [] => true,
        [size, sizes @ ..] => match thresholds {
            [] => true,
            [_, thresholds @ ..] => {
                let (first, rest) = a.split_at(words_of(*size));
                let (other, others) = b.split_at(words_of(*size));
                leq(*size, first, other) && leq_rows(sizes, thresholds, rest, others)
            }
        },
    }
}
