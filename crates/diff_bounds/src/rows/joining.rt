//! The join of rows.
ghost use Rattle.std.specs.Prelude.{◌≡◌, ℕ, ◌≤◌};
ghost use Rattle.std.specs.List.{AllByRecursion};
ghost use Rattle.dom_laws.specs.Lattice.{IsElement};
ghost use Rattle.diff_bounds.specs.PackRows.{matrices_beside, lists_of};

use crate::matrix::lattice::join;
use crate::rows::sizes::words_of;

/// Makes `a` the least row above both.
pub fn join_rows(sizes: &[usize], thresholds: &[Vec<i128>], a: &mut [i128], b: &[i128])
    requires small { AllByRecursion (λ n. n ≤ 8) sizes.now }
    requires a { IsElement (matrices_beside sizes.now (lists_of thresholds.now)) a.old }
    requires b { IsElement (matrices_beside sizes.now (lists_of thresholds.now)) b.now }
    ensures { a.new ≡ (matrices_beside sizes.now (lists_of thresholds.now)).join a.old b.now }
{
    match sizes {
        [] => {}
        [size, sizes @ ..] => match thresholds {
            [] => {}
            [_, thresholds @ ..] => {
                let (first, rest) = a.split_at_mut(words_of(*size));
                let (other, others) = b.split_at(words_of(*size));
                join(*size, first, other);
                join_rows(sizes, thresholds, rest, others);
            }
        },
    }
}
