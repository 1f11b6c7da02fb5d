//! The widening of rows (Cousot and Cousot 1977).
ghost use Rattle.std.specs.Prelude.{◌≡◌, ℕ, ◌≤◌, ◌↔◌, false};
ghost use Rattle.std.specs.List.{AllByRecursion};
ghost use Rattle.dom_laws.specs.Lattice.{IsElement};
ghost use Rattle.diff_bounds.specs.Widening.{AreThresholds};
ghost use Rattle.diff_bounds.specs.PackRows.{matrices_beside, packs_lattice, lists_of};

use crate::matrix::lattice::widen;
use crate::rows::least::is_least;
use crate::rows::order::leq_rows;
use crate::rows::sizes::words_of;

// widens each matrix
fn widen_each(sizes: &[usize], thresholds: &[Vec<i128>], a: &mut [i128], b: &[i128])
    requires small { AllByRecursion (λ n. n ≤ 8) sizes.now }
    requires thresholds { AllByRecursion AreThresholds (lists_of thresholds.now) }
    requires a { IsElement (matrices_beside sizes.now (lists_of thresholds.now)) a.old }
    requires b { IsElement (matrices_beside sizes.now (lists_of thresholds.now)) b.now }
    ensures { a.new ≡ (matrices_beside sizes.now (lists_of thresholds.now)).widen a.old b.now }
{
    match sizes {
        [] => {}
        [size, sizes @ ..] => match thresholds {
            [] => {}
            [list, thresholds @ ..] => {
                let (first, rest) = a.split_at_mut(words_of(*size));
                let (other, others) = b.split_at(words_of(*size));
                widen(*size, first, other, list.as_slice());
                widen_each(sizes, thresholds, rest, others);
            }
        },
    }
}

/// Widens `a` by `b`, and says whether a word grew. The least row is replaced by `b`; else a word that grows goes to the
/// least threshold of its pack at or above it, or to none where there is no such threshold, and the others stay.
pub fn widen_rows(sizes: &[usize], thresholds: &[Vec<i128>], a: &mut [i128], b: &[i128]) -> bool
    requires small { AllByRecursion (λ n. n ≤ 8) sizes.now }
    requires thresholds { AllByRecursion AreThresholds (lists_of thresholds.now) }
    requires a { IsElement (packs_lattice sizes.now (lists_of thresholds.now)) a.old }
    requires b { IsElement (packs_lattice sizes.now (lists_of thresholds.now)) b.now }
    ensures row { a.new ≡ (packs_lattice sizes.now (lists_of thresholds.now)).widen a.old b.now }
    ensures kept { (result ≡ false) ↔ (packs_lattice sizes.now (lists_of thresholds.now)).Below b.now a.old }
{
    let grows = !leq_rows(sizes, thresholds, b, a);
    if is_least(sizes, thresholds, a) {
        a.copy_from_slice(b);
    } else {
        widen_each(sizes, thresholds, a, b);
    }
    grows
}
