//! The row of matrices that the claims of a node mean.
ghost use Rattle.std.specs.Prelude.{◌≡◌, ◌≢◌, ◌≤◌, ◌<◌, ◌+◌, ◌^◌, ℕ, [], length, take, slice_get, Some};
ghost use Rattle.std.specs.List.{AllByRecursion};
ghost use Rattle.cert_text.specs.View.{place_of};
ghost use Rattle.diff_bounds.specs.Lattice.{matrix_of};
ghost use Rattle.diff_bounds.specs.PackRows.{row_of, width_of, words_of};
ghost use Rattle.cert_text.specs.MatrixClaims.{HasFittingBounds, cells_in, claimed_matrix, claimed_row, least_matrices, matrices_from, sizes_of};
ghost use Rattle.cert_text.specs.Written.{AreFrom, IsBoundOf, plain_word};

use crate::cert::{Bound, Element};
use diff_bounds::{LARGEST, NONE, Pack, words_of};

// the least word of a matrix off its diagonal
const LOWEST: i128 = -LARGEST;

// Makes the matrix with one word off its diagonal.
fn set_plain(word: i128, size: usize, m: &mut [i128])
    requires size { size ≤ 8 }
    requires width { length m.old ≡ words_of size }
    ensures { m.new ≡ matrix_of size (plain_word word size) }
{
    m.fill(word);
    for place in 0..size + 1 {
        m[place * (size + 1) + place] = 0;
    }
}

// Makes the matrix of no bounds.
fn set_unbounded(size: usize, m: &mut [i128])
    requires size { size ≤ 8 }
    requires width { length m.old ≡ words_of size }
    ensures { (pack : ℕ) → m.new ≡ claimed_matrix [] pack size }
{
    set_plain(NONE, size, m);
}

// Makes the matrix of a pack's bounds. Of two bounds of one place the first would count.
fn set_matrix(pack: u32, size: usize, bounds: &[Bound], m: &mut [i128])
    requires size { size ≤ 8 }
    requires width { length m.old ≡ words_of size }
    requires bounds { AllByRecursion (IsBoundOf pack size) bounds.now }
    ensures { m.new ≡ claimed_matrix bounds.now pack size }
{
    set_unbounded(size, m);
    for k in (0..bounds.len()).rev() {
        let bound = bounds[k];
        m[bound.row as usize * (size + 1) + bound.column as usize] = bound.most;
    }
}

// How many of the first bounds are of the pack.
fn count_of(pack: u32, bounds: &[Bound]) -> usize
    ensures within { result ≤ length bounds.now }
    ensures own { AllByRecursion (λ b. b.pack ≡ pack) (take result bounds.now) }
    ensures behind { (b : Bound) → slice_get bounds.now result ≡ Some b → b.pack ≢ pack }
{
    for k in 0..bounds.len() {
        if bounds[k].pack != pack {
            return k;
        }
    }
    bounds.len()
}

// Makes the matrices of the packs from one of them on, by the bounds that are left.
fn set_bounds(packs: &[Pack], pack: u32, bounds: &[Bound], row: &mut [i128])
    requires small { AllByRecursion (λ n. n ≤ 8) (sizes_of (cells_in packs.now)) }
    requires width { length row.old ≡ width_of (sizes_of (cells_in packs.now)) }
    requires few { pack + length packs.now < 2 ^ 32 }
    requires bounds { AreFrom pack (sizes_of (cells_in packs.now)) bounds.now }
    ensures { row.new ≡ row_of (matrices_from pack (sizes_of (cells_in packs.now)) bounds.now) }
{
    match packs {
        [] => {}
        [first, rest @ ..] => {
            let size = first.cells.len();
            let (m, others) = row.split_at_mut(words_of(size));
            let (own, behind) = bounds.split_at(count_of(pack, bounds));
            set_matrix(pack, size, own, m);
            set_bounds(rest, pack + 1, behind, others);
        }
    }
}

// Makes the least row.
fn set_least(packs: &[Pack], row: &mut [i128])
    requires small { AllByRecursion (λ n. n ≤ 8) (sizes_of (cells_in packs.now)) }
    requires width { length row.old ≡ width_of (sizes_of (cells_in packs.now)) }
    ensures { row.new ≡ row_of (least_matrices (sizes_of (cells_in packs.now))) }
{
    match packs {
        [] => {}
        [first, rest @ ..] => {
            let size = first.cells.len();
            let (m, others) = row.split_at_mut(words_of(size));
            set_plain(LOWEST, size, m);
            set_least(rest, others);
        }
    }
}

/// Makes the row that the claims of a node mean for the packs of a certificate: a matrix for each pack, one behind the
/// other. No run comes to a node that is claimed not to be reached.
pub fn set_claimed(packs: &[Pack], place: &Element, row: &mut [i128])
    requires few { length packs.now ≤ 32 }
    requires small { AllByRecursion (λ n. n ≤ 8) (sizes_of (cells_in packs.now)) }
    requires width { length row.old ≡ width_of (sizes_of (cells_in packs.now)) }
    requires bounds { HasFittingBounds (cells_in packs.now) (place_of place.now) }
    ensures { row.new ≡ claimed_row (sizes_of (cells_in packs.now)) (place_of place.now) }
{
    match place {
        Element::Unreached => set_least(packs, row),
        Element::At { cells: _, bounds } => set_bounds(packs, 1, bounds.as_slice(), row),
    }
}
