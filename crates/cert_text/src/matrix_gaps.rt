//! The first place at which what is reached of packs doesn't lie in what is claimed of them.
ghost use Rattle.std.specs.Prelude.{◌≡◌, ◌≤◌, ◌<◌, ◌+◌, ◌^◌, ℕ, length, slice_get};
ghost use Rattle.std.specs.List.{AllByRecursion};
ghost use Rattle.diff_bounds.specs.Numbers.{number_of};
ghost use Rattle.diff_bounds.specs.PackRows.{width_of, words_of};
ghost use Rattle.cert_text.specs.MatrixClaims.{cells_in, sizes_of};
ghost use Rattle.cert_text.specs.MatrixGaps.{gaps, gaps_from, matrix_gaps, word_gaps};

use crate::gap::Gap;
use diff_bounds::{NONE, Pack, words_of};

// a word as a number, where it is one
fn number_of(word: i128) -> Option<i128>
    ensures { result ≡ number_of word }
{
    if word < NONE { Some(word) } else { None }
}

fn word_gap(pack: u32, size: usize, at: usize, reached: i128, claimed: i128) -> Option<Gap>
    requires size { size ≤ 8 }
    requires at { at < words_of size }
    ensures { result ≡ slice_get (word_gaps pack size at reached claimed) 0 }
{
    if claimed < reached {
        Some(Gap::Diff {
            pack,
            row: (at / (size + 1)) as u32,
            column: (at % (size + 1)) as u32,
            reached: number_of(reached),
            claimed,
        })
    } else {
        None
    }
}

fn matrix_gap(pack: u32, size: usize, reached: &[i128], claimed: &[i128]) -> Option<Gap>
    requires size { size ≤ 8 }
    requires reached { length reached.now ≡ words_of size }
    requires claimed { length claimed.now ≡ words_of size }
    ensures { result ≡ slice_get (matrix_gaps pack size reached.now claimed.now) 0 }
{
    for at in 0..reached.len() {
        let gap = word_gap(pack, size, at, reached[at], claimed[at]);
        if gap.is_some() {
            return gap;
        }
    }
    None
}

// The first gap of the packs from one of them on.
fn gap_from(packs: &[Pack], pack: u32, reached: &[i128], claimed: &[i128]) -> Option<Gap>
    requires few { pack + length packs.now < 2 ^ 32 }
    requires small { AllByRecursion (λ n. n ≤ 8) (sizes_of (cells_in packs.now)) }
    requires reached { length reached.now ≡ width_of (sizes_of (cells_in packs.now)) }
    requires claimed { length claimed.now ≡ width_of (sizes_of (cells_in packs.now)) }
    ensures { result ≡ slice_get (gaps_from pack (sizes_of (cells_in packs.now)) reached.now claimed.now) 0 }
{
    match packs {
        [] => None,
        [first, rest @ ..] => {
            let size = first.cells.len();
            let (m, others) = reached.split_at(words_of(size));
            let (most, mosts) = claimed.split_at(words_of(size));
            let gap = matrix_gap(pack, size, m, most);
            if gap.is_some() {
                return gap;
            }
            gap_from(rest, pack + 1, others, mosts)
        }
    }
}

/// The first place at which a row of matrices doesn't lie in the row that is claimed, by pack, row and column, as a
/// `Gap::Diff`. Packs go by their numbers from 1, rows and columns by their places, 0 being the number zero. `None` where
/// each word is at most the one claimed.
pub fn first_matrix_gap(packs: &[Pack], reached: &[i128], claimed: &[i128]) -> Option<Gap>
    requires few { length packs.now ≤ 32 }
    requires small { AllByRecursion (λ n. n ≤ 8) (sizes_of (cells_in packs.now)) }
    requires reached { length reached.now ≡ width_of (sizes_of (cells_in packs.now)) }
    requires claimed { length claimed.now ≡ width_of (sizes_of (cells_in packs.now)) }
    ensures { result ≡ slice_get (gaps (sizes_of (cells_in packs.now)) reached.now claimed.now) 0 }
{
    gap_from(packs, 1, reached, claimed)
}
