//! The bounds of a row of matrices.
ghost use Rattle.std.specs.Prelude.{◌≡◌, ◌≤◌, ◌<◌, ◌+◌, ◌^◌, ◌++◌, length, OnOk, IfOk};
ghost use Rattle.std.specs.List.{AllByRecursion};
ghost use Rattle.diff_bounds.specs.PackRows.{width_of, words_of};
ghost use Rattle.cert_text.specs.MatrixClaims.{cells_in, sizes_of};
ghost use Rattle.cert_text.specs.Bounds.{bounds_from, is_on_diagonal, matrix_bounds, row_bounds, word_bounds};

use crate::cert::Bound;
use diff_bounds::{NONE, Pack, words_of};
use std::alloc::{AllocError, Global};

fn is_on_diagonal(size: usize, at: usize) -> bool
    requires { size ≤ 8 }
    ensures { result ≡ is_on_diagonal size at }
{
    at / (size + 1) == at % (size + 1)
}

// Adds the bound of a word, if it is one.
fn add_word(
    bounds: &mut Vec<Bound>,
    pack: u32,
    size: usize,
    at: usize,
    word: i128,
) -> Result<(), AllocError>
    requires size { size ≤ 8 }
    requires at { at < words_of size }
    ensures { OnOk result (bounds.new.items ≡ bounds.old.items ++ word_bounds pack size at word) }
{
    if !is_on_diagonal(size, at) && word < NONE {
        bounds.push(Bound {
            pack,
            row: (at / (size + 1)) as u32,
            column: (at % (size + 1)) as u32,
            most: word,
        })?;
    }
    Ok(())
}

fn add_matrix(bounds: &mut Vec<Bound>, pack: u32, size: usize, m: &[i128]) -> Result<(), AllocError>
    requires size { size ≤ 8 }
    requires width { length m.now ≡ words_of size }
    ensures { OnOk result (bounds.new.items ≡ bounds.old.items ++ matrix_bounds pack size m.now) }
{
    for at in 0..m.len() {
        add_word(bounds, pack, size, at, m[at])?;
    }
    Ok(())
}

// Adds the bounds of the packs from one of them on.
fn add_row(
    bounds: &mut Vec<Bound>,
    packs: &[Pack],
    pack: u32,
    row: &[i128],
) -> Result<(), AllocError>
    requires few { pack + length packs.now < 2 ^ 32 }
    requires small { AllByRecursion (λ n. n ≤ 8) (sizes_of (cells_in packs.now)) }
    requires width { length row.now ≡ width_of (sizes_of (cells_in packs.now)) }
    ensures { OnOk result (bounds.new.items ≡ bounds.old.items ++ bounds_from pack (sizes_of (cells_in packs.now)) row.now) }
{
    match packs {
        [] => Ok(()),
        [first, rest @ ..] => {
            let size = first.cells.len();
            let (m, others) = row.split_at(words_of(size));
            add_matrix(bounds, pack, size, m)?;
            add_row(bounds, rest, pack + 1, others)
        }
    }
}

/// The bounds that tell a row of matrices, for packs of at most 8 cells: one for each word off the diagonal that is a
/// number, by pack, row and column, as a certificate has them for a node that is reached.
pub fn bounds_of(alloc: Global, packs: &[Pack], row: &[i128]) -> Result<Vec<Bound>, AllocError>
    requires few { length packs.now ≤ 32 }
    requires small { AllByRecursion (λ n. n ≤ 8) (sizes_of (cells_in packs.now)) }
    requires width { length row.now ≡ width_of (sizes_of (cells_in packs.now)) }
    ensures { IfOk result (λ bounds. bounds.items ≡ row_bounds (sizes_of (cells_in packs.now)) row.now) }
{
    let mut bounds = Vec::new(alloc);
    add_row(&mut bounds, packs, 1, row)?;
    Ok(bounds)
}
