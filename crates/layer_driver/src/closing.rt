//! Matrices closed, each by itself.
ghost use Rattle.std.specs.Prelude.{◌≡◌, ◌≤◌, length};
ghost use Rattle.std.specs.List.{AllByRecursion};
ghost use Rattle.dom_laws.specs.Lattice.{IsElement};
ghost use Rattle.diff_bounds.specs.Matrix.{IsMatrix};
ghost use Rattle.cert_text.specs.MatrixClaims.{cells_in, sizes_of};
ghost use Rattle.layer_driver.specs.Rows.{rows_of_packs};

use crate::shown::{RowKind, shown_row};
use diff_bounds::{Pack, close, words_of};
use std::alloc::{AllocError, Global};

// Makes the closure of a matrix, so often. Answers false where there is none.
fn close_often(size: usize, m: &[i128], out: &mut [i128], turns: u32) -> bool
    requires size { size ≤ 8 }
    requires m { IsMatrix size m.now }
    requires width { length out.old ≡ length m.now }
{
    for _turn in 0..turns {
        out.copy_from_slice(m);
        if !close(size, out) {
            return false;
        }
    }
    true
}

// Closes each matrix of a row so often.
fn close_each(packs: &[Pack], row: &[i128], out: &mut [i128], turns: u32) -> bool
    requires small { AllByRecursion (λ n. n ≤ 8) (sizes_of (cells_in packs.now)) }
    requires row { IsElement (rows_of_packs packs.now) row.now }
    requires width { length out.old ≡ length row.now }
{
    match packs {
        [] => true,
        [first, rest @ ..] => {
            let size = first.cells.len();
            let width = words_of(size);
            let (m, others) = row.split_at(width);
            let (own, behind) = out.split_at_mut(width);
            close_often(size, m, own, turns) && close_each(rest, others, behind, turns)
        }
    }
}

/// The closures of a row's matrices, each made so often; `none` where a cycle is negative.
pub fn close_case(
    alloc: Global,
    packs: &[Pack],
    turns: &str,
    row: &[i128],
) -> Result<Option<String>, AllocError>
    requires small { AllByRecursion (λ n. n ≤ 8) (sizes_of (cells_in packs.now)) }
    requires row { IsElement (rows_of_packs packs.now) row.now }
{
    let Some(turns) = turns.parse::<u32>().ok() else {
        return Ok(None);
    };
    let mut out = vec![in alloc; 0; row.len()]?;
    if close_each(packs, row, out.as_mut_slice(), turns) {
        Ok(Some(shown_row(alloc, RowKind::Packs, out.as_slice())?))
    } else {
        Ok(Some(String::from_str(alloc, "none")?))
    }
}
