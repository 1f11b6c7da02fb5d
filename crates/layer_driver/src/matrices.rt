//! Matrices of packs, read.
ghost use Rattle.std.specs.Prelude.{◌≡◌, ◌≤◌, ◌≤ℤ◌, neg_ℤ, length, IfOk, IfSome};
ghost use Rattle.std.specs.List.{AllByRecursion};
ghost use Rattle.dom_laws.specs.Lattice.{IsElement};
ghost use Rattle.diff_bounds.specs.Matrix.{IsMatrix, largest};
ghost use Rattle.cert_text.specs.MatrixClaims.{cells_in, sizes_of};
ghost use Rattle.layer_driver.specs.Rows.{rows_of_packs};

use cert_text::{Element, claimed_rows_are_elements, set_claimed};
use diff_bounds::{LARGEST, Pack, add_bound, words_of};
use std::alloc::{AllocError, Global};

fn bound_of(word: &str) -> Option<i128>
    ensures { IfSome result (λ most. (neg_ℤ largest ≤ℤ most) × (most ≤ℤ largest)) }
{
    let number = word.parse::<i128>().ok()?;
    if -LARGEST <= number && number <= LARGEST {
        Some(number)
    } else {
        None
    }
}

// Lowers the word at two places. Answers false where it can't be read.
fn lower_word(size: usize, m: &mut [i128], row: usize, column: usize, word: &str) -> bool
    requires size { size ≤ 8 }
    requires m { IsMatrix size m.old }
    requires row { row ≤ size }
    requires column { column ≤ size }
    ensures { IsMatrix size m.new }
{
    if row == column {
        return true;
    }
    if word == "-" {
        return true;
    }
    match bound_of(word) {
        Some(most) => {
            add_bound(size, m, row, column, most);
            true
        }
        None => false,
    }
}

fn lower_row(size: usize, m: &mut [i128], row: usize, words: &[&str]) -> bool
    requires size { size ≤ 8 }
    requires m { IsMatrix size m.old }
    requires row { row ≤ size }
    ensures { IsMatrix size m.new }
{
    for (column, word) in words.iter().enumerate() {
        if column > size {
            return false;
        }
        if !lower_word(size, m, row, column, word) {
            return false;
        }
    }
    true
}

fn lower_matrix(size: usize, m: &mut [i128], words: &[&str]) -> bool
    requires size { size ≤ 8 }
    requires m { IsMatrix size m.old }
    ensures { IsMatrix size m.new }
{
    for (row, own) in words.chunks(size + 1).enumerate() {
        if row > size {
            return false;
        }
        if !lower_row(size, m, row, own) {
            return false;
        }
    }
    true
}

// Lowers a row to its words. Answers false where they can't be read, or are too many.
fn lower(packs: &[Pack], words: &[&str], row: &mut [i128]) -> bool
    requires small { AllByRecursion (λ n. n ≤ 8) (sizes_of (cells_in packs.now)) }
    requires row { IsElement (rows_of_packs packs.now) row.old }
    ensures { IsElement (rows_of_packs packs.now) row.new }
{
    match packs {
        [] => words.is_empty(),
        [first, rest @ ..] => {
            let size = first.cells.len();
            let width = words_of(size);
            let (m, others) = row.split_at_mut(width);
            let (own, behind) = words.split_at(width.min(words.len()));
            lower_matrix(size, m, own) & lower(rest, behind, others)
        }
    }
}

// Makes the row that bounds nothing.
fn set_free(alloc: Global, packs: &[Pack], row: &mut [i128])
    requires few { length packs.now ≤ 32 }
    requires small { AllByRecursion (λ n. n ≤ 8) (sizes_of (cells_in packs.now)) }
    requires width { length row.old ≡ (rows_of_packs packs.now).width }
    ensures { IsElement (rows_of_packs packs.now) row.new }
{
    claimed_rows_are_elements();
    let nothing = Element::At {
        cells: Vec::new(alloc),
        bounds: Vec::new(alloc),
    };
    set_claimed(packs, &nothing, row);
}

// Makes the row with some words. Answers false where they can't be read, or are too many.
fn set_words(alloc: Global, packs: &[Pack], words: &[&str], row: &mut [i128]) -> bool
    requires few { length packs.now ≤ 32 }
    requires small { AllByRecursion (λ n. n ≤ 8) (sizes_of (cells_in packs.now)) }
    requires width { length row.old ≡ (rows_of_packs packs.now).width }
    ensures { IsElement (rows_of_packs packs.now) row.new }
{
    set_free(alloc, packs, row);
    lower(packs, words, row)
}

/// The row of so many words with some of them given, nothing where these can't be read or are too many.
pub fn row_with(
    alloc: Global,
    packs: &[Pack],
    words: &[&str],
    width: usize,
) -> Result<Option<Vec<i128>>, AllocError>
    requires few { length packs.now ≤ 32 }
    requires small { AllByRecursion (λ n. n ≤ 8) (sizes_of (cells_in packs.now)) }
    requires width { width ≡ (rows_of_packs packs.now).width }
    ensures { IfOk result (λ read. IfSome read (λ row. IsElement (rows_of_packs packs.now) row.items)) }
{
    let mut row = vec![in alloc; 0; width]?;
    if set_words(alloc, packs, words, row.as_mut_slice()) {
        Ok(Some(row))
    } else {
        Ok(None)
    }
}
