//! Packs, read.
ghost use Rattle.std.specs.Prelude.{◌≡◌, ◌≤◌, length, IfOk, IfSome};
ghost use Rattle.diff_bounds.specs.PackRows.{lists_of};
ghost use Rattle.cert_text.specs.MatrixClaims.{cells_in, sizes_of};
ghost use Rattle.pack_laws.specs.Packs.{AreRisingNumbers, ArePacksOfCells};
ghost use Rattle.layer_driver.specs.Rows.{no_thresholds};

use diff_bounds::Pack;
use std::alloc::{AllocError, Global};

// Numbers of at most 8 of so many cells, each above the one before it; nothing where the word isn't that.
#[tactic(auto, using(crate::proofs::Numbers::none_rise, crate::proofs::Numbers::number_pushed))]
fn numbers_of(alloc: Global, word: &str, cells: u32) -> Result<Option<Vec<u32>>, AllocError>
    ensures { IfOk result (λ read. IfSome read (λ numbers. AreRisingNumbers cells numbers.items)) }
{
    let mut numbers = Vec::new(alloc);
    let mut last = 0;
    for part in word.split('.') {
        match part.parse::<u32>().ok() {
            Some(number) if last < number && number <= cells && numbers.len() < 8 => {
                numbers.push(number)?;
                last = number;
            }
            _ => return Ok(None),
        }
    }
    Ok(Some(numbers))
}

// The packs of these words, which are no more than there may be packs.
#[tactic(auto, using(crate::proofs::Numbers::pack_pushed))]
fn packs_in(alloc: Global, words: &[&str], cells: u32) -> Result<Option<Vec<Pack>>, AllocError>
    ensures few { IfOk result (λ read. IfSome read (λ packs. length packs.items ≤ length words.now)) }
    ensures cells { IfOk result (λ read. IfSome read (λ packs. ArePacksOfCells cells packs.items)) }
{
    let mut packs = Vec::new(alloc);
    for word in words {
        match numbers_of(alloc, word, cells)? {
            Some(cells) => packs.push(Pack { cells })?,
            None => return Ok(None),
        }
    }
    Ok(Some(packs))
}

/// The packs of some words, of a program with so many cells; nothing where they can't be read or are too many.
pub fn packs_of(alloc: Global, words: &[&str], cells: u32) -> Result<Option<Vec<Pack>>, AllocError>
    ensures few { IfOk result (λ read. IfSome read (λ packs. length packs.items ≤ 32)) }
    ensures cells { IfOk result (λ read. IfSome read (λ packs. ArePacksOfCells cells packs.items)) }
{
    if words.len() > 32 {
        return Ok(None);
    }
    packs_in(alloc, words, cells)
}

/// An empty list of thresholds for each pack: nothing is widened.
#[tactic(auto, using(crate::proofs::RowLemmas::list_pushed))]
pub fn no_thresholds(alloc: Global, packs: &[Pack]) -> Result<Vec<Vec<i128>>, AllocError>
    ensures { IfOk result (λ lists. lists_of lists.items ≡ no_thresholds (sizes_of (cells_in packs.now))) }
{
    let mut lists = Vec::with_capacity(alloc, packs.len())?;
    for _pack in packs {
        lists.push(Vec::new(alloc))?;
    }
    Ok(lists)
}
