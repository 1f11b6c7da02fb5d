//! Rows of cells, read.
ghost use Rattle.std.specs.Prelude.{◌≡◌, List, ℤ, IfOk, IfSome};
ghost use Rattle.dom_laws.specs.Lattice.{IsElement};
ghost use Rattle.interval_domain.specs.Rows.{cells_lattice};
ghost use Rattle.cert_text.specs.View.{place_of};
ghost use Rattle.cert_text.specs.Claims.{claimed_row};

use cert_text::{Claim, Element, set_claimed_row};
use interval_domain::Interval;
use std::alloc::{AllocError, Global};

// Two words of a row: nothing where they can't be read, no claim where nothing is known.
fn claim_of(cell: u32, low: &str, high: &str) -> Option<Option<Claim>> {
    if low == "-" && high == "-" {
        return Some(None);
    }
    Some(Some(Claim {
        cell,
        low: low.parse::<i64>().ok()?,
        high: high.parse::<i64>().ok()?,
    }))
}

// The number of the cell behind so many others.
fn cell_behind(others: usize) -> Option<u32> {
    u32::try_from(others).ok()?.checked_add(1)
}

fn claims_of(alloc: Global, words: &[&str]) -> Result<Option<Vec<Claim>>, AllocError> {
    let mut claims = Vec::new(alloc);
    for (others, pair) in words.chunks_exact(2).enumerate() {
        let (Some(cell), [low, high]) = (cell_behind(others), pair) else {
            return Ok(None);
        };
        match claim_of(cell, low, high) {
            None => return Ok(None),
            Some(None) => {}
            Some(Some(claim)) => claims.push(claim)?,
        }
    }
    Ok(Some(claims))
}

// The row that claims mean, for cells with these own ranges.
fn row_of(alloc: Global, owns: &[Interval], place: &Element) -> Result<Vec<i128>, AllocError>
    ensures { IfOk result (λ row. row.items ≡ claimed_row owns.now (place_of place.now)) }
{
    let mut row = vec![in alloc; 0; 2 * owns.len() + 1]?;
    set_claimed_row(owns, place, row.as_mut_slice());
    Ok(row)
}

// It is an element of their lattice, whatever the thresholds.
fn element_of(alloc: Global, owns: &[Interval], place: &Element) -> Result<Vec<i128>, AllocError>
    ensures { IfOk result (λ row. (thresholds : List (List ℤ)) →
        IsElement (cells_lattice owns.now thresholds) row.items) }
{
    Ok(row_of(alloc, owns, place)?)
}

/// The row that words claim for cells with these own ranges, nothing where they can't be read.
pub fn row_in(
    alloc: Global,
    owns: &[Interval],
    words: &[&str],
) -> Result<Option<Vec<i128>>, AllocError>
    ensures { IfOk result (λ read. IfSome read (λ row. (thresholds : List (List ℤ)) →
        IsElement (cells_lattice owns.now thresholds) row.items)) }
{
    let Some(cells) = claims_of(alloc, words)? else {
        return Ok(None);
    };
    let place = Element::At {
        cells,
        bounds: Vec::new(alloc),
    };
    Ok(Some(element_of(alloc, owns, &place)?))
}
