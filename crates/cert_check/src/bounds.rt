//! The rows of matrices that a certificate claims, all taken before the check.
ghost use Rattle.std.specs.Prelude.{◌≡◌, ◌≤◌, ◌+◌, ◌*◌, ◌++◌, take, drop, length, IfOk, OnOk};
ghost use Rattle.std.specs.List.{All, AllByRecursion, flat_map};
ghost use Rattle.cert_text.specs.View.{place_of, view};
ghost use Rattle.cert_text.specs.Allowed.{IsAllowed};
ghost use Rattle.cert_text.specs.Claims.{place_at};
ghost use Rattle.cert_text.specs.MatrixClaims.{HasFittingBounds, cells_in, claimed_row, sizes_of};
ghost use Rattle.diff_bounds.specs.PackRows.{width_of};

use cert_text::{Cert, Element, allowed_claims_fit, set_claimed};
use diff_bounds::Pack;
use dom_laws::Rows;
use std::alloc::{AllocError, Global};

/// The rows of matrices that the claims of the nodes mean, one behind the other.
#[derive(Drop)]
pub struct ClaimedBounds<'a> {
    pub cert: &'a Cert,
    width: usize,
    words: Vec<i128>,
    ghost width_is: { width ≡ width_of (sizes_of (view cert.now).packs) },
    ghost claimed: { words.items ≡ flat_map (claimed_row (sizes_of (view cert.now).packs)) (view cert.now).nodes },
}

// Adds the row of one node. `row` is room for it.
fn push_row(
    packs: &[Pack],
    place: &Element,
    row: &mut [i128],
    words: &mut Vec<i128>,
) -> Result<(), AllocError>
    requires few { length packs.now ≤ 32 }
    requires small { AllByRecursion (λ n. n ≤ 8) (sizes_of (cells_in packs.now)) }
    requires width { length row.old ≡ width_of (sizes_of (cells_in packs.now)) }
    requires bounds { HasFittingBounds (cells_in packs.now) (place_of place.now) }
    ensures room { length row.new ≡ length row.old }
    ensures added { OnOk result (words.new.items ≡ words.old.items ++ claimed_row (sizes_of (cells_in packs.now)) (place_of place.now)) }
{
    set_claimed(packs, place, row);
    words.extend_from_slice(row)
}

// The rows of all nodes, one behind the other. `row` is room for one.
fn rows_of(
    alloc: Global,
    packs: &[Pack],
    places: &[Element],
    row: &mut [i128],
) -> Result<Vec<i128>, AllocError>
    requires few { length packs.now ≤ 32 }
    requires small { AllByRecursion (λ n. n ≤ 8) (sizes_of (cells_in packs.now)) }
    requires width { length row.old ≡ width_of (sizes_of (cells_in packs.now)) }
    requires bounds { All (λ place. HasFittingBounds (cells_in packs.now) (place_of place)) places.now }
    ensures { IfOk result (λ words. words.items
        ≡ flat_map (λ place. claimed_row (sizes_of (cells_in packs.now)) (place_of place)) places.now) }
{
    let mut words = Vec::with_capacity(alloc, places.len().saturating_mul(row.len()))?;
    for place in places {
        push_row(packs, place, row, &mut words)?;
    }
    Ok(words)
}

impl<'a> ClaimedBounds<'a> {
    /// Makes the rows of all nodes, each with so many words.
    pub fn new(alloc: Global, cert: &'a Cert, width: usize) -> Result<ClaimedBounds<'a>, AllocError>
        requires allowed { IsAllowed (view cert.now) }
        requires words { width ≡ width_of (sizes_of (view cert.now).packs) }
        ensures { IfOk result (λ rows. rows.cert.now ≡ cert.now) }
    {
        allowed_claims_fit();
        let mut row = vec![in alloc; 0; width]?;
        let words = rows_of(
            alloc,
            cert.packs.as_slice(),
            cert.nodes.as_slice(),
            row.as_mut_slice(),
        )?;
        Ok(ClaimedBounds { cert, width, words })
    }
}

// The row at a place, from 0, of rows of one width that stand one behind the other.
fn row_at(words: &[i128], width: usize, place: usize) -> &[i128]
    requires within { place * width + width ≤ length words.now }
    ensures { result.now ≡ take width (drop (place * width) words.now) }
{
    let start = place * width;
    &words[start..start + width]
}

impl<'a> Rows for ClaimedBounds<'a> {
    ghost count = { λ rows. length (view rows.cert.now).nodes };

    ghost row_at = { λ rows node. claimed_row (sizes_of (view rows.cert.now).packs) (place_at (view rows.cert.now) node) };

    fn row(&self, node: u32) -> &[i128] {
        row_at(self.words.as_slice(), self.width, node as usize - 1)
    }
}
