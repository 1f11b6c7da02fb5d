//! The rows that a certificate claims, all taken before the check.
ghost use Rattle.std.specs.Prelude.{◌≡◌, ◌<◌, [], map, get_or, length, IfOk};
ghost use Rattle.cert_text.specs.View.{place_of, view};
ghost use Rattle.cert_text.specs.Claims.{claimed_row, place_at};
ghost use Rattle.cert_check.specs.Rows.{words_of};

use cert_text::{Cert, Element, set_claimed_row};
use dom_laws::Rows;
use interval_domain::Interval;
use std::alloc::{AllocError, Global};

/// The row that the claims of each node mean.
#[derive(Drop)]
pub struct ClaimedRows<'a> {
    pub owns: &'a [Interval],
    pub cert: &'a Cert,
    rows: Vec<Vec<i128>>,
    ghost claimed: { words_of rows.items ≡ map (claimed_row owns.now) (view cert.now).nodes },
}

// The row of one node.
fn row_of(alloc: Global, owns: &[Interval], place: &Element) -> Result<Vec<i128>, AllocError>
    ensures { IfOk result (λ row. row.items ≡ claimed_row owns.now (place_of place.now)) }
{
    let mut row = vec![in alloc; 0; 2 * owns.len() + 1]?;
    set_claimed_row(owns, place, row.as_mut_slice());
    Ok(row)
}

fn rows_of(
    alloc: Global,
    owns: &[Interval],
    places: &[Element],
) -> Result<Vec<Vec<i128>>, AllocError>
    ensures { IfOk result (λ rows. words_of rows.items ≡ map (claimed_row owns.now) (map place_of places.now)) }
{
    let mut rows = Vec::with_capacity(alloc, places.len())?;
    for place in places {
        rows.push(row_of(alloc, owns, place)?)?;
    }
    Ok(rows)
}

impl<'a> ClaimedRows<'a> {
    /// Makes the rows of all nodes, for cells with these own ranges.
    pub fn new(
        alloc: Global,
        owns: &'a [Interval],
        cert: &'a Cert,
    ) -> Result<ClaimedRows<'a>, AllocError>
        ensures owns { IfOk result (λ rows. rows.owns.now ≡ owns.now) }
        ensures cert { IfOk result (λ rows. rows.cert.now ≡ cert.now) }
    {
        let rows = rows_of(alloc, owns, cert.nodes.as_slice())?;
        Ok(ClaimedRows { owns, cert, rows })
    }
}

/// The row with a number from 0.
pub(crate) fn row_at(rows: &[Vec<i128>], place: usize) -> &[i128]
    requires { place < length rows.now }
    ensures { result.now ≡ get_or (words_of rows.now) place [] }
{
    rows[place].as_slice()
}

impl<'a> Rows for ClaimedRows<'a> {
    ghost count = { λ rows. length (view rows.cert.now).nodes };

    ghost row_at = { λ rows node. claimed_row rows.owns.now (place_at (view rows.cert.now) node) };

    fn row(&self, node: u32) -> &[i128] {
        row_at(self.rows.as_slice(), node as usize - 1)
    }
}
