//! The row that the claims of a node mean.
ghost use Rattle.std.specs.Prelude.{◌≡◌, ◌+◌, ◌*◌, ◌≤◌, drop, length, IfSome};
ghost use Rattle.interval_domain.specs.Known.{IsOrdered};
ghost use Rattle.interval_domain.specs.Rows.{IsReached, cells_of, row_from, width_of};
ghost use Rattle.cert_text.specs.View.{place_of};
ghost use Rattle.cert_text.specs.Claims.{claim_at, claims_behind, claimed_row, met_cells, met_known, written_from};

use crate::cert::{Claim, Element};
use interval_domain::{Interval, set_known, set_unreached};

/// The claim of a cell, if the next one is of it, and the number of the claim behind.
#[tactic(auto, using(crate::proofs::Filling::claim_taken, crate::proofs::Filling::claim_left))]
pub(crate) fn claim_at(claims: &[Claim], next: usize, cell: usize) -> (Option<Interval>, usize)
    requires { next ≤ length claims.now }
    ensures value { result.0 ≡ claim_at (drop next claims.now) cell }
    ensures behind { drop result.1 claims.now ≡ claims_behind (drop next claims.now) cell }
    ensures within { result.1 ≤ length claims.now }
{
    match claims.get(next) {
        Some(claim) if claim.cell as usize == cell => {
            let claimed = Interval {
                low: i128::from(claim.low),
                high: i128::from(claim.high),
            };
            (Some(claimed), next + 1)
        }
        _ => (None, next),
    }
}

// A claim met with the cell's own range: nothing is left of it, or what is known.
fn met_known(own: Interval, claimed: Option<Interval>) -> Option<Option<Interval>>
    ensures value { result ≡ met_known own claimed }
    ensures ordered { IfSome result IsOrdered }
{
    let Some(claimed) = claimed else {
        return Some(None);
    };
    let low = own.low.max(claimed.low);
    let high = own.high.min(claimed.high);
    if low <= high {
        Some(Some(Interval { low, high }))
    } else {
        None
    }
}

// The row that is reached, with any cells.
#[tactic(auto, using(crate::proofs::Filling::reached_row, crate::proofs::Filling::reached_cells))]
fn set_reached(row: &mut [i128], cells: usize)
    requires { length row.old ≡ 2 * cells + 1 }
    ensures reached { IsReached row.new }
    ensures cells { length (cells_of row.new) ≡ cells }
{
    row.fill(0);
    row[0] = 1;
}

// The row of claims at a node that is reached.
fn set_claims(owns: &[Interval], claims: &[Claim], row: &mut [i128])
    requires { length row.old ≡ width_of owns.now }
    ensures { row.new ≡ row_from (length row.old) (met_cells owns.now (written_from 1 (length owns.now) claims.now)) }
{
    set_reached(row, owns.len());
    let mut next = 0;
    for (k, own) in owns.iter().enumerate() {
        let (claimed, behind) = claim_at(claims, next, k + 1);
        let Some(known) = met_known(*own, claimed) else {
            set_unreached(row);
            return;
        };
        set_known(row, k, known);
        next = behind;
    }
}

/// Makes the row that the claims of a node mean: each met with its cell's own range, of which the first is `owns[0]`.
/// Where nothing is left of a claim no run comes, nor to a node that is claimed not to be reached.
pub fn set_claimed_row(owns: &[Interval], place: &Element, row: &mut [i128])
    requires { length row.old ≡ width_of owns.now }
    ensures { row.new ≡ claimed_row owns.now (place_of place.now) }
{
    match place {
        Element::Unreached => set_unreached(row),
        Element::At { cells, bounds: _ } => set_claims(owns, cells.as_slice(), row),
    }
}
