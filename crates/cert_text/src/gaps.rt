//! The first place at which what is reached doesn't lie in what is claimed.
ghost use Rattle.std.specs.Prelude.{◌≡◌, ◌<◌, ◌+◌, ◌-◌, ◌*◌, ◌^◌, IfSome, length, slice_get, unsigned_abs};
ghost use Rattle.interval_domain.specs.Rows.{IsReached, IsSaid, cells_of, element_of};
ghost use Rattle.cert_text.specs.View.{place_of};
ghost use Rattle.cert_text.specs.Claims.{written_from};
ghost use Rattle.cert_text.specs.Gaps.{IsSmall, AreSmall, AreSmallClaims, HasSmallClaims, cell_gaps, end_gaps, gaps, gaps_from};

use crate::cert::{Claim, Element};
use crate::claims::claim_at;
use crate::gap::Gap;
use interval_domain::{Interval, is_reached, known_at};

// An end has at most 18 digits.
fn word(end: i128) -> i64
    requires { unsigned_abs end < 10 ^ 18 }
    ensures { result ≡ end }
{
    end as i64
}

fn end_gap(cell: u32, reached: Interval, claimed: Interval) -> Option<Gap>
    requires reached { IsSmall reached }
    requires claimed { IsSmall claimed }
    ensures { result ≡ slice_get (end_gaps cell reached claimed) 0 }
{
    if reached.low < claimed.low {
        return Some(Gap::Low {
            cell,
            reached: word(reached.low),
            claimed: word(claimed.low),
        });
    }
    if claimed.high < reached.high {
        return Some(Gap::High {
            cell,
            reached: word(reached.high),
            claimed: word(claimed.high),
        });
    }
    None
}

fn cell_gap(cell: u32, reached: Option<Interval>, claimed: Option<Interval>) -> Option<Gap>
    requires reached { IfSome reached IsSmall }
    requires claimed { IfSome claimed IsSmall }
    ensures { result ≡ slice_get (cell_gaps cell reached claimed) 0 }
{
    match (reached, claimed) {
        (_, None) => None,
        (None, Some(_)) => Some(Gap::Class { cell }),
        (Some(reached), Some(claimed)) => end_gap(cell, reached, claimed),
    }
}

// The first gap of cells in the claims of their node.
fn cells_gap(row: &[i128], claims: &[Claim], cells: usize) -> Option<Gap>
    requires reached { IsReached row.now }
    requires cells { length (cells_of row.now) ≡ cells }
    requires count { cells < 2 ^ 32 - 1 }
    requires small { AreSmall (cells_of row.now) }
    requires claims { AreSmallClaims claims.now }
    ensures { result ≡ slice_get (gaps_from 1 (cells_of row.now) (written_from 1 cells claims.now)) 0 }
{
    let mut next = 0;
    for k in 0..cells {
        let (claimed, behind) = claim_at(claims, next, k + 1);
        let gap = cell_gap(k as u32 + 1, known_at(row, k), claimed);
        if gap.is_some() {
            return gap;
        }
        next = behind;
    }
    None
}

/// The first place at which a row of so many cells doesn't lie in the claims of a node: that the node is reached at
/// all, or by cell that it isn't numeric, its low end, its high end. `None` where it lies in them.
pub fn first_gap(row: &[i128], place: &Element, cells: usize) -> Option<Gap>
    requires said { IsSaid row.now }
    requires width { length row.now ≡ 2 * cells + 1 }
    requires count { cells < 2 ^ 32 - 1 }
    requires small { IfSome (element_of row.now) AreSmall }
    requires claims { HasSmallClaims (place_of place.now) }
    ensures { result ≡ slice_get (gaps cells (element_of row.now) (place_of place.now)) 0 }
{
    if !is_reached(row) {
        return None;
    }
    match place {
        Element::Unreached => Some(Gap::Reach),
        Element::At {
            cells: claims,
            bounds: _,
        } => cells_gap(row, claims.as_slice(), cells),
    }
}
