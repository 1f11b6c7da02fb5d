//! The certificate of solved rows.
ghost use Rattle.std.specs.Prelude.{◌≡◌, ◌≤◌, ◌<◌, ◌-◌, ◌^◌, ◌++◌, ℕ, map, length, IfOk, OnOk, IfSome, unsigned_abs};
ghost use Rattle.std.specs.List.{AllByRecursion};
ghost use Rattle.interval_domain.specs.Rows.{IsReached, cells_of, element_of};
ghost use Rattle.cert_text.specs.View.{place_of, view};
ghost use Rattle.cert_text.specs.Gaps.{AreSmall, IsSmall};
ghost use Rattle.cert_text.specs.MatrixClaims.{cells_in, sizes_of};
ghost use Rattle.diff_bounds.specs.PackRows.{width_of};
ghost use Rattle.analyse_core.specs.Certificates.{
  CanBeClaimed,
  certificate_for,
  claims_from,
  known_claims,
  place_for,
  places_for,
};

use cert_text::{Cert, Claim, Element, bounds_of};
use diff_bounds::Pack;
use dom_laws::Rows;
use interval_domain::{Interval, is_reached, known_at};
use std::alloc::{AllocError, Global};

// An end has at most 18 digits.
fn word(end: i128) -> i64
    requires { unsigned_abs end < 10 ^ 18 }
    ensures { result ≡ end }
{
    end as i64
}

// Adds the claim of a cell, if anything is known of it.
fn add_known(claims: &mut Vec<Claim>, cell: u32, known: Option<Interval>) -> Result<(), AllocError>
    requires { IfSome known IsSmall }
    ensures { OnOk result (claims.new.items ≡ claims.old.items ++ known_claims cell known) }
{
    if let Some(interval) = known {
        claims.push(Claim {
            cell,
            low: word(interval.low),
            high: word(interval.high),
        })?;
    }
    Ok(())
}

// The claims of a row that is reached, by rising cell.
fn claims_of(alloc: Global, row: &[i128], cells: usize) -> Result<Vec<Claim>, AllocError>
    requires reached { IsReached row.now }
    requires cells { length (cells_of row.now) ≡ cells }
    requires count { cells < 2 ^ 32 - 1 }
    requires small { AreSmall (cells_of row.now) }
    ensures { IfOk result (λ claims. claims.items ≡ claims_from 1 (cells_of row.now)) }
{
    let mut claims = Vec::new(alloc);
    for k in 0..cells {
        add_known(&mut claims, k as u32 + 1, known_at(row, k))?;
    }
    Ok(claims)
}

// What a row, and a row of matrices beside it, claim of their node.
fn element_of(
    alloc: Global,
    packs: &[Pack],
    row: &[i128],
    bounds: &[i128],
    cells: usize,
) -> Result<Element, AllocError>
    requires few { length packs.now ≤ 32 }
    requires small { AllByRecursion (λ n. n ≤ 8) (sizes_of (cells_in packs.now)) }
    requires row { CanBeClaimed cells row.now }
    requires count { cells < 2 ^ 32 - 1 }
    requires width { length bounds.now ≡ width_of (sizes_of (cells_in packs.now)) }
    ensures { IfOk result (λ element. place_of element ≡ place_for (sizes_of (cells_in packs.now)) (element_of row.now) bounds.now) }
{
    if !is_reached(row) {
        return Ok(Element::Unreached);
    }
    Ok(Element::At {
        cells: claims_of(alloc, row, cells)?,
        bounds: bounds_of(alloc, packs, bounds)?,
    })
}

// What the rows of so many nodes claim.
#[tactic(auto, using(crate::proofs::Claiming::places_more))]
fn elements_of<R: Rows, B: Rows>(
    alloc: Global,
    packs: &[Pack],
    rows: &R,
    bounds: &B,
    nodes: u32,
    cells: usize,
) -> Result<Vec<Element>, AllocError>
    requires few { length packs.now ≤ 32 }
    requires small { AllByRecursion (λ n. n ≤ 8) (sizes_of (cells_in packs.now)) }
    requires nodes { R.count rows.now ≡ nodes }
    requires both { B.count bounds.now ≡ nodes }
    requires rows { (node : ℕ) → 1 ≤ node → node ≤ nodes → CanBeClaimed cells (R.row_at rows.now node) }
    requires widths { (node : ℕ) → 1 ≤ node → node ≤ nodes → length (B.row_at bounds.now node) ≡ width_of (sizes_of (cells_in packs.now)) }
    requires count { cells < 2 ^ 32 - 1 }
    ensures { IfOk result (λ elements. map place_of elements.items
        ≡ places_for (sizes_of (cells_in packs.now)) nodes (λ node. element_of (R.row_at rows.now node)) (B.row_at bounds.now)) }
{
    let mut elements = Vec::with_capacity(alloc, nodes as usize)?;
    for node in 0..nodes {
        let element = element_of(
            alloc,
            packs,
            rows.row(node + 1),
            bounds.row(node + 1),
            cells,
        )?;
        elements.push(element)?;
    }
    Ok(elements)
}

/// The certificate of rows of so many cells, and of rows of matrices for these packs, one of each for each node.
pub fn certificate_of<R: Rows, B: Rows>(
    alloc: Global,
    packs: Vec<Pack>,
    rows: &R,
    bounds: &B,
    nodes: u32,
    cells: u32,
) -> Result<Cert, AllocError>
    requires few { length packs.items ≤ 32 }
    requires small { AllByRecursion (λ n. n ≤ 8) (sizes_of (cells_in packs.items)) }
    requires nodes { R.count rows.now ≡ nodes }
    requires both { B.count bounds.now ≡ nodes }
    requires rows { (node : ℕ) → 1 ≤ node → node ≤ nodes → CanBeClaimed cells (R.row_at rows.now node) }
    requires widths { (node : ℕ) → 1 ≤ node → node ≤ nodes → length (B.row_at bounds.now node) ≡ width_of (sizes_of (cells_in packs.items)) }
    requires count { cells < 2 ^ 32 - 1 }
    ensures { IfOk result (λ cert. view cert
        ≡ certificate_for cells (cells_in packs.items) nodes (λ node. element_of (R.row_at rows.now node)) (B.row_at bounds.now)) }
{
    let elements = elements_of(alloc, packs.as_slice(), rows, bounds, nodes, cells as usize)?;
    Ok(Cert {
        cells,
        packs,
        nodes: elements,
    })
}
