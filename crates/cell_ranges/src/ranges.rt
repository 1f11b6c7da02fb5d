//! The own ranges of cells, and their ends as thresholds.
ghost use Rattle.std.specs.Prelude.{◌≡◌, ◌≤◌, ◌<◌, ◌^◌, map, IfOk, unsigned_abs};
ghost use Rattle.std.specs.List.{All};
ghost use Rattle.interval_domain.specs.Rows.{lists_of};
ghost use Rattle.cell_steps.specs.OwnRanges.{largest, own_range};
ghost use Rattle.cert_text.specs.Gaps.{IsSmall};
ghost use Rattle.cell_ranges.specs.Ranges.{IsShort, ends_of};

use cob_runs::Cell;
use dec_num::pow10;
use interval_domain::Interval;
use std::alloc::{AllocError, Global};

// The greatest number of so many digits.
fn largest(digits: u32) -> i64
    requires { digits ≤ 18 }
    ensures value { result ≡ largest digits }
    ensures small { unsigned_abs result < 10 ^ 18 }
{
    (pow10(digits) - 1) as i64
}

// The numbers that a cell can hold.
fn own_range(cell: &Cell) -> Interval
    requires { IsShort cell.now }
    ensures value { result ≡ own_range cell.now }
    ensures small { IsSmall result }
{
    let high = i128::from(largest(cell.digits));
    let low = if cell.signed { -high } else { 0 };
    Interval { low, high }
}

/// The own range of each cell.
pub fn own_ranges(alloc: Global, cells: &[Cell]) -> Result<Vec<Interval>, AllocError>
    requires { All IsShort cells.now }
    ensures value { IfOk result (λ owns. owns.items ≡ map own_range cells.now) }
    ensures small { IfOk result (λ owns. All IsSmall owns.items) }
{
    let mut owns = Vec::with_capacity(alloc, cells.len())?;
    for cell in cells {
        owns.push(own_range(cell))?;
    }
    Ok(owns)
}

// The two ends of a range.
fn ends(alloc: Global, own: Interval) -> Result<Vec<i64>, AllocError>
    requires { IsSmall own }
    ensures { IfOk result (λ ends. ends.items ≡ ends_of own) }
{
    let mut ends = Vec::with_capacity(alloc, 2)?;
    ends.push(own.low as i64)?;
    ends.push(own.high as i64)?;
    Ok(ends)
}

/// For each range its two ends, which are all the thresholds that a check needs: it never widens.
pub fn all_ends(alloc: Global, owns: &[Interval]) -> Result<Vec<Vec<i64>>, AllocError>
    requires { All IsSmall owns.now }
    ensures { IfOk result (λ thresholds. lists_of thresholds.items ≡ map ends_of owns.now) }
{
    let mut thresholds = Vec::with_capacity(alloc, owns.len())?;
    for own in owns {
        thresholds.push(ends(alloc, *own)?)?;
    }
    Ok(thresholds)
}
