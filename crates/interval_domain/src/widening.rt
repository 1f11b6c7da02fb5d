//! The widening of rows by thresholds.
ghost use Rattle.std.specs.Prelude.{◌≡◌, ◌<◌, ◌≤ℤ◌, ◌↔◌, false, length, slice_index_or, []};
ghost use Rattle.interval_domain.specs.Corners.{interval};
ghost use Rattle.interval_domain.specs.Thresholds.{IsWithin};
ghost use Rattle.interval_domain.specs.Known.{IsOrdered, KnownWithin, widened_known, widened_low, widened_high};
ghost use Rattle.interval_domain.specs.Elements.{CellsWithin, ElementWithin, widened};
ghost use Rattle.interval_domain.specs.Rows.{IsReached, IsSaid, RowBelow, cells_of, row_of, element_of, widened_row, lists_of};

use super::order::leq;
use super::words::{cell_count, is_reached, known_at, set_known, take_row};
use crate::bounds::Interval;
use crate::interval_widening::widen_i;

fn widen_interval(a: Interval, b: Interval, thresholds: &[i64]) -> Interval
    requires a { a.low ≤ℤ a.high }
    requires b { IsWithin thresholds.now b }
    ensures value { result ≡ interval (widened_low thresholds.now a.low b.low) (widened_high thresholds.now a.high b.high) }
    ensures ordered { result.low ≤ℤ result.high }
{
    widen_i(a, b, thresholds)
}

fn widen_known(a: Option<Interval>, b: Option<Interval>, thresholds: &[i64]) -> Option<Interval>
    requires a { IsOrdered a }
    requires b { KnownWithin thresholds.now b }
    ensures value { result ≡ widened_known thresholds.now a b }
    ensures ordered { IsOrdered result }
{
    match (a, b) {
        (Some(a), Some(b)) => Some(widen_interval(a, b, thresholds)),
        _ => None,
    }
}

fn list_at(lists: &[Vec<i64>], k: usize) -> &[i64]
    requires { k < length lists.now }
    ensures { result.now ≡ slice_index_or (lists_of lists.now) k [] }
{
    lists[k].as_slice()
}

fn widen_cells(a: &mut [i128], b: &[i128], thresholds: &[Vec<i64>], cells: usize)
    requires a { IsReached a.old }
    requires b { IsReached b.now }
    requires of_a { length (cells_of a.old) ≡ cells }
    requires of_b { length (cells_of b.now) ≡ cells }
    requires within { CellsWithin (lists_of thresholds.now) (cells_of b.now) }
    ensures { a.new ≡ row_of (widened (lists_of thresholds.now) (cells_of a.old) (cells_of b.now)) }
{
    for k in 0..cells {
        let list = list_at(thresholds, k);
        let known = widen_known(known_at(a, k), known_at(b, k), list);
        set_known(a, k, known);
    }
}

// a first arrival is taken as it is
fn widen_row(a: &mut [i128], b: &[i128], thresholds: &[Vec<i64>])
    requires a { IsSaid a.old }
    requires b { IsSaid b.now }
    requires words { length a.old ≡ length b.now }
    requires some { 0 < length b.now }
    requires within { ElementWithin (lists_of thresholds.now) (element_of b.now) }
    ensures { a.new ≡ widened_row (lists_of thresholds.now) a.old b.now }
{
    let b_reached = is_reached(b);
    if !b_reached {
        return;
    }
    let a_reached = is_reached(a);
    if !a_reached {
        take_row(a, b);
        return;
    }
    let cells = cell_count(b);
    widen_cells(a, b, thresholds, cells);
}

/// Widens `a` by `b`, and says whether it grew. A list of thresholds is given for each cell, and each interval of `b`
/// lies between the first and the last of its cell's.
///
/// An end that doesn't grow stays. A low end that grows goes to the greatest threshold at or below it, a high end to
/// the least at or above. A first arrival is taken as it is.
pub fn widen(a: &mut [i128], b: &[i128], thresholds: &[Vec<i64>]) -> bool
    requires a { IsSaid a.old }
    requires b { IsSaid b.now }
    requires words { length a.old ≡ length b.now }
    requires some { 0 < length b.now }
    requires within { ElementWithin (lists_of thresholds.now) (element_of b.now) }
    ensures row { a.new ≡ widened_row (lists_of thresholds.now) a.old b.now }
    ensures kept { (result ≡ false) ↔ RowBelow b.now a.old }
{
    let below = leq(b, a);
    widen_row(a, b, thresholds);
    !below
}
