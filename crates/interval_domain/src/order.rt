//! The order of rows.
ghost use Rattle.std.specs.Prelude.{◌≡◌, ◌<◌, ◌≤ℤ◌, ◌↔◌, IsTrue, length};
ghost use Rattle.interval_domain.specs.Known.{KnownBelow};
ghost use Rattle.interval_domain.specs.Elements.{CellsBelow};
ghost use Rattle.interval_domain.specs.Rows.{IsReached, IsSaid, RowBelow, cells_of, known_at};

use super::words::{cell_count, is_reached, known_at};
use crate::bounds::Interval;

// whether each number of `a` is one of `b`
fn is_within(a: Interval, b: Interval) -> bool
    ensures { IsTrue result ↔ (b.low ≤ℤ a.low) × (a.high ≤ℤ b.high) }
{
    b.low <= a.low && a.high <= b.high
}

#[tactic(auto, using(crate::proofs::OneKnown::below_anything))]
fn known_leq(a: Option<Interval>, b: Option<Interval>) -> bool
    ensures { IsTrue result ↔ KnownBelow a b }
{
    match (a, b) {
        (_, None) => true,
        (None, Some(_)) => false,
        (Some(a), Some(b)) => is_within(a, b),
    }
}

fn cell_leq(a: &[i128], b: &[i128], k: usize) -> bool
    requires a { IsReached a.now }
    requires b { IsReached b.now }
    requires of_a { k < length (cells_of a.now) }
    requires of_b { k < length (cells_of b.now) }
    ensures { IsTrue result ↔ KnownBelow (known_at (cells_of a.now) k) (known_at (cells_of b.now) k) }
{
    let known = known_at(a, k);
    let other = known_at(b, k);
    known_leq(known, other)
}

fn cells_leq(a: &[i128], b: &[i128]) -> bool
    requires a { IsReached a.now }
    requires b { IsReached b.now }
    requires cells { length (cells_of a.now) ≡ length (cells_of b.now) }
    ensures { IsTrue result ↔ CellsBelow (cells_of a.now) (cells_of b.now) }
{
    let cells = cell_count(a);
    for k in 0..cells {
        if !cell_leq(a, b, k) {
            return false;
        }
    }
    true
}

/// Whether `a` is below `b`: no run comes with `a`, or each of its cells lies below that of `b`.
pub fn leq(a: &[i128], b: &[i128]) -> bool
    requires a { IsSaid a.now }
    requires b { IsSaid b.now }
    requires words { length a.now ≡ length b.now }
    requires some { 0 < length b.now }
    ensures { IsTrue result ↔ RowBelow a.now b.now }
{
    let a_reached = is_reached(a);
    if !a_reached {
        return true;
    }
    let b_reached = is_reached(b);
    if !b_reached {
        return false;
    }
    cells_leq(a, b)
}
