//! The join of rows.
ghost use Rattle.std.specs.Prelude.{◌≡◌, ◌<◌, length};
ghost use Rattle.interval_domain.specs.Known.{IsOrdered, joined_known};
ghost use Rattle.interval_domain.specs.Elements.{joined};
ghost use Rattle.interval_domain.specs.Rows.{IsReached, IsSaid, cells_of, row_of, joined_row};

use super::words::{cell_count, is_reached, known_at, set_known, take_row};
use crate::arithmetic::hull;
use crate::bounds::Interval;

fn join_known(a: Option<Interval>, b: Option<Interval>) -> Option<Interval>
    requires a { IsOrdered a }
    requires b { IsOrdered b }
    ensures value { result ≡ joined_known a b }
    ensures ordered { IsOrdered result }
{
    match (a, b) {
        (Some(a), Some(b)) => Some(hull(a, b)),
        _ => None,
    }
}

fn join_cells(a: &mut [i128], b: &[i128], cells: usize)
    requires a { IsReached a.old }
    requires b { IsReached b.now }
    requires of_a { length (cells_of a.old) ≡ cells }
    requires of_b { length (cells_of b.now) ≡ cells }
    ensures { a.new ≡ row_of (joined (cells_of a.old) (cells_of b.now)) }
{
    for k in 0..cells {
        let known = join_known(known_at(a, k), known_at(b, k));
        set_known(a, k, known);
    }
}

/// Makes `a` the least row above both.
pub fn join(a: &mut [i128], b: &[i128])
    requires a { IsSaid a.old }
    requires b { IsSaid b.now }
    requires words { length a.old ≡ length b.now }
    requires some { 0 < length b.now }
    ensures { a.new ≡ joined_row a.old b.now }
{
    let b_reached = is_reached(b);
    if !b_reached {
        return;
    }
    let a_reached = is_reached(a);
    if !a_reached {
        take_row(a, b);
        return;
    }
    let cells = cell_count(b);
    join_cells(a, b, cells);
}
