//! What relations leave of their sides.
ghost use Rattle.std.specs.Prelude.{◌≡◌, not};
ghost use Rattle.cob_runs.specs.Deciding.{below, equal, above, holds};
ghost use Rattle.transfer_ranges.specs.Sides.{is_wanted, left_kept, right_kept};
ghost use Rattle.transfer_ranges.specs.Beside.{CanRelate};

use crate::beside::{Orders, beside};
use cob_tree::Rel;
use interval_domain::Interval;
use sum_ranges::Ranged;

// The orders of which a relation holds.
fn orders(rel: Rel) -> Orders
    ensures below { result.below ≡ holds rel below }
    ensures equal { result.equal ≡ holds rel equal }
    ensures above { result.above ≡ holds rel above }
{
    let (below, equal, above): (bool, bool, bool) = match rel {
        Rel::Equal => (false, true, false),
        Rel::Less => (true, false, false),
        Rel::Greater => (false, false, true),
        Rel::AtLeast => (false, true, true),
        Rel::AtMost => (true, true, false),
    };
    Orders {
        below,
        equal,
        above,
    }
}

/// The orders for which a relation has the outcome.
pub fn allowed(rel: Rel, wanted: bool) -> Orders
    ensures below { result.below ≡ is_wanted wanted (holds rel below) }
    ensures equal { result.equal ≡ is_wanted wanted (holds rel equal) }
    ensures above { result.above ≡ is_wanted wanted (holds rel above) }
{
    let orders = orders(rel);
    if wanted {
        orders
    } else {
        Orders {
            below: !orders.below,
            equal: !orders.equal,
            above: !orders.above,
        }
    }
}

// The orders seen from the other side.
fn mirrored(orders: Orders) -> Orders
    ensures below { result.below ≡ orders.above }
    ensures equal { result.equal ≡ orders.equal }
    ensures above { result.above ≡ orders.below }
{
    Orders {
        below: orders.above,
        equal: orders.equal,
        above: orders.below,
    }
}

/// What a relation leaves of its left side: the least interval of the numbers of `a` beside which some number of `b`
/// gives it the outcome.
pub fn left_kept(rel: Rel, wanted: bool, a: Ranged, b: Ranged) -> Option<Interval>
    requires { CanRelate a b }
    ensures { result ≡ left_kept rel wanted a b }
{
    beside(allowed(rel, wanted), a, b)
}

/// What a relation leaves of its right side.
pub fn right_kept(rel: Rel, wanted: bool, a: Ranged, b: Ranged) -> Option<Interval>
    requires { CanRelate a b }
    ensures { result ≡ right_kept rel wanted a b }
{
    beside(mirrored(allowed(rel, wanted)), b, a)
}
