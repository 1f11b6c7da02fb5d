//! What the test of a loop by TIMES leaves of its counter.
ghost use Rattle.std.specs.Prelude.{◌≡◌, pos};
ghost use Rattle.interval_domain.specs.Corners.{interval};
ghost use Rattle.transfer_ranges.specs.Counts.{count_kept};

use crate::beside::met;
use interval_domain::Interval;

// The numbers from 1 on.
fn positive_part(count: Interval) -> Interval
    ensures { result ≡ interval (pos 1) count.high }
{
    Interval {
        low: 1,
        high: count.high,
    }
}

// The numbers up to 0.
fn other_part(count: Interval) -> Interval
    ensures { result ≡ interval count.low (pos 0) }
{
    Interval {
        low: count.low,
        high: 0,
    }
}

/// The numbers of the counter that are above 0, or the others.
#[tactic(auto, using(crate::proofs::CountCode::counts))]
pub fn count_kept(count: Interval, wanted: bool) -> Option<Interval>
    ensures { result ≡ count_kept wanted count }
{
    if wanted {
        met(count, positive_part(count))
    } else {
        met(count, other_part(count))
    }
}
