//! Errors of stores.
ghost use Rattle.std.specs.Prelude.{◌≡◌, false, pos, ◌≤ℤ◌};
ghost use Rattle.diff_bounds.specs.Errors.{one_sided as one_sided_error, error_in};

use crate::form::known::Known;
use dec_num::Mode;
use interval_domain::Interval;

// the error of a store that may go either way
fn two_sided(unit: i128) -> Interval
    requires { pos 0 ≤ℤ unit }
    ensures { result ≡ one_sided_error Mode.Round false false unit }
{
    Interval {
        low: -unit,
        high: unit,
    }
}

// the error of a store that may cut something off the value
fn one_sided(mode: Mode, not_negative: bool, not_positive: bool, unit: i128) -> Interval
    requires { pos 0 ≤ℤ unit }
    ensures { result ≡ one_sided_error mode not_negative not_positive unit }
{
    match mode {
        Mode::Trunc => {
            if not_negative {
                Interval {
                    low: -unit,
                    high: 0,
                }
            } else if not_positive {
                Interval { low: 0, high: unit }
            } else {
                two_sided(unit)
            }
        }
        Mode::Round => two_sided(unit),
    }
}

/// The numbers that a stored value can be greater by than the exact one, where a unit of the receiver is so many units
/// of a finer scale.
///
/// A value of which nothing is cut off is stored as it is, and so is 0. Of another one, cut towards zero, less than a
/// unit is lost; a rounded one may go either way.
pub fn error_of(known: Known, mode: Mode, unit: i128) -> Interval
    requires { pos 0 ≤ℤ unit }
    ensures error { result ≡ error_in known mode unit }
    ensures low { result.low ≤ℤ pos 0 }
    ensures high { pos 0 ≤ℤ result.high }
{
    if known.whole || known.not_negative && known.not_positive {
        return Interval { low: 0, high: 0 };
    }
    one_sided(mode, known.not_negative, known.not_positive, unit)
}
