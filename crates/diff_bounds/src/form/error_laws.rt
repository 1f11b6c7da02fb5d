//! What follows for all values.
ghost use Rattle.std.specs.Prelude.{ℕ, ◌+◌, ◌^◌, ℤ, pos, ◌+ℤ◌, ◌*ℤ◌};
ghost use Rattle.dec_num.specs.declared.types.Mode.{Mode};
ghost use Rattle.dec_num.specs.declared.types.Scaled.{Scaled};
ghost use Rattle.interval_domain.specs.declared.bounds.Interval.{Interval};
ghost use Rattle.interval_domain.specs.Corners.{interval};
ghost use Rattle.diff_bounds.specs.declared.form.known.Known.{Known};
ghost use Rattle.diff_bounds.specs.Errors.{error_in, stored_units, AreSure, IsWithin, IsInside, IsSurer};
ghost use Rattle.diff_bounds.specs.Scales.{Spans, IsBetween};

/// What is stored differs from the exact value by no more than the error.
pub fn errors_are_sound()
    ensures { (mode : Mode) (known : Known) (v : Scaled) (to more : ℕ) → AreSure known v to
        → IsWithin (error_in known mode (pos (10 ^ more))) (stored_units mode v to) v to more }
{}

/// Where more is known, the error lies in that where less is known.
pub fn surer_errors_are_narrower()
    ensures { (mode : Mode) (known other : Known) (unit : ℕ) → IsSurer known other
        → IsInside (error_in known mode (pos unit)) (error_in other mode (pos unit)) }
{}

/// What is stored of a value between two ends lies between these ends, widened by the error.
pub fn stores_lie_between()
    ensures { (sum : ℤ) (constant e : Interval) (stored : ℤ) (v : Scaled) (to more : ℕ) → Spans sum constant v (to + more)
        → IsWithin e stored v to more → IsBetween sum constant e (stored *ℤ pos (10 ^ more)) }
{}

/// Sums with their constants span values of a greater scale, and add up.
pub fn sums_span_at_greater_scales()
    ensures raised { (s : ℤ) (i : Interval) (u : ℤ) (scale f k : ℕ) → Spans s i (record { units = u; scale = scale }) f
        → Spans s i (record { units = u *ℤ pos (10 ^ k); scale = scale + k }) f }
    ensures added { (s t : ℤ) (i j : Interval) (u v : ℤ) (scale f : ℕ) → Spans s i (record { units = u; scale = scale }) f
        → Spans t j (record { units = v; scale = scale }) f
        → Spans (s +ℤ t) (interval (i.low +ℤ j.low) (i.high +ℤ j.high)) (record { units = u +ℤ v; scale = scale }) f }
{}
