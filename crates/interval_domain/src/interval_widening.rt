//! The widening of intervals by thresholds.
ghost use Rattle.std.specs.Prelude.{◌≡◌, ◌-◌, ◌<◌, ◌≤ℤ◌, ◌⊎◌, ℕ, ℤ, pos, length, slice_index_or};
ghost use Rattle.std.specs.Prelude.{◌<ℤ◌};
ghost use Rattle.interval_domain.specs.Bounds.{Holds};
ghost use Rattle.interval_domain.specs.Thresholds.{IsWithin, IsNearestBelow, IsNearestAbove};

use super::bounds::Interval;

// k, if its threshold is greater and not above z
fn nearer_below(thresholds: &[i64], nearest: usize, k: usize, z: i128) -> usize
    requires nearest { nearest < length thresholds.now }
    requires k { k < length thresholds.now }
    requires below { slice_index_or thresholds.now nearest (pos 0) ≤ℤ z }
    ensures within { result < length thresholds.now }
    ensures below { slice_index_or thresholds.now result (pos 0) ≤ℤ z }
    ensures kept { slice_index_or thresholds.now nearest (pos 0) ≤ℤ slice_index_or thresholds.now result (pos 0) }
    ensures taken { slice_index_or thresholds.now k (pos 0) ≤ℤ z
        → slice_index_or thresholds.now k (pos 0) ≤ℤ slice_index_or thresholds.now result (pos 0) }
{
    if thresholds[nearest] < thresholds[k] && thresholds[k] as i128 <= z {
        k
    } else {
        nearest
    }
}

// k, if its threshold is less and not below z
fn nearer_above(thresholds: &[i64], nearest: usize, k: usize, z: i128) -> usize
    requires nearest { nearest < length thresholds.now }
    requires k { k < length thresholds.now }
    requires above { z ≤ℤ slice_index_or thresholds.now nearest (pos 0) }
    ensures within { result < length thresholds.now }
    ensures above { z ≤ℤ slice_index_or thresholds.now result (pos 0) }
    ensures kept { slice_index_or thresholds.now result (pos 0) ≤ℤ slice_index_or thresholds.now nearest (pos 0) }
    ensures taken { z ≤ℤ slice_index_or thresholds.now k (pos 0)
        → slice_index_or thresholds.now result (pos 0) ≤ℤ slice_index_or thresholds.now k (pos 0) }
{
    if thresholds[k] < thresholds[nearest] && z <= thresholds[k] as i128 {
        k
    } else {
        nearest
    }
}

// the place of the greatest threshold at or below z
fn place_below(thresholds: &[i64], z: i128) -> usize
    requires some { 0 < length thresholds.now }
    requires first { slice_index_or thresholds.now 0 (pos 0) ≤ℤ z }
    ensures within { result < length thresholds.now }
    ensures below { slice_index_or thresholds.now result (pos 0) ≤ℤ z }
    ensures nearest { (k : ℕ) → k < length thresholds.now
        → slice_index_or thresholds.now k (pos 0) ≤ℤ z
        → slice_index_or thresholds.now k (pos 0) ≤ℤ slice_index_or thresholds.now result (pos 0) }
{
    let mut nearest = 0;
    for k in 0..thresholds.len() {
        nearest = nearer_below(thresholds, nearest, k, z);
    }
    nearest
}

// the place of the least threshold at or above z
fn place_above(thresholds: &[i64], z: i128) -> usize
    requires some { 0 < length thresholds.now }
    requires last { z ≤ℤ slice_index_or thresholds.now (length thresholds.now - 1) (pos 0) }
    ensures within { result < length thresholds.now }
    ensures above { z ≤ℤ slice_index_or thresholds.now result (pos 0) }
    ensures nearest { (k : ℕ) → k < length thresholds.now
        → z ≤ℤ slice_index_or thresholds.now k (pos 0)
        → slice_index_or thresholds.now result (pos 0) ≤ℤ slice_index_or thresholds.now k (pos 0) }
{
    let mut nearest = thresholds.len() - 1;
    for k in 0..thresholds.len() {
        nearest = nearer_above(thresholds, nearest, k, z);
    }
    nearest
}

// the greatest threshold at or below z
#[tactic(auto, using(crate::proofs::Nearest::below_from))]
fn nearest_below(thresholds: &[i64], z: i128) -> i128
    requires some { 0 < length thresholds.now }
    requires first { slice_index_or thresholds.now 0 (pos 0) ≤ℤ z }
    ensures { IsNearestBelow thresholds.now z result }
{
    let place = place_below(thresholds, z);
    thresholds[place] as i128
}

// the least threshold at or above z
#[tactic(auto, using(crate::proofs::Nearest::above_from))]
fn nearest_above(thresholds: &[i64], z: i128) -> i128
    requires some { 0 < length thresholds.now }
    requires last { z ≤ℤ slice_index_or thresholds.now (length thresholds.now - 1) (pos 0) }
    ensures { IsNearestAbove thresholds.now z result }
{
    let place = place_above(thresholds, z);
    thresholds[place] as i128
}

fn widened_low(old: i128, new: i128, thresholds: &[i64]) -> i128
    requires some { 0 < length thresholds.now }
    requires first { slice_index_or thresholds.now 0 (pos 0) ≤ℤ new }
    ensures kept { old ≤ℤ new → result ≡ old }
    ensures moved { new <ℤ old → IsNearestBelow thresholds.now new result }
    ensures below { (result ≤ℤ old) × (result ≤ℤ new) }
{
    if new < old {
        nearest_below(thresholds, new)
    } else {
        old
    }
}

fn widened_high(old: i128, new: i128, thresholds: &[i64]) -> i128
    requires some { 0 < length thresholds.now }
    requires last { new ≤ℤ slice_index_or thresholds.now (length thresholds.now - 1) (pos 0) }
    ensures kept { new ≤ℤ old → result ≡ old }
    ensures moved { old <ℤ new → IsNearestAbove thresholds.now new result }
    ensures above { (old ≤ℤ result) × (new ≤ℤ result) }
{
    if old < new {
        nearest_above(thresholds, new)
    } else {
        old
    }
}

/// Widens `a` by `b`: an end that doesn't grow stays, and one that grows goes to the nearest threshold
/// at or beyond it (Cousot and Cousot 1977). Only `b` has to lie between the first threshold and the last.
pub fn widen_i(a: Interval, b: Interval, thresholds: &[i64]) -> Interval
    requires a { a.low ≤ℤ a.high }
    requires b { IsWithin thresholds.now b }
    ensures low_kept { a.low ≤ℤ b.low → result.low ≡ a.low }
    ensures low_moved { b.low <ℤ a.low → IsNearestBelow thresholds.now b.low result.low }
    ensures high_kept { b.high ≤ℤ a.high → result.high ≡ a.high }
    ensures high_moved { a.high <ℤ b.high → IsNearestAbove thresholds.now b.high result.high }
    ensures holds { (z : ℤ) → Holds a z ⊎ Holds b z → Holds result z }
{
    Interval {
        low: widened_low(a.low, b.low, thresholds),
        high: widened_high(a.high, b.high, thresholds),
    }
}
