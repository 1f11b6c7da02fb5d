//! Cases of stores.
ghost use Rattle.std.specs.Prelude.{◌≡◌, ◌≤◌, true, IfSome};
ghost use Rattle.cob_typed_exprs.specs.Sizes.{plain_size};
ghost use Rattle.cob_program.specs.declared.act.How.TheVariants as how;
ghost use Rattle.cob_program.specs.Bounds.{is_small, sum_bound, product_bound};
ghost use Rattle.sum_ranges.specs.SumRanges.{plus_range, product_range};
ghost use Rattle.sum_ranges.specs.Sizes.{IsSmallRange, IsRangeWithin};
ghost use Rattle.sum_ranges.specs.Working.{CanAddRanges, CanMultiplyRanges};
ghost use Rattle.transfer_ranges.specs.Operands.{computed_range};
ghost use Rattle.transfer_ranges.specs.Sizes.{IsReceiver, IsSmallAmount, IsSmallRemainder, CanCompute};
ghost use Rattle.transfer_ranges.specs.Bounded.{cut_bound, is_small_rest_at};

use crate::known::{Known, table_of};
use crate::shown::shown_stored;
use crate::words::{range_of, receiver_of};
use case_words::{how_of, mode_of, sum_of};
use cob_program::{How, Sum};
use cob_typed_exprs::{Size, quotient_size};
use dec_num::{Mode, SIZE_LIMIT};
use std::alloc::{AllocError, Global};
use sum_ranges::{Ranged, taken_sum, turned};
use transfer_ranges::{AmountRange, Receiver, Taken, computed_range, result_range};

// ---- what the calls ask

// How great the numbers of a range are, where they are small.
fn size_of(range: Ranged) -> Option<Size>
    ensures { IfSome result (λ s. IsRangeWithin range (plain_size s) × IsSmallRange range × (is_small (plain_size s) ≡ true)) }
{
    let low = range.units.low.unsigned_abs();
    let high = range.units.high.unsigned_abs();
    let most = low.max(high);
    if range.units.low <= range.units.high && most < SIZE_LIMIT && range.scale <= 37 {
        Some(Size {
            most,
            scale: range.scale,
        })
    } else {
        None
    }
}

fn is_receiver(receiver: Receiver) -> bool
    ensures { result ≡ true → IsReceiver receiver }
{
    1 <= receiver.digits && receiver.digits <= 18 && receiver.scale <= receiver.digits
}

fn is_small_range(range: Ranged) -> bool
    ensures { result ≡ true → IsSmallRange range }
{
    size_of(range).is_some()
}

fn is_small_taken(taken: Taken) -> bool
    ensures { result ≡ true → IsSmallAmount (computed_range how.Whole taken.top taken) }
{
    match taken.under {
        None => is_small_range(taken.top),
        Some(under) => is_small_range(taken.top) && is_small_range(under),
    }
}

#[tactic(auto, using(crate::proofs::Fitting::sized))]
fn is_small_sum(one: Size, other: Size) -> bool
    ensures { result ≡ is_small (sum_bound (plain_size one) (plain_size other)) }
{
    one.plus(other).is_some()
}

#[tactic(auto, using(crate::proofs::Fitting::sized))]
fn is_small_product(one: Size, other: Size) -> bool
    ensures { result ≡ is_small (product_bound (plain_size one) (plain_size other)) }
{
    one.by(other).is_some()
}

fn can_add(a: Ranged, b: Ranged) -> bool
    ensures { result ≡ true → CanAddRanges a b × IsSmallRange (plus_range a b) }
{
    match (size_of(a), size_of(b)) {
        (Some(one), Some(other)) => is_small_sum(one, other),
        _ => false,
    }
}

fn can_multiply(a: Ranged, b: Ranged) -> bool
    ensures { result ≡ true → CanMultiplyRanges a b × IsSmallRange (product_range a b) }
{
    match (size_of(a), size_of(b)) {
        (Some(one), Some(other)) => is_small_product(one, other),
        _ => false,
    }
}

// Whether what a receiver is to get can be worked out, and is small.
fn can_compute(how: How, own: Ranged, taken: Taken) -> bool
    ensures { result ≡ true → CanCompute how own taken × IsSmallAmount (computed_range how own taken) }
{
    match how {
        How::Whole => is_small_taken(taken),
        How::Plus => can_add(own, taken.top),
        How::Minus => is_small_range(taken.top) && can_add(own, turned(true, taken.top)),
        How::Times => can_multiply(own, taken.top),
        How::Under => is_small_range(own) && is_small_range(taken.top),
    }
}

#[tactic(auto, using(crate::proofs::Fitting::sized))]
fn is_small_rest(n: Size, d: Size, scale: u32) -> bool
    requires { n.scale ≤ 37 }
    ensures { result ≡ is_small_rest_at (plain_size n) (plain_size d) (cut_bound (plain_size n) (plain_size d) scale) }
{
    match quotient_size(n, d, scale) {
        None => false,
        Some(quotient) => match d.by(quotient) {
            None => false,
            Some(product) => n.plus(product).is_some(),
        },
    }
}

fn is_small_remainder(top: Ranged, under: Ranged, scale: u32) -> bool
    ensures { result ≡ true → IsSmallRemainder top under scale }
{
    match (size_of(top), size_of(under)) {
        (Some(n), Some(d)) => scale <= 18 && is_small_rest(n, d, scale),
        _ => false,
    }
}

// ---- cases

/// What becomes of an amount's digits past the last kept one, and its receiver.
#[derive(Clone, Copy)]
struct Target {
    mode: Mode,
    receiver: Receiver,
}

fn target_of(alloc: Global, words: &[&str]) -> Result<Option<Target>, AllocError> {
    let [mode, receiver] = words else {
        return Ok(None);
    };
    match (mode_of(mode), receiver_of(alloc, receiver)?) {
        (Some(mode), Some(receiver)) => Ok(Some(Target { mode, receiver })),
        _ => Ok(None),
    }
}

// What a store of a small amount may do.
fn stored(alloc: Global, amount: AmountRange, target: Target) -> Result<Option<String>, AllocError>
    requires { IsSmallAmount amount }
{
    if !is_receiver(target.receiver) {
        return Ok(None);
    }
    let stored = result_range(amount, target.receiver, target.mode);
    Ok(Some(shown_stored(alloc, stored)?))
}

fn computed(
    alloc: Global,
    target: Target,
    how: How,
    own: Ranged,
    taken: Taken,
) -> Result<Option<String>, AllocError> {
    if can_compute(how, own, taken) {
        stored(alloc, computed_range(how, own, taken), target)
    } else {
        Ok(None)
    }
}

/// What a receiver gets by itself and an operand, which is a range, or a quotient of two.
pub fn store_case(
    alloc: Global,
    receiver: &[&str],
    operands: &[&str],
) -> Result<Option<String>, AllocError> {
    let Some(target) = target_of(alloc, receiver)? else {
        return Ok(None);
    };
    match operands {
        [how, own, top] => operand_case(alloc, target, how, own, top, None),
        [how, own, top, under] => match range_of(alloc, under)? {
            None => Ok(None),
            Some(under) => operand_case(alloc, target, how, own, top, Some(under)),
        },
        _ => Ok(None),
    }
}

fn operand_case(
    alloc: Global,
    target: Target,
    how: &str,
    own: &str,
    top: &str,
    under: Option<Ranged>,
) -> Result<Option<String>, AllocError> {
    match (how_of(how), range_of(alloc, own)?, range_of(alloc, top)?) {
        (Some(how), Some(own), Some(top)) => {
            computed(alloc, target, how, own, Taken { top, under })
        }
        _ => Ok(None),
    }
}

fn remaining(
    alloc: Global,
    target: Target,
    top: Ranged,
    under: Ranged,
    scale: u32,
) -> Result<Option<String>, AllocError> {
    if is_small_remainder(top, under, scale) {
        stored(alloc, AmountRange::Remainder { top, under, scale }, target)
    } else {
        Ok(None)
    }
}

/// What a division leaves, whose quotient is cut at a scale.
pub fn rest_case(
    alloc: Global,
    receiver: &[&str],
    operands: &[&str],
) -> Result<Option<String>, AllocError> {
    let (Some(target), [top, under, scale]) = (target_of(alloc, receiver)?, operands) else {
        return Ok(None);
    };
    match (
        range_of(alloc, top)?,
        range_of(alloc, under)?,
        scale.parse::<u32>(),
    ) {
        (Some(top), Some(under), Ok(scale)) => remaining(alloc, target, top, under, scale),
        _ => Ok(None),
    }
}

#[tactic(auto, using(crate::proofs::Bounded::known_are_bounded))]
fn answer_to_compute(
    alloc: Global,
    target: Target,
    known: &Known,
    sum: &Sum,
) -> Result<Option<String>, AllocError> {
    if !known.is_small_stored(sum) {
        return Ok(None);
    }
    match taken_sum(known, sum, true) {
        None => Ok(Some(String::from_str(alloc, "no value")?)),
        Some(taken) => {
            let taken = Taken {
                top: taken.top,
                under: taken.under,
            };
            computed(alloc, target, How::Whole, taken.top, taken)
        }
    }
}

/// What a receiver gets of a sum, whose last quotient stays exact.
pub fn compute_case(
    alloc: Global,
    receiver: &[&str],
    items: &[&str],
    words: &[&str],
) -> Result<Option<String>, AllocError> {
    let (Some(target), Some(table), Some(sum)) = (
        target_of(alloc, receiver)?,
        table_of(alloc, items)?,
        sum_of(alloc, words)?,
    ) else {
        return Ok(None);
    };
    match table.known(alloc)? {
        None => Ok(None),
        Some(known) => answer_to_compute(alloc, target, &known, &sum),
    }
}
