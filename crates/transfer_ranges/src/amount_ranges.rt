//! What a receiver is to get, as far as it is known.
ghost use Rattle.std.specs.Prelude.{◌≡◌};
ghost use Rattle.std.specs.Option.{option_map};
ghost use Rattle.sum_ranges.specs.Vanishing.{holds_zero};
ghost use Rattle.transfer_ranges.specs.Operands.{remaining_range};
ghost use Rattle.transfer_ranges.specs.Stores.{amount_range};
ghost use Rattle.transfer_ranges.specs.AmountView.{plain_amount};
ghost use Rattle.transfer_ranges.specs.EdgeOperands.{settled, stays_exact, taken_for, amount_of, is_divided, may_divide_by_zero, is_remainder};
ghost use Rattle.transfer_ranges.specs.Working.{CanSettle, CanSettleFor, CanGive, CanWork};

use crate::amounts::{Amount, AmountRange, Taken};
use crate::results::computed_range;
use cob_program::How;
use sum_ranges::{Ranged, factor_range, plus_range};

fn holds_zero(range: Option<Ranged>) -> bool
    ensures { result ≡ holds_zero range }
{
    match range {
        None => false,
        Some(range) => range.units.low <= 0 && 0 <= range.units.high,
    }
}

// A quotient that doesn't stay exact.
fn settled(taken: Taken) -> Option<Taken>
    requires { CanSettle taken }
    ensures { result ≡ settled taken }
{
    match taken.under {
        None => Some(Taken {
            top: taken.top,
            under: None,
        }),
        Some(under) => match factor_range(true, taken.top, under) {
            None => None,
            Some(top) => Some(Taken { top, under: None }),
        },
    }
}

fn stays_exact(amount: Amount) -> bool
    ensures { result ≡ stays_exact (plain_amount amount.entry) }
{
    match amount {
        Amount::Computed(_, how) => matches!(how, How::Whole),
        Amount::Moved(_) | Amount::Remaining(_, _) | Amount::Augmented(_) => true,
    }
}

fn taken_for(amount: Amount, taken: Taken) -> Option<Taken>
    requires { CanSettleFor (plain_amount amount) taken }
    ensures { result ≡ taken_for (plain_amount amount.entry) taken }
{
    if stays_exact(amount) {
        Some(taken)
    } else {
        settled(taken)
    }
}

fn remaining(taken: Taken, scale: u32) -> Option<AmountRange>
    ensures { result ≡ remaining_range scale taken }
{
    match taken.under {
        None => None,
        Some(under) => Some(AmountRange::Remainder {
            top: taken.top,
            under,
            scale,
        }),
    }
}

fn given(amount: Amount, own: Ranged, taken: Taken) -> Option<AmountRange>
    requires { CanGive (plain_amount amount) own taken }
    ensures { result ≡ amount_range (plain_amount amount.entry) own taken }
{
    match amount {
        Amount::Moved(_) => Some(AmountRange::Decimal(taken.top)),
        Amount::Computed(_, how) => Some(computed_range(how, own, taken)),
        Amount::Remaining(_, scale) => remaining(taken, scale),
        Amount::Augmented(_) => Some(AmountRange::Decimal(plus_range(own, taken.top))),
    }
}

/// What the amount can be, for a receiver whose own numbers are these; nothing where a divisor is 0 alone.
pub fn amount_of(amount: Amount, own: Ranged, taken: Taken) -> Option<AmountRange>
    requires { CanWork (plain_amount amount) own taken }
    ensures { result ≡ amount_of (plain_amount amount.entry) own taken }
{
    match taken_for(amount, taken) {
        None => None,
        Some(taken) => given(amount, own, taken),
    }
}

fn is_divided(amount: Amount) -> bool
    ensures { result ≡ is_divided (plain_amount amount.entry) }
{
    match amount {
        Amount::Computed(_, how) => matches!(how, How::Under),
        Amount::Moved(_) | Amount::Remaining(_, _) | Amount::Augmented(_) => false,
    }
}

fn top_of(taken: Option<Taken>) -> Option<Ranged>
    ensures { result ≡ option_map (λ t. t.top) taken }
{
    match taken {
        None => None,
        Some(taken) => Some(taken.top),
    }
}

/// Whether what divides the amount may be 0, divisors in its sum aside.
#[tactic(auto, using(crate::proofs::TakenLemmas::divided_is_settled))]
pub fn may_divide_by_zero(amount: Amount, taken: Taken) -> bool
    requires { CanSettleFor (plain_amount amount) taken }
    ensures { result ≡ may_divide_by_zero (plain_amount amount.entry) taken }
{
    holds_zero(taken.under) || (is_divided(amount) && holds_zero(top_of(settled(taken))))
}

/// Whether the amount is what a division leaves.
pub fn is_remainder(amount: Amount) -> bool
    ensures { result ≡ is_remainder (plain_amount amount.entry) }
{
    matches!(amount, Amount::Remaining(_, _))
}
