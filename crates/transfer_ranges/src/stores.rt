//! Stores: what the receiver may get, and whether a result may not fit.
ghost use Rattle.std.specs.Prelude.{◌≡◌, ◌||◌, ◌&&◌, IfSome};
ghost use Rattle.std.specs.Option.{option_copied};
ghost use Rattle.cob_runs.specs.Contents.{item_at, form_at};
ghost use Rattle.transfer_ranges.specs.Receivers.{receiver_of};
ghost use Rattle.transfer_ranges.specs.Sizes.{IsReceiver, IsSmallAmount};
ghost use Rattle.transfer_ranges.specs.AmountView.{plain_amount};
ghost use Rattle.transfer_ranges.specs.EdgeOperands.{is_remainder};
ghost use Rattle.transfer_ranges.specs.Working.{may_vanish, CanSettleFor, CanWork, amount_from, units_from, exceeds_from};

use crate::amount_ranges::{amount_of, is_remainder, may_divide_by_zero};
use crate::amounts::{Amount, AmountRange, Receiver, Taken};
use crate::results::{Stored, result_range};
use cob_data::{Item, Layout};
use cob_tree::Form;
use dec_num::Mode;
use sum_ranges::Ranged;

// ---- receivers

fn receiver_of(form: &Form) -> Receiver
    ensures { result ≡ receiver_of form.now }
{
    match form {
        Form::Number {
            digits,
            scale,
            signed,
            ..
        } => Receiver {
            digits: *digits,
            scale: *scale,
            signed: *signed,
        },
        Form::Edited { digits, scale, .. } => Receiver {
            digits: *digits,
            scale: *scale,
            signed: false,
        },
        Form::Group | Form::Text { .. } => Receiver {
            digits: 0,
            scale: 0,
            signed: false,
        },
    }
}

fn item_at(layout: &Layout, place: u32) -> Option<&Item>
    ensures { option_copied result ≡ item_at layout.now place }
{
    layout.items.get().get(place as usize)
}

/// The receiver at a place.
pub fn receiver_at(layout: &Layout, place: u32) -> Receiver
    ensures { result ≡ receiver_of (form_at layout.now place) }
{
    match item_at(layout, place) {
        None => Receiver {
            digits: 0,
            scale: 0,
            signed: false,
        },
        Some(item) => receiver_of(&item.form),
    }
}

// ---- what is stored

/// What a receiver whose own numbers are these is to get; nothing where a divisor is 0 alone.
pub fn amount_from(amount: Amount, own: Ranged, common: Option<Taken>) -> Option<AmountRange>
    requires { IfSome common (CanWork (plain_amount amount) own) }
    ensures { result ≡ amount_from common (plain_amount amount.entry) own }
{
    match common {
        None => None,
        Some(taken) => amount_of(amount, own, taken),
    }
}

/// What a store may do to its receiver: the units that it gets where a result fits, and whether one may not fit, or
/// there may be none. Nothing is known where a divisor is 0 alone.
pub fn store_range(amount: Option<AmountRange>, receiver: Receiver, mode: Mode) -> Stored
    requires receiver { IsReceiver receiver }
    requires small { IfSome amount IsSmallAmount }
    ensures units { result.units ≡ units_from mode receiver amount }
    ensures may_fail { result.may_fail ≡ exceeds_from mode receiver amount }
{
    match amount {
        None => Stored {
            units: None,
            may_fail: true,
        },
        Some(amount) => result_range(amount, receiver, mode),
    }
}

/// Whether what divides may be 0, which it may where nothing is known.
pub fn may_vanish(common: Option<Taken>, amount: Amount) -> bool
    requires { IfSome common (CanSettleFor (plain_amount amount)) }
    ensures { result ≡ may_vanish common (plain_amount amount.entry) }
{
    match common {
        None => true,
        Some(taken) => may_divide_by_zero(amount, taken),
    }
}

/// Whether a receiver may keep its value on an edge of size errors: a result may not fit, a divisor may be 0, or the
/// remainder's quotient may have failed.
pub fn may_keep(
    amount: Amount,
    common: Option<Taken>,
    exceeds: bool,
    may_zero: bool,
    any_fail: bool,
) -> bool
    requires { IfSome common (CanSettleFor (plain_amount amount)) }
    ensures { result ≡ (exceeds || (may_zero || (may_vanish common (plain_amount amount.entry)
        || (is_remainder (plain_amount amount.entry) && any_fail)))) }
{
    exceeds || may_zero || may_vanish(common, amount) || (is_remainder(amount) && any_fail)
}
