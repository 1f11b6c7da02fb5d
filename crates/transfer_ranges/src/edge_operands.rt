//! The operands of an edge, which are taken once.
ghost use Rattle.std.specs.Prelude.{◌≡◌, ℕ, true, Option};
ghost use Rattle.std.specs.Option.{option_map};
ghost use Rattle.cob_program.specs.Act as act;
ghost use Rattle.cob_program.specs.SumView.{plain_sum};
ghost use Rattle.cob_program.specs.ActView.{plain_act, plain_turns};
ghost use Rattle.cob_runs.specs.declared.action.Action as action;
ghost use Rattle.sum_ranges.specs.Working.{AreBounded};
ghost use Rattle.sum_ranges.specs.Taking.{is_small_taken};
ghost use Rattle.transfer_ranges.specs.Operands.{alone, is_whole, taken_sum};
ghost use Rattle.transfer_ranges.specs.Stores.{operands};
ghost use Rattle.transfer_ranges.specs.AmountView.{plain_amount};
ghost use Rattle.transfer_ranges.specs.EdgeOperands.{edge_amount, operands_vanish};
ghost use Rattle.transfer_ranges.specs.SmallAmounts.{is_small_amount, has_small_sum};
ghost use Rattle.transfer_ranges.specs.Working.{for_store};

use crate::amounts::{Amount, Taken};
use crate::senders::sender_range;
use cob_data::Sender;
use cob_program::{Act, How, Sum, Turns};
use cob_runs::Action;
use sum_ranges::{Ranged, Ranges, may_vanish_stored, taken_sum};

fn is_whole(how: How) -> bool
    ensures { result ≡ is_whole how }
{
    matches!(how, How::Whole)
}

fn alone(range: Option<Ranged>) -> Option<Taken>
    ensures { result ≡ option_map alone range }
{
    match range {
        None => None,
        Some(top) => Some(Taken { top, under: None }),
    }
}

// What is taken of a sum, whose whole is stored or not.
#[tactic(auto, using(crate::proofs::TakenLemmas::taken_is))]
fn of_sum<R: Ranges>(ranges: &R, sum: &Sum, whole: bool) -> Option<Taken>
    requires bounded { AreBounded (R.range_at ranges.now) (R.bound_at ranges.now) }
    requires small { is_small_taken (R.bound_at ranges.now) whole (plain_sum sum.now) ≡ true }
    ensures { result ≡ taken_sum (R.range_at ranges.now) whole (plain_sum sum.now) }
{
    for_store(taken_sum(ranges, sum, whole))
}

fn for_store(taken: Option<sum_ranges::Taken>) -> Option<Taken>
    ensures { result ≡ option_map for_store taken }
{
    match taken {
        None => None,
        Some(taken) => Some(Taken {
            top: taken.top,
            under: taken.under,
        }),
    }
}

/// The operands of an amount; nothing where a divisor in it is 0 alone.
pub fn operands<R: Ranges>(ranges: &R, amount: Amount) -> Option<Taken>
    requires bounded { AreBounded (R.range_at ranges.now) (R.bound_at ranges.now) }
    requires small { is_small_amount (R.bound_at ranges.now) (plain_amount amount) ≡ true }
    ensures { result ≡ operands (R.range_at ranges.now) (plain_amount amount.entry) }
{
    match amount {
        Amount::Moved(sender) => alone(sender_range(ranges, sender)),
        Amount::Augmented(sender) => alone(sender_range(ranges, sender)),
        Amount::Computed(sum, how) => of_sum(ranges, sum, is_whole(how)),
        Amount::Remaining(sum, _) => of_sum(ranges, sum, true),
    }
}

// ---- what an edge works out

fn turns_amount<'a>(turns: &'a Turns, action: Action) -> Option<Amount<'a>>
    ensures { (body : act.Body) → option_map plain_amount result
        ≡ edge_amount (act.perform body (plain_turns turns.now)) action }
{
    match turns {
        Turns::Varying { start, by, .. } => match action {
            Action::Assign => Some(Amount::Moved(start)),
            _ => Some(Amount::Augmented(by)),
        },
        Turns::Times(count) => Some(Amount::Moved(count)),
        Turns::Once | Turns::Until { .. } => None,
    }
}

fn from_amount<'a>(from: &'a Option<Sender>) -> Option<Amount<'a>>
    ensures { (rec : ℕ) (action : action.Action) → option_map plain_amount result ≡ edge_amount (act.write rec from.now) action }
{
    match from {
        None => None,
        Some(sender) => Some(Amount::Moved(sender)),
    }
}

/// The amount that an edge works out of its operands, if it has any: a sum, or what a sender is.
pub fn edge_amount<'a>(act: &'a Act, action: Action) -> Option<Amount<'a>>
    ensures { option_map plain_amount result ≡ edge_amount (plain_act act.now) action }
{
    match act {
        Act::Arith { common, .. } => Some(Amount::Computed(common, How::Whole)),
        Act::Move { from, .. } => Some(Amount::Moved(from)),
        Act::Perform { turns, .. } => turns_amount(turns, action),
        Act::Write { from, .. } => from_amount(from),
        _ => None,
    }
}

/// Whether some divisor of the statement's sum may be 0.
pub fn operands_vanish<R: Ranges>(ranges: &R, act: &Act) -> bool
    requires bounded { AreBounded (R.range_at ranges.now) (R.bound_at ranges.now) }
    requires small { has_small_sum (R.bound_at ranges.now) (plain_act act.now) ≡ true }
    ensures { result ≡ operands_vanish (R.range_at ranges.now) (plain_act act.now) }
{
    match act {
        Act::Arith { common, .. } => may_vanish_stored(ranges, common),
        _ => false,
    }
}
