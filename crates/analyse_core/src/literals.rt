//! Single literals, and those of senders and ranges of values.
ghost use Rattle.std.specs.Prelude.{◌≡◌, ◌++◌, ◌∷◌, [], OnOk};
ghost use Rattle.analyse_core.specs.Literals.{
  pair_literals,
  pairs_literals,
  sender_literals,
  senders_literals,
  value_literals,
  numbers_of,
};

use cob_data::{Pair, Sender};
use cob_tree::Num;
use std::alloc::AllocError;

/// Adds a literal.
pub fn add_number<'a>(literals: &mut Vec<&'a Num>, number: &'a Num) -> Result<(), AllocError>
    ensures { OnOk result (numbers_of literals.new.items ≡ numbers_of literals.old.items ++ number.now ∷ []) }
{
    literals.push(number)?;
    Ok(())
}

/// Adds a sender that is a literal.
pub fn add_sender<'a>(literals: &mut Vec<&'a Num>, sender: &'a Sender) -> Result<(), AllocError>
    ensures { OnOk result (numbers_of literals.new.items ≡ numbers_of literals.old.items ++ sender_literals sender.now) }
{
    match sender {
        Sender::Number(number) => add_number(literals, number),
        _ => Ok(()),
    }
}

/// Adds the literals among some senders.
pub fn add_senders<'a>(literals: &mut Vec<&'a Num>, senders: &'a [Sender]) -> Result<(), AllocError>
    ensures { OnOk result (numbers_of literals.new.items ≡ numbers_of literals.old.items ++ senders_literals senders.now) }
{
    for sender in senders {
        add_sender(literals, sender)?;
    }
    Ok(())
}

/// Adds a value that is given, if it is a literal.
pub fn add_value<'a>(
    literals: &mut Vec<&'a Num>,
    value: &'a Option<Sender>,
) -> Result<(), AllocError>
    ensures { OnOk result (numbers_of literals.new.items ≡ numbers_of literals.old.items ++ value_literals value.now) }
{
    match value {
        Some(sender) => add_sender(literals, sender),
        None => Ok(()),
    }
}

fn add_pair<'a>(literals: &mut Vec<&'a Num>, pair: &'a Pair) -> Result<(), AllocError>
    ensures { OnOk result (numbers_of literals.new.items ≡ numbers_of literals.old.items ++ pair_literals pair.now) }
{
    add_sender(literals, &pair.low)?;
    add_sender(literals, &pair.high)
}

/// Adds the literals among the ends of ranges of values.
pub fn add_pairs<'a>(literals: &mut Vec<&'a Num>, pairs: &'a [Pair]) -> Result<(), AllocError>
    ensures { OnOk result (numbers_of literals.new.items ≡ numbers_of literals.old.items ++ pairs_literals pairs.now) }
{
    for pair in pairs {
        add_pair(literals, pair)?;
    }
    Ok(())
}
