//! Which kinds of fault are cleared at each statement.
ghost use Rattle.std.specs.Prelude.{◌≡◌, ◌++◌, OnOk};
ghost use Rattle.cert_check.specs.OpenPairs.{if_open};
ghost use Rattle.cert_check.specs.Clearing.{IsNoted, left_open};

use cob_tree::{Kind, Kinds, Open, all_kinds};
use std::alloc::AllocError;

/// Notes what a node clears at its statement, if it has one.
pub(crate) fn note(noted: &mut [Kinds], statement: u32, cleared: Kinds)
    ensures { IsNoted statement cleared noted.old noted.new }
{
    let place = statement as usize;
    if 1 <= place && place <= noted.len() {
        noted[place - 1] = noted[place - 1].both(cleared);
    }
}

// Adds a pair that isn't cleared.
fn push_open(
    pairs: &mut Vec<Open>,
    statement: u32,
    kind: Kind,
    is_cleared: bool,
) -> Result<(), AllocError>
    ensures { OnOk result (pairs.new.items ≡ pairs.old.items ++ if_open is_cleared statement kind) }
{
    if !is_cleared {
        pairs.push(Open { statement, kind })?;
    }
    Ok(())
}

/// Adds the pairs of a statement that aren't cleared.
pub(crate) fn push_left_open(
    pairs: &mut Vec<Open>,
    statement: u32,
    cleared: Kinds,
) -> Result<(), AllocError>
    ensures { OnOk result (pairs.new.items ≡ pairs.old.items ++ left_open cleared statement) }
{
    for kind in all_kinds() {
        push_open(pairs, statement, kind, cleared.has(kind))?;
    }
    Ok(())
}
