//! Calls that differ in more than their lines.
ghost use Rattle.std.specs.Prelude.{◌≡◌, true, map, IfOk, OnOk};
ghost use Rattle.cob_graph.specs.Listing.{plain_call};
ghost use Rattle.cob_graph.specs.Covering.{IsLike, HasLike, Covers, IsAdded};

use crate::calls::Call;
use std::alloc::{AllocError, Global};

fn is_like(call: Call, other: Call) -> bool
    ensures { result ≡ true → IsLike (plain_call call) (plain_call other) }
{
    other.para == call.para
        && other.span.first == call.span.first
        && other.span.last == call.span.last
        && other.line <= call.line
}

fn has_like(calls: &[Call], call: Call) -> bool
    ensures { result ≡ true → HasLike (map plain_call calls.now) (plain_call call) }
{
    for other in calls {
        if is_like(call, *other) {
            return true;
        }
    }
    false
}

fn add(calls: &mut Vec<Call>, call: Call) -> Result<(), AllocError>
    ensures { OnOk result
        (IsAdded (map plain_call calls.old.items) (plain_call call) (map plain_call calls.new.items)) }
{
    if has_like(calls, call) {
        return Ok(());
    }
    calls.push(call)?;
    Ok(())
}

/// The calls, but for those that have one like them on no later line.
pub fn distinct(alloc: Global, calls: &[Call]) -> Result<Vec<Call>, AllocError>
    ensures { IfOk result (λ kept. Covers (map plain_call calls.now) (map plain_call kept.items)) }
{
    let mut kept = Vec::new(alloc);
    for call in calls {
        add(&mut kept, *call)?;
    }
    Ok(kept)
}
