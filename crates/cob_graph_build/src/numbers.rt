//! Numbers of nodes. What would be too great for them counts as want of memory; the limits come long before.
ghost use Rattle.std.specs.Prelude.{◌≡◌, ◌+◌, ◌<◌, IfOk};
ghost use Rattle.cob_graph.specs.Limits.{most_told};

use cob_graph::MOST_TOLD;
use std::alloc::AllocError;

/// The sum.
pub fn sum_of(one: u32, two: u32) -> Result<u32, AllocError>
    ensures { IfOk result (λ sum. sum ≡ one + two) }
{
    match one.checked_add(two) {
        None => Err(AllocError),
        Some(sum) => Ok(sum),
    }
}

/// A count that is told as it is.
pub fn exact(told: u64) -> Result<u32, AllocError>
    ensures told { IfOk result (λ count. count ≡ told) }
    ensures below { IfOk result (λ count. count < most_told) }
{
    if told < MOST_TOLD {
        Ok(told as u32)
    } else {
        Err(AllocError)
    }
}

/// One less. At 0 calls would be nested too deep for the stack, which counts as want of memory.
pub fn less(left: u32) -> Result<u32, AllocError>
    ensures { IfOk result (λ fewer. fewer + 1 ≡ left) }
{
    match left.checked_sub(1) {
        None => Err(AllocError),
        Some(fewer) => Ok(fewer),
    }
}
