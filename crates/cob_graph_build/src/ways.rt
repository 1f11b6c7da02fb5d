//! Where a condition goes before it tries a test. What stands behind its first test isn't looked at, so that the places of
//! all tests of a condition are found in time that grows with their number.

ghost use Rattle.std.specs.Prelude.{◌≡◌, IfOk};
ghost use Rattle.cob_program.specs.LogicView.{plain_logic, plain_logics};
ghost use Rattle.cob_graph_build.specs.Ways.{led, turned, way_of, way_of_all, way_of_any};

use crate::counting::tests_in;
use crate::numbers::{exact, less, sum_of};
use cob_program::Logic;
use std::alloc::AllocError;

/// Where control goes: to the node of a test, or else, where no test is met, on as the condition holds or fails.
#[derive(Clone, Copy)]
pub enum Way {
    At(u32),
    Held,
    Failed,
}

impl Way {
    /// The node, by those at which control goes on where the condition holds, and where it fails.
    pub fn led(self, yes: u32, no: u32) -> u32
        ensures { result ≡ led self yes no }
    {
        match self {
            Way::At(first) => first,
            Way::Held => yes,
            Way::Failed => no,
        }
    }

    fn turned(self) -> Way
        ensures { result ≡ turned self }
    {
        match self {
            Way::At(first) => Way::At(first),
            Way::Held => Way::Failed,
            Way::Failed => Way::Held,
        }
    }
}

/// Where a condition goes whose tests begin at a node.
#[cycle(ways)]
pub fn way_of(logic: &Logic, at: u32, left: u32) -> Result<Way, AllocError>
    ensures { IfOk result (λ way. way ≡ way_of (plain_logic logic.now) at) }
{
    let left = less(left)?;
    match logic {
        Logic::All(parts) => way_of_all(parts, at, left),
        Logic::Any(parts) => way_of_any(parts, at, left),
        Logic::Not(part) => Ok(way_of(part, at, left)?.turned()),
        Logic::Test(_) => Ok(Way::At(at)),
    }
}

/// Where conditions go that are all to hold.
#[cycle(ways)]
pub fn way_of_all(parts: &[Logic], at: u32, left: u32) -> Result<Way, AllocError>
    ensures { IfOk result (λ way. way ≡ way_of_all (plain_logics parts.now) at) }
{
    let left = less(left)?;
    match parts {
        [] => Ok(Way::Held),
        [part, rest @ ..] => match way_of(part, at, left)? {
            Way::At(first) => Ok(Way::At(first)),
            Way::Failed => Ok(Way::Failed),
            Way::Held => {
                let behind = sum_of(at, exact(tests_in(part))?)?;
                way_of_all(rest, behind, left)
            }
        },
    }
}

/// Where conditions go of which one is to hold.
#[cycle(ways)]
pub fn way_of_any(parts: &[Logic], at: u32, left: u32) -> Result<Way, AllocError>
    ensures { IfOk result (λ way. way ≡ way_of_any (plain_logics parts.now) at) }
{
    let left = less(left)?;
    match parts {
        [] => Ok(Way::Failed),
        [part, rest @ ..] => match way_of(part, at, left)? {
            Way::At(first) => Ok(Way::At(first)),
            Way::Held => Ok(Way::Held),
            Way::Failed => {
                let behind = sum_of(at, exact(tests_in(part))?)?;
                way_of_any(rest, behind, left)
            }
        },
    }
}
