//! Why a statement doesn't go on.
use cob_tree::Kind;
use std::alloc::AllocError;

/// Why a statement doesn't go on: it meets a fault, nothing handles a status, or memory ran out.
#[derive(Clone, Copy, PartialEq, Eq)]
pub enum DoEnd {
    Fault(Kind),
    Stop(u8),
    Memory,
}

impl From<AllocError> for DoEnd {
    ghost use Rattle.cob_plan.specs.declared.end.DoEnd.{DoEnd};
    ghost use Rattle.std.specs.Prelude.{◌≡◌};

    ghost from_gives = { λ failed end. end ≡ DoEnd.Memory };

    fn from(_: AllocError) -> DoEnd {
        DoEnd::Memory
    }
}
