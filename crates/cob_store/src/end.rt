//! How a MOVE ends that can't be done.
use cob_tree::Kind;
use std::alloc::AllocError;

/// Why a MOVE ends: it meets a fault, or memory runs out.
#[derive(Clone, Copy, PartialEq, Eq)]
pub enum MoveEnd {
    Fault(Kind),
    Memory,
}

impl From<AllocError> for MoveEnd {
    ghost use Rattle.cob_store.specs.declared.end.MoveEnd.{MoveEnd};
    ghost use Rattle.std.specs.Prelude.{◌≡◌};

    ghost from_gives = { λ failed end. end ≡ MoveEnd.Memory };

    fn from(_: AllocError) -> MoveEnd {
        MoveEnd::Memory
    }
}
