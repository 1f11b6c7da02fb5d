//! How a check ends that lists no pairs: a wrong shape, or the first gap.
ghost use Rattle.std.specs.Prelude.{◌≡◌};
ghost use Rattle.cert_check.specs.declared.ends.CheckEnd.TheVariants.{Memory};

use cert_text::Gap;
use std::alloc::{AllocError, AllocFailed};
use thiserror::Error;

/// Which count of a certificate differs: that of its cells from the program's, or that of its nodes from the graph's.
#[derive(Clone, Copy, Debug, PartialEq, Eq)]
pub enum Shape {
    Cells,
    Nodes,
}

/// An edge, and a place at which what it reaches doesn't lie in its target's claims: of cells in layer 1, of packs in
/// layer 2. Edge 0 is the entry.
#[derive(Clone, Copy, PartialEq, Eq)]
pub struct Leak {
    pub layer: u8,
    pub edge: u32,
    pub gap: Gap,
}

/// Why a certificate isn't accepted.
#[derive(Debug, Drop, Error)]
pub enum CheckEnd {
    /// The certificate has another number of cells or nodes than the program.
    #[error("the certificate has another shape than the program")]
    Shape {
        what: Shape,
        found: u32,
        wanted: u32,
    },
    /// What an edge makes of its source's claims doesn't lie in its target's claims: of cells in layer 1, of packs in
    /// layer 2. Edge 0 is the entry.
    #[error("the certificate is not inductive at edge {edge}")]
    NotInductive {
        layer: u8,
        edge: u32,
        gap: Gap,
    },
    #[error("out of memory")]
    Memory,
}

impl From<AllocError> for CheckEnd {
    ghost from_gives = { λ _ e. e ≡ Memory };

    fn from(_error: AllocError) -> CheckEnd {
        CheckEnd::Memory
    }
}

impl<T: Drop> From<AllocFailed<T>> for CheckEnd {
    ghost from_gives = { λ _ e. e ≡ Memory };

    fn from(_error: AllocFailed<T>) -> CheckEnd {
        CheckEnd::Memory
    }
}
