//! Certificates as values.
ghost use Rattle.std.specs.Prelude.{◌≡◌};
ghost use Rattle.cert_text.specs.declared.cert.CertEnd.TheVariants.{Memory};

use diff_bounds::Pack;
use std::alloc::{AllocError, AllocFailed};

/// The range of one cell at a node, in the cell's units, both ends included. The cell goes by its
/// place from 1.
#[derive(Clone, Copy, PartialEq, Eq)]
pub struct Claim {
    pub cell: u32,
    pub low: i64,
    pub high: i64,
}

/// The value at `row` minus that at `column` is at most `most`, in the pack's finest unit. The pack
/// goes by its place from 1. Row and column are places in the pack from 1, and 0 is the number 0.
#[derive(Clone, Copy, PartialEq, Eq)]
pub struct Bound {
    pub pack: u32,
    pub row: u32,
    pub column: u32,
    pub most: i128,
}

/// What is claimed of a node: that no run reaches it, or the ranges and the bounds of the values
/// there. A cell without a claim is unknown.
#[derive(PartialEq, Eq, Drop)]
pub enum Element {
    Unreached,
    At {
        cells: Vec<Claim>,
        bounds: Vec<Bound>,
    },
}

/// A certificate: the number of cells, the packs, and what is claimed of each node in order.
#[derive(PartialEq, Eq, Drop)]
pub struct Cert {
    pub cells: u32,
    pub packs: Vec<Pack>,
    pub nodes: Vec<Element>,
}

/// Why no certificate was read: the first line with which no certificate's text goes on, counted
/// from 1, or want of memory. A line number past `u32::MAX` is given as `u32::MAX`.
#[derive(Clone, Copy, PartialEq, Eq)]
pub enum CertEnd {
    Syntax { line: u32 },
    Memory,
}

impl From<AllocError> for CertEnd {
    ghost from_gives = { λ _ e. e ≡ Memory };

    fn from(_error: AllocError) -> Self {
        CertEnd::Memory
    }
}

impl<T: Drop> From<AllocFailed<T>> for CertEnd {
    ghost from_gives = { λ _ e. e ≡ Memory };

    fn from(_error: AllocFailed<T>) -> Self {
        CertEnd::Memory
    }
}
