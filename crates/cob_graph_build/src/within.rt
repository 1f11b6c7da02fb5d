//! The copy of paragraphs in which statements are laid.
ghost use Rattle.cob_program.specs.ActView.{plain_program};
ghost use Rattle.cob_graph_build.specs.Tables.{IsTable};

use crate::counting::Entry;
use cob_program::Program;

/// What all nodes of a copy share: the table of the ranges that its paragraphs perform, the PERFORMs in which it lies,
/// its paragraphs, where it begins, what follows it, and the final node.
#[derive(Drop)]
pub struct Within<'a> {
    pub program: &'a Program,
    pub table: &'a [Entry],
    pub sites: &'a [u32],
    pub first: usize,
    pub end: usize,
    pub at: u32,
    pub next: u32,
    pub final_node: u32,
    ghost known: { IsTable (plain_program program.now) table.now },
}
