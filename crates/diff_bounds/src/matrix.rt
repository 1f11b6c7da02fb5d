//! The matrix of one pack: its words, order, join, widening and closing.

pub(crate) mod closing;
pub(crate) mod closure_laws;
pub(crate) mod lattice;
pub(crate) mod laws;
pub(crate) mod one_row;
pub(crate) mod settling;
pub(crate) mod words;
