//! Rows of the matrices of several packs, one behind the other.

pub(crate) mod joining;
pub(crate) mod least;
pub(crate) mod order;
pub(crate) mod row_laws;
pub(crate) mod sizes;
pub(crate) mod widening;
