//! What a row of a program's cells tells, and how it is set, cut and forgotten by what its cells are of.

pub(crate) mod beside;
pub(crate) mod counters;
pub(crate) mod forgetting;
pub(crate) mod items;
pub(crate) mod knowing;
pub(crate) mod pictures;
pub(crate) mod reads;
pub(crate) mod scales;
pub(crate) mod subscripts;
pub(crate) mod sums;
pub(crate) mod taking;
pub(crate) mod tests_of;
