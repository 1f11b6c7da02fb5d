//! The walk along an edge, part by part: what each part makes of the row, and the faults that are not met there.

pub(crate) mod before;
pub(crate) mod counting;
pub(crate) mod dividing;
pub(crate) mod each_part;
pub(crate) mod faults;
pub(crate) mod kept;
pub(crate) mod row_walk;
pub(crate) mod stores;
pub(crate) mod subscripts;
pub(crate) mod walking;
