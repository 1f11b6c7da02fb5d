//! Linear forms over the cells of a pack.

pub(crate) mod amounts;
pub(crate) mod bounded_forms;
pub(crate) mod cells;
pub(crate) mod indexes;
pub(crate) mod literals;
pub(crate) mod lowered;
pub(crate) mod operands;
pub(crate) mod receivers;
pub(crate) mod senders;
pub(crate) mod sides;
pub(crate) mod small_forms;
pub(crate) mod sums;
pub(crate) mod taken;
pub(crate) mod view;
pub(crate) mod writing;
