//! Packs along an edge: what its parts make of their matrices, and the faults that these show not to be met.

pub(crate) mod changing;
pub(crate) mod closing;
pub(crate) mod counters;
pub(crate) mod edge;
pub(crate) mod ends;
pub(crate) mod faults;
pub(crate) mod gone;
pub(crate) mod guards;
pub(crate) mod indexing;
pub(crate) mod matrix_bounds;
pub(crate) mod matrix_changes;
pub(crate) mod matrix_closing;
pub(crate) mod matrix_forgetting;
pub(crate) mod matrix_images;
pub(crate) mod matrix_orders;
pub(crate) mod matrix_storing;
pub(crate) mod moment;
pub(crate) mod passed;
pub(crate) mod passing;
pub(crate) mod plans;
pub(crate) mod stores;
pub(crate) mod walking;
