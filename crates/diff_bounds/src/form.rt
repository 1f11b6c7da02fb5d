//! Linear forms: what they are, what a store may cut off, what a matrix shows of them, and how they change a matrix.

pub(crate) mod altered;
pub(crate) mod arithmetic;
pub(crate) mod assignment;
pub(crate) mod bound_laws;
pub(crate) mod bounds;
pub(crate) mod demands;
pub(crate) mod error_laws;
pub(crate) mod errors;
pub(crate) mod forgetting;
pub(crate) mod form_laws;
pub(crate) mod image_laws;
pub(crate) mod known;
pub(crate) mod lin;
pub(crate) mod small;
pub(crate) mod sums;
pub(crate) mod terms;
