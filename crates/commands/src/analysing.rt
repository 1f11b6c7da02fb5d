//! `analyse` and `trial`: what is found for a source.

pub(crate) mod findings;
pub(crate) mod trial;
pub(crate) mod trial_source;
