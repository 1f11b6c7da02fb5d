//! `run`: the task that its words ask for, the paths of its files, and how it ended.

pub(crate) mod named;
pub(crate) mod paths;
pub(crate) mod run_show;
pub(crate) mod run_text;
pub(crate) mod task;
