//! The contents of items: reading a number from an item's bytes, writing one into them, and editing
//! (ISO 1989:1985, USAGE, SIGN and the editing rules of PICTURE). No call takes memory.
#![tactic(auto)]

mod binary;
mod contents;
mod digits;
mod packed;
mod picture;
mod zoned;

pub use contents::{is_numeric, put, value};
pub use picture::edit;
