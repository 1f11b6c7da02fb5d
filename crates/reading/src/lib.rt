//! Readers of token lists with a law: each tree that the grammar allows is read from its text, what is
//! read is spelled so, and reading ends at the first token with which no text goes on. The definitions
//! stand in `specs/`, the law of each way to put readers together in `proofs/`.
#![tactic(auto)]

mod laws;

pub use laws::{brackets_are_read, more_room_agrees, too_deep_is_told};
