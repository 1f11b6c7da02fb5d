//! Storage while a program runs: numbers are read from the bytes of items and stored in them, MOVE, what DISPLAY shows,
//! and storage at the beginning (ISO 1989:1985, "Data division" and "Procedure division").
#![tactic(auto)]

mod begin;
mod end;
mod items;
mod moves;
mod numbers;
mod senders;
mod shows;
mod stores;
mod texts;
mod writes;

pub use begin::{is_over, put_values, start};
pub use end::MoveEnd;
pub use items::{bytes_at, form_at, item_at};
pub use moves::after_move;
pub use numbers::{literal, number_at, number_in, scale_of};
pub use shows::push_line;
pub use stores::{digits_of, fill_bytes, store_at, store_units, write_units};
pub use texts::{write_fill, write_text};
