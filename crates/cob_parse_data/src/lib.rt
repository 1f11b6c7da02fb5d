//! Reads the divisions before PROCEDURE from tokens (ISO 1989:1985, "Identification division", "Environment
//! division" and "Data division").
#![tactic(auto)]

/// What a call gives. Where it fails, what was read before is dropped by calls, and the fault is handed on. `?` does the
/// same, but its function is then dear to prove: at each `?` stands the whole type of what the function gives, and at
/// each way out all drops, part by part.
macro_rules! or_leave {
    ($given:expr $(, $before:expr)*) => {
        match $given {
            Ok(given) => given,
            Err(halt) => {
                $(drop($before);)*
                return Err(halt);
            }
        }
    };
}

mod class;
mod entry;
mod env;
mod file;
mod front;
mod head;
mod laws;
mod parse;
mod select;
mod word;

pub use front::front_in;
pub use head::{ClauseHead, FdHead, SelectHead};
pub use laws::{
    one_front, one_reading, one_stop, read_or_stopped, same_but_for_lines, takes_is_going_on,
};
pub use parse::front_of;
pub use word::named;
