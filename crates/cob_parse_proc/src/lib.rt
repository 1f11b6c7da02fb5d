//! Reads the statements of the PROCEDURE DIVISION, and with them whole programs, from tokens (ISO 1989:1985,
//! "Procedure Division").
#![tactic(auto)]

/// What a call gives. Where it fails, what was read before is dropped by calls, and the fault is handed on. `?` does the
/// same, but its function is then dear to prove: at each `?` stands the whole type of what the function gives, and at
/// each way out all drops, part by part.
macro_rules! or_leave {
    ($given:expr $(, $before:expr)*) => {
        match $given {
            Ok(given) => given,
            Err(halt) => {
                $(drop($before);)*
                return Err(halt);
            }
        }
    };
}

mod laws;
mod outer;
mod parse;
mod sentence;
mod statement;
mod token;
mod tree;
mod verb;

pub use laws::{one_answer, one_tree, same_but_for_lines};
pub use parse::program_of;
pub use statement::stmts_in;
