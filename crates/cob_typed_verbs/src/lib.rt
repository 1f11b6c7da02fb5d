//! Arithmetic statements, and statements that hold no statements: names resolved, operands and receivers judged
//! (ISO 1989:1985, "Procedure division").
#![tactic(auto)]

/// What a call gives. Where it ends by an error, what was made before is dropped by calls, and the error is handed on.
/// `?` does the same, but its function is then dear to prove: at each `?` stands the whole type of what the function
/// gives, and at each way out all drops, part by part.
macro_rules! or_leave {
    ($given:expr $(, $made:expr)*) => {
        match $given {
            Ok(given) => given,
            Err(error) => {
                $(drop($made);)*
                return Err(error);
            }
        }
    };
}

mod acts;
mod arithmetic;
mod verbs;

pub use acts::nothing;
pub use arithmetic::{
    Worked, add_giving, add_to, compute, divide_giving, divide_into, multiply_by, multiply_giving,
    subtract_from, subtract_giving,
};
pub use verbs::{close_act, move_act, open_act, read_parts, set_act, show_act, write_act};
