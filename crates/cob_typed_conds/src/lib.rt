//! Conditions and what stands behind WHEN: names resolved, abbreviations written out, and the rules that are broken on
//! the way (ISO 1989:1985, "Conditional expressions" and "The EVALUATE statement").
#![tactic(auto)]

/// What a call gives. Where it ends by an error, what was made before is dropped by calls, and the error is handed on.
/// `?` does the same, but its function is then dear to prove: at each `?` stands the whole type of what the function
/// gives, and at each way out all drops, part by part.
macro_rules! or_leave {
    ($given:expr $(, $made:expr)*) => {
        match $given {
            Ok(given) => given,
            Err(error) => {
                $(drop($made);)*
                return Err(error);
            }
        }
    };
}

mod carry;
mod conditions;
mod operand;
mod relations;
mod selections;

pub use conditions::condition;
pub use selections::{Looked, looked_at, selection};
