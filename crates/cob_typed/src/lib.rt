//! From the tree of a program to a program of the profile: names resolved, statements numbered, abbreviations written
//! out, and the rules on statements (ISO 1989:1985, "Procedure division").
#![tactic(auto)]

/// What a call gives. Where it ends by an error, what was made before is dropped by calls, and the error is handed on.
/// `?` does the same, but its function is then dear to prove: at each `?` stands the whole type of what the function
/// gives, and at each way out all drops, part by part.
macro_rules! or_leave {
    ($given:expr $(, $made:expr)*) => {
        match $given {
            Ok(given) => given,
            Err(error) => {
                $(drop($made);)*
                return Err(error);
            }
        }
    };
}

mod acts;
mod end;
mod heads;
mod laws;
mod performs;
mod statements;
mod typing;

pub use end::TypedEnd;
pub use laws::rules_are_told_apart;
pub use typing::typed_of;
