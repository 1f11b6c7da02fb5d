//! What names and expressions of a program mean: the items, condition-names, files and records that a reference names
//! (ISO 1989:1985, "Qualification"), expressions as sums, how great these can be, and which values may be moved where or
//! compared; each with the rules that it breaks ("Procedure division").
#![tactic(auto)]

/// What a call gives. Where it ends by an error, what was made before is dropped by calls, and the error is handed on.
/// `?` does the same, but its function is then dear to prove: at each `?` stands the whole type of what the function
/// gives, and at each way out all drops, part by part.
macro_rules! or_leave {
    ($given:expr $(, $made:expr)*) => {
        match $given {
            Ok(given) => given,
            Err(error) => {
                $(drop($made);)*
                return Err(error);
            }
        }
    };
}

mod bounds;
mod finding;
mod found;
mod homes;
mod kind;
mod kinds;
mod names;
mod qualifiers;
mod scope;
mod shapes;
mod sums;
mod table;
mod tables;

pub use bounds::{Size, quotient_size};
pub use finding::{Finding, demand, note};
pub use found::Found;
pub use kinds::{Comparison, Side, compare_sides, is_amount, is_number_form, is_testable};
pub use names::{Names, layouts_have_few_places, one_answer};
pub use scope::{Scope, exactly_one, is_there, one_of_kind};
pub use shapes::{has_item, lone};
pub use sums::{atom_of, one_atom, zero_literal};
