//! Kinds of faults, and numbers of edges and nodes.
ghost use Rattle.std.specs.Prelude.{◌≤◌, IfSome};

use cob_tree::{Kind, all_kinds};

/// The kind of fault that a word is.
pub fn kind_of(word: &str) -> Option<Kind> {
    for kind in all_kinds() {
        if kind.text() == word {
            return Some(kind);
        }
    }
    None
}

/// The number of one of so many, which count from 1.
pub fn number_of(word: &str, count: u32) -> Option<u32>
    ensures { IfSome result (λ number. (1 ≤ number) × (number ≤ count)) }
{
    let number = word.parse::<u32>().ok()?;
    if 1 <= number && number <= count {
        Some(number)
    } else {
        None
    }
}
