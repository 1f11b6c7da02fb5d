//! Copies of performed ranges.
ghost use Rattle.std.specs.Prelude.{◌≡◌, ◌++◌, ◌∷◌, [], IfOk};
ghost use Rattle.std.specs.Option.{option_copied};
ghost use Rattle.cob_graph_build.specs.Tables.{rest_in};

use crate::counting::{Entry, is_for};
use std::alloc::{AllocError, Global};

/// The table behind a range's entry, with the ranges that the range performs.
pub fn rest_in(table: &[Entry], first: u32, last: u32) -> Option<&[Entry]>
    ensures { option_copied result ≡ rest_in table.now first last }
{
    for place in 0..table.len() {
        if is_for(&table[place], first, last) {
            return Some(&table[place + 1..]);
        }
    }
    None
}

/// The PERFORMs in whose copies a copy lies, and its own.
pub fn sites_with(alloc: Global, sites: &[u32], number: u32) -> Result<Vec<u32>, AllocError>
    ensures { IfOk result (λ all. all.items ≡ sites.now ++ number ∷ []) }
{
    let mut all = Vec::from_slice(alloc, sites)?;
    all.push(number)?;
    Ok(all)
}
