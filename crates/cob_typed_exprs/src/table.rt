//! Places by name, the last first.
ghost use Rattle.std.specs.Prelude.{◌≡◌, ◌<◌, ◌^◌, ◌+◌, ℕ, List, Option, IfOk, OnOk, IsTrue, length, slice_get, if◌then◌else◌, Some};
ghost use Rattle.std.specs.Option.{option_copied};
ghost use Rattle.cob_typed_exprs.specs.Names.{is_named};
ghost use Rattle.cob_typed_exprs.specs.Tables.{last_in, IsTable, last_named};

use cob_tree::Name;
use indexmap::IndexMap;
use std::alloc::{AllocError, Global};

/// Places in the order of the source, by name: of each name the last place, and of each place that has a name the
/// one before it of the same name.
#[derive(Drop)]
pub struct Table<'a> {
    last: IndexMap<&'a [u8], u32>,
    earlier: Vec<Option<u32>>,
}

/// Makes this place the last of its name. The one before is told.
fn note<'a>(
    last: &mut IndexMap<&'a [u8], u32>,
    name: Option<&'a Name>,
    place: u32,
) -> Result<Option<u32>, AllocError>
    ensures earlier { IfOk result (λ before. (q : List ℕ) → IsTrue (is_named q (option_copied name.entry)) → before ≡ last_in last.old q) }
    ensures last { OnOk result ((q : List ℕ) → last_in last.new q ≡ (if is_named q (option_copied name.entry) then Some place else last_in last.old q)) }
{
    match name {
        None => Ok(None),
        Some(text) => Ok(last.insert(text.get(), place)?),
    }
}

impl<'a> Table<'a> {
    /// No places.
    pub fn new(alloc: Global) -> Table<'a>
        ensures { (names : ℕ → Option (List ℕ)) → IsTable result names 0 }
    {
        Table {
            last: IndexMap::new(alloc),
            earlier: Vec::new(alloc),
        }
    }

    /// The next place has this name.
    pub fn add(&mut self, name: Option<&'a Name>) -> Result<(), AllocError>
        requires { length self.old.earlier.items < 2 ^ 32 }
        ensures { (names : ℕ → Option (List ℕ)) (count : ℕ) → IsTable self.old names count → names count ≡ option_copied name.entry → OnOk result (IsTable self.new names (count + 1)) }
    {
        let place = self.earlier.len() as u32;
        let before = note(&mut self.last, name, place)?;
        self.earlier.push(before)?;
        Ok(())
    }

    /// The last place of the name.
    pub fn last(&self, name: &[u8]) -> Option<u32>
        ensures { result ≡ last_in self.now.last name.now }
    {
        self.last.get(name).copied()
    }

    /// The place before this one of the same name.
    pub fn before(&self, place: u32) -> Option<u32>
        requires { place < length self.now.earlier.items }
        ensures { Some result ≡ slice_get self.now.earlier.items place }
    {
        self.earlier[place as usize]
    }
}
