//! The file of each record, by the record's place.
ghost use Rattle.std.specs.Prelude.{◌≡◌, ℕ, IfOk, OnOk, if◌then◌else◌, Some};
ghost use Rattle.cob_typed_exprs.specs.Names.{is_among};
ghost use Rattle.cob_typed_exprs.specs.Homes.{home_in, HasHomes};

use cob_data::FileDecl;
use indexmap::IndexMap;
use std::alloc::{AllocError, Global};

/// Gives the file's name to each of its records.
fn add_records<'a>(
    homes: &mut IndexMap<u32, &'a [u8]>,
    file: &'a FileDecl,
) -> Result<(), AllocError>
    ensures { OnOk result ((place : ℕ) → home_in homes.new place ≡ (if is_among place file.now.records then Some file.now.name else home_in homes.old place)) }
{
    let records = file.records.get();
    for at in (0..records.len()).rev() {
        homes.insert(records[at], file.name.get())?;
    }
    Ok(())
}

/// The records of files, each with the name of its file. Of two files that had the same record the first would count,
/// so they are taken from the last on.
pub fn homes_of<'a>(
    alloc: Global,
    files: &'a [FileDecl],
) -> Result<IndexMap<u32, &'a [u8]>, AllocError>
    ensures { IfOk result (λ homes. HasHomes homes files.now) }
{
    let mut homes = IndexMap::new(alloc);
    for at in (0..files.len()).rev() {
        add_records(&mut homes, &files[at])?;
    }
    Ok(homes)
}
