//! The tables of a layout's items, condition-names and files.
ghost use Rattle.std.specs.Prelude.{◌≡◌, ◌≤◌, ◌^◌, length, slice_get, IfOk};
ghost use Rattle.cob_typed_exprs.specs.Names.{item_name};
ghost use Rattle.cob_typed_exprs.specs.Tables.{IsTable};
ghost use Rattle.cob_typed_exprs.specs.Search.{flag_name, file_name};

use crate::table::Table;
use cob_data::{FileDecl, Flag, Item};
use std::alloc::{AllocError, Global};

/// The names of items; FILLER has none.
pub fn items_table<'a>(alloc: Global, items: &'a [Item]) -> Result<Table<'a>, AllocError>
    requires { length items.now ≤ 2 ^ 32 }
    ensures { IfOk result (λ table. IsTable table (λ place. item_name (slice_get items.now place)) (length items.now)) }
{
    let mut table = Table::new(alloc);
    for item in items {
        or_leave!(table.add(item.name.as_ref()), table);
    }
    Ok(table)
}

/// The names of condition-names.
pub fn flags_table<'a>(alloc: Global, flags: &'a [Flag]) -> Result<Table<'a>, AllocError>
    requires { length flags.now ≤ 2 ^ 32 }
    ensures { IfOk result (λ table. IsTable table (λ place. flag_name (slice_get flags.now place)) (length flags.now)) }
{
    let mut table = Table::new(alloc);
    for flag in flags {
        or_leave!(table.add(Some(&flag.name)), table);
    }
    Ok(table)
}

/// The names of files.
pub fn files_table<'a>(alloc: Global, files: &'a [FileDecl]) -> Result<Table<'a>, AllocError>
    requires { length files.now ≤ 2 ^ 32 }
    ensures { IfOk result (λ table. IsTable table (λ place. file_name (slice_get files.now place)) (length files.now)) }
{
    let mut table = Table::new(alloc);
    for file in files {
        or_leave!(table.add(Some(&file.name)), table);
    }
    Ok(table)
}
