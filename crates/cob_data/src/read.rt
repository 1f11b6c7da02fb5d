//! What the rules speak of, gathered from a tree.
ghost use Rattle.std.specs.Prelude.{◌≡◌, ◌≤◌, ◌+◌, ◌++◌, List, length, IfOk, OnOk};
ghost use Rattle.cob_data.specs.Entries.{Placed, fds_in, entries_in, file_entries, all_entries, items_of, conditions_of};
ghost use Rattle.cob_data.specs.Reading.{Moves};
ghost use Rattle.cob_data.specs.Rules.{selects_in, facts_of};
ghost use Rattle.cob_data.specs.Known.{HasFewEntries};
ghost use Rattle.cob_tree.specs.Limits.{token_limit};

use crate::description::Area;
use crate::entry::Table;
use crate::rules::Known;
use crate::spots::all_spots;
use cob_tree::{Data, Entry, Env, Fd, Front, Select, Tree};
use std::alloc::{AllocError, Global};

fn selects_in(env: &Option<Env>) -> &[Select]
    ensures { result.now ≡ selects_in env.now }
{
    match env {
        None => &[],
        Some(env) => match &env.io {
            None => &[],
            Some(io) => io.selects.get(),
        },
    }
}

pub fn fds_in(data: &Option<Data>) -> &[Fd]
    ensures { result.now ≡ fds_in «data».now }
{
    match data {
        None => &[],
        Some(data) => match &data.files {
            None => &[],
            Some(fds) => fds.get(),
        },
    }
}

pub fn entries_in(data: &Option<Data>) -> &[Entry]
    ensures { result.now ≡ entries_in «data».now }
{
    match data {
        None => &[],
        Some(data) => match &data.storage {
            None => &[],
            Some(entries) => entries.get(),
        },
    }
}

/// Reads the entries of the files.
fn read_files(table: &mut Table, alloc: Global, fds: &[Fd]) -> Result<(), AllocError>
    requires few { length table.old.items.items + length (file_entries 0 fds.now) ≤ token_limit }
    requires short { length fds.now ≤ token_limit }
    ensures moves { OnOk result ((later : List Placed) → Moves table.old table.new (file_entries 0 fds.now ++ later) later) }
    ensures more { OnOk result (length table.new.items.items ≤ length table.old.items.items + length (file_entries 0 fds.now)) }
{
    for place in 0..fds.len() {
        let fd = &fds[place];
        table.read(alloc, Area::File(place as u32), fd.entries.get())?;
    }
    Ok(())
}

/// The items and the condition-names of a tree.
fn read_front(alloc: Global, front: &Front) -> Result<Table, AllocError>
    requires { HasFewEntries front.now }
    ensures items { IfOk result (λ t. t.items.items ≡ items_of front.now) }
    ensures conditions { IfOk result (λ t. t.conditions.items ≡ conditions_of front.now) }
{
    let mut table = Table {
        items: Vec::new(alloc),
        conditions: Vec::new(alloc),
        last: None,
    };
    read_files(&mut table, alloc, fds_in(&front.data))?;
    table.read(alloc, Area::Storage, entries_in(&front.data))?;
    Ok(table)
}

/// What the rules speak of in a tree.
pub fn facts_of(alloc: Global, tree: &Tree) -> Result<Known, AllocError>
    requires { HasFewEntries tree.now.front }
    ensures { IfOk result (λ k. k ≡ facts_of tree.now) }
{
    let table = read_front(alloc, &tree.front)?;
    let spots = all_spots(alloc, &table.items)?;
    Ok(Known {
        items: table.items,
        spots,
        conditions: table.conditions,
        selects: selects_in(&tree.front.env),
        fds: fds_in(&tree.front.data),
        program: &tree.front.name,
        end: &tree.end,
    })
}
