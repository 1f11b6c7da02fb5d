//! Names looked up by hash, so that the rules on names take no longer than the source is long.
ghost use Rattle.std.specs.Prelude.{◌≡◌, ℕ, ◌&&◌, ◌||◌, not, false, slice_index_or, if◌then◌else◌, List, [], map, is_none, unwrap_or, IfOk, OnOk, Some};
ghost use Rattle.std.specs.List.{list_any};
ghost use Rattle.std.specs.Option.{option_copied};
ghost use Rattle.std.specs.Str.{bytes_eq, str_to_ascii_lowercase};
ghost use Rattle.indexmap.specs.IndexMap.{get_by};
ghost use Rattle.cob_data.specs.Names.{stands_in, repeats, select_names, fd_names, external_names, AreNamesOf};
ghost use Rattle.cob_data.specs.declared.description.Description.{Description};
ghost use Rattle.cob_data.specs.Files.{external_text, status_of, is_named, is_status_holder, is_status_item, is_wrong_status, breaks_status};

use crate::description::Description;
use crate::files::{external_text, is_status_holder, status_of};
use cob_tree::{Fd, Name, Select};
use indexmap::{IndexMap, IndexSet};
use std::alloc::{AllocError, Global};

/// What the rules on names say of each SELECT and of each FD, by its place: whether its name, or its external name,
/// stands before it, whether the other entry of the file is there, and whether its FILE STATUS is wrong.
#[derive(Drop)]
pub struct Names {
    pub repeated_selects: Vec<bool>,
    pub described: Vec<bool>,
    pub repeated_externals: Vec<bool>,
    pub wrong_statuses: Vec<bool>,
    pub repeated_fds: Vec<bool>,
    pub selected: Vec<bool>,
}

fn flag_at(flags: &[bool], place: usize) -> bool
    ensures { result ≡ slice_index_or flags.now place false }
{
    place < flags.len() && flags[place]
}

impl Names {
    /// Whether the SELECT of this place has the name of an earlier one, or no FD.
    pub fn breaks_select_match(&self, place: usize) -> bool
        ensures { result ≡ (slice_index_or self.now.repeated_selects.items place false || not (slice_index_or self.now.described.items place false)) }
    {
        flag_at(&self.repeated_selects, place) || !flag_at(&self.described, place)
    }

    /// Whether the SELECT of this place has the external name of an earlier one.
    pub fn breaks_externals(&self, place: usize) -> bool
        ensures { result ≡ slice_index_or self.now.repeated_externals.items place false }
    {
        flag_at(&self.repeated_externals, place)
    }

    pub fn breaks_status(&self, place: usize) -> bool
        ensures { result ≡ slice_index_or self.now.wrong_statuses.items place false }
    {
        flag_at(&self.wrong_statuses, place)
    }

    /// Whether the FD of this place has the name of an earlier one, or no SELECT.
    pub fn lacks_select(&self, place: usize) -> bool
        ensures { result ≡ (slice_index_or self.now.repeated_fds.items place false || not (slice_index_or self.now.selected.items place false)) }
    {
        flag_at(&self.repeated_fds, place) || !flag_at(&self.selected, place)
    }
}

// ---- lists of names

fn select_names(alloc: Global, selects: &[Select]) -> Result<Vec<Name>, AllocError>
    ensures { IfOk result (λ v. v.items ≡ select_names selects.now) }
{
    let mut names = Vec::new(alloc);
    for select in selects {
        let name = Name::of(alloc, select.name.get())?;
        names.push(name)?;
    }
    Ok(names)
}

fn fd_names(alloc: Global, fds: &[Fd]) -> Result<Vec<Name>, AllocError>
    ensures { IfOk result (λ v. v.items ≡ fd_names fds.now) }
{
    let mut names = Vec::new(alloc);
    for fd in fds {
        let name = Name::of(alloc, fd.name.get())?;
        names.push(name)?;
    }
    Ok(names)
}

fn in_small_letters(alloc: Global, text: &[u8]) -> Result<Name, AllocError>
    ensures { IfOk result (λ n. n ≡ str_to_ascii_lowercase text.now) }
{
    let mut letters = Vec::new(alloc);
    for c in text {
        letters.push(c.to_ascii_lowercase())?;
    }
    Ok(Name::of(alloc, letters.as_slice())?)
}

fn external_names(alloc: Global, selects: &[Select]) -> Result<Vec<Name>, AllocError>
    ensures { IfOk result (λ v. v.items ≡ external_names selects.now) }
{
    let mut names = Vec::new(alloc);
    for select in selects {
        let name = in_small_letters(alloc, external_text(&select.external))?;
        names.push(name)?;
    }
    Ok(names)
}

// ---- names that stand twice, and names among others

fn flag_repeats(
    seen: &mut IndexSet<Vec<u8>>,
    alloc: Global,
    names: &[Name],
) -> Result<Vec<bool>, AllocError>
    requires { seen.old.keys ≡ [] }
    ensures { IfOk result (λ v. v.items ≡ repeats [] names.now) }
{
    let mut repeated = Vec::new(alloc);
    for place in 0..names.len() {
        let key = Vec::from_slice(alloc, names[place].get())?;
        let is_new = seen.insert(key)?;
        repeated.push(!is_new)?;
    }
    Ok(repeated)
}

/// For each name whether it stands among those before it.
fn repeats(alloc: Global, names: &[Name]) -> Result<Vec<bool>, AllocError>
    ensures { IfOk result (λ v. v.items ≡ repeats [] names.now) }
{
    let mut seen = IndexSet::new(alloc);
    flag_repeats(&mut seen, alloc, names)
}

fn put_names(set: &mut IndexSet<Vec<u8>>, alloc: Global, names: &[Name]) -> Result<(), AllocError>
    requires { set.old.keys ≡ [] }
    ensures { OnOk result ((q : List ℕ) → list_any (λ k. bytes_eq q k.items) set.new.keys ≡ stands_in names.now q) }
{
    for place in 0..names.len() {
        let key = Vec::from_slice(alloc, names[place].get())?;
        set.insert(key)?;
    }
    Ok(())
}

fn flag_found(
    set: &IndexSet<Vec<u8>>,
    alloc: Global,
    names: &[Name],
) -> Result<Vec<bool>, AllocError>
    ensures { IfOk result (λ v. v.items ≡ map (λ q. list_any (λ k. bytes_eq q k.items) set.now.keys) names.now) }
{
    let mut found = Vec::new(alloc);
    for name in names {
        let is_there = set.contains(name.get());
        found.push(is_there)?;
    }
    Ok(found)
}

/// For each name whether it stands among the others.
fn are_among(alloc: Global, others: &[Name], names: &[Name]) -> Result<Vec<bool>, AllocError>
    ensures { IfOk result (λ v. v.items ≡ map (stands_in others.now) names.now) }
{
    let mut set = IndexSet::new(alloc);
    put_names(&mut set, alloc, others)?;
    flag_found(&set, alloc, names)
}

// ---- FILE STATUS

fn is_first_holder(notes: &IndexMap<Vec<u8>, bool>, name: &[u8], may_hold: bool) -> bool
    ensures { result ≡ (is_none (get_by (λ k. bytes_eq name.now k.items) notes.now) && may_hold) }
{
    !notes.contains_key(name) && may_hold
}

/// Notes a name: whether it has been noted once, with what may hold a status.
fn note_name(
    notes: &mut IndexMap<Vec<u8>, bool>,
    alloc: Global,
    name: &[u8],
    may_hold: bool,
) -> Result<(), AllocError>
    ensures { OnOk result ((q : List ℕ) → get_by (λ k. bytes_eq q k.items) notes.new ≡ (if bytes_eq name.now q then Some (is_none (get_by (λ k. bytes_eq q k.items) notes.old) && may_hold) else get_by (λ k. bytes_eq q k.items) notes.old)) }
{
    let is_single = is_first_holder(notes, name, may_hold);
    let key = Vec::from_slice(alloc, name)?;
    notes.insert(key, is_single)?;
    Ok(())
}

fn note_item(
    notes: &mut IndexMap<Vec<u8>, bool>,
    alloc: Global,
    item: &Description,
) -> Result<(), AllocError>
    ensures { OnOk result ((q : List ℕ) → get_by (λ k. bytes_eq q k.items) notes.new ≡ (if is_named q item.now then Some (is_none (get_by (λ k. bytes_eq q k.items) notes.old) && is_status_holder item.now) else get_by (λ k. bytes_eq q k.items) notes.old)) }
{
    match &item.name {
        None => Ok(()),
        Some(name) => note_name(notes, alloc, name.get(), is_status_holder(item)),
    }
}

/// Notes for each name of items whether it names a single one, which may hold a status.
fn note_items(
    notes: &mut IndexMap<Vec<u8>, bool>,
    alloc: Global,
    items: &[Description],
) -> Result<(), AllocError>
    requires { notes.old.entries ≡ [] }
    ensures { OnOk result ((q : List ℕ) → unwrap_or (get_by (λ k. bytes_eq q k.items) notes.new) false ≡ is_status_item q items.now) }
{
    for place in 0..items.len() {
        note_item(notes, alloc, &items[place])?;
    }
    Ok(())
}

fn is_noted(notes: &IndexMap<Vec<u8>, bool>, name: &[u8]) -> bool
    ensures { result ≡ unwrap_or (get_by (λ k. bytes_eq name.now k.items) notes.now) false }
{
    match notes.get(name) {
        None => false,
        Some(noted) => *noted,
    }
}

fn is_wrong_status(notes: &IndexMap<Vec<u8>, bool>, name: Option<&Name>) -> bool
    ensures { (items : List Description) → ((q : List ℕ) → unwrap_or (get_by (λ k. bytes_eq q k.items) notes.now) false ≡ is_status_item q items) → result ≡ is_wrong_status items (option_copied name.entry) }
{
    match name {
        None => false,
        Some(name) => !is_noted(notes, name.get()),
    }
}

fn flag_wrong_statuses(
    notes: &IndexMap<Vec<u8>, bool>,
    alloc: Global,
    selects: &[Select],
) -> Result<Vec<bool>, AllocError>
    ensures { IfOk result (λ v. (items : List Description) → ((q : List ℕ) → unwrap_or (get_by (λ k. bytes_eq q k.items) notes.now) false ≡ is_status_item q items) → v.items ≡ map (breaks_status items) selects.now) }
{
    let mut wrong = Vec::new(alloc);
    for select in selects {
        let is_wrong = is_wrong_status(notes, status_of(select));
        wrong.push(is_wrong)?;
    }
    Ok(wrong)
}

fn wrong_statuses(
    alloc: Global,
    items: &[Description],
    selects: &[Select],
) -> Result<Vec<bool>, AllocError>
    ensures { IfOk result (λ v. v.items ≡ map (breaks_status items.now) selects.now) }
{
    let mut notes = IndexMap::new(alloc);
    note_items(&mut notes, alloc, items)?;
    flag_wrong_statuses(&notes, alloc, selects)
}

// ---- all of them

/// What the rules on names say of files and items.
pub fn names_of(
    alloc: Global,
    selects: &[Select],
    fds: &[Fd],
    items: &[Description],
) -> Result<Names, AllocError>
    ensures { IfOk result (λ n. AreNamesOf n selects.now fds.now items.now) }
{
    let by_select = select_names(alloc, selects)?;
    let by_fd = fd_names(alloc, fds)?;
    let externals = external_names(alloc, selects)?;
    Ok(Names {
        repeated_selects: repeats(alloc, &by_select)?,
        described: are_among(alloc, &by_fd, &by_select)?,
        repeated_externals: repeats(alloc, &externals)?,
        wrong_statuses: wrong_statuses(alloc, items, selects)?,
        repeated_fds: repeats(alloc, &by_fd)?,
        selected: are_among(alloc, &by_select, &by_fd)?,
    })
}
