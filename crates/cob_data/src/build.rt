//! The layout, from what the rules speak of.
ghost use Rattle.std.specs.Prelude.{◌≡◌, ◌≤◌, ◌+◌, ◌++◌, ◌∷◌, [], map, unwrap_or, is_some, length, IfOk, OnOk, Option};
ghost use Rattle.std.specs.Option.{option_and_then, option_copied};
ghost use Rattle.std.specs.List.{position_from};
ghost use Rattle.cob_data.specs.Files.{is_record_of, largest_record, is_named, external_text, status_of};
ghost use Rattle.cob_data.specs.Layouts.{first_low, item_at, laid_items, pair_of, flag_of, record_places, area_start, status_place, file_at, fd_place, file_of, layout_in};
ghost use Rattle.cob_data.specs.Known.{IsLow, AreLow, AreSeated};
ghost use Rattle.cob_data.specs.Spots.{storage_of};
ghost use Rattle.cob_data.specs.Rules.{storage_limit};
ghost use Rattle.cob_tree.specs.Limits.{token_limit};

use crate::description::{Condition, Description, Span, Spot};
use crate::files::{external_text, is_named, is_record_of, largest_record, status_of};
use crate::layout::{FileDecl, Flag, Item, Layout, Pair, Sender, copied_name};
use crate::limits::storage_of;
use crate::rules::Known;
use cob_tree::{Fd, Many, Name, Select};
use std::alloc::{AllocError, Global};

// ---- items

fn first_low(alloc: Global, spans: &[Span]) -> Result<Option<Sender>, AllocError>
    ensures { IfOk result (λ s. s ≡ first_low spans.now) }
{
    if spans.is_empty() {
        Ok(None)
    } else {
        Ok(Some(spans[0].low.copied(alloc)?))
    }
}

fn value_of(alloc: Global, value: &Option<Many<Span>>) -> Result<Option<Sender>, AllocError>
    ensures { IfOk result (λ s. s ≡ option_and_then first_low value.now) }
{
    match value {
        None => Ok(None),
        Some(spans) => Ok(first_low(alloc, spans.get())?),
    }
}

fn item_at(alloc: Global, item: &Description, spot: &Spot) -> Result<Item, AllocError>
    requires { IsLow spot.now }
    ensures { IfOk result (λ i. i ≡ item_at item.now spot.now) }
{
    Ok(Item {
        name: copied_name(alloc, &item.name)?,
        offset: spot.start as u32,
        length: spot.length as u32,
        times: 1,
        stride: 0,
        form: item.form.copied(alloc)?,
        parent: spot.parent,
        line: item.line,
        value: value_of(alloc, &item.value)?,
    })
}

// ---- condition-names

fn high_of(alloc: Global, span: &Span) -> Result<Sender, AllocError>
    ensures { IfOk result (λ s. s ≡ unwrap_or span.now.high span.now.low) }
{
    match &span.high {
        None => Ok(span.low.copied(alloc)?),
        Some(high) => Ok(high.copied(alloc)?),
    }
}

fn pair_of(alloc: Global, span: &Span) -> Result<Pair, AllocError>
    ensures { IfOk result (λ p. p ≡ pair_of span.now) }
{
    Ok(Pair {
        low: span.low.copied(alloc)?,
        high: high_of(alloc, span)?,
    })
}

fn pairs_of(alloc: Global, spans: &[Span]) -> Result<Many<Pair>, AllocError>
    ensures { IfOk result (λ m. m ≡ map pair_of spans.now) }
{
    let mut pairs = Vec::new(alloc);
    for span in spans {
        let pair = pair_of(alloc, span)?;
        pairs.push(pair)?;
    }
    Ok(Many::of(pairs))
}

fn ranges_of(alloc: Global, value: &Option<Many<Span>>) -> Result<Many<Pair>, AllocError>
    ensures { IfOk result (λ m. m ≡ map pair_of (unwrap_or value.now [])) }
{
    match value {
        None => Ok(Many::of(Vec::new(alloc))),
        Some(spans) => Ok(pairs_of(alloc, spans.get())?),
    }
}

fn name_or_none(alloc: Global, name: &Option<Name>) -> Result<Name, AllocError>
    ensures { IfOk result (λ n. n ≡ unwrap_or name.now []) }
{
    match name {
        None => Ok(Name::of(alloc, &[])?),
        Some(text) => Ok(Name::of(alloc, text.get())?),
    }
}

fn flag_of(alloc: Global, condition: &Condition) -> Result<Flag, AllocError>
    ensures { IfOk result (λ f. f ≡ flag_of condition.now) }
{
    Ok(Flag {
        name: name_or_none(alloc, &condition.name)?,
        item: condition.owner.unwrap_or(0),
        ranges: ranges_of(alloc, &condition.value)?,
    })
}

fn flags_of(alloc: Global, conditions: &[Condition]) -> Result<Many<Flag>, AllocError>
    ensures { IfOk result (λ m. m ≡ map flag_of conditions.now) }
{
    let mut flags = Vec::new(alloc);
    for condition in conditions {
        let flag = flag_of(alloc, condition)?;
        flags.push(flag)?;
    }
    Ok(Many::of(flags))
}

fn push_item(
    items: &mut Vec<Item>,
    alloc: Global,
    item: &Description,
    spot: &Spot,
) -> Result<(), AllocError>
    requires { IsLow spot.now }
    ensures { OnOk result (items.new.items ≡ items.old.items ++ item_at item.now spot.now ∷ []) }
{
    let laid = item_at(alloc, item, spot)?;
    items.push(laid)?;
    Ok(())
}

fn laid_items(
    alloc: Global,
    items: &[Description],
    spots: &[Spot],
) -> Result<Many<Item>, AllocError>
    requires same { length items.now ≡ length spots.now }
    requires low { AreLow spots.now }
    ensures { IfOk result (λ m. m ≡ laid_items items.now spots.now) }
{
    let mut laid = Vec::new(alloc);
    for place in 0..items.len() {
        let item = &items[place];
        let spot = &spots[place];
        push_item(&mut laid, alloc, item, spot)?;
    }
    Ok(Many::of(laid))
}

// ---- files

fn record_places(alloc: Global, file: u32, items: &[Description]) -> Result<Many<u32>, AllocError>
    requires { length items.now ≤ token_limit }
    ensures { IfOk result (λ m. m ≡ record_places file 0 items.now) }
{
    let mut places = Vec::new(alloc);
    for place in 0..items.len() {
        if is_record_of(file, &items[place]) {
            places.push(place as u32)?;
        }
    }
    Ok(Many::of(places))
}

fn area_start(file: u32, items: &[Description], spots: &[Spot]) -> u64
    requires { length items.now ≡ length spots.now }
    ensures { result ≡ area_start file items.now spots.now }
{
    for place in 0..items.len() {
        let item = &items[place];
        let spot = &spots[place];
        if is_record_of(file, item) {
            return spot.start;
        }
    }
    0
}

fn place_of_name(name: &[u8], items: &[Description]) -> Option<u32>
    requires { length items.now ≤ token_limit }
    ensures { result ≡ position_from (is_named name.now) 0 items.now }
{
    for place in 0..items.len() {
        if is_named(name, &items[place]) {
            return Some(place as u32);
        }
    }
    None
}

fn status_place(items: &[Description], name: Option<&Name>) -> Option<u32>
    requires { length items.now ≤ token_limit }
    ensures { result ≡ status_place items.now (option_copied name.entry) }
{
    match name {
        None => None,
        Some(name) => place_of_name(name.get(), items),
    }
}

/// The place of a file's FD.
fn fd_place(fds: &[Fd], name: &[u8]) -> u32
    requires { length fds.now ≤ token_limit }
    ensures { result ≡ fd_place fds.now name.now }
{
    for place in 0..fds.len() {
        if fds[place].name.get() == name {
            return place as u32;
        }
    }
    0
}

#[tactic(auto, using(crate::proofs::LowLemmas::area_low))]
fn area_offset(file: u32, items: &[Description], spots: &[Spot]) -> u32
    requires same { length items.now ≡ length spots.now }
    requires low { AreLow spots.now }
    ensures { result ≡ area_start file items.now spots.now }
{
    area_start(file, items, spots) as u32
}

#[tactic(auto, using(crate::proofs::LowLemmas::record_low))]
fn record_length(file: u32, items: &[Description], spots: &[Spot]) -> u32
    requires same { length items.now ≡ length spots.now }
    requires low { AreLow spots.now }
    ensures { result ≡ largest_record file items.now spots.now }
{
    largest_record(file, items, spots) as u32
}

/// A file whose FD has this place.
fn file_at(alloc: Global, known: &Known, select: &Select, file: u32) -> Result<FileDecl, AllocError>
    requires same { AreSeated known.now }
    requires few { length known.now.items ≤ token_limit }
    requires low { AreLow known.now.spots }
    ensures { IfOk result (λ f. f ≡ file_at known.now select.now file) }
{
    Ok(FileDecl {
        name: Name::of(alloc, select.name.get())?,
        external: Name::of(alloc, external_text(&select.external))?,
        offset: area_offset(file, &known.items, &known.spots),
        length: record_length(file, &known.items, &known.spots),
        records: record_places(alloc, file, &known.items)?,
        status: status_place(&known.items, status_of(select)),
    })
}

fn file_of(alloc: Global, known: &Known, select: &Select) -> Result<FileDecl, AllocError>
    requires same { AreSeated known.now }
    requires few { length known.now.items ≤ token_limit }
    requires short { length known.now.fds ≤ token_limit }
    requires low { AreLow known.now.spots }
    ensures { IfOk result (λ f. f ≡ file_of known.now select.now) }
{
    let file = fd_place(known.fds, select.name.get());
    Ok(file_at(alloc, known, select, file)?)
}

fn files_of(alloc: Global, known: &Known) -> Result<Many<FileDecl>, AllocError>
    requires same { AreSeated known.now }
    requires few { length known.now.items ≤ token_limit }
    requires short { length known.now.fds ≤ token_limit }
    requires low { AreLow known.now.spots }
    ensures { IfOk result (λ m. m ≡ map (file_of known.now) known.now.selects) }
{
    let mut files = Vec::new(alloc);
    let selects = known.selects;
    for select in selects {
        let file = file_of(alloc, known, select)?;
        files.push(file)?;
    }
    Ok(Many::of(files))
}

/// The layout, from what the rules speak of.
pub fn layout_in(alloc: Global, known: &Known) -> Result<Layout, AllocError>
    requires same { AreSeated known.now }
    requires few { length known.now.items ≤ token_limit }
    requires short { length known.now.fds ≤ token_limit }
    requires low { AreLow known.now.spots }
    requires within { storage_of known.now.spots ≤ storage_limit }
    ensures { IfOk result (λ l. l ≡ layout_in known.now) }
{
    Ok(Layout {
        items: laid_items(alloc, &known.items, &known.spots)?,
        flags: flags_of(alloc, &known.conditions)?,
        files: files_of(alloc, known)?,
        storage: storage_of(&known.spots) as u32,
    })
}
