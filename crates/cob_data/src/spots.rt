//! Where each item lies, from the beginning of all storage.
ghost use Rattle.std.specs.Prelude.{◌≡◌, not, ◌||◌, is_some, ◌≤◌, ◌<◌, ◌+◌, ◌*◌, ◌^◌, ◌++◌, min, max, length, None, IfSome, OnOk, IfOk};
ghost use Rattle.cob_data.specs.Entries.{same_area};
ghost use Rattle.cob_data.specs.Lengths.{forest, item_bytes};
ghost use Rattle.cob_data.specs.Spots.{same_name, is_file, is_record, same_level, room_behind, lies_on, lies_on_last, start_at, end_behind, area_above, is_bare, spot, above_parts, spots, nothing_above, all_spots};
ghost use Rattle.cob_data.specs.Starts.{IsBefore};
ghost use Rattle.cob_tree.specs.Limits.{token_limit};

use crate::description::{Above, Area, Description, Spot};
use crate::lengths::{count_deeper, depth, item_bytes};
use crate::slice::{behind, front};
use cob_tree::Name;
use std::alloc::{AllocError, Global};
use std::marker::Model;

/// The item directly before another, side by side, with where it lies.
#[derive(Drop)]
pub struct Seated<'a> {
    item: &'a Description,
    spot: Spot,
}

impl<'a> Model for Seated<'a> {
    ghost use Rattle.cob_data.specs.Spots.{Neighbour};

    ghost Value = { Neighbour };

    ghost view = { λ s. record { item = s.item.now; spot = s.spot } };
}

pub fn same_area(a: Area, b: Area) -> bool
    ensures { result ≡ same_area a b }
{
    match (a, b) {
        (Area::File(a), Area::File(b)) => a == b,
        (Area::Storage, Area::Storage) => true,
        (Area::File(_), Area::Storage) => false,
        (Area::Storage, Area::File(_)) => false,
    }
}

pub fn is_file(area: Area) -> bool
    ensures { result ≡ is_file area }
{
    match area {
        Area::File(_) => true,
        Area::Storage => false,
    }
}

fn same_name(a: &Option<Name>, b: &Option<Name>) -> bool
    ensures { result ≡ same_name a.now b.now }
{
    match (a, b) {
        (Some(a), Some(b)) => a.get() == b.get(),
        (Some(_), None) => false,
        (None, _) => false,
    }
}

fn same_level(a: &Description, b: &Description) -> bool
    ensures { result ≡ same_level a.now b.now }
{
    a.level == b.level && same_area(a.area, b.area)
}

/// The length of what an item redefines, if that stands there.
fn room_behind(item: &Description, last: &Option<Seated>) -> Option<u64>
    ensures { result ≡ room_behind item.now last.now }
{
    match last {
        None => None,
        Some(before) => {
            if !same_level(item, before.item) {
                None
            } else if same_name(&item.redefines, &before.item.name) {
                Some(before.spot.length)
            } else if same_name(&item.redefines, &before.item.redefines) {
                before.spot.room
            } else {
                None
            }
        }
    }
}

fn is_record(above: &Above) -> bool
    ensures { result ≡ is_record above.now }
{
    above.parent.is_none()
}

fn lies_on(above: &Above, item: &Description, before: &Seated) -> bool
    ensures { result ≡ lies_on above.now item.now before.now }
{
    item.redefines.is_some()
        || (is_record(above) && is_file(item.area) && same_area(item.area, before.item.area))
}

fn lies_on_last(above: &Above, item: &Description, last: &Option<Seated>) -> bool
    ensures { result ≡ lies_on_last above.now item.now last.now }
{
    match last {
        None => false,
        Some(before) => lies_on(above, item, before),
    }
}

fn start_at(above: &Above, next: u64, item: &Description, last: &Option<Seated>) -> u64
    requires { IsBefore last.now next }
    ensures value { result ≡ start_at above.now next item.now last.now }
    ensures low { result ≤ next }
{
    match last {
        None => next,
        Some(before) => {
            if lies_on(above, item, before) {
                before.spot.start
            } else {
                next
            }
        }
    }
}

fn end_behind(above: &Above, next: u64, on_last: bool, spot: &Spot) -> u64
    ensures value { result ≡ end_behind above.now next on_last spot.now }
    ensures within { result ≤ max next spot.now.end }
    ensures high { min next spot.now.end ≤ result }
{
    if !on_last {
        spot.end
    } else if is_record(above) {
        next.max(spot.end)
    } else {
        next
    }
}

fn area_above(above: &Above, item: &Description) -> Option<Area>
    ensures { result ≡ area_above above.now item.now }
{
    if !is_record(above) {
        above.under
    } else if item.level == 1 {
        Some(item.area)
    } else {
        None
    }
}

fn has_parts(below: &[Description]) -> bool
    ensures { result ≡ not (is_bare (forest below.now)) }
{
    !below.is_empty()
}

fn is_shared(above: &Above, item: &Description) -> bool
    ensures { result ≡ (above.now.shared || is_some item.now.redefines) }
{
    above.shared || item.redefines.is_some()
}

/// Where an item lies, which has these items below it.
fn spot_of(
    above: &Above,
    next: u64,
    last: &Option<Seated>,
    item: &Description,
    below: &[Description],
) -> Spot
    requires few { length below.now ≤ token_limit }
    requires room { next ≤ 2 ^ 60 }
    requires before { IsBefore last.now next }
    ensures value { result ≡ spot above.now next last.now item.now (forest below.now) }
    ensures low { result.start ≤ next }
    ensures long { result.start ≤ result.end }
    ensures within { result.end ≤ next + (length below.now + 1) * 2 ^ 32 }
{
    let start = start_at(above, next, item, last);
    let length = item_bytes(item, below);
    Spot {
        start,
        length,
        end: start + length,
        parent: above.parent,
        under: area_above(above, item),
        room: room_behind(item, last),
        group: has_parts(below),
        shared: is_shared(above, item),
    }
}

fn above_parts(place: u32, spot: &Spot) -> Above
    ensures { result ≡ above_parts place spot.now }
{
    Above {
        parent: Some(place),
        under: spot.under,
        shared: spot.shared,
    }
}

/// Pushes where each of the items lies that stand side by side from `start` on, and those below them.
fn push_spots(
    placed: &mut Vec<Spot>,
    above: &Above,
    start: u64,
    items: &[Description],
) -> Result<(), AllocError>
    requires few { length placed.old.items + length items.now ≤ token_limit }
    requires low { start ≤ length placed.old.items * 2 ^ 32 }
    ensures { OnOk result (placed.new.items ≡ placed.old.items ++ spots above.now (length placed.old.items) start None (forest items.now)) }
{
    let mut next = start;
    let mut last = None;
    let mut rest = items;
    while !rest.is_empty() {
        let item = &rest[0];
        let others = behind(rest, 1);
        let count = count_deeper(depth(item), others);
        let below = front(others, count);
        let place = placed.len() as u32;
        let spot = spot_of(above, next, &last, item, below);
        placed.push(spot)?;
        let parts = above_parts(place, &spot);
        push_spots(placed, &parts, spot.start, below)?;
        let on_last = lies_on_last(above, item, &last);
        next = end_behind(above, next, on_last, &spot);
        last = Some(Seated { item, spot });
        rest = behind(others, count);
    }
    Ok(())
}

/// Where each item lies: records follow each other from 0 on.
pub fn all_spots(alloc: Global, items: &[Description]) -> Result<Vec<Spot>, AllocError>
    requires { length items.now ≤ token_limit }
    ensures { IfOk result (λ v. v.items ≡ all_spots items.now) }
{
    let mut placed = Vec::new(alloc);
    let above = Above {
        parent: None,
        under: None,
        shared: false,
    };
    push_spots(&mut placed, &above, 0, items)?;
    Ok(placed)
}
