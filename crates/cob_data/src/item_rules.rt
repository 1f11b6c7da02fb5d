//! The rules on items and on condition-names, each at one of them.
ghost use Rattle.std.specs.Prelude.{◌≡◌, ◌≤◌, ◌<◌, not, length};
ghost use Rattle.std.specs.List.{list_all};
ghost use Rattle.cob_data.specs.ItemRules.{begins_record, is_under_01, breaks_levels, is_stray, breaks_parts, is_formless, breaks_pictures, is_compressed, is_numeric, is_signed, breaks_usages, may_begin_with, breaks_values, is_top, has_room, may_redefine, breaks_redefinitions, elementary_form, form_at, is_range_of, is_span_of, are_values_of, is_condition_of, breaks_conditions};

use crate::description::{Area, Condition, Description, Span, Spot};
use crate::layout::Sender;
use crate::spots::{is_file, same_area};
use crate::values::{at_most, has_category, holds};
use cob_tree::{Form, Many, Usage};

// ---- levels

fn begins_record(item: &Description) -> bool
    ensures { result ≡ begins_record item.now }
{
    item.level == 1 || (item.level == 77 && !is_file(item.area))
}

fn is_under_01(here: Area, above: Option<Area>) -> bool
    ensures { result ≡ is_under_01 here above }
{
    match above {
        None => false,
        Some(area) => same_area(area, here),
    }
}

pub fn breaks_levels(item: &Description, spot: &Spot) -> bool
    ensures { result ≡ breaks_levels item.now spot.now }
{
    !(begins_record(item)
        || (2 <= item.level && item.level <= 49 && is_under_01(item.area, spot.under)))
}

/// Whether a condition-name stands behind no item.
pub fn is_stray(condition: &Condition) -> bool
    ensures { result ≡ is_stray condition.now }
{
    condition.owner.is_none()
}

// ---- parts, pictures, usages

pub fn breaks_parts(item: &Description, spot: &Spot) -> bool
    ensures { result ≡ breaks_parts item.now spot.now }
{
    if spot.group {
        item.pictured || item.usage.is_some() || item.sign.is_some() || item.value.is_some()
    } else {
        !item.pictured
    }
}

fn is_formless(form: &Form) -> bool
    ensures { result ≡ is_formless form.now }
{
    match form {
        Form::Group => true,
        Form::Text { .. } | Form::Number { .. } | Form::Edited { .. } => false,
    }
}

pub fn breaks_pictures(item: &Description) -> bool
    ensures { result ≡ breaks_pictures item.now }
{
    item.pictured && is_formless(&item.form)
}

fn is_compressed(usage: Option<Usage>) -> bool
    ensures { result ≡ is_compressed usage }
{
    match usage {
        Some(Usage::Binary | Usage::Packed) => true,
        Some(Usage::Display | Usage::Leading | Usage::Trailing) => false,
        None => false,
    }
}

fn is_numeric(form: &Form) -> bool
    ensures { result ≡ is_numeric form.now }
{
    match form {
        Form::Number { .. } => true,
        Form::Group | Form::Text { .. } | Form::Edited { .. } => false,
    }
}

fn is_signed(form: &Form) -> bool
    ensures { result ≡ is_signed form.now }
{
    match form {
        Form::Number { signed, .. } => *signed,
        Form::Group | Form::Text { .. } | Form::Edited { .. } => false,
    }
}

pub fn breaks_usages(item: &Description) -> bool
    ensures { result ≡ breaks_usages item.now }
{
    (is_compressed(item.usage) && !is_numeric(&item.form))
        || (item.sign.is_some() && !(is_signed(&item.form) && !is_compressed(item.usage)))
}

// ---- values

fn may_begin_with(item: &Description, spot: &Spot, values: &Many<Span>) -> bool
    ensures { result ≡ may_begin_with item.now spot.now values.now }
{
    !is_file(item.area) && !spot.shared && holds(&item.form, values.get())
}

pub fn breaks_values(item: &Description, spot: &Spot) -> bool
    ensures { result ≡ breaks_values item.now spot.now }
{
    match &item.value {
        None => false,
        Some(values) => !may_begin_with(item, spot, values),
    }
}

// ---- redefinitions

fn is_top(item: &Description) -> bool
    ensures { result ≡ is_top item.now }
{
    item.level == 1 || item.level == 77
}

fn has_room(item: &Description, bytes: u64, room: Option<u64>) -> bool
    ensures { result ≡ has_room item.now bytes room }
{
    match room {
        None => false,
        Some(room) => is_top(item) || bytes <= room,
    }
}

fn may_redefine(item: &Description, spot: &Spot) -> bool
    ensures { result ≡ may_redefine item.now spot.now }
{
    !(item.level == 1 && is_file(item.area)) && has_room(item, spot.length, spot.room)
}

pub fn breaks_redefinitions(item: &Description, spot: &Spot) -> bool
    ensures { result ≡ breaks_redefinitions item.now spot.now }
{
    item.redefines.is_some() && !may_redefine(item, spot)
}

// ---- condition-names

fn is_range_of(form: &Form, low: &Sender, high: &Option<Sender>) -> bool
    ensures { result ≡ is_range_of form.now low.now high.now }
{
    match high {
        None => has_category(form, low),
        Some(high) => has_category(form, low) && has_category(form, high) && at_most(low, high),
    }
}

fn is_span_of(form: &Form, span: &Span) -> bool
    ensures { result ≡ is_span_of form.now span.now }
{
    is_range_of(form, &span.low, &span.high)
}

fn are_spans_of(form: &Form, spans: &[Span]) -> bool
    ensures { result ≡ list_all (is_span_of form.now) spans.now }
{
    spans.iter().all(|span| is_span_of(form, span))
}

fn are_values_of(form: &Form, values: &Option<Many<Span>>) -> bool
    ensures { result ≡ are_values_of form.now values.now }
{
    match values {
        None => false,
        Some(spans) => are_spans_of(form, spans.get()),
    }
}

fn is_condition_of(form: &Form, condition: &Condition) -> bool
    ensures { result ≡ is_condition_of form.now condition.now }
{
    condition.name.is_some() && are_values_of(form, &condition.value)
}

/// Whether a condition-name isn't one of its item, where it stands behind an item.
fn breaks_behind(items: &[Description], spots: &[Spot], place: usize, condition: &Condition) -> bool
    requires same { length items.now ≡ length spots.now }
    ensures { result ≡ not (is_condition_of (form_at items.now spots.now place) condition.now) }
{
    if place < items.len() && !spots[place].group {
        !is_condition_of(&items[place].form, condition)
    } else {
        !is_condition_of(&Form::Group, condition)
    }
}

pub fn breaks_conditions(items: &[Description], spots: &[Spot], condition: &Condition) -> bool
    requires { length items.now ≡ length spots.now }
    ensures { result ≡ breaks_conditions items.now spots.now condition.now }
{
    match condition.owner {
        None => false,
        Some(place) => breaks_behind(items, spots, place as usize, condition),
    }
}
