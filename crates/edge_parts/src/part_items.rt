//! What the items of a layout are.
ghost use Rattle.std.specs.Prelude.{◌≡◌};
ghost use Rattle.std.specs.Option.{option_copied};
ghost use Rattle.cob_tree.specs.Forms.{is_number_form};
ghost use Rattle.cob_data.specs.declared.layout.Layout as layout;
ghost use Rattle.cob_runs.specs.Contents.{item_at, form_at, scale_of};
ghost use Rattle.cob_runs.specs.Moves.{takes_number, is_group, is_group_sender};
ghost use Rattle.cob_edge_parts.specs.Parts.{is_number_item, gets_value, is_read_for};

use cob_data::{Item, Layout, Sender};
use cob_tree::Form;

/// The item at a place, if there is one.
pub fn item_at(layout: &Layout, place: u32) -> Option<&Item>
    ensures { option_copied result ≡ item_at layout.now place }
{
    layout.items.get().get(place as usize)
}

fn decimals(form: &Form) -> u32
    ensures { result ≡ scale_of form.now }
{
    match form {
        Form::Number { scale, .. } | Form::Edited { scale, .. } => *scale,
        Form::Group | Form::Text { .. } => 0,
    }
}

/// How many decimals the item at a place has.
pub fn scale_at(layout: &Layout, place: u32) -> u32
    ensures { result ≡ scale_of (form_at layout.now place) }
{
    match item_at(layout, place) {
        None => 0,
        Some(item) => decimals(&item.form),
    }
}

fn takes_number(form: &Form) -> bool
    ensures { result ≡ takes_number form.now }
{
    match form {
        Form::Number { .. } | Form::Edited { .. } => true,
        Form::Group | Form::Text { .. } => false,
    }
}

fn is_group(form: &Form) -> bool
    ensures { result ≡ is_group form.now }
{
    match form {
        Form::Group => true,
        Form::Text { .. } | Form::Number { .. } | Form::Edited { .. } => false,
    }
}

fn is_number_form(form: &Form) -> bool
    ensures { result ≡ is_number_form form.now }
{
    match form {
        Form::Number { .. } => true,
        Form::Group | Form::Text { .. } | Form::Edited { .. } => false,
    }
}

fn is_number_at(layout: &Layout, place: u32) -> bool
    ensures { result ≡ is_number_form (form_at layout.now place) }
{
    match item_at(layout, place) {
        None => false,
        Some(item) => is_number_form(&item.form),
    }
}

fn is_group_at(layout: &Layout, place: u32) -> bool
    ensures { result ≡ is_group (form_at layout.now place) }
{
    match item_at(layout, place) {
        None => true,
        Some(item) => is_group(&item.form),
    }
}

/// Whether a sender is a numeric item.
pub fn is_number_item(layout: &Layout, sender: &Sender) -> bool
    ensures { result ≡ is_number_item layout.now sender.now }
{
    match sender {
        Sender::Item(place) => is_number_at(layout, *place),
        _ => false,
    }
}

fn is_group_sender(layout: &Layout, sender: &Sender) -> bool
    ensures { result ≡ is_group_sender layout.now sender.now }
{
    match sender {
        Sender::Item(place) => is_group_at(layout, *place),
        _ => false,
    }
}

fn form_gets_value(layout: &Layout, form: &Form, sender: &Sender) -> bool
    ensures { result ≡ gets_value layout.now form.now sender.now }
{
    takes_number(form) && !is_group_sender(layout, sender)
}

fn is_read_for_form(layout: &Layout, form: &Form, sender: &Sender) -> bool
    ensures { result ≡ is_read_for layout.now form.now sender.now }
{
    match form {
        Form::Text { .. } => is_number_item(layout, sender),
        Form::Group | Form::Number { .. } | Form::Edited { .. } => {
            form_gets_value(layout, form, sender)
        }
    }
}

/// Whether the item at a place gets a value of a sender, and not bytes.
pub fn gets_value(layout: &Layout, place: u32, sender: &Sender) -> bool
    ensures { result ≡ gets_value layout.now (form_at layout.now place) sender.now }
{
    match item_at(layout, place) {
        None => false,
        Some(item) => form_gets_value(layout, &item.form, sender),
    }
}

/// Whether a sender is read for the item at a place.
pub fn is_read_for(layout: &Layout, place: u32, sender: &Sender) -> bool
    ensures { result ≡ is_read_for layout.now (form_at layout.now place) sender.now }
{
    match item_at(layout, place) {
        None => false,
        Some(item) => is_read_for_form(layout, &item.form, sender),
    }
}
