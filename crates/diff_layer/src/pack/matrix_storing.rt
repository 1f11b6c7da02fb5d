//! Stores of forms at cells.
ghost use Rattle.std.specs.Prelude.{◌≡◌, ◌<◌, ◌≤◌, ◌≤ℤ◌, true, pos, unsigned_abs, IfSome};
ghost use Rattle.diff_bounds.specs.Matrix.{IsMatrix};
ghost use Rattle.diff_steps.specs.Stores.{absolute_stored, value_stored, form_stored};
ghost use Rattle.diff_layer.specs.Forms.{IsFormOf};
ghost use Rattle.diff_layer.specs.Receiving.{stored_at};

use crate::forms::bounded_forms::{turned, widened};
use crate::pack::matrix_bounds::known_of_amount;
use crate::pack::matrix_images::{assign_or_forget, forget_cell, lower_to};
use crate::pack::moment::Slot;
use diff_bounds::{Known, Lin, error_of};
use transfer_ranges::AmountRange;

// stores a value that is 0: by the form or by the negated one, whichever says more
fn store_either(size: usize, m: &mut [i128], to: usize, form: Option<Lin>)
    requires size { size ≤ 8 }
    requires m { IsMatrix size m.old }
    requires first { 1 ≤ to }
    requires last { to ≤ size }
    requires form { IfSome form (IsFormOf size) }
    ensures value { m.new ≡ absolute_stored size to form true true m.old }
    ensures matrix { IsMatrix size m.new }
{
    let mut room = [0; 81];
    let other = &mut room[..m.len()];
    other.copy_from_slice(m);
    assign_or_forget(size, other, to, turned(form));
    assign_or_forget(size, m, to, form);
    lower_to(size, m, other);
}

/// Stores the absolute value of a form, by whether it surely isn't negative and surely isn't positive. Nothing is known
/// of the cell behind it where neither is sure.
pub fn store_absolute(
    size: usize,
    m: &mut [i128],
    to: usize,
    form: Option<Lin>,
    not_negative: bool,
    not_positive: bool,
)
    requires size { size ≤ 8 }
    requires m { IsMatrix size m.old }
    requires first { 1 ≤ to }
    requires last { to ≤ size }
    requires form { IfSome form (IsFormOf size) }
    ensures value { m.new ≡ absolute_stored size to form not_negative not_positive m.old }
    ensures matrix { IsMatrix size m.new }
{
    match (not_negative, not_positive) {
        (true, true) => store_either(size, m, to, form),
        (true, false) => assign_or_forget(size, m, to, form),
        (false, true) => assign_or_forget(size, m, to, turned(form)),
        (false, false) => forget_cell(size, m, to),
    }
}

/// Stores a form at a cell, with its sign or, where the cell has none, its absolute value.
pub fn store_value(
    size: usize,
    m: &mut [i128],
    to: usize,
    signed: bool,
    known: Known,
    form: Option<Lin>,
)
    requires size { size ≤ 8 }
    requires m { IsMatrix size m.old }
    requires first { 1 ≤ to }
    requires last { to ≤ size }
    requires form { IfSome form (IsFormOf size) }
    ensures value { m.new ≡ value_stored size to signed known form m.old }
    ensures matrix { IsMatrix size m.new }
{
    if signed {
        assign_or_forget(size, m, to, form);
    } else {
        store_absolute(size, m, to, form, known.not_negative, known.not_positive);
    }
}

/// A cell that gets a value: its place among the pack's cells, from 1 on, and how many of the pack's units are one of
/// its own.
#[derive(Clone, Copy)]
pub struct Target {
    pub place: usize,
    pub unit: i128,
}

/// Stores a form, cut or rounded, at a cell.
pub fn store_form(size: usize, m: &mut [i128], target: Target, slot: Slot, known: Known, form: &Lin)
    requires size { size ≤ 8 }
    requires m { IsMatrix size m.old }
    requires first { 1 ≤ target.place }
    requires last { target.place ≤ size }
    requires unit { pos 0 ≤ℤ target.unit }
    requires form { IsFormOf size form.now }
    ensures value { m.new ≡ form_stored size target.place slot.receiver.signed slot.mode (unsigned_abs target.unit)
        known form.now m.old }
    ensures matrix { IsMatrix size m.new }
{
    let stored = widened(form, error_of(known, slot.mode, target.unit));
    store_value(size, m, target.place, slot.receiver.signed, known, stored);
}

/// Stores an amount at a cell: a form of the amount, by what is surely known of its range. Where there is no form,
/// nothing is known of the cell behind it.
pub fn store_at(
    size: usize,
    m: &mut [i128],
    target: Target,
    form: Option<Lin>,
    slot: Slot,
    amount: Option<AmountRange>,
)
    requires size { size ≤ 8 }
    requires m { IsMatrix size m.old }
    requires first { 1 ≤ target.place }
    requires last { target.place ≤ size }
    requires form { IfSome form (IsFormOf size) }
    requires unit { pos 0 ≤ℤ target.unit }
    ensures value { m.new ≡ stored_at size target.place slot.receiver slot.mode (unsigned_abs target.unit) amount form
        m.old }
    ensures matrix { IsMatrix size m.new }
{
    match form {
        Some(form) => {
            let known = known_of_amount(size, m, &form, slot.receiver.scale, amount);
            store_form(size, m, target, slot, known, &form);
        }
        None => forget_cell(size, m, target.place),
    }
}
