//! What the order of two sums leaves of a matrix.
ghost use Rattle.std.specs.Prelude.{◌≡◌, ◌<◌, ◌≤◌, true, false, IfSome};
ghost use Rattle.diff_bounds.specs.Matrix.{IsMatrix};
ghost use Rattle.cob_runs.specs.Deciding.{below as below_it, equal as equal_to_it, above as above_it, holds};
ghost use Rattle.transfer_ranges.specs.Sides.{is_wanted};
ghost use Rattle.diff_steps.specs.Guards.{demanded_if, ordered};
ghost use Rattle.diff_layer.specs.Forms.{IsFormOf};

use crate::forms::bounded_forms::{at_most, turned};
use crate::pack::matrix_images::{demand_form, lower_to};
use cob_tree::Rel;
use diff_bounds::Lin;

/// Lowers the words by the demand that the form is at most 0, if there is one.
pub fn demand_if(size: usize, m: &mut [i128], form: Option<Lin>)
    requires size { size ≤ 8 }
    requires m { IsMatrix size m.old }
    requires form { IfSome form (IsFormOf size) }
    ensures value { m.new ≡ demanded_if size form m.old }
    ensures matrix { IsMatrix size m.new }
{
    if let Some(form) = form {
        demand_form(size, m, &form);
    }
}

// demands that the form is 0: two demands, each over the matrix as it was
fn demand_zero(size: usize, m: &mut [i128], fine: bool, form: Option<Lin>)
    requires size { size ≤ 8 }
    requires m { IsMatrix size m.old }
    requires form { IfSome form (IsFormOf size) }
    ensures value { m.new ≡ ordered size fine form false true false m.old }
    ensures matrix { IsMatrix size m.new }
{
    let mut room = [0; 81];
    let other = &mut room[..m.len()];
    other.copy_from_slice(m);
    demand_if(size, other, turned(form));
    demand_if(size, m, form);
    lower_to(size, m, other);
}

/// Which orders of two sums are left.
#[derive(Clone, Copy)]
pub struct Orders {
    pub below: bool,
    pub even: bool,
    pub above: bool,
}

/// A relation, and whether it is to hold or not.
#[derive(Clone, Copy)]
pub struct Outcome {
    pub rel: Rel,
    pub holds: bool,
}

/// Lowers the words by which orders of two sums are left, where the form is the difference of the first and the second.
/// Both are whole numbers of the pack's unit where they are `fine`, so that a difference below 0 is at most -1.
pub fn order(size: usize, m: &mut [i128], fine: bool, form: Option<Lin>, left: Orders)
    requires size { size ≤ 8 }
    requires m { IsMatrix size m.old }
    requires form { IfSome form (IsFormOf size) }
    ensures value { m.new ≡ ordered size fine form left.below left.even left.above m.old }
    ensures matrix { IsMatrix size m.new }
{
    match (left.below, left.even, left.above) {
        (true, _, false) => demand_if(size, m, at_most(fine, left.even, form)),
        (false, _, true) => demand_if(size, m, at_most(fine, left.even, turned(form))),
        (false, true, false) => demand_zero(size, m, fine, form),
        _ => {}
    }
}

// whether a relation has an outcome where the first side is below the second
fn leaves_below(rel: Rel, wanted: bool) -> bool
    ensures { result ≡ is_wanted wanted (holds rel below_it) }
{
    matches!(rel, Rel::Less | Rel::AtMost) == wanted
}

// whether a relation has an outcome where both sides are equal
fn leaves_equal(rel: Rel, wanted: bool) -> bool
    ensures { result ≡ is_wanted wanted (holds rel equal_to_it) }
{
    matches!(rel, Rel::Equal | Rel::AtLeast | Rel::AtMost) == wanted
}

// whether a relation has an outcome where the first side is above the second
fn leaves_above(rel: Rel, wanted: bool) -> bool
    ensures { result ≡ is_wanted wanted (holds rel above_it) }
{
    matches!(rel, Rel::Greater | Rel::AtLeast) == wanted
}

/// Lowers the words by an outcome of a relation of two sums.
pub fn relate(size: usize, m: &mut [i128], fine: bool, form: Option<Lin>, outcome: Outcome)
    requires size { size ≤ 8 }
    requires m { IsMatrix size m.old }
    requires form { IfSome form (IsFormOf size) }
    ensures value { m.new ≡ ordered size fine form (is_wanted outcome.holds (holds outcome.rel below_it))
        (is_wanted outcome.holds (holds outcome.rel equal_to_it))
        (is_wanted outcome.holds (holds outcome.rel above_it)) m.old }
    ensures matrix { IsMatrix size m.new }
{
    let left = Orders {
        below: leaves_below(outcome.rel, outcome.holds),
        even: leaves_equal(outcome.rel, outcome.holds),
        above: leaves_above(outcome.rel, outcome.holds),
    };
    order(size, m, fine, form, left);
}
