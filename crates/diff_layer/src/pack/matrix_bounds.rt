//! What a matrix shows of forms, and what is surely known of an amount.
ghost use Rattle.std.specs.Prelude.{◌≡◌, ◌<◌, ◌≤◌, IfSome};
ghost use Rattle.diff_bounds.specs.Forms.{IsSmallForm};
ghost use Rattle.diff_bounds.specs.Matrix.{IsMatrix};
ghost use Rattle.diff_bounds.specs.Upper.{upper_of};
ghost use Rattle.diff_steps.specs.Stores.{
  is_low as is_low_bound,
  upper_negated,
  known_of_range as range_known,
  known_of_amount as amount_known,
};
ghost use Rattle.diff_steps.specs.Clearing.{is_negative as is_negative_bound};
ghost use Rattle.diff_layer.specs.PackEnds.{IsNumber};
ghost use Rattle.diff_layer.specs.Forms.{IsFormOf};
ghost use Rattle.diff_layer.specs.Receiving.{upper_if, upper_negated_if, is_apart};

use diff_bounds::{Known, Lin, NONE, negated, upper};
use sum_ranges::Ranged;
use transfer_ranges::AmountRange;

/// The least bound that the matrix shows of the form, if it shows one: a number of at most 10^37 in absolute value.
pub fn bound(size: usize, m: &[i128], form: &Lin) -> Option<i128>
    requires size { size ≤ 8 }
    requires m { IsMatrix size m.now }
    requires form { IsSmallForm form.now }
    ensures value { result ≡ upper_of size m.now form.now }
    ensures number { IfSome result IsNumber }
{
    let word = upper(size, m, form);
    if word < NONE { Some(word) } else { None }
}

/// The least bound that the matrix shows of the negated form, if it shows one: a number of at most 10^37 in absolute
/// value.
pub fn bound_of_negated(size: usize, m: &[i128], form: &Lin) -> Option<i128>
    requires size { size ≤ 8 }
    requires m { IsMatrix size m.now }
    requires form { IsFormOf size form.now }
    ensures value { result ≡ upper_negated size m.now form.now }
    ensures number { IfSome result IsNumber }
{
    bound(size, m, &negated(form))
}

// the bound of a form, if there is one
pub(crate) fn bound_if(size: usize, m: &[i128], form: Option<Lin>) -> Option<i128>
    requires size { size ≤ 8 }
    requires m { IsMatrix size m.now }
    requires form { IfSome form (IsFormOf size) }
    ensures value { result ≡ upper_if size m.now form }
    ensures number { IfSome result IsNumber }
{
    match form {
        Some(form) => bound(size, m, &form),
        None => None,
    }
}

// the bound of the negated form, if there is one
pub(crate) fn bound_of_negated_if(size: usize, m: &[i128], form: Option<Lin>) -> Option<i128>
    requires size { size ≤ 8 }
    requires m { IsMatrix size m.now }
    requires form { IfSome form (IsFormOf size) }
    ensures value { result ≡ upper_negated_if size m.now form }
    ensures number { IfSome result IsNumber }
{
    match form {
        Some(form) => bound_of_negated(size, m, &form),
        None => None,
    }
}

// whether there is a bound below 0
fn is_negative(bound: Option<i128>) -> bool
    ensures { result ≡ is_negative_bound bound }
{
    match bound {
        Some(most) => most < 0,
        None => false,
    }
}

/// Whether the matrix shows that the form isn't 0.
pub fn is_apart(size: usize, m: &[i128], form: Option<Lin>) -> bool
    requires size { size ≤ 8 }
    requires m { IsMatrix size m.now }
    requires form { IfSome form (IsFormOf size) }
    ensures { result ≡ is_apart size m.now form }
{
    is_negative(bound_if(size, m, form)) || is_negative(bound_of_negated_if(size, m, form))
}

// whether there is a bound, and it isn't above 0
fn is_low(bound: Option<i128>) -> bool
    ensures { result ≡ is_low_bound bound }
{
    match bound {
        Some(most) => most <= 0,
        None => false,
    }
}

/// What is surely known of an amount of a range that is stored at so many decimals: by the range, and of its sign by
/// the matrix too.
pub fn known_of_range(size: usize, m: &[i128], form: &Lin, decimals: u32, range: Ranged) -> Known
    requires size { size ≤ 8 }
    requires m { IsMatrix size m.now }
    requires form { IsFormOf size form.now }
    ensures { result ≡ range_known size m.now form.now decimals range }
{
    Known {
        whole: range.scale <= decimals,
        not_negative: 0 <= range.units.low || is_low(bound_of_negated(size, m, form)),
        not_positive: range.units.high <= 0 || is_low(bound(size, m, form)),
    }
}

/// What is surely known of an amount: nothing where it is no decimal.
pub fn known_of_amount(
    size: usize,
    m: &[i128],
    form: &Lin,
    decimals: u32,
    amount: Option<AmountRange>,
) -> Known
    requires size { size ≤ 8 }
    requires m { IsMatrix size m.now }
    requires form { IsFormOf size form.now }
    ensures { result ≡ amount_known size m.now form.now decimals amount }
{
    match amount {
        Some(AmountRange::Decimal(range)) => known_of_range(size, m, form, decimals, range),
        _ => Known {
            whole: false,
            not_negative: false,
            not_positive: false,
        },
    }
}
