//! Forms of products, one factor after the other.
ghost use Rattle.std.specs.Prelude.{◌≡◌, ◌≤◌, IfSome};
ghost use Rattle.diff_bounds.specs.Forms.{if_small};
ghost use Rattle.diff_bounds.specs.Results.{sum_of};
ghost use Rattle.sum_ranges.specs.Sizes.{IsSmallRange};
ghost use Rattle.sum_forms.specs.SumForms.{scaled_form, scaled_if, turned_if, next_front, next_form};
ghost use Rattle.sum_forms.specs.Values.{IsForm};

use super::constants::range_form;
use super::front::Front;
use diff_bounds::{Lin, lin_add, lin_scale};
use sum_ranges::Ranged;

// a multiple of a form
fn multiple(form: &Lin, by: i128) -> Option<Lin>
    requires { IsForm form.now }
    ensures value { result ≡ scaled_form by form.now }
    ensures good { IfSome result IsForm }
{
    lin_scale(form, by)
}

// a multiple of a form, where there is one
fn scaled(form: Option<Lin>, by: i128) -> Option<Lin>
    requires { IfSome form IsForm }
    ensures value { result ≡ scaled_if by form }
    ensures good { IfSome result IsForm }
{
    match form {
        Some(form) => multiple(&form, by),
        None => None,
    }
}

// a form, with the other sign where `minus` says so
pub(crate) fn turned(minus: bool, form: Option<Lin>) -> Option<Lin>
    requires { IfSome form IsForm }
    ensures value { result ≡ turned_if minus form }
    ensures good { IfSome result IsForm }
{
    if minus { scaled(form, -1) } else { form }
}

// the sum of two forms
pub(crate) fn sum_of_two(a: &Lin, b: &Lin) -> Option<Lin>
    requires a { IsForm a.now }
    requires b { IsForm b.now }
    ensures value { result ≡ if_small (sum_of a.now b.now) }
    ensures good { IfSome result IsForm }
{
    lin_add(a, b)
}

// what a product is behind a factor that multiplies by a whole number or doesn't
pub(crate) fn next_front(front: Front, whole: Option<i128>) -> Front
    ensures { result ≡ next_front front whole }
{
    match front {
        Front::Empty => match whole {
            Some(by) => Front::Literal(by),
            None => Front::Product,
        },
        Front::Literal(_) => Front::Product,
        Front::Product => Front::Product,
    }
}

// A factor: the whole number that it multiplies by, if it does, whether it divides, and its own form.
#[derive(Clone, Copy)]
pub(crate) struct Step {
    pub(crate) whole: Option<i128>,
    pub(crate) over: bool,
    pub(crate) own: Option<Lin>,
}

// the form of a product behind a factor, by the form of what stands before it and the product's range
pub(crate) fn next_form(
    decimals: u32,
    front: Front,
    range: Ranged,
    before: Option<Lin>,
    step: Step,
) -> Option<Lin>
    requires decimals { decimals ≤ 37 }
    requires range { IsSmallRange range }
    requires before { IfSome before IsForm }
    requires own { IfSome step.own IsForm }
    ensures value { result ≡ next_form decimals front step.whole step.over range before step.own }
    ensures good { IfSome result IsForm }
{
    match front {
        Front::Empty => {
            if step.over {
                range_form(decimals, range)
            } else {
                step.own
            }
        }
        Front::Literal(by) => match step.whole {
            Some(whole) => scaled(before, whole),
            None => {
                if step.over {
                    range_form(decimals, range)
                } else {
                    scaled(step.own, by)
                }
            }
        },
        Front::Product => match step.whole {
            Some(whole) => scaled(before, whole),
            None => range_form(decimals, range),
        },
    }
}
