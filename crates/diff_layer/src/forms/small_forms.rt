//! Sums of forms, where there are forms.
ghost use Rattle.std.specs.Prelude.{◌≡◌, true, IfSome};
ghost use Rattle.diff_bounds.specs.Forms.{if_small};
ghost use Rattle.diff_bounds.specs.Results.{sum_of};
ghost use Rattle.sum_forms.specs.SumForms.{scaled_form, scaled_if};
ghost use Rattle.sum_forms.specs.Values.{IsForm};
ghost use Rattle.diff_steps.specs.Forms.{added_forms, turned_if};

use diff_bounds::{Lin, lin_add, lin_scale};

fn sum_of_two(a: &Lin, b: &Lin) -> Option<Lin>
    requires a { IsForm a.now }
    requires b { IsForm b.now }
    ensures value { result ≡ if_small (sum_of a.now b.now) }
    ensures good { IfSome result IsForm }
{
    lin_add(a, b)
}

fn multiple(form: &Lin, by: i128) -> Option<Lin>
    requires { IsForm form.now }
    ensures value { result ≡ scaled_form by form.now }
    ensures good { IfSome result IsForm }
{
    lin_scale(form, by)
}

/// The sum of two forms.
pub(crate) fn added(a: Option<Lin>, b: Option<Lin>) -> Option<Lin>
    requires a { IfSome a IsForm }
    requires b { IfSome b IsForm }
    ensures value { result ≡ added_forms a b }
    ensures good { IfSome result IsForm }
{
    match a {
        None => None,
        Some(a) => match b {
            None => None,
            Some(b) => sum_of_two(&a, &b),
        },
    }
}

/// A whole number times a form.
pub(crate) fn scaled(form: Option<Lin>, by: i128) -> Option<Lin>
    requires { IfSome form IsForm }
    ensures value { result ≡ scaled_if by form }
    ensures good { IfSome result IsForm }
{
    match form {
        None => None,
        Some(form) => multiple(&form, by),
    }
}

/// A form with the other sign.
pub(crate) fn turned(form: Option<Lin>) -> Option<Lin>
    requires { IfSome form IsForm }
    ensures value { result ≡ turned_if true form }
    ensures good { IfSome result IsForm }
{
    scaled(form, -1)
}
