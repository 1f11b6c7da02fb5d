//! How great the intermediates of sums can be, whatever their items hold within their pictures.
ghost use Rattle.std.specs.Prelude.{◌≡◌, true, ◌^◌, ◌*◌, ◌/◌, ◌-◌, ◌≤◌, min, map, option_map};
ghost use Rattle.cob_program.specs.Sum.{parts_of, factors_of};
ghost use Rattle.cob_program.specs.SumView.{plain_sum, plain_part, plain_factor, plain_atom};
ghost use Rattle.cob_program.specs.Bounds.{form_bound, literal_bound, of_digits, exactly, atom_most, sum_bound, product_bound, quotient_bound, factor_bound, at_scale, is_small_stored, is_small_sides};
ghost use Rattle.cob_typed_exprs.specs.Sizes.{bound_at, plain_size, capped, if_small, small_sum, small_sum_from, small_part, small_product, small_atom, is_plain, quotient_at};

use crate::scope::Scope;
use cob_program::{Atom, Factor, Part, Sum};
use cob_tree::{Form, Num};
use dec_num::{SIZE_LIMIT, pow10};

/// The greatest absolute value that something can have, in units of a scale. What isn't below `10^37` counts as `10^37`.
#[derive(Clone, Copy)]
pub struct Size {
    pub most: u128,
    pub scale: u32,
}

const ZERO: Size = Size { most: 0, scale: 0 };

const ONE: Size = Size { most: 1, scale: 0 };

// ---- numbers up to a limit

fn ten(k: u64) -> u128
    requires { k ≤ 37 }
    ensures { result ≡ 10 ^ k }
{
    pow10(k as u32) as u128
}

fn times(a: u128, b: u128) -> u128
    ensures { result ≡ min (a * b) (10 ^ 37) }
{
    a.saturating_mul(b).min(SIZE_LIMIT)
}

fn raised(most: u128, by: u64) -> u128
    ensures { result ≡ min (most * 10 ^ by) (10 ^ 37) }
{
    if by <= 37 {
        times(most, ten(by))
    } else if most == 0 {
        0
    } else {
        SIZE_LIMIT
    }
}

// ---- operations

/// A bound, where it is small.
fn small(most: u128, scale: u32) -> Option<Size>
    ensures { option_map plain_size result ≡ if_small (record { most = most; scale = scale }) }
{
    if most < SIZE_LIMIT && scale <= 37 {
        Some(Size { most, scale })
    } else {
        None
    }
}

impl Size {
    /// The bound itself, where it is small.
    pub fn if_small(self) -> Option<Size>
        ensures { option_map plain_size result ≡ if_small (plain_size self) }
    {
        small(self.most, self.scale)
    }

    /// The bound at another scale, where it is small there.
    fn at_scale(self, scale: u32) -> Option<Size>
        ensures { option_map plain_size result ≡ if_small (at_scale (plain_size self) scale) }
    {
        let by = scale.saturating_sub(self.scale);
        small(raised(self.most, u64::from(by)), scale)
    }

    /// The bound of a sum, where it is small.
    pub fn plus(self, other: Size) -> Option<Size>
        ensures { option_map plain_size result ≡ if_small (sum_bound (plain_size self) (plain_size other)) }
    {
        let joint = self.scale.max(other.scale);
        let most = raised(self.most, u64::from(joint - self.scale));
        small(
            most + raised(other.most, u64::from(joint - other.scale)),
            joint,
        )
    }

    /// The bound of a product, where it is small.
    pub fn by(self, other: Size) -> Option<Size>
        ensures { option_map plain_size result ≡ if_small (product_bound (plain_size self) (plain_size other)) }
    {
        match self.scale.checked_add(other.scale) {
            None => None,
            Some(scale) => small(times(self.most, other.most), scale),
        }
    }

    /// The bound of a quotient, where it is small.
    fn over(self, divisor: Size) -> Option<Size>
        ensures { option_map plain_size result ≡ if_small (quotient_bound (plain_size self) (plain_size divisor)) }
    {
        let scale = 6.max(self.scale.max(divisor.scale));
        let by = u64::from(scale) + u64::from(divisor.scale) - u64::from(self.scale);
        small(raised(self.most, by), scale)
    }

    /// The bound with one factor more, where it is small.
    fn with_factor(self, over: bool, factor: Size) -> Option<Size>
        ensures { option_map plain_size result ≡ if_small (factor_bound over (plain_size self) (plain_size factor)) }
    {
        if over {
            self.over(factor)
        } else {
            self.by(factor)
        }
    }
}

// ---- items and literals

fn of_digits(digits: u64, scale: u32) -> Size
    ensures { plain_size result ≡ capped (of_digits digits scale) }
{
    let most = if digits <= 37 {
        ten(digits) - 1
    } else {
        SIZE_LIMIT
    };
    Size { most, scale }
}

fn form_size(form: &Form) -> Size
    ensures { plain_size result ≡ capped (form_bound form.now) }
{
    match form {
        Form::Group => ZERO,
        Form::Text { length } => of_digits(u64::from(*length), 0),
        Form::Number { digits, scale, .. } | Form::Edited { digits, scale, .. } => {
            of_digits(u64::from(*digits), *scale)
        }
    }
}

/// How great a literal is: leading zeros count.
pub fn literal_size(number: &Num) -> Size
    ensures { plain_size result ≡ capped (literal_bound number.now) }
{
    of_digits(number.digits.get().len() as u64, number.scale)
}

/// How great `n / d` at a scale, rounded down, can be, where it is small.
pub fn quotient_size(n: Size, d: Size, scale: u32) -> Option<Size>
    requires { n.scale ≤ 37 }
    ensures { option_map plain_size result ≡ if_small (quotient_at (plain_size n) (plain_size d) scale) }
{
    let up = u64::from(scale) + u64::from(d.scale);
    let from = u64::from(n.scale);
    if from <= up {
        small(raised(n.most, up - from), scale)
    } else {
        small(n.most / ten(from - up), scale)
    }
}

// ---- sums

impl<'a> Scope<'a> {
    /// How great an item can be.
    pub fn item_size(&self, place: u32) -> Size
        ensures { plain_size result ≡ capped (bound_at self.now place) }
    {
        form_size(self.form(place))
    }

    /// How great an operand can be.
    pub fn atom_size(&self, atom: &Atom) -> Size
        requires { is_plain (plain_atom atom.now) ≡ true }
        ensures { plain_size result ≡ capped (atom_most (bound_at self.now) (plain_atom atom.now)) }
    {
        match atom {
            Atom::Item(place) => self.item_size(*place),
            Atom::Number(number) => literal_size(number),
            Atom::Group(_) => ZERO,
        }
    }

    #[cycle(size)]
    fn small_atom(&self, atom: &Atom) -> Option<Size>
        ensures { option_map plain_size result ≡ small_atom (bound_at self.now) (plain_atom atom.now) }
    {
        match atom {
            Atom::Item(place) => self.item_size(*place).if_small(),
            Atom::Number(number) => literal_size(number).if_small(),
            Atom::Group(sum) => self.small_sum(sum),
        }
    }

    #[cycle(size)]
    fn small_product(&self, factors: &[Factor]) -> Option<Size>
        ensures { option_map plain_size result ≡ small_product (bound_at self.now) (exactly 1) (factors_of (map plain_factor factors.now)) }
    {
        let mut size = ONE;
        for factor in factors {
            match self.small_atom(&factor.atom) {
                None => return None,
                Some(by) => match size.with_factor(factor.over, by) {
                    None => return None,
                    Some(next) => size = next,
                },
            }
        }
        Some(size)
    }

    #[cycle(size)]
    fn small_part(&self, part: &Part) -> Option<Size>
        ensures { option_map plain_size result ≡ small_part (bound_at self.now) (plain_part part.now) }
    {
        self.small_product(&part.factors)
    }

    #[cycle(size)]
    fn small_parts(&self, parts: &[Part]) -> Option<Size>
        ensures { option_map plain_size result ≡ small_sum_from (bound_at self.now) (exactly 0) (parts_of (map plain_part parts.now)) }
    {
        let mut size = ZERO;
        for part in parts {
            match self.small_part(part) {
                None => return None,
                Some(more) => match size.plus(more) {
                    None => return None,
                    Some(next) => size = next,
                },
            }
        }
        Some(size)
    }

    /// How great a sum can be, where each of its intermediates is small.
    #[cycle(size)]
    pub fn small_sum(&self, sum: &Sum) -> Option<Size>
        ensures { option_map plain_size result ≡ small_sum (bound_at self.now) (plain_sum sum.now) }
    {
        self.small_parts(&sum.parts)
    }

    /// Whether the rule of bounds is kept by a sum that is stored. A quotient that is its last operation stays exact, and
    /// doesn't count.
    pub fn is_small_stored(&self, sum: &Sum) -> bool
        ensures { result ≡ is_small_stored (bound_at self.now) (plain_sum sum.now) }
    {
        match sum.root() {
            None => self.small_sum(sum).is_some(),
            Some(root) => {
                self.small_product(root.dividend).is_some()
                    && self.small_atom(&root.divisor.atom).is_some()
            }
        }
    }

    /// Whether the two sides of a comparison keep the rule of bounds.
    pub fn are_small_sides(&self, left: &Sum, right: &Sum) -> bool
        ensures { result ≡ is_small_sides (bound_at self.now) (plain_sum left.now) (plain_sum right.now) }
    {
        match (self.small_sum(left), self.small_sum(right)) {
            (Some(left), Some(right)) => {
                let joint = left.scale.max(right.scale);
                left.at_scale(joint).is_some() && right.at_scale(joint).is_some()
            }
            _ => false,
        }
    }
}
