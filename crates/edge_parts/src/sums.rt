//! Items and divisors of sums, from left to right.
#![tactic(auto, using(crate::proofs::HandingLaws::handing))]

ghost use Rattle.std.specs.Prelude.{◌≡◌, ◌++◌, [], ◌∷◌, map, if◌then◌else◌};
ghost use Rattle.cob_program.specs.Sum.{parts_of, factors_of};
ghost use Rattle.cob_program.specs.SumView.{plain_sum, plain_part as plain_product, plain_factor, plain_atom};
ghost use Rattle.cob_runs.specs.Computing.{items_in, items_in_parts, items_in_factors, items_in_atom};
ghost use Rattle.cob_edge_parts.specs.Parts.{item_reads, divides, divisors_in, divisors_in_parts, divisors_in_factors, divisors_in_atom};
ghost use Rattle.edge_parts.specs.PartView.{plain_part};
ghost use Rattle.edge_parts.specs.Pieces.{factor_divisors, product_divisors, product_items};
ghost use Rattle.edge_parts.specs.Handing.{Takes, goes_on};

use crate::part::{Divisor, EdgePart};
use crate::taker::{Going, PartTaker, no_parts, push_part};
use cob_program::{Atom, Factor, Part, Sum};
use std::ops::ControlFlow;

// ---- items

#[cycle(items)]
fn push_reads_in_atom<'a>(parts: &mut PartTaker<'a>, atom: &Atom) -> Going
    ensures { Takes plain_part parts.old (item_reads (items_in_atom (plain_atom atom.now))) (goes_on result) parts.new }
{
    match atom {
        Atom::Item(place) => push_part(parts, EdgePart::Read(*place)),
        Atom::Number(_) => no_parts(parts),
        Atom::Group(sum) => push_reads(parts, sum),
    }
}

#[cycle(items)]
fn push_reads_in_factors<'a>(parts: &mut PartTaker<'a>, factors: &[Factor]) -> Going
    ensures { Takes plain_part parts.old (item_reads (items_in_factors (factors_of (map plain_factor factors.now))))
        (goes_on result) parts.new }
{
    for factor in factors {
        push_reads_in_atom(parts, &factor.atom)?;
    }
    ControlFlow::Continue(())
}

#[cycle(items)]
fn push_reads_in_product<'a>(parts: &mut PartTaker<'a>, product: &Part) -> Going
    ensures { Takes plain_part parts.old (item_reads (product_items (plain_product product.now)))
        (goes_on result) parts.new }
{
    push_reads_in_factors(parts, &product.factors)
}

#[cycle(items)]
fn push_reads_in_products<'a>(parts: &mut PartTaker<'a>, products: &[Part]) -> Going
    ensures { Takes plain_part parts.old (item_reads (items_in_parts (parts_of (map plain_product products.now))))
        (goes_on result) parts.new }
{
    for product in products {
        push_reads_in_product(parts, product)?;
    }
    ControlFlow::Continue(())
}

/// The Read of an item of a sum.
#[cycle(items)]
pub fn push_reads<'a>(parts: &mut PartTaker<'a>, sum: &Sum) -> Going
    ensures { Takes plain_part parts.old (item_reads (items_in (plain_sum sum.now))) (goes_on result) parts.new }
{
    push_reads_in_products(parts, &sum.parts)
}

// ---- divisors

#[cycle(divisors)]
fn push_divisors_in_atom<'a>(parts: &mut PartTaker<'a>, atom: &'a Atom) -> Going
    ensures { Takes plain_part parts.old (divides (divisors_in_atom (plain_atom atom.now))) (goes_on result) parts.new }
{
    match atom {
        Atom::Item(_) | Atom::Number(_) => no_parts(parts),
        Atom::Group(sum) => push_divisors(parts, sum),
    }
}

// an operand, which is a divisor itself if it stands behind a sign of division
fn push_divisor_if<'a>(parts: &mut PartTaker<'a>, over: bool, atom: &'a Atom) -> Going
    ensures { Takes plain_part parts.old (divides (if over then plain_atom atom.now ∷ [] else []))
        (goes_on result) parts.new }
{
    if over {
        push_part(parts, EdgePart::Divide(Divisor::Inner(atom)))
    } else {
        no_parts(parts)
    }
}

#[cycle(divisors)]
fn push_divisors_in_factor<'a>(parts: &mut PartTaker<'a>, factor: &'a Factor) -> Going
    ensures { Takes plain_part parts.old (divides (factor_divisors (plain_factor factor.now)))
        (goes_on result) parts.new }
{
    push_divisors_in_atom(parts, &factor.atom)?;
    push_divisor_if(parts, factor.over, &factor.atom)
}

#[cycle(divisors)]
fn push_divisors_in_factors<'a>(parts: &mut PartTaker<'a>, factors: &'a [Factor]) -> Going
    ensures { Takes plain_part parts.old (divides (divisors_in_factors (factors_of (map plain_factor factors.now))))
        (goes_on result) parts.new }
{
    for factor in factors {
        push_divisors_in_factor(parts, factor)?;
    }
    ControlFlow::Continue(())
}

#[cycle(divisors)]
fn push_divisors_in_product<'a>(parts: &mut PartTaker<'a>, product: &'a Part) -> Going
    ensures { Takes plain_part parts.old (divides (product_divisors (plain_product product.now)))
        (goes_on result) parts.new }
{
    push_divisors_in_factors(parts, &product.factors)
}

#[cycle(divisors)]
fn push_divisors_in_products<'a>(parts: &mut PartTaker<'a>, products: &'a [Part]) -> Going
    ensures { Takes plain_part parts.old (divides (divisors_in_parts (parts_of (map plain_product products.now))))
        (goes_on result) parts.new }
{
    for product in products {
        push_divisors_in_product(parts, product)?;
    }
    ControlFlow::Continue(())
}

/// A divisor that stands in a sum.
#[cycle(divisors)]
pub fn push_divisors<'a>(parts: &mut PartTaker<'a>, sum: &'a Sum) -> Going
    ensures { Takes plain_part parts.old (divides (divisors_in (plain_sum sum.now))) (goes_on result) parts.new }
{
    push_divisors_in_products(parts, &sum.parts)
}
