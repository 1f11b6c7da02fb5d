//! The literals of sums, from left to right.
ghost use Rattle.std.specs.Prelude.{◌≡◌, ◌++◌, map, OnOk};
ghost use Rattle.cob_program.specs.Sum.{parts_of, factors_of};
ghost use Rattle.cob_program.specs.SumView.{plain_sum, plain_part, plain_factor, plain_atom};
ghost use Rattle.analyse_core.specs.Literals.{
  atom_literals,
  factor_literals,
  factors_literals,
  part_literals,
  parts_literals,
  sum_literals,
  numbers_of,
};

use crate::literals::add_number;
use cob_program::{Atom, Factor, Part, Sum};
use cob_tree::Num;
use std::alloc::AllocError;

#[cycle(sums)]
fn add_atom<'a>(literals: &mut Vec<&'a Num>, atom: &'a Atom) -> Result<(), AllocError>
    ensures { OnOk result (numbers_of literals.new.items ≡ numbers_of literals.old.items ++ atom_literals (plain_atom atom.now)) }
{
    match atom {
        Atom::Item(_) => Ok(()),
        Atom::Number(number) => add_number(literals, number),
        Atom::Group(sum) => add_sum(literals, sum),
    }
}

#[cycle(sums)]
fn add_factor<'a>(literals: &mut Vec<&'a Num>, factor: &'a Factor) -> Result<(), AllocError>
    ensures { OnOk result (numbers_of literals.new.items ≡ numbers_of literals.old.items ++ factor_literals (plain_factor factor.now)) }
{
    add_atom(literals, &factor.atom)
}

#[cycle(sums)]
fn add_factors<'a>(literals: &mut Vec<&'a Num>, factors: &'a [Factor]) -> Result<(), AllocError>
    ensures { OnOk result (numbers_of literals.new.items
        ≡ numbers_of literals.old.items ++ factors_literals (factors_of (map plain_factor factors.now))) }
{
    for factor in factors {
        add_factor(literals, factor)?;
    }
    Ok(())
}

#[cycle(sums)]
fn add_part<'a>(literals: &mut Vec<&'a Num>, part: &'a Part) -> Result<(), AllocError>
    ensures { OnOk result (numbers_of literals.new.items ≡ numbers_of literals.old.items ++ part_literals (plain_part part.now)) }
{
    add_factors(literals, &part.factors)
}

#[cycle(sums)]
fn add_parts<'a>(literals: &mut Vec<&'a Num>, parts: &'a [Part]) -> Result<(), AllocError>
    ensures { OnOk result (numbers_of literals.new.items
        ≡ numbers_of literals.old.items ++ parts_literals (parts_of (map plain_part parts.now))) }
{
    for part in parts {
        add_part(literals, part)?;
    }
    Ok(())
}

/// Adds the literals of a sum.
#[cycle(sums)]
pub fn add_sum<'a>(literals: &mut Vec<&'a Num>, sum: &'a Sum) -> Result<(), AllocError>
    ensures { OnOk result (numbers_of literals.new.items ≡ numbers_of literals.old.items ++ sum_literals (plain_sum sum.now)) }
{
    add_parts(literals, &sum.parts)
}
