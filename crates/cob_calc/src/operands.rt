//! Whether the items of a sum can be read as numbers.
ghost use Rattle.std.specs.Prelude.{◌≡◌, map};
ghost use Rattle.cob_program.specs.Sum.{parts_of, factors_of};
ghost use Rattle.cob_program.specs.SumView.{plain_sum, plain_part, plain_factor, plain_atom};
ghost use Rattle.cob_runs.specs.Computing.{are_numeric, items_in, items_in_parts, items_in_factors, items_in_atom};
ghost use Rattle.cob_calc.specs.Contents.{IsWellFormed};

use crate::contents::Contents;
use cob_program::{Atom, Factor, Part, Sum};

impl<'a> Contents<'a> {
    #[cycle(operands)]
    fn is_numeric_atom(&self, atom: &Atom) -> bool
        requires { IsWellFormed self.now }
        ensures { result ≡ are_numeric self.now.layout self.now.storage (items_in_atom (plain_atom atom.now)) }
    {
        match atom {
            Atom::Item(place) => self.is_numeric(*place),
            Atom::Number(_) => true,
            Atom::Group(sum) => self.are_operands_numeric(sum),
        }
    }

    #[cycle(operands)]
    fn are_factors_numeric(&self, factors: &[Factor]) -> bool
        requires { IsWellFormed self.now }
        ensures { result ≡ are_numeric self.now.layout self.now.storage (items_in_factors (factors_of
            (map plain_factor factors.now))) }
    {
        for factor in factors {
            if !self.is_numeric_atom(&factor.atom) {
                return false;
            }
        }
        true
    }

    #[cycle(operands)]
    fn are_parts_numeric(&self, parts: &[Part]) -> bool
        requires { IsWellFormed self.now }
        ensures { result ≡ are_numeric self.now.layout self.now.storage (items_in_parts (parts_of
            (map plain_part parts.now))) }
    {
        for part in parts {
            if !self.are_factors_numeric(&part.factors) {
                return false;
            }
        }
        true
    }

    /// Whether each item of a sum can be read as a number.
    #[cycle(operands)]
    pub fn are_operands_numeric(&self, sum: &Sum) -> bool
        requires { IsWellFormed self.now }
        ensures { result ≡ are_numeric self.now.layout self.now.storage (items_in (plain_sum sum.now)) }
    {
        self.are_parts_numeric(&sum.parts)
    }
}
