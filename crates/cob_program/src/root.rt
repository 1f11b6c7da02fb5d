//! The division that is a sum's last operation, which stays exact where the sum is stored.
ghost use Rattle.std.specs.Prelude.{◌≡◌, is_some, map, option_map};
ghost use Rattle.cob_program.specs.Sum.{MkSum, no_parts, more_parts, parts_of, factors_of};
ghost use Rattle.cob_program.specs.SumView.{plain_sum, plain_part, plain_factor};
ghost use Rattle.cob_program.specs.RootView.{plain_root};
ghost use Rattle.cob_program.specs.Values.{root_in, root_of};

use crate::sum::{Factor, Part, Sum};

/// The division that is the last operation of a sum. The dividend is the product of its factors.
#[derive(Clone, Copy)]
pub struct Root<'a> {
    pub dividend: &'a [Factor],
    pub divisor: &'a Factor,
}

fn root_in(factors: &[Factor]) -> Option<Root>
    ensures { option_map plain_root result ≡ root_in (factors_of (map plain_factor factors.now)) }
{
    match factors.split_last() {
        None => None,
        Some((divisor, dividend)) => {
            if divisor.over {
                Some(Root { dividend, divisor })
            } else {
                None
            }
        }
    }
}

impl Part {
    fn root(&self) -> Option<Root>
        ensures { option_map plain_root result ≡ root_of (MkSum (more_parts (plain_part self.now) no_parts)) }
    {
        if self.minus {
            None
        } else {
            root_in(&self.factors)
        }
    }
}

fn root_of(parts: &[Part]) -> Option<Root>
    ensures { option_map plain_root result ≡ root_of (MkSum (parts_of (map plain_part parts.now))) }
{
    if parts.len() == 1 {
        parts[0].root()
    } else {
        None
    }
}

impl Sum {
    /// The division that is its last operation, if one is.
    pub fn root(&self) -> Option<Root>
        ensures { option_map plain_root result ≡ root_of (plain_sum self.now) }
    {
        root_of(&self.parts)
    }

    /// Whether a division is its last operation.
    #[tactic(auto, using(crate::proofs::Roots::root_there))]
    pub fn is_quotient(&self) -> bool
        ensures { result ≡ is_some (root_of (plain_sum self.now)) }
    {
        self.root().is_some()
    }
}
