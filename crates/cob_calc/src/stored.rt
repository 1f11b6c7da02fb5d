//! What a sum is worth where it is stored: a quotient that is its last operation stays exact until then.
ghost use Rattle.std.specs.Prelude.{◌≡◌, true, IfSome, option_map};
ghost use Rattle.cob_program.specs.SumView.{plain_sum};
ghost use Rattle.cob_program.specs.RootView.{plain_root};
ghost use Rattle.cob_program.specs.Values.{stored_value};
ghost use Rattle.cob_program.specs.Bounds.{is_small_quotient, is_small_stored};
ghost use Rattle.cob_calc.specs.Contents.{IsWellFormed, amount_at, bound_at};
ghost use Rattle.cob_calc.specs.Exact.{root_value, exact_root, exact_value, fraction_of, IsSmallExact};

use crate::contents::Contents;
use crate::exact::Exact;
use crate::numbers::negated;
use cob_program::{Root, Sum};

impl<'a> Contents<'a> {
    // a quotient that stays exact; nothing where a divisor is 0
    fn quotient(&self, root: Root) -> Option<Exact>
        requires sound { IsWellFormed self.now }
        requires small { is_small_quotient (bound_at self.now.layout) (plain_root root) ≡ true }
        ensures value { option_map fraction_of result ≡ root_value (amount_at self.now) (plain_root root.entry) }
        ensures exact { result ≡ exact_root (amount_at self.now) (plain_root root.entry) }
        ensures small { IfSome result IsSmallExact }
    {
        match self.product(root.dividend) {
            None => None,
            Some(top) => match self.atom(&root.divisor.atom) {
                None => None,
                Some(by) => Exact::quotient(top, negated(root.divisor.minus, by)),
            },
        }
    }

    /// What is stored of a sum; nothing where a divisor is 0.
    pub fn stored(&self, sum: &Sum) -> Option<Exact>
        requires sound { IsWellFormed self.now }
        requires small { is_small_stored (bound_at self.now.layout) (plain_sum sum.now) ≡ true }
        ensures value { option_map fraction_of result ≡ stored_value (amount_at self.now) (plain_sum sum.now) }
        ensures exact { result ≡ exact_value (amount_at self.now) (plain_sum sum.now) }
        ensures small { IfSome result IsSmallExact }
    {
        match sum.root() {
            Some(root) => self.quotient(root),
            None => match self.sum(sum) {
                None => None,
                Some(value) => Some(Exact::Number(value)),
            },
        }
    }
}
