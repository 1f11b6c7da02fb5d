//! What is known of the items of a case: their forms, and the numbers that each can have.
ghost use Rattle.std.specs.Prelude.{◌≡◌, true, false, ◌≤◌, length, slice_get, map, []};
ghost use Rattle.cob_typed_exprs.specs.Search.{HasFewPlaces};
ghost use Rattle.cob_program.specs.SumView.{plain_sum};
ghost use Rattle.std.specs.List.{list_all};
ghost use Rattle.cob_program.specs.LogicView.{plain_test};
ghost use Rattle.cob_program.specs.Bounds.{is_small_sum, is_small_stored, literal_bound};
ghost use Rattle.transfer_ranges.specs.Small.{is_short, end_bound, is_short_pair, is_small_test};
ghost use Rattle.cob_typed_exprs.specs.Sizes.{bound_at, plain_size};
ghost use Rattle.range_driver.specs.Known.{fits, range_within, known_range};

use crate::words::described_of;
use cob_data::{Item, Layout, Pair, Sender};
use cob_program::{Sum, Test};
use cob_tree::{Form, Many, Num, Usage};
use cob_typed_exprs::{Names, Scope, Size};
use indexmap::IndexMap;
use interval_domain::Interval;
use std::alloc::{AllocError, Global};
use sum_ranges::{Ranged, Ranges};
use transfer_ranges::Items;

/// The items of a case.
#[derive(Drop)]
pub struct Table {
    pub layout: Layout,
    pub units: Vec<Interval>,
}

/// What is known of items. All are numeric.
#[derive(Drop)]
pub struct Known<'a> {
    scope: Scope<'a>,
    units: &'a [Interval],
}

fn fits(size: Size, units: Interval) -> bool
    ensures { result ≡ fits (plain_size size) units }
{
    units.low <= units.high
        && units.low.unsigned_abs() <= size.most
        && units.high.unsigned_abs() <= size.most
}

fn range_within(size: Size, units: Option<Interval>) -> Ranged
    ensures { result ≡ range_within (plain_size size) units }
{
    let units = match units {
        Some(units) if fits(size, units) => units,
        _ => Interval { low: 0, high: 0 },
    };
    Ranged {
        units,
        scale: size.scale,
    }
}

impl<'a> Ranges for Known<'a> {
    ghost range_at = { λ k. known_range (bound_at k.scope) k.units.now };

    ghost bound_at = { λ k. bound_at k.scope };

    fn range(&self, place: u32) -> Ranged {
        range_within(
            self.scope.item_size(place),
            self.units.get(place as usize).copied(),
        )
    }
}

impl<'a> Items for Known<'a> {
    ghost numeric_at = { λ k place. true };

    fn is_numeric(&self, _place: u32) -> bool {
        true
    }
}

// ---- what the calls ask

impl<'a> Known<'a> {
    /// Whether each intermediate of a sum is small.
    #[tactic(auto, using(crate::proofs::Fitting::sized))]
    pub fn is_small_sum(&self, sum: &Sum) -> bool
        ensures { result ≡ is_small_sum (bound_at self.now.scope) (plain_sum sum.now) }
    {
        self.scope.small_sum(sum).is_some()
    }

    /// Whether the intermediates of a sum that is stored are.
    pub fn is_small_stored(&self, sum: &Sum) -> bool
        ensures { result ≡ is_small_stored (bound_at self.now.scope) (plain_sum sum.now) }
    {
        self.scope.is_small_stored(sum)
    }
}

// ---- tests

const SHORT: u128 = 999_999_999_999_999_999;

fn is_short(size: Size) -> bool
    ensures { result ≡ is_short (plain_size size) }
{
    size.most <= SHORT && size.scale <= 18
}

#[tactic(auto, using(crate::proofs::Bounded::short_literals))]
fn is_short_literal(number: &Num) -> bool
    ensures { result ≡ is_short (literal_bound number.now) }
{
    number.digits.get().len() <= 18 && number.scale <= 18
}

impl<'a> Known<'a> {
    #[tactic(auto, using(crate::proofs::Bounded::short_sizes))]
    fn is_short_item(&self, place: u32) -> bool
        ensures { result ≡ is_short (bound_at self.now.scope place) }
    {
        is_short(self.scope.item_size(place))
    }

    fn is_short_end(&self, end: &Sender) -> bool
        ensures { result ≡ is_short (end_bound (bound_at self.now.scope) end.now) }
    {
        match end {
            Sender::Item(place) => self.is_short_item(*place),
            Sender::Number(number) => is_short_literal(number),
            Sender::Text(_) | Sender::Fill(_) | Sender::Zero => true,
        }
    }

    fn is_short_pair(&self, pair: &Pair) -> bool
        ensures { result ≡ is_short_pair (bound_at self.now.scope) pair.now }
    {
        self.is_short_end(&pair.low) && self.is_short_end(&pair.high)
    }

    fn are_short_pairs(&self, pairs: &[Pair]) -> bool
        ensures { result ≡ list_all (is_short_pair (bound_at self.now.scope)) pairs.now }
    {
        for pair in pairs {
            if !self.is_short_pair(pair) {
                return false;
            }
        }
        true
    }

    /// Whether the numbers of a test are small enough to be compared.
    pub fn is_small_test(&self, layout: &Layout, test: &Test) -> bool
        ensures { result ≡ true → is_small_test (bound_at self.now.scope) layout.now (plain_test test.now) ≡ true }
    {
        match test {
            Test::Number {
                left,
                rel: _,
                right,
            } => self.scope.are_small_sides(left, right),
            Test::Member { item, ranges } => {
                self.is_short_item(*item) && self.are_short_pairs(ranges.get())
            }
            Test::Text { .. } | Test::Numeric(_) | Test::Always => true,
        }
    }
}

// ---- tables

fn item_with(digits: u32, scale: u32) -> Item {
    Item {
        name: None,
        offset: 0,
        length: digits,
        times: 1,
        stride: 0,
        form: Form::Number {
            digits,
            scale,
            signed: true,
            usage: Usage::Trailing,
        },
        parent: None,
        line: 1,
        value: None,
    }
}

/// The items that words describe.
pub fn table_of(alloc: Global, words: &[&str]) -> Result<Option<Table>, AllocError> {
    let mut items = Vec::new(alloc);
    let mut units = Vec::new(alloc);
    for word in words {
        match described_of(alloc, word)? {
            None => return Ok(None),
            Some(described) => {
                items.push(item_with(described.digits, described.scale))?;
                units.push(described.units)?;
            }
        }
    }
    Ok(Some(Table {
        layout: Layout {
            items: Many::of(items),
            flags: Many::of(Vec::new(alloc)),
            files: Many::of(Vec::new(alloc)),
            storage: 0,
        },
        units,
    }))
}

fn has_few_places(layout: &Layout) -> bool
    ensures { result ≡ true → HasFewPlaces layout.now }
{
    layout.items.get().len() <= 99
        && layout.flags.get().len() <= 99
        && layout.files.get().len() <= 99
}

fn scope_over<'a>(alloc: Global, layout: &'a Layout) -> Result<Scope<'a>, AllocError>
    requires { HasFewPlaces layout.now }
{
    let names = Names::of(alloc, layout)?;
    Ok(Scope::of(alloc, layout, names, &[], IndexMap::new(alloc)))
}

impl Table {
    /// What is known of the items, if there are at most 99.
    pub fn known(&self, alloc: Global) -> Result<Option<Known<'_>>, AllocError> {
        if !has_few_places(&self.layout) {
            return Ok(None);
        }
        Ok(Some(Known {
            scope: scope_over(alloc, &self.layout)?,
            units: self.units.as_slice(),
        }))
    }
}
