//! Parts of arithmetic statements, and of what VARYING adds: operands are read first, then divisors count, then each
//! receiver is read and stored in turn, and the remainder last.
#![tactic(auto, using(crate::proofs::HandingLaws::handing))]

ghost use Rattle.std.specs.Prelude.{◌≡◌, ◌++◌, [], ◌∷◌, if◌then◌else◌};
ghost use Rattle.std.specs.List.{list_any};
ghost use Rattle.cob_program.specs.SumView.{plain_sum};
ghost use Rattle.cob_edge_parts.specs.Parts.{is_under, divides, divisors_of, own_reads, target_parts, targets_parts, remainder_parts, arith_parts, augment_parts, compare_parts};
ghost use Rattle.edge_parts.specs.PartView.{plain_part};
ghost use Rattle.edge_parts.specs.Pieces.{whole_divisors, right_side_parts, sides_divisors};
ghost use Rattle.edge_parts.specs.Handing.{Takes, goes_on};

use crate::part::{Divisor, EdgePart};
use crate::part_items::scale_at;
use crate::part_senders::push_number_read;
use crate::sums::{push_divisors, push_reads};
use crate::taker::{Going, PartTaker, no_parts, push_part, push_two};
use cob_data::{Layout, Sender};
use cob_program::{How, Sum, Target};
use dec_num::Mode;
use std::ops::ControlFlow;
use transfer_ranges::Amount;

// ---- divisors

fn is_under(how: How) -> bool
    ensures { result ≡ is_under how }
{
    matches!(how, How::Under)
}

fn divides_receivers(targets: &[Target]) -> bool
    ensures { result ≡ list_any (λ t. is_under t.how) targets.now }
{
    targets.iter().any(|target| is_under(target.how))
}

fn push_whole_divisor<'a>(parts: &mut PartTaker<'a>, common: &'a Sum, targets: &[Target]) -> Going
    ensures { Takes plain_part parts.old (divides (whole_divisors (plain_sum common.now) targets.now))
        (goes_on result) parts.new }
{
    if divides_receivers(targets) {
        push_part(parts, EdgePart::Divide(Divisor::Whole(common)))
    } else {
        no_parts(parts)
    }
}

fn push_divisors_of<'a>(parts: &mut PartTaker<'a>, common: &'a Sum, targets: &[Target]) -> Going
    ensures { Takes plain_part parts.old (divides (divisors_of (plain_sum common.now) targets.now))
        (goes_on result) parts.new }
{
    if targets.is_empty() {
        return no_parts(parts);
    }
    push_divisors(parts, common)?;
    push_whole_divisor(parts, common, targets)
}

// ---- receivers

// a receiver is read at its turn, unless it gets the whole
fn push_own_read<'a>(parts: &mut PartTaker<'a>, how: How, item: u32) -> Going
    ensures { Takes plain_part parts.old (own_reads how item) (goes_on result) parts.new }
{
    match how {
        How::Whole => no_parts(parts),
        How::Plus | How::Minus | How::Times | How::Under => push_part(parts, EdgePart::Read(item)),
    }
}

fn push_target<'a>(parts: &mut PartTaker<'a>, common: &'a Sum, target: &Target) -> Going
    ensures { Takes plain_part parts.old (target_parts (plain_sum common.now) target.now) (goes_on result) parts.new }
{
    push_own_read(parts, target.how, target.item)?;
    push_part(
        parts,
        EdgePart::Store {
            item: target.item,
            mode: target.mode,
            amount: Amount::Computed(common, target.how),
        },
    )
}

fn push_targets<'a>(parts: &mut PartTaker<'a>, common: &'a Sum, targets: &[Target]) -> Going
    ensures { Takes plain_part parts.old (targets_parts (plain_sum common.now) targets.now) (goes_on result) parts.new }
{
    for target in targets {
        push_target(parts, common, target)?;
    }
    ControlFlow::Continue(())
}

fn push_remainder<'a>(
    parts: &mut PartTaker<'a>,
    layout: &Layout,
    common: &'a Sum,
    targets: &[Target],
    remainder: Option<u32>,
) -> Going
    ensures { Takes plain_part parts.old (remainder_parts layout.now (plain_sum common.now) targets.now remainder)
        (goes_on result) parts.new }
{
    match (targets, remainder) {
        ([target], Some(place)) => push_part(
            parts,
            EdgePart::Store {
                item: place,
                mode: Mode::Trunc,
                amount: Amount::Remaining(common, scale_at(layout, target.item)),
            },
        ),
        _ => no_parts(parts),
    }
}

// ---- statements

fn push_receivers<'a>(
    parts: &mut PartTaker<'a>,
    layout: &Layout,
    common: &'a Sum,
    targets: &[Target],
    remainder: Option<u32>,
) -> Going
    ensures { Takes plain_part parts.old (targets_parts (plain_sum common.now) targets.now
        ++ remainder_parts layout.now (plain_sum common.now) targets.now remainder) (goes_on result) parts.new }
{
    push_targets(parts, common, targets)?;
    push_remainder(parts, layout, common, targets, remainder)
}

fn push_results<'a>(
    parts: &mut PartTaker<'a>,
    layout: &Layout,
    common: &'a Sum,
    targets: &[Target],
    remainder: Option<u32>,
) -> Going
    ensures { Takes plain_part parts.old (divides (divisors_of (plain_sum common.now) targets.now)
        ++ (targets_parts (plain_sum common.now) targets.now
        ++ remainder_parts layout.now (plain_sum common.now) targets.now remainder)) (goes_on result) parts.new }
{
    push_divisors_of(parts, common, targets)?;
    push_receivers(parts, layout, common, targets, remainder)
}

/// The parts of an arithmetic statement.
pub fn push_arithmetic<'a>(
    parts: &mut PartTaker<'a>,
    layout: &Layout,
    common: &'a Sum,
    targets: &[Target],
    remainder: Option<u32>,
) -> Going
    ensures { Takes plain_part parts.old (arith_parts layout.now (plain_sum common.now) targets.now remainder)
        (goes_on result) parts.new }
{
    push_reads(parts, common)?;
    push_results(parts, layout, common, targets, remainder)
}

/// What VARYING adds to its item.
pub fn push_augmenting<'a>(parts: &mut PartTaker<'a>, item: u32, by: &'a Sender) -> Going
    ensures { Takes plain_part parts.old (augment_parts item by.now) (goes_on result) parts.new }
{
    push_number_read(parts, by)?;
    push_two(
        parts,
        EdgePart::Read(item),
        EdgePart::Store {
            item,
            mode: Mode::Trunc,
            amount: Amount::Augmented(by),
        },
    )
}

// ---- comparisons

fn push_divisors_of_sides<'a>(parts: &mut PartTaker<'a>, left: &'a Sum, right: &'a Sum) -> Going
    ensures { Takes plain_part parts.old (divides (sides_divisors (plain_sum left.now) (plain_sum right.now)))
        (goes_on result) parts.new }
{
    push_divisors(parts, left)?;
    push_divisors(parts, right)
}

fn push_right_side<'a>(parts: &mut PartTaker<'a>, left: &'a Sum, right: &'a Sum) -> Going
    ensures { Takes plain_part parts.old (right_side_parts (plain_sum left.now) (plain_sum right.now))
        (goes_on result) parts.new }
{
    push_reads(parts, right)?;
    push_divisors_of_sides(parts, left, right)
}

/// A comparison of two sums: the items of both are read before a divisor counts.
pub fn push_comparison<'a>(parts: &mut PartTaker<'a>, left: &'a Sum, right: &'a Sum) -> Going
    ensures { Takes plain_part parts.old (compare_parts (plain_sum left.now) (plain_sum right.now))
        (goes_on result) parts.new }
{
    push_reads(parts, left)?;
    push_right_side(parts, left, right)
}
