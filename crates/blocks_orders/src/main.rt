//! Takes four blocks and gives them back in each of the 24 orders, and ends while four are in use.
#![tactic(auto)]

ghost use Rattle.std.specs.Prelude.{◌≡◌, ◌+◌, ◌≤◌};
ghost use Rattle.block_store.specs.Held.{Takes};
ghost use Rattle.blocks_orders.specs.Four.{AreFour};

use block_store::{BlockId, Blocks};
use std::io;

fn taken(blocks: &mut Blocks) -> BlockId
    requires { 1 ≤ blocks.old.spare }
    ensures { Takes blocks.old blocks.new result }
{
    match blocks.take() {
        Some(id) => id,
        None => unreachable!(),
    }
}

#[tactic(auto, using(crate::proofs::Steps::taken_live, crate::proofs::Steps::taken_differs, crate::proofs::Steps::stays_live))]
fn take_four(blocks: &mut Blocks) -> (BlockId, BlockId, BlockId, BlockId)
    requires { 4 ≤ blocks.old.spare }
    ensures four { AreFour blocks.new result.0 result.1 result.2 result.3 }
    ensures spare { blocks.old.spare ≡ blocks.new.spare + 4 }
{
    let a = taken(blocks);
    let b = taken(blocks);
    let c = taken(blocks);
    let d = taken(blocks);
    (a, b, c, d)
}

#[tactic(auto, using(crate::proofs::Steps::given_stays))]
fn give_four(blocks: &mut Blocks, a: BlockId, b: BlockId, c: BlockId, d: BlockId)
    requires { AreFour blocks.old a b c d }
    ensures { blocks.new.spare ≡ blocks.old.spare + 4 }
{
    blocks.give(a);
    blocks.give(b);
    blocks.give(c);
    blocks.give(d);
}

fn give_in_order(blocks: &mut Blocks, order: u32, a: BlockId, b: BlockId, c: BlockId, d: BlockId)
    requires { AreFour blocks.old a b c d }
    ensures { blocks.new.spare ≡ blocks.old.spare + 4 }
{
    match order {
        0 => give_four(blocks, a, b, c, d),
        1 => give_four(blocks, a, b, d, c),
        2 => give_four(blocks, a, c, b, d),
        3 => give_four(blocks, a, c, d, b),
        4 => give_four(blocks, a, d, b, c),
        5 => give_four(blocks, a, d, c, b),
        6 => give_four(blocks, b, a, c, d),
        7 => give_four(blocks, b, a, d, c),
        8 => give_four(blocks, b, c, a, d),
        9 => give_four(blocks, b, c, d, a),
        10 => give_four(blocks, b, d, a, c),
        11 => give_four(blocks, b, d, c, a),
        12 => give_four(blocks, c, a, b, d),
        13 => give_four(blocks, c, a, d, b),
        14 => give_four(blocks, c, b, a, d),
        15 => give_four(blocks, c, b, d, a),
        16 => give_four(blocks, c, d, a, b),
        17 => give_four(blocks, c, d, b, a),
        18 => give_four(blocks, d, a, b, c),
        19 => give_four(blocks, d, a, c, b),
        20 => give_four(blocks, d, b, a, c),
        21 => give_four(blocks, d, b, c, a),
        22 => give_four(blocks, d, c, a, b),
        _ => give_four(blocks, d, c, b, a),
    }
}

fn try_order(rt: &HostRuntime, blocks: &mut Blocks, order: u32) -> io::Result<()>
    requires { 4 ≡ blocks.old.spare }
    ensures { 4 ≡ blocks.new.spare }
{
    let (a, b, c, d) = take_four(blocks);
    let none_left = blocks.take().is_none();
    give_in_order(blocks, order, a, b, c, d);
    let spare = blocks.spare();
    println!(rt; "order {order}: none left {none_left}, then {spare} spare")
}

fn main(rt: HostRuntime) -> io::Result<()> {
    let mut blocks = Blocks::reserve(rt.alloc(), 3, 4)?;
    for order in 0..24 {
        try_order(&rt, &mut blocks, order)?;
    }
    let _in_use = take_four(&mut blocks);
    println!(rt; "dropped with {} spare", blocks.spare())
}
