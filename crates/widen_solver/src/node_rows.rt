//! The rows of the nodes, in blocks of one region. A node has a block of its own once something has
//! come to it; till then it shows the bottom row.
ghost use Rattle.std.specs.Prelude.{◌≡◌, ℕ, ◌+◌, ◌*◌, ◌^◌, ◌<◌, ◌≤◌, List, length, replicate, get_or, slice_set, IfOk, IsSome, IsNone, Option, Some, None, true, false};
ghost use Rattle.std.specs.Borrow.{sem};
ghost use Rattle.block_store.specs.Held.{Takes};
ghost use Rattle.widen_solver.specs.Slots.{id_shown};
ghost use Rattle.widen_solver.specs.RowsHeld.{row_shown, with_bottom, with_own, with_transfer};

use block_store::{BlockId, Blocks};
use dom_laws::Domain;
use std::alloc::{AllocError, Global};
use std::marker::Model;
use std::mem::replace;

/// A row for each of some nodes, and room for one transfer.
#[derive(Drop)]
pub struct NodeRows {
    blocks: Blocks,
    // the block of each node that has one
    ids: Vec<Option<BlockId>>,
    // what the other nodes show
    bottom: BlockId,
    // what an edge makes of the row at its source, on its way to the target
    transfer: Option<BlockId>,
}

impl Model for NodeRows {
    ghost use Rattle.widen_solver.specs.RowsHeld.{RowsHeld};

    ghost Value = { RowsHeld };

    ghost use Rattle.widen_solver.specs.NodeRows.{rows_held, AreNodeRows};

    ghost view = { rows_held };

    ghost invariant = { AreNodeRows };
}

fn taken(blocks: &mut Blocks) -> BlockId
    requires { 1 ≤ blocks.old.spare }
    ensures { Takes blocks.old blocks.new result }
{
    match blocks.take() {
        Some(id) => id,
        None => unreachable!(),
    }
}

fn id_in(slot: &Option<BlockId>) -> &BlockId
    requires { IsSome slot.now }
    ensures { slot.now ≡ Some result.now }
{
    match slot {
        Some(id) => id,
        None => unreachable!(),
    }
}

#[tactic(auto, using(crate::proofs::Lists::more_of))]
fn no_ids(alloc: Global, count: usize) -> Result<Vec<Option<BlockId>>, AllocError>
    ensures { IfOk result (λ ids. ids.items ≡ replicate count None) }
{
    let mut ids = Vec::with_capacity(alloc, count)?;
    for _ in 0..count {
        ids.push(None)?;
    }
    Ok(ids)
}

fn is_own(ids: &Vec<Option<BlockId>>, index: usize) -> bool
    requires { index < length ids.now.items }
    ensures own { result ≡ true → IsSome (get_or ids.now.items index None) }
    ensures none { result ≡ false → get_or ids.now.items index None ≡ None }
{
    ids[index].is_some()
}

// the node's own block
fn own(ids: &Vec<Option<BlockId>>, index: usize) -> &BlockId
    requires index { index < length ids.now.items }
    requires own { IsSome (get_or ids.now.items index None) }
    ensures { get_or ids.now.items index None ≡ Some result.now }
{
    id_in(&ids[index])
}

// the block that the node shows
fn shown<'a>(ids: &'a Vec<Option<BlockId>>, index: usize, bottom: &'a BlockId) -> &'a BlockId
    requires { index < length ids.now.items }
    ensures { result.now ≡ id_shown bottom.now (get_or ids.now.items index None) }
{
    match &ids[index] {
        Some(id) => id,
        None => bottom,
    }
}

fn put(ids: &mut Vec<Option<BlockId>>, index: usize, id: BlockId)
    requires { index < length ids.old.items }
    ensures { ids.new.items ≡ slice_set ids.old.items index (Some id) }
{
    ids[index] = Some(id);
}

fn emptied(ids: &mut Vec<Option<BlockId>>, index: usize) -> BlockId
    requires index { index < length ids.old.items }
    requires own { IsSome (get_or ids.old.items index None) }
    ensures value { get_or ids.old.items index None ≡ Some result }
    ensures ids { ids.new.items ≡ slice_set ids.old.items index None }
{
    match replace(&mut ids[index], None) {
        Some(id) => id,
        None => unreachable!(),
    }
}

impl NodeRows {
    ghost use Rattle.widen_solver.specs.RowLends.{lends_own, lends_transfer};

    /// Room for so many nodes, none of which has a row of its own.
    pub fn new(alloc: Global, nodes: u32, words: usize) -> Result<NodeRows, AllocError>
        requires some { 1 ≤ words }
        requires size { (nodes + 2) * words ≤ 2 ^ 32 }
        ensures words { IfOk result (λ held. held.words ≡ words) }
        ensures transfer { IfOk result (λ held. held.transfer ≡ None) }
        ensures rows { IfOk result (λ held. held.rows ≡ replicate nodes None) }
    {
        let mut blocks = Blocks::reserve(alloc, words, nodes as usize + 2)?;
        let ids = no_ids(alloc, nodes as usize)?;
        let bottom = taken(&mut blocks);
        Ok(NodeRows {
            blocks,
            ids,
            bottom,
            transfer: None,
        })
    }

    /// What the node shows.
    pub fn row(&self, index: usize) -> &[i128]
        requires { index < length self.now.rows }
        ensures { result.now ≡ row_shown self.now index }
    {
        self.blocks.read(shown(&self.ids, index, &self.bottom))
    }

    /// Makes the bottom row that of the domain.
    pub fn set_bottom<D: Domain>(&mut self, domain: &D)
        requires { self.old.words ≡ (D.lattice domain.now).width }
        ensures { self.new ≡ with_bottom self.old (D.lattice domain.now).least }
    {
        domain.bottom(self.blocks.write(&self.bottom));
    }

    /// Takes the node's row of its own away.
    pub fn release(&mut self, index: usize)
        requires { index < length self.old.rows }
        ensures { self.new ≡ with_own self.old index None }
    {
        if is_own(&self.ids, index) {
            let id = emptied(&mut self.ids, index);
            self.blocks.give(id);
        }
    }

    /// Gives the node a row of its own, with what it shows.
    pub fn reach(&mut self, index: usize)
        requires { index < length self.old.rows }
        ensures { self.new ≡ with_own self.old index (Some (row_shown self.old index)) }
    {
        if is_own(&self.ids, index) {
            return;
        }
        let id = taken(&mut self.blocks);
        let (row, bottom) = self.blocks.pair(&id, &self.bottom);
        row.copy_from_slice(bottom);
        put(&mut self.ids, index, id);
    }

    /// The node's own row, to be written.
    pub fn row_mut(&mut self, index: usize) -> &mut [i128]
        requires index { index < length self.old.rows }
        requires own { IsSome (get_or self.old.rows index None) }
        ensures* writes_back { sem 𝓛 (lends_own self.entry index result) }
        ensures value { get_or self.old.rows index None ≡ Some result.now }
        ensures words { length result.now ≡ self.old.words }
    {
        let NodeRows {
            blocks,
            ids,
            bottom: _,
            transfer: _,
        } = self;
        blocks.write(own(ids, index))
    }

    /// Makes room for a transfer. What it holds isn't said.
    pub fn take_transfer(&mut self)
        requires { self.old.transfer ≡ None }
        ensures some { IsSome self.new.transfer }
        ensures kept { self.new ≡ with_transfer self.old self.new.transfer }
    {
        let id = taken(&mut self.blocks);
        self.transfer = Some(id);
    }

    /// Gives the transfer's room back.
    pub fn give_transfer(&mut self)
        ensures { self.new ≡ with_transfer self.old None }
    {
        if let Some(id) = replace(&mut self.transfer, None) {
            self.blocks.give(id);
        }
    }

    // the transfer, to be written, beside a node's own row
    fn transfer_beside_own(&mut self, index: usize) -> (&mut [i128], &[i128])
        requires index { index < length self.old.rows }
        requires own { IsSome (get_or self.old.rows index None) }
        requires transfer { IsSome self.old.transfer }
        ensures* writes_back { sem 𝓛 (lends_transfer self.entry result.0) }
        ensures row { get_or self.old.rows index None ≡ Some result.1.now }
        ensures words { length result.0.now ≡ self.old.words }
    {
        let NodeRows {
            blocks,
            ids,
            bottom: _,
            transfer,
        } = self;
        blocks.pair(id_in(transfer), own(ids, index))
    }

    // the transfer, to be written, beside the bottom row
    fn transfer_beside_bottom(&mut self) -> (&mut [i128], &[i128])
        requires { IsSome self.old.transfer }
        ensures* writes_back { sem 𝓛 (lends_transfer self.entry result.0) }
        ensures row { result.1.now ≡ self.old.bottom }
        ensures words { length result.0.now ≡ self.old.words }
    {
        let NodeRows {
            blocks,
            ids: _,
            bottom,
            transfer,
        } = self;
        blocks.pair(id_in(transfer), bottom)
    }

    /// The transfer, to be written, beside what a node shows.
    pub fn transfer_beside(&mut self, index: usize) -> (&mut [i128], &[i128])
        requires index { index < length self.old.rows }
        requires transfer { IsSome self.old.transfer }
        ensures* writes_back { sem 𝓛 (lends_transfer self.entry result.0) }
        ensures row { result.1.now ≡ row_shown self.old index }
        ensures words { length result.0.now ≡ self.old.words }
    {
        if is_own(&self.ids, index) {
            return self.transfer_beside_own(index);
        }
        self.transfer_beside_bottom()
    }

    /// A node's own row, to be written, beside the transfer.
    pub fn row_beside_transfer(&mut self, index: usize) -> (&mut [i128], &[i128])
        requires index { index < length self.old.rows }
        requires own { IsSome (get_or self.old.rows index None) }
        requires transfer { IsSome self.old.transfer }
        ensures* writes_back { sem 𝓛 (lends_own self.entry index result.0) }
        ensures value { get_or self.old.rows index None ≡ Some result.0.now }
        ensures transfer { self.old.transfer ≡ Some result.1.now }
        ensures words { length result.0.now ≡ self.old.words }
    {
        let NodeRows {
            blocks,
            ids,
            bottom: _,
            transfer,
        } = self;
        blocks.pair(own(ids, index), id_in(transfer))
    }
}
