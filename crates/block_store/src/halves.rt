//! Words behind a raw pointer with two owners: those before a border, and those behind it. The border
//! moves for nothing, and words are lent out of both owners at once.
ghost use Rattle.std.specs.Prelude.{◌≡◌, ◌+◌, ◌^◌, ◌≤◌, ◌++◌, [], pos, length, take, drop, replicate, IfOk, None};
ghost use Rattle.std.specs.Borrow.{sem};
ghost use Rattle.block_store.specs.Slots.{IsFull, IsZeros};

use crate::cells::{Base, Cells, Deed, allocate, deallocate, end, none, part_at};
use std::alloc::{AllocError, Global};
use std::marker::Model;
use std::mem::replace;

/// Words of one allocation, in two parts.
pub struct Halves {
    base: Base<i128>,
    // where the high part begins
    middle: Base<i128>,
    low: Cells<i128>,
    high: Cells<i128>,
    deed: Deed<i128, Global>,
    len: usize,
    alloc: Global,
}

impl Model for Halves {
    ghost use Rattle.block_store.specs.Parts.{Parts};

    ghost Value = { Parts };

    ghost use Rattle.block_store.specs.Halves.{parts_in, IsHalved};

    ghost view = { parts_in };

    ghost invariant = { IsHalved };
}

// fills the empty places with zeros
#[tactic(auto, using(crate::proofs::SlotsLemmas::fills_none, crate::proofs::SlotsLemmas::fills_more, crate::proofs::SlotsLemmas::fills_all))]
fn fill(base: Base<i128>, cells: &mut Cells<i128>, len: usize)
    requires { (base.ptr ≡ cells.old.at) × (cells.old.slots ≡ replicate len None) }
    ensures { (cells.new.at ≡ cells.old.at) × IsZeros cells.new.slots len }
{
    for i in 0..len {
        cells.write(base, i, 0);
    }
}

// empties the places
#[tactic(auto, using(crate::proofs::SlotsLemmas::empties_none, crate::proofs::SlotsLemmas::empties_more, crate::proofs::SlotsLemmas::empties_all))]
fn empty(base: Base<i128>, cells: &mut Cells<i128>, len: usize)
    requires { (base.ptr ≡ cells.old.at) × IsFull cells.old.slots len }
    ensures { (cells.new.at ≡ cells.old.at) × (cells.new.slots ≡ replicate len None) }
{
    for i in 0..len {
        let _ = cells.read(base, i);
    }
}

impl Halves {
    ghost use Rattle.block_store.specs.Words.{run_at};
    ghost use Rattle.block_store.specs.HalvesLends.{lends_low, lends_high};

    /// So many zeros, all in the high part.
    pub fn reserve(alloc: Global, len: usize) -> Result<Halves, AllocError>
        requires { len ≤ 2 ^ 32 }
        ensures { IfOk result (λ made. made ≡ record { low = []; high = replicate len (pos 0) }) }
    {
        let (base, mut cells, deed) = allocate(&alloc, len)?;
        fill(base, &mut cells, len);
        let (middle, low, high) = part_at(base, cells, none(), 0);
        Ok(Halves {
            base,
            middle,
            low,
            high,
            deed,
            len,
            alloc,
        })
    }

    /// Moves the border: the first `at` words are the low part.
    pub fn shift(&mut self, at: usize)
        requires { at ≤ length (self.old.low ++ self.old.high) }
        ensures low { self.new.low ≡ take at (self.old.low ++ self.old.high) }
        ensures high { self.new.high ≡ drop at (self.old.low ++ self.old.high) }
    {
        let low = replace(&mut self.low, none());
        let high = replace(&mut self.high, none());
        let (middle, low, high) = part_at(self.base, low, high, at);
        self.middle = middle;
        end(replace(&mut self.low, low));
        end(replace(&mut self.high, high));
    }

    /// Words of the low part.
    pub fn low(&self, at: usize, count: usize) -> &[i128]
        requires { at + count ≤ length self.now.low }
        ensures { result.now ≡ run_at self.now.low at count }
    {
        self.low.slice(self.base, at, count)
    }

    /// Words of the high part.
    pub fn high(&self, at: usize, count: usize) -> &[i128]
        requires { at + count ≤ length self.now.high }
        ensures { result.now ≡ run_at self.now.high at count }
    {
        self.high.slice(self.middle, at, count)
    }

    /// Words of the high part, to be written.
    pub fn high_mut(&mut self, at: usize, count: usize) -> &mut [i128]
        requires { at + count ≤ length self.old.high }
        ensures* writes_back { sem 𝓛 (lends_high self.entry at count result) }
        ensures value { result.now ≡ run_at self.old.high at count }
    {
        self.high.slice_mut(self.middle, at, count)
    }

    /// Words of the low part, to be written, beside words of the high part.
    pub fn low_mut_beside(
        &mut self,
        at: usize,
        beside: usize,
        count: usize,
    ) -> (&mut [i128], &[i128])
        requires at { at + count ≤ length self.old.low }
        requires beside { beside + count ≤ length self.old.high }
        ensures* writes_back { sem 𝓛 (lends_low self.entry at count result.0) }
        ensures value { result.0.now ≡ run_at self.old.low at count }
        ensures beside { result.1.now ≡ run_at self.old.high beside count }
    {
        let (base, middle) = (self.base, self.middle);
        (
            self.low.slice_mut(base, at, count),
            self.high.slice(middle, beside, count),
        )
    }

    /// Words of the high part, to be written, beside words of the low part.
    pub fn high_mut_beside(
        &mut self,
        at: usize,
        beside: usize,
        count: usize,
    ) -> (&mut [i128], &[i128])
        requires at { at + count ≤ length self.old.high }
        requires beside { beside + count ≤ length self.old.low }
        ensures* writes_back { sem 𝓛 (lends_high self.entry at count result.0) }
        ensures value { result.0.now ≡ run_at self.old.high at count }
        ensures beside { result.1.now ≡ run_at self.old.low beside count }
    {
        let (base, middle) = (self.base, self.middle);
        (
            self.high.slice_mut(middle, at, count),
            self.low.slice(base, beside, count),
        )
    }
}

impl Drop for Halves {
    fn drop(self) {
        let Halves {
            base,
            middle: _,
            low,
            high,
            deed,
            len,
            alloc,
        } = self;
        let (_, mut low, high) = part_at(base, low, high, len);
        end(high);
        empty(base, &mut low, len);
        deallocate(&alloc, base, len, low, deed);
    }
}
