//! Rows of equal width behind a raw pointer, of which two are lent at once.
ghost use Rattle.std.specs.Prelude.{◌≡◌, ◌≢◌, ◌*◌, ◌^◌, ◌<◌, ◌≤◌, length, IfOk};
ghost use Rattle.std.specs.Borrow.{sem};
ghost use Rattle.block_store.specs.Grid.{row_at, HasRows};

use crate::halves::Halves;
use std::alloc::{AllocError, Global};
use std::marker::Model;

/// Rows of one width, numbered from 0.
#[derive(Drop)]
pub struct Region {
    halves: Halves,
    width: usize,
    count: usize,
    // how many rows the low part has
    border: usize,
}

impl Model for Region {
    ghost use Rattle.block_store.specs.Grid.{Grid};

    ghost Value = { Grid };

    ghost use Rattle.block_store.specs.Region.{grid_in, IsRegion};

    ghost view = { grid_in };

    ghost invariant = { IsRegion };
}

impl Region {
    ghost use Rattle.block_store.specs.RegionLends.{lends_row};

    /// So many rows. What they hold isn't said.
    pub fn reserve(alloc: Global, width: usize, count: usize) -> Result<Region, AllocError>
        requires { width * count ≤ 2 ^ 32 }
        ensures { IfOk result (HasRows width count) }
    {
        let halves = Halves::reserve(alloc, width * count)?;
        Ok(Region {
            halves,
            width,
            count,
            border: 0,
        })
    }

    pub fn row(&self, place: usize) -> &[i128]
        requires { place < length self.now.rows }
        ensures value { result.now ≡ row_at self.now place }
        ensures width { length result.now ≡ self.now.width }
    {
        if place < self.border {
            return self.halves.low(place * self.width, self.width);
        }
        self.halves
            .high((place - self.border) * self.width, self.width)
    }

    /// A row to be written.
    pub fn row_mut(&mut self, place: usize) -> &mut [i128]
        requires { place < length self.old.rows }
        ensures* writes_back { sem 𝓛 (lends_row self.entry place result) }
        ensures value { result.now ≡ row_at self.old place }
        ensures width { length result.now ≡ self.old.width }
    {
        let width = self.width;
        self.halves.shift(place * width);
        self.border = place;
        self.halves.high_mut(0, width)
    }

    // a row to be written, beside a later one
    fn pair_before(&mut self, place: usize, beside: usize) -> (&mut [i128], &[i128])
        requires order { place < beside }
        requires last { beside < length self.old.rows }
        ensures* writes_back { sem 𝓛 (lends_row self.entry place result.0) }
        ensures value { result.0.now ≡ row_at self.old place }
        ensures beside { result.1.now ≡ row_at self.old beside }
        ensures width { length result.0.now ≡ self.old.width }
        ensures width_beside { length result.1.now ≡ self.old.width }
    {
        let width = self.width;
        self.halves.shift(beside * width);
        self.border = beside;
        self.halves.low_mut_beside(place * width, 0, width)
    }

    // a row to be written, beside an earlier one
    fn pair_behind(&mut self, place: usize, beside: usize) -> (&mut [i128], &[i128])
        requires order { beside < place }
        requires last { place < length self.old.rows }
        ensures* writes_back { sem 𝓛 (lends_row self.entry place result.0) }
        ensures value { result.0.now ≡ row_at self.old place }
        ensures beside { result.1.now ≡ row_at self.old beside }
        ensures width { length result.0.now ≡ self.old.width }
        ensures width_beside { length result.1.now ≡ self.old.width }
    {
        let width = self.width;
        self.halves.shift(place * width);
        self.border = place;
        self.halves.high_mut_beside(0, beside * width, width)
    }

    /// A row to be written, beside another one.
    pub fn pair(&mut self, place: usize, beside: usize) -> (&mut [i128], &[i128])
        requires place { place < length self.old.rows }
        requires beside { beside < length self.old.rows }
        requires differ { place ≢ beside }
        ensures* writes_back { sem 𝓛 (lends_row self.entry place result.0) }
        ensures value { result.0.now ≡ row_at self.old place }
        ensures beside { result.1.now ≡ row_at self.old beside }
        ensures width { length result.0.now ≡ self.old.width }
        ensures width_beside { length result.1.now ≡ self.old.width }
    {
        if place < beside {
            return self.pair_before(place, beside);
        }
        self.pair_behind(place, beside)
    }
}
