//! Storage at the beginning of a run, and whether a run is over.
ghost use Rattle.std.specs.Prelude.{◌≡◌, ◌≤◌, ◌+◌, ◌↔◌, [], length, false, IfOk};
ghost use Rattle.std.specs.Result.{OnOk};
ghost use Rattle.cob_data.specs.Extents.{start_of, LiesWithin};
ghost use Rattle.cob_runs.specs.Contents.{written};
ghost use Rattle.cob_runs.specs.Moves.{moved};
ghost use Rattle.cob_runs.specs.Runs.{with_occurrences, with_value, with_constant, with_values, first_storage};
ghost use Rattle.cob_store.specs.WellFormed.{HasWellFormedItems, IsWellFormedItem, IsConstant, CanMove};

use crate::end::MoveEnd;
use crate::moves::{moved_in, room};
use cob_data::{Extent, Item, Layout, Sender};
use cob_program::Program;
use cob_runs::Outcome;
use std::alloc::{AllocError, Global};

// Puts the bytes into an occurrence.
#[tactic(auto, using(crate::proofs::Parts::put_mid_written))]
fn fill_occurrence(extent: &Extent, number: u32, bytes: &[u8], storage: &mut [u8])
    requires within { start_of extent.now number + extent.now.length ≤ length storage.old }
    requires whole { length bytes.now ≡ extent.now.length }
    ensures { storage.new ≡ written storage.old (start_of extent.now number) bytes.now }
{
    let from = extent.start(number) as usize;
    let to = from + extent.length as usize;
    storage[from..to].copy_from_slice(bytes);
}

// Puts the bytes into each occurrence.
fn fill_occurrences(extent: &Extent, bytes: &[u8], storage: &mut [u8])
    requires within { LiesWithin extent.now (length storage.old) }
    requires whole { length bytes.now ≡ extent.now.length }
    ensures { storage.new ≡ with_occurrences extent.now bytes.now extent.now.times storage.old }
{
    for number in 0..extent.times {
        fill_occurrence(extent, number, bytes, storage);
    }
}

// Puts the constant of an item's VALUE into each occurrence.
fn put_constant(
    alloc: Global,
    layout: &Layout,
    item: &Item,
    constant: &Sender,
    storage: &mut [u8],
) -> Result<(), AllocError>
    requires sound { HasWellFormedItems layout.now }
    requires item { IsWellFormedItem layout.now item.now }
    requires whole { length storage.old ≡ layout.now.storage }
    requires constant { IsConstant constant.now }
    requires able { CanMove layout.now constant.now item.now.form }
    ensures { OnOk result (storage.new
        ≡ with_value item.now (moved layout.now [] item.now.form item.now.length constant.now) storage.old) }
{
    match moved_in(alloc, layout, &[], constant, item) {
        Ok(bytes) => {
            fill_occurrences(&item.extent(), bytes.get(), storage);
            Ok(())
        }
        Err(MoveEnd::Fault(_)) => Ok(()),
        Err(MoveEnd::Memory) => Err(AllocError),
    }
}

// Puts an item's VALUE, where it has one.
fn put_value(
    alloc: Global,
    layout: &Layout,
    item: &Item,
    storage: &mut [u8],
) -> Result<(), AllocError>
    requires sound { HasWellFormedItems layout.now }
    requires item { IsWellFormedItem layout.now item.now }
    requires whole { length storage.old ≡ layout.now.storage }
    ensures { OnOk result (storage.new ≡ with_constant layout.now item.now item.now.value storage.old) }
{
    match &item.value {
        Some(constant) => put_constant(alloc, layout, item, constant, storage),
        None => Ok(()),
    }
}

/// Puts each VALUE, in the order of the items, over what stood in storage.
pub fn put_values(alloc: Global, layout: &Layout, storage: &mut [u8]) -> Result<(), AllocError>
    requires sound { HasWellFormedItems layout.now }
    requires whole { length storage.old ≡ layout.now.storage }
    ensures { OnOk result (storage.new ≡ with_values layout.now layout.now.items storage.old) }
{
    for item in layout.items.get() {
        put_value(alloc, layout, item, storage)?;
    }
    Ok(())
}

/// Storage at the beginning of a run: each VALUE, and spaces elsewhere (ISO 1989:1985, "VALUE clause").
pub fn start(alloc: Global, program: &Program) -> Result<Vec<u8>, AllocError>
    requires { HasWellFormedItems program.now.layout }
    ensures value { IfOk result (λ storage. storage.items ≡ first_storage program.now.layout []) }
    ensures whole { IfOk result (λ storage. length storage.items ≡ program.now.layout.storage) }
{
    let mut storage = room(alloc, program.layout.storage as usize)?;
    put_values(alloc, &program.layout, storage.as_mut_slice())?;
    Ok(storage)
}

/// Whether a run is over.
pub fn is_over(outcome: &Outcome) -> bool
    ensures { (result ≡ false) ↔ (outcome.now ≡ Outcome.Going) }
{
    match outcome {
        Outcome::Going => false,
        Outcome::Ended | Outcome::IoStop { .. } | Outcome::Fault { .. } => true,
    }
}
