//! The layout of a program's data: items, condition-names and files, and copies of them.
ghost use Rattle.std.specs.Prelude.{◌≡◌, IfOk};
ghost use Rattle.cob_data.specs.Occurrences.{extent_of, area_of};

use crate::extent::Extent;
use cob_tree::{Bytes, Form, Many, Name, Num};
use std::alloc::{AllocError, Global};

/// What is moved or compared, or what an item begins with: an item by its place, a literal, or a figurative constant.
#[derive(Drop)]
pub enum Sender {
    Item(u32),
    Number(Num),
    Text(Bytes),
    /// SPACE, QUOTE, HIGH-VALUE or LOW-VALUE, by its byte
    Fill(u8),
    Zero,
}

/// An item of the DATA DIVISION (ISO 1989:1985, "Data division"): a record, a group or an elementary item, FILLER
/// among them. `offset` and `length` count bytes, from the beginning of all storage. An item of a table has `times`
/// occurrences, of which each starts `stride` bytes behind the one before; any other has one, and a stride of 0.
/// `parent` is the group directly above it, by its place; `line` is its entry's; `value` is the constant of its VALUE.
#[derive(Drop)]
pub struct Item {
    pub name: Option<Name>,
    pub offset: u32,
    pub length: u32,
    pub times: u32,
    pub stride: u32,
    pub form: Form,
    pub parent: Option<u32>,
    pub line: u32,
    pub value: Option<Sender>,
}

/// A condition-name (level 88): the place of its item, and the values for which it holds.
#[derive(Drop)]
pub struct Flag {
    pub name: Name,
    pub item: u32,
    pub ranges: Many<Pair>,
}

/// All values from one to another. A value alone is both.
#[derive(Drop)]
pub struct Pair {
    pub low: Sender,
    pub high: Sender,
}

/// A file: its record area, the places of its 01 items, and that of its FILE STATUS item. `external` stands as it is
/// written.
#[derive(Drop)]
pub struct FileDecl {
    pub name: Name,
    pub external: Name,
    pub offset: u32,
    pub length: u32,
    pub records: Many<u32>,
    pub status: Option<u32>,
}

/// The items and the condition-names in the order of the source, the files in the order of their SELECT entries, and
/// how many bytes they take.
#[derive(Drop)]
pub struct Layout {
    pub items: Many<Item>,
    pub flags: Many<Flag>,
    pub files: Many<FileDecl>,
    pub storage: u32,
}

// ---- copies

impl Sender {
    /// Copies the value.
    pub fn copied(&self, alloc: Global) -> Result<Sender, AllocError>
        ensures { IfOk result (λ copy. copy ≡ self.now) }
    {
        match self {
            Sender::Item(place) => Ok(Sender::Item(*place)),
            Sender::Number(number) => Ok(Sender::Number(number.copied(alloc)?)),
            Sender::Text(text) => Ok(Sender::Text(Bytes::of(alloc, text.get())?)),
            Sender::Fill(byte) => Ok(Sender::Fill(*byte)),
            Sender::Zero => Ok(Sender::Zero),
        }
    }
}

impl Pair {
    /// Copies the range.
    pub fn copied(&self, alloc: Global) -> Result<Pair, AllocError>
        ensures { IfOk result (λ copy. copy ≡ self.now) }
    {
        Ok(Pair {
            low: self.low.copied(alloc)?,
            high: self.high.copied(alloc)?,
        })
    }
}

pub fn copied_name(alloc: Global, name: &Option<Name>) -> Result<Option<Name>, AllocError>
    ensures { IfOk result (λ copy. copy ≡ name.now) }
{
    match name {
        None => Ok(None),
        Some(name) => Ok(Some(Name::of(alloc, name.get())?)),
    }
}

fn copied_value(alloc: Global, value: &Option<Sender>) -> Result<Option<Sender>, AllocError>
    ensures { IfOk result (λ copy. copy ≡ value.now) }
{
    match value {
        None => Ok(None),
        Some(value) => Ok(Some(value.copied(alloc)?)),
    }
}

impl Item {
    /// Its bytes in all its occurrences.
    pub fn extent(&self) -> Extent
        ensures { result ≡ extent_of self.now }
    {
        Extent {
            offset: self.offset,
            length: self.length,
            times: self.times,
            stride: self.stride,
        }
    }

    /// Copies the item.
    pub fn copied(&self, alloc: Global) -> Result<Item, AllocError>
        ensures { IfOk result (λ copy. copy ≡ self.now) }
    {
        Ok(Item {
            name: copied_name(alloc, &self.name)?,
            offset: self.offset,
            length: self.length,
            times: self.times,
            stride: self.stride,
            form: self.form.copied(alloc)?,
            parent: self.parent,
            line: self.line,
            value: copied_value(alloc, &self.value)?,
        })
    }
}

fn copied_pairs(alloc: Global, pairs: &[Pair]) -> Result<Many<Pair>, AllocError>
    ensures { IfOk result (λ copies. copies ≡ pairs.now) }
{
    let mut copies = Vec::new(alloc);
    for pair in pairs {
        copies.push(pair.copied(alloc)?)?;
    }
    Ok(Many::of(copies))
}

impl Flag {
    /// Copies the values for which the condition-name holds.
    pub fn copied_ranges(&self, alloc: Global) -> Result<Many<Pair>, AllocError>
        ensures { IfOk result (λ copies. copies ≡ self.now.ranges) }
    {
        copied_pairs(alloc, self.ranges.get())
    }

    /// Copies the condition-name.
    pub fn copied(&self, alloc: Global) -> Result<Flag, AllocError>
        ensures { IfOk result (λ copy. copy ≡ self.now) }
    {
        Ok(Flag {
            name: Name::of(alloc, self.name.get())?,
            item: self.item,
            ranges: self.copied_ranges(alloc)?,
        })
    }
}

fn copied_places(alloc: Global, places: &[u32]) -> Result<Many<u32>, AllocError>
    ensures { IfOk result (λ copies. copies ≡ places.now) }
{
    Ok(Many::of(Vec::from_slice(alloc, places)?))
}

impl FileDecl {
    /// The bytes of its record area.
    pub fn area(&self) -> Extent
        ensures { result ≡ area_of self.now }
    {
        Extent {
            offset: self.offset,
            length: self.length,
            times: 1,
            stride: 0,
        }
    }

    /// Copies the file's declaration.
    pub fn copied(&self, alloc: Global) -> Result<FileDecl, AllocError>
        ensures { IfOk result (λ copy. copy ≡ self.now) }
    {
        Ok(FileDecl {
            name: Name::of(alloc, self.name.get())?,
            external: Name::of(alloc, self.external.get())?,
            offset: self.offset,
            length: self.length,
            records: copied_places(alloc, self.records.get())?,
            status: self.status,
        })
    }
}

fn copied_items(alloc: Global, items: &[Item]) -> Result<Many<Item>, AllocError>
    ensures { IfOk result (λ copies. copies ≡ items.now) }
{
    let mut copies = Vec::new(alloc);
    for item in items {
        copies.push(item.copied(alloc)?)?;
    }
    Ok(Many::of(copies))
}

fn copied_flags(alloc: Global, flags: &[Flag]) -> Result<Many<Flag>, AllocError>
    ensures { IfOk result (λ copies. copies ≡ flags.now) }
{
    let mut copies = Vec::new(alloc);
    for flag in flags {
        copies.push(flag.copied(alloc)?)?;
    }
    Ok(Many::of(copies))
}

fn copied_files(alloc: Global, files: &[FileDecl]) -> Result<Many<FileDecl>, AllocError>
    ensures { IfOk result (λ copies. copies ≡ files.now) }
{
    let mut copies = Vec::new(alloc);
    for file in files {
        copies.push(file.copied(alloc)?)?;
    }
    Ok(Many::of(copies))
}

impl Layout {
    /// Copies the layout.
    pub fn copied(&self, alloc: Global) -> Result<Layout, AllocError>
        ensures { IfOk result (λ copy. copy ≡ self.now) }
    {
        Ok(Layout {
            items: copied_items(alloc, self.items.get())?,
            flags: copied_flags(alloc, self.flags.get())?,
            files: copied_files(alloc, self.files.get())?,
            storage: self.storage,
        })
    }
}
