//! Parts of calls on files: FILE STATUS gets its two digits, and the record area changes where it is filled or undefined.
#![tactic(auto, using(crate::proofs::HandingLaws::handing))]

ghost use Rattle.std.specs.Prelude.{◌≡◌, ◌++◌, [], ◌∷◌, ◌==◌, false, if◌then◌else◌, slice_get};
ghost use Rattle.std.specs.List.{list_any};
ghost use Rattle.std.specs.Option.{option_map, option_copied};
ghost use Rattle.cob_runs.specs.Acts.{decl_at, file_from};
ghost use Rattle.cob_edge_parts.specs.Parts.{status_parts, file_parts, file_call_parts};
ghost use Rattle.edge_parts.specs.PartView.{plain_part};
ghost use Rattle.edge_parts.specs.Pieces.{area_parts};
ghost use Rattle.edge_parts.specs.Handing.{Takes, goes_on};

use crate::part::EdgePart;
use crate::part_items::item_at;
use crate::taker::{Going, PartTaker, no_parts, push_part};
use cob_data::{FileDecl, Layout};
use cob_program::Opening;

fn push_status<'a>(parts: &mut PartTaker<'a>, layout: &Layout, status: Option<u32>) -> Going
    ensures { Takes plain_part parts.old (status_parts layout.now status) (goes_on result) parts.new }
{
    match status {
        None => no_parts(parts),
        Some(place) => match item_at(layout, place) {
            None => no_parts(parts),
            Some(item) => push_part(
                parts,
                EdgePart::Bytes {
                    offset: item.offset,
                    length: 2,
                },
            ),
        },
    }
}

fn push_area<'a>(parts: &mut PartTaker<'a>, changes: bool, file: &FileDecl) -> Going
    ensures { Takes plain_part parts.old (area_parts changes file.now) (goes_on result) parts.new }
{
    if changes {
        push_part(
            parts,
            EdgePart::Bytes {
                offset: file.offset,
                length: file.length,
            },
        )
    } else {
        no_parts(parts)
    }
}

fn push_file<'a>(parts: &mut PartTaker<'a>, layout: &Layout, area: bool, file: &FileDecl) -> Going
    ensures { Takes plain_part parts.old (file_parts layout.now area (Some file.now)) (goes_on result) parts.new }
{
    push_status(parts, layout, file.status)?;
    push_area(parts, area, file)
}

fn file_at(layout: &Layout, place: usize) -> Option<&FileDecl>
    ensures { option_copied result ≡ decl_at layout.now place }
{
    layout.files.get().get(place)
}

/// A call on the file at a place, which changes its record area or not.
pub fn push_file_at<'a>(
    parts: &mut PartTaker<'a>,
    layout: &Layout,
    area: bool,
    place: usize,
) -> Going
    ensures { Takes plain_part parts.old (file_parts layout.now area (decl_at layout.now place))
        (goes_on result) parts.new }
{
    match file_at(layout, place) {
        None => no_parts(parts),
        Some(file) => push_file(parts, layout, area, file),
    }
}

fn is_record(rec: u32, records: &[u32]) -> bool
    ensures { result ≡ list_any (λ r. r == rec) records.now }
{
    records.iter().any(|r| *r == rec)
}

// The file whose record an item is.
fn file_of(layout: &Layout, rec: u32) -> Option<usize>
    ensures { result ≡ file_from layout.now 0 layout.now.files rec }
{
    for (at, decl) in layout.files.get().iter().enumerate() {
        if is_record(rec, decl.records.get()) {
            return Some(at);
        }
    }
    None
}

/// A call on a file, if there is one.
fn push_file_call<'a>(
    parts: &mut PartTaker<'a>,
    layout: &Layout,
    area: bool,
    file: Option<usize>,
) -> Going
    ensures { Takes plain_part parts.old (file_call_parts layout.now area file) (goes_on result) parts.new }
{
    match file {
        None => no_parts(parts),
        Some(file) => push_file_at(parts, layout, area, file),
    }
}

/// A WRITE, which changes the record area or not.
pub fn push_write<'a>(parts: &mut PartTaker<'a>, layout: &Layout, area: bool, rec: u32) -> Going
    ensures { Takes plain_part parts.old
        (file_call_parts layout.now area (file_from layout.now 0 layout.now.files rec)) (goes_on result) parts.new }
{
    push_file_call(parts, layout, area, file_of(layout, rec))
}

fn file_opened(openings: &[Opening], place: u32) -> Option<usize>
    ensures { result ≡ option_map (λ o. o.file) (slice_get openings.now place) }
{
    match openings.get(place as usize) {
        None => None,
        Some(opening) => Some(opening.file as usize),
    }
}

/// An OPEN of one of some files.
pub fn push_opening<'a>(
    parts: &mut PartTaker<'a>,
    layout: &Layout,
    openings: &[Opening],
    place: u32,
) -> Going
    ensures { Takes plain_part parts.old
        (file_call_parts layout.now false (option_map (λ o. o.file) (slice_get openings.now place)))
        (goes_on result) parts.new }
{
    push_file_call(parts, layout, false, file_opened(openings, place))
}

fn file_closed(files: &[u32], place: u32) -> Option<usize>
    ensures { result ≡ slice_get files.now place }
{
    match files.get(place as usize) {
        None => None,
        Some(file) => Some(*file as usize),
    }
}

/// A CLOSE of one of some files.
pub fn push_closing<'a>(
    parts: &mut PartTaker<'a>,
    layout: &Layout,
    files: &[u32],
    place: u32,
) -> Going
    ensures { Takes plain_part parts.old (file_call_parts layout.now false (slice_get files.now place))
        (goes_on result) parts.new }
{
    push_file_call(parts, layout, false, file_closed(files, place))
}
