//! The rules on SELECT, FD and END PROGRAM.
ghost use Rattle.std.specs.Prelude.{◌≡◌, if◌then◌else◌, max, find, length};
ghost use Rattle.std.specs.List.{list_any, list_all};
ghost use Rattle.std.specs.Option.{option_copied};
ghost use Rattle.cob_data.specs.Files.{is_record_of, largest_record, contains_rightly, breaks_record_size, external_text, is_status, name_in, status_of, is_named, is_two_bytes, is_status_holder, breaks_end};

use crate::description::{Area, Description, Spot};
use crate::spots::{is_file, same_area};
use crate::values::is_number;
use cob_tree::{EndProgram, External, Fd, FdClause, Form, Name, SelClause, Select};

// ---- SELECT and FD

pub fn is_record_of(file: u32, item: &Description) -> bool
    ensures { result ≡ is_record_of file item.now }
{
    item.level == 1 && same_area(Area::File(file), item.area)
}

pub fn has_record(file: u32, items: &[Description]) -> bool
    ensures { result ≡ list_any (is_record_of file) items.now }
{
    items.iter().any(|item| is_record_of(file, item))
}

// ---- RECORD CONTAINS

fn longer(is_record: bool, most: u64, bytes: u64) -> u64
    ensures { result ≡ (if is_record then max most bytes else most) }
{
    if is_record { most.max(bytes) } else { most }
}

/// The length of the longest record of a file, by the place of its FD.
pub fn largest_record(file: u32, items: &[Description], spots: &[Spot]) -> u64
    requires { length items.now ≡ length spots.now }
    ensures { result ≡ largest_record file items.now spots.now }
{
    let mut most = 0;
    for place in 0..items.len() {
        most = longer(is_record_of(file, &items[place]), most, spots[place].length);
    }
    most
}

fn contains_rightly(bytes: u64, clause: &FdClause) -> bool
    ensures { result ≡ contains_rightly bytes clause.now }
{
    match clause {
        FdClause::RecordSize(number) => is_number(number, bytes),
        FdClause::Block(_) | FdClause::Label(_) | FdClause::Data(_) | FdClause::Recording(_) => {
            true
        }
    }
}

fn contain_rightly(bytes: u64, clauses: &[FdClause]) -> bool
    ensures { result ≡ list_all (contains_rightly bytes) clauses.now }
{
    for clause in clauses {
        if !contains_rightly(bytes, clause) {
            return false;
        }
    }
    true
}

pub fn breaks_record_size(items: &[Description], spots: &[Spot], file: u32, fd: &Fd) -> bool
    requires { length items.now ≡ length spots.now }
    ensures { result ≡ breaks_record_size items.now spots.now file fd.now }
{
    !contain_rightly(largest_record(file, items, spots), fd.clauses.get())
}

// ---- external names

pub fn external_text(external: &External) -> &[u8]
    ensures { result.now ≡ external_text external.now }
{
    match external {
        External::Name(text) => text.get(),
        External::Text(text) => text.get(),
    }
}

// ---- FILE STATUS

fn is_status(clause: &SelClause) -> bool
    ensures { result ≡ is_status clause.now }
{
    match clause {
        SelClause::Status(_) => true,
        SelClause::Organization | SelClause::Access => false,
    }
}

fn find_status(clauses: &[SelClause]) -> Option<&SelClause>
    ensures { option_copied result ≡ find is_status clauses.now }
{
    clauses.iter().find(|clause| is_status(clause))
}

pub fn is_named(name: &[u8], item: &Description) -> bool
    ensures { result ≡ is_named name.now item.now }
{
    match &item.name {
        None => false,
        Some(own) => own.get() == name,
    }
}

fn is_two_bytes(form: &Form) -> bool
    ensures { result ≡ is_two_bytes form.now }
{
    match form {
        Form::Text { length } => *length == 2,
        Form::Group | Form::Number { .. } | Form::Edited { .. } => false,
    }
}

pub fn is_status_holder(item: &Description) -> bool
    ensures { result ≡ is_status_holder item.now }
{
    !is_file(item.area) && is_two_bytes(&item.form)
}

fn name_in(clause: Option<&SelClause>) -> Option<&Name>
    ensures { option_copied result ≡ name_in (option_copied clause.entry) }
{
    match clause {
        Some(SelClause::Status(name)) => Some(name),
        Some(SelClause::Organization | SelClause::Access) => None,
        None => None,
    }
}

pub fn status_of(select: &Select) -> Option<&Name>
    ensures { option_copied result ≡ status_of select.now }
{
    name_in(find_status(select.clauses.get()))
}

// ---- END PROGRAM

pub fn breaks_end(program: &Name, end: &EndProgram) -> bool
    ensures { result ≡ breaks_end program.now end.now }
{
    end.name.get() != program.get()
}
