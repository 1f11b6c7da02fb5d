//! Statements that hold no statements, but for PERFORM and GO TO; and what stands before the lists of READ.
ghost use Rattle.std.specs.Prelude.{◌≡◌, ◌+◌, ◌++◌, ◌∷◌, [], IfOk, OnOk};
ghost use Rattle.std.specs.Option.{option_copied};
ghost use Rattle.cob_program.specs.ActView.{plain_act};
ghost use Rattle.cob_typed_exprs.specs.Judged.{noted, each_of, if_there};
ghost use Rattle.cob_typed_exprs.specs.Scope.{plain_name};
ghost use Rattle.cob_typed_exprs.specs.Sums.{operand};
ghost use Rattle.cob_typed_verbs.specs.Verbs.{receiver, move_act, first_value, set_flag, set_if, set_act, show_act, the_file, some_of, is_output, openings, open_act, close_act, lie_apart, into_of, read_parts, from_of, write_act};

use crate::acts::{close_of, move_of, nothing, open_of, show_of, write_of};
use cob_data::{FileDecl, Flag, Item, Pair, Rule, Sender, share_extents};
use cob_program::{Act, Opening};
use cob_tree::{Many, Mode, Name, OpenPhrase, Opnd, Ref};
use cob_typed_exprs::{Finding, Scope, demand, one_of_kind};
use std::alloc::{AllocError, Global};

/// A name without qualifiers.
fn plain_name(alloc: Global, name: &Name) -> Result<Ref, AllocError>
    ensures { IfOk result (λ reference. reference ≡ plain_name name.now) }
{
    let name = or_leave!(Name::of(alloc, name.get()));
    Ok(Ref {
        name,
        of: Many::of(Vec::new(alloc)),
    })
}

/// The first value of a condition-name.
fn first_value(alloc: Global, ranges: &[Pair]) -> Result<Sender, AllocError>
    ensures { IfOk result (λ value. value ≡ first_value ranges.now) }
{
    match ranges.first() {
        None => Ok(Sender::Zero),
        Some(pair) => pair.low.copied(alloc),
    }
}

/// A list of one place.
fn one_place(alloc: Global, place: u32) -> Result<Vec<u32>, AllocError>
    ensures { IfOk result (λ places. places.items ≡ place ∷ []) }
{
    let mut places = Vec::new(alloc);
    places.push(place)?;
    Ok(places)
}

/// SET moves the first value to the item.
fn set_flag(alloc: Global, flag: Option<&Flag>) -> Result<Act, AllocError>
    ensures { IfOk result (λ act. plain_act act ≡ set_flag (option_copied flag.entry)) }
{
    match flag {
        None => Ok(nothing()),
        Some(flag) => {
            let to = or_leave!(one_place(alloc, flag.item));
            let value = or_leave!(first_value(alloc, flag.ranges.get()), to);
            Ok(move_of(value, to))
        }
    }
}

fn is_output(mode: Mode) -> bool
    ensures { result ≡ is_output mode }
{
    match mode {
        Mode::Input => false,
        Mode::Output => true,
    }
}

/// Whether no byte of the item lies in the file's record area.
fn lie_apart(file: Option<&FileDecl>, item: Option<&Item>) -> bool
    ensures { result ≡ lie_apart (option_copied file.entry) (option_copied item.entry) }
{
    match (file, item) {
        (Some(file), Some(item)) => !share_extents(&file.area(), &item.extent()),
        _ => true,
    }
}

// ---- MOVE, SET, DISPLAY

fn receiver(
    scope: &Scope,
    findings: &mut Vec<Finding>,
    line: u32,
    value: &Sender,
    to: &Ref,
) -> Result<u32, AllocError>
    ensures value { IfOk result (λ place. place ≡ (receiver scope.now value.now to.now).value) }
    ensures noted { OnOk result (findings.new.items ≡ noted line findings.old.items (receiver scope.now value.now to.now).broken) }
{
    let place = scope.the_item(findings, line, to)?;
    demand(
        findings,
        line,
        Rule::Q2,
        scope.may_move(value, scope.form(place)),
    )?;
    Ok(place)
}

fn receivers(
    scope: &Scope,
    findings: &mut Vec<Finding>,
    line: u32,
    value: &Sender,
    to: &[Ref],
) -> Result<Vec<u32>, AllocError>
    ensures value { IfOk result (λ places. places.items ≡ (each_of (receiver scope.now value.now) to.now).value) }
    ensures noted { OnOk result (findings.new.items ≡ noted line findings.old.items (each_of (receiver scope.now value.now) to.now).broken) }
{
    let mut places = Vec::new(scope.alloc);
    for reference in to {
        places.push(receiver(scope, findings, line, value, reference)?)?;
    }
    Ok(places)
}

/// MOVE
pub fn move_act(
    scope: &Scope,
    findings: &mut Vec<Finding>,
    line: u32,
    from: &Opnd,
    to: &[Ref],
) -> Result<Act, AllocError>
    ensures value { IfOk result (λ act. plain_act act ≡ (move_act scope.now from.now to.now).value) }
    ensures noted { OnOk result (findings.new.items ≡ noted line findings.old.items (move_act scope.now from.now to.now).broken) }
{
    let value = or_leave!(scope.operand(findings, line, from));
    let places = or_leave!(receivers(scope, findings, line, &value, to), value);
    Ok(move_of(value, places))
}

fn set_if(scope: &Scope, place: Option<u32>) -> Result<Act, AllocError>
    ensures { IfOk result (λ act. plain_act act ≡ set_if scope.now place) }
{
    match place {
        None => Ok(nothing()),
        Some(place) => set_flag(scope.alloc, scope.flag_at(place)),
    }
}

/// SET
pub fn set_act(
    scope: &Scope,
    findings: &mut Vec<Finding>,
    line: u32,
    name: &Name,
) -> Result<Act, AllocError>
    ensures value { IfOk result (λ act. plain_act act ≡ (set_act scope.now name.now).value) }
    ensures noted { OnOk result (findings.new.items ≡ noted line findings.old.items (set_act scope.now name.now).broken) }
{
    let reference = or_leave!(plain_name(scope.alloc, name));
    let something = scope.means_something(&reference);
    let found = scope.flag(&reference);
    drop(reference);
    let place = or_leave!(one_of_kind(findings, line, Rule::Q8, something, found));
    set_if(scope, place)
}

fn values_of(
    scope: &Scope,
    findings: &mut Vec<Finding>,
    line: u32,
    operands: &[Opnd],
) -> Result<Vec<Sender>, AllocError>
    ensures value { IfOk result (λ values. values.items ≡ (each_of (operand scope.now) operands.now).value) }
    ensures noted { OnOk result (findings.new.items ≡ noted line findings.old.items (each_of (operand scope.now) operands.now).broken) }
{
    let mut values = Vec::new(scope.alloc);
    for operand in operands {
        values.push(scope.operand(findings, line, operand)?)?;
    }
    Ok(values)
}

/// DISPLAY
pub fn show_act(
    scope: &Scope,
    findings: &mut Vec<Finding>,
    line: u32,
    operands: &[Opnd],
) -> Result<Act, AllocError>
    ensures value { IfOk result (λ act. plain_act act ≡ (show_act scope.now operands.now).value) }
    ensures noted { OnOk result (findings.new.items ≡ noted line findings.old.items (show_act scope.now operands.now).broken) }
{
    let values = or_leave!(values_of(scope, findings, line, operands));
    Ok(show_of(values))
}

// ---- files

fn the_file(
    scope: &Scope,
    findings: &mut Vec<Finding>,
    line: u32,
    name: &Name,
) -> Result<Option<u32>, AllocError>
    ensures value { IfOk result (λ file. file ≡ (the_file scope.now name.now).value) }
    ensures noted { OnOk result (findings.new.items ≡ noted line findings.old.items (the_file scope.now name.now).broken) }
{
    let reference = or_leave!(plain_name(scope.alloc, name));
    let something = scope.means_something(&reference);
    drop(reference);
    one_of_kind(findings, line, Rule::Q9, something, scope.file(name.get()))
}

/// Adds the file of this name, where there is one.
fn add_file(
    scope: &Scope,
    findings: &mut Vec<Finding>,
    line: u32,
    name: &Name,
    files: &mut Vec<u32>,
) -> Result<(), AllocError>
    ensures value { OnOk result (files.new.items ≡ files.old.items ++ some_of ((the_file scope.now name.now).value ∷ [])) }
    ensures noted { OnOk result (findings.new.items ≡ noted line findings.old.items (the_file scope.now name.now).broken) }
{
    match the_file(scope, findings, line, name)? {
        None => Ok(()),
        Some(file) => {
            files.push(file)?;
            Ok(())
        }
    }
}

fn the_files(
    scope: &Scope,
    findings: &mut Vec<Finding>,
    line: u32,
    names: &[Name],
) -> Result<Vec<u32>, AllocError>
    ensures value { IfOk result (λ files. files.items ≡ some_of (each_of (the_file scope.now) names.now).value) }
    ensures noted { OnOk result (findings.new.items ≡ noted line findings.old.items (each_of (the_file scope.now) names.now).broken) }
{
    let mut files = Vec::new(scope.alloc);
    for name in names {
        add_file(scope, findings, line, name, &mut files)?;
    }
    Ok(files)
}

fn add_openings(
    scope: &Scope,
    findings: &mut Vec<Finding>,
    line: u32,
    opens: &OpenPhrase,
    list: &mut Vec<Opening>,
) -> Result<(), AllocError>
    ensures value { OnOk result (list.new.items ≡ list.old.items ++ (openings scope.now opens.now).value) }
    ensures noted { OnOk result (findings.new.items ≡ noted line findings.old.items (openings scope.now opens.now).broken) }
{
    let output = is_output(opens.mode);
    let files = the_files(scope, findings, line, opens.files.get())?;
    for file in &files {
        list.push(Opening {
            file: *file,
            output,
        })?;
    }
    Ok(())
}

/// OPEN
pub fn open_act(
    scope: &Scope,
    findings: &mut Vec<Finding>,
    line: u32,
    opens: &[OpenPhrase],
) -> Result<Act, AllocError>
    ensures value { IfOk result (λ act. plain_act act ≡ (open_act scope.now opens.now).value) }
    ensures noted { OnOk result (findings.new.items ≡ noted line findings.old.items (open_act scope.now opens.now).broken) }
{
    let mut list = Vec::new(scope.alloc);
    for some in opens {
        or_leave!(add_openings(scope, findings, line, some, &mut list), list);
    }
    Ok(open_of(list))
}

/// CLOSE
pub fn close_act(
    scope: &Scope,
    findings: &mut Vec<Finding>,
    line: u32,
    names: &[Name],
) -> Result<Act, AllocError>
    ensures value { IfOk result (λ act. plain_act act ≡ (close_act scope.now names.now).value) }
    ensures noted { OnOk result (findings.new.items ≡ noted line findings.old.items (close_act scope.now names.now).broken) }
{
    let files = or_leave!(the_files(scope, findings, line, names));
    Ok(close_of(files))
}

fn into_of(
    scope: &Scope,
    findings: &mut Vec<Finding>,
    line: u32,
    file: Option<u32>,
    item: &Ref,
) -> Result<u32, AllocError>
    ensures value { IfOk result (λ place. place ≡ (into_of scope.now file item.now).value) }
    ensures noted { OnOk result (findings.new.items ≡ noted line findings.old.items (into_of scope.now file item.now).broken) }
{
    let place = scope.the_item(findings, line, item)?;
    match file {
        None => Ok(place),
        Some(file) => {
            let apart = lie_apart(scope.file_at(file), scope.item_at(place));
            demand(findings, line, Rule::Q9, apart)?;
            Ok(place)
        }
    }
}

fn into_if(
    scope: &Scope,
    findings: &mut Vec<Finding>,
    line: u32,
    file: Option<u32>,
    item: Option<&Ref>,
) -> Result<Option<u32>, AllocError>
    ensures value { IfOk result (λ place. place ≡ (if_there (into_of scope.now file) (option_copied item.entry)).value) }
    ensures noted { OnOk result (findings.new.items ≡ noted line findings.old.items (if_there (into_of scope.now file) (option_copied item.entry)).broken) }
{
    match item {
        None => Ok(None),
        Some(item) => Ok(Some(into_of(scope, findings, line, file, item)?)),
    }
}

/// The file of READ, and where its record goes.
pub fn read_parts(
    scope: &Scope,
    findings: &mut Vec<Finding>,
    line: u32,
    name: &Name,
    into: Option<&Ref>,
) -> Result<(u32, Option<u32>), AllocError>
    ensures value { IfOk result (λ parts. parts ≡ (read_parts scope.now name.now (option_copied into.entry)).value) }
    ensures noted { OnOk result (findings.new.items ≡ noted line findings.old.items (read_parts scope.now name.now (option_copied into.entry)).broken) }
{
    let file = the_file(scope, findings, line, name)?;
    let place = into_if(scope, findings, line, file, into)?;
    Ok((file.unwrap_or(0), place))
}

fn from_of(
    scope: &Scope,
    findings: &mut Vec<Finding>,
    line: u32,
    written: Option<u32>,
    given: &Opnd,
) -> Result<Sender, AllocError>
    ensures value { IfOk result (λ value. value ≡ (from_of scope.now written given.now).value) }
    ensures noted { OnOk result (findings.new.items ≡ noted line findings.old.items (from_of scope.now written given.now).broken) }
{
    let value = or_leave!(scope.operand(findings, line, given));
    match written {
        None => Ok(value),
        Some(place) => {
            let may = scope.may_move(&value, scope.form(place));
            or_leave!(demand(findings, line, Rule::Q2, may), value);
            Ok(value)
        }
    }
}

fn from_if(
    scope: &Scope,
    findings: &mut Vec<Finding>,
    line: u32,
    written: Option<u32>,
    given: Option<&Opnd>,
) -> Result<Option<Sender>, AllocError>
    ensures value { IfOk result (λ value. value ≡ (if_there (from_of scope.now written) (option_copied given.entry)).value) }
    ensures noted { OnOk result (findings.new.items ≡ noted line findings.old.items (if_there (from_of scope.now written) (option_copied given.entry)).broken) }
{
    match given {
        None => Ok(None),
        Some(given) => {
            let value = or_leave!(from_of(scope, findings, line, written, given));
            Ok(Some(value))
        }
    }
}

/// WRITE
pub fn write_act(
    scope: &Scope,
    findings: &mut Vec<Finding>,
    line: u32,
    reference: &Ref,
    from: Option<&Opnd>,
) -> Result<Act, AllocError>
    ensures value { IfOk result (λ act. plain_act act ≡ (write_act scope.now reference.now (option_copied from.entry)).value) }
    ensures noted { OnOk result (findings.new.items ≡ noted line findings.old.items (write_act scope.now reference.now (option_copied from.entry)).broken) }
{
    let something = scope.means_something(reference);
    let found = scope.record(reference);
    let record = or_leave!(one_of_kind(findings, line, Rule::Q9, something, found));
    let value = or_leave!(from_if(scope, findings, line, record, from));
    Ok(write_of(record.unwrap_or(0), value))
}
