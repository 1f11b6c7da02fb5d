//! Data entries, read into descriptions of items and of condition-names.
ghost use Rattle.std.specs.Prelude.{◌≡◌, ◌≤◌, ◌<◌, ◌+◌, ◌^◌, ◌++◌, ◌∷◌, true, false, List, is_some, length, find, map, IfOk, IfErr, OnOk};
ghost use Rattle.std.specs.Option.{option_copied};
ghost use Rattle.cob_data.specs.Entries.{two_digits, level_of, name_of, is_picture, is_redefines, is_usage, is_sign, is_value, text_in, usage_in, sender_of, sender_if, span_of, spans_in, kept_as, form_kept_as, form_or_group, pictured_form, form_bytes, Placed, description, only_values, condition, is_condition, owner_in, placed};
ghost use Rattle.cob_data.specs.Reading.{IsFormed, Moves};
ghost use Rattle.cob_tree.specs.PictureForms.{picture_form};
ghost use Rattle.cob_tree.specs.Forms.{number_length};
ghost use Rattle.cob_tree.specs.Limits.{token_limit};

use crate::description::{Area, Condition, Description, Span};
use crate::layout::Sender;
use crate::slice::behind;
use crate::spots::same_area;
use cob_tree::{
    Bytes, Clause, Const, Described, Entry, Form, Many, Name, Num, PicEnd, Range, Usage, picture_of,
};
use std::alloc::{AllocError, Global};

/// The number that two digits write.
fn two_digits(digits: &[u8]) -> u32
    ensures { result ≡ two_digits digits.now }
{
    match digits {
        [a, b] => 10 * u32::from(*a).saturating_sub(48) + u32::from(*b).saturating_sub(48),
        _ => 0,
    }
}

/// A level as its number, or 0 where it isn't written as a level.
pub fn level_of(level: &Num) -> u32
    ensures { result ≡ level_of level.now }
{
    if level.sign == 0 && level.scale == 0 {
        two_digits(level.digits.get())
    } else {
        0
    }
}

pub fn name_of(alloc: Global, name: &Option<Described>) -> Result<Option<Name>, AllocError>
    ensures { IfOk result (λ n. n ≡ name_of name.now) }
{
    match name {
        Some(Described::Name(text)) => Ok(Some(Name::of(alloc, text.get())?)),
        Some(Described::Filler) => Ok(None),
        None => Ok(None),
    }
}

fn is_picture(clause: &Clause) -> bool
    ensures { result ≡ is_picture clause.now }
{
    match clause {
        Clause::Pic(_) => true,
        Clause::Redefines(_)
        | Clause::Display
        | Clause::Binary
        | Clause::PackedDecimal
        | Clause::LeadingSeparate
        | Clause::TrailingSeparate
        | Clause::Value(_) => false,
    }
}

fn is_redefines(clause: &Clause) -> bool
    ensures { result ≡ is_redefines clause.now }
{
    match clause {
        Clause::Redefines(_) => true,
        Clause::Pic(_)
        | Clause::Display
        | Clause::Binary
        | Clause::PackedDecimal
        | Clause::LeadingSeparate
        | Clause::TrailingSeparate
        | Clause::Value(_) => false,
    }
}

fn is_usage(clause: &Clause) -> bool
    ensures { result ≡ is_usage clause.now }
{
    match clause {
        Clause::Display | Clause::Binary | Clause::PackedDecimal => true,
        Clause::Pic(_)
        | Clause::Redefines(_)
        | Clause::LeadingSeparate
        | Clause::TrailingSeparate
        | Clause::Value(_) => false,
    }
}

fn is_sign(clause: &Clause) -> bool
    ensures { result ≡ is_sign clause.now }
{
    match clause {
        Clause::LeadingSeparate | Clause::TrailingSeparate => true,
        Clause::Pic(_)
        | Clause::Redefines(_)
        | Clause::Display
        | Clause::Binary
        | Clause::PackedDecimal
        | Clause::Value(_) => false,
    }
}

fn is_value(clause: &Clause) -> bool
    ensures { result ≡ is_value clause.now }
{
    match clause {
        Clause::Value(_) => true,
        Clause::Pic(_)
        | Clause::Redefines(_)
        | Clause::Display
        | Clause::Binary
        | Clause::PackedDecimal
        | Clause::LeadingSeparate
        | Clause::TrailingSeparate => false,
    }
}

fn find_picture(clauses: &[Clause]) -> Option<&Clause>
    ensures { option_copied result ≡ find is_picture clauses.now }
{
    clauses.iter().find(|clause| is_picture(clause))
}

fn usage_in(clause: Option<&Clause>) -> Option<Usage>
    ensures { result ≡ usage_in (option_copied clause.entry) }
{
    match clause {
        Some(Clause::Display) => Some(Usage::Display),
        Some(Clause::Binary) => Some(Usage::Binary),
        Some(Clause::PackedDecimal) => Some(Usage::Packed),
        Some(Clause::LeadingSeparate) => Some(Usage::Leading),
        Some(Clause::TrailingSeparate) => Some(Usage::Trailing),
        Some(Clause::Pic(_) | Clause::Redefines(_) | Clause::Value(_)) => None,
        None => None,
    }
}

fn find_redefines(clauses: &[Clause]) -> Option<&Clause>
    ensures { option_copied result ≡ find is_redefines clauses.now }
{
    clauses.iter().find(|clause| is_redefines(clause))
}

fn find_usage(clauses: &[Clause]) -> Option<&Clause>
    ensures { option_copied result ≡ find is_usage clauses.now }
{
    clauses.iter().find(|clause| is_usage(clause))
}

fn find_sign(clauses: &[Clause]) -> Option<&Clause>
    ensures { option_copied result ≡ find is_sign clauses.now }
{
    clauses.iter().find(|clause| is_sign(clause))
}

fn find_value(clauses: &[Clause]) -> Option<&Clause>
    ensures { option_copied result ≡ find is_value clauses.now }
{
    clauses.iter().find(|clause| is_value(clause))
}

/// The name that a clause has.
fn name_in(alloc: Global, clause: Option<&Clause>) -> Result<Option<Name>, AllocError>
    ensures { IfOk result (λ n. n ≡ text_in (option_copied clause.entry)) }
{
    match clause {
        Some(Clause::Pic(text)) => Ok(Some(Name::of(alloc, text.get())?)),
        Some(Clause::Redefines(text)) => Ok(Some(Name::of(alloc, text.get())?)),
        Some(
            Clause::Display
            | Clause::Binary
            | Clause::PackedDecimal
            | Clause::LeadingSeparate
            | Clause::TrailingSeparate
            | Clause::Value(_),
        ) => Ok(None),
        None => Ok(None),
    }
}

fn sender_of(alloc: Global, constant: &Const) -> Result<Sender, AllocError>
    ensures { IfOk result (λ s. s ≡ sender_of constant.now) }
{
    match constant {
        Const::Number(number) => Ok(Sender::Number(number.copied(alloc)?)),
        Const::Text(text) => Ok(Sender::Text(Bytes::of(alloc, text.get())?)),
        Const::Zero => Ok(Sender::Zero),
        Const::Space => Ok(Sender::Fill(32)),
        Const::Quote => Ok(Sender::Fill(34)),
        Const::HighValue => Ok(Sender::Fill(255)),
        Const::LowValue => Ok(Sender::Fill(0)),
    }
}

fn sender_if(alloc: Global, constant: &Option<Const>) -> Result<Option<Sender>, AllocError>
    ensures { IfOk result (λ s. s ≡ sender_if constant.now) }
{
    match constant {
        None => Ok(None),
        Some(constant) => Ok(Some(sender_of(alloc, constant)?)),
    }
}

fn span_of(alloc: Global, range: &Range) -> Result<Span, AllocError>
    ensures { IfOk result (λ s. s ≡ span_of range.now) }
{
    Ok(Span {
        low: sender_of(alloc, &range.low)?,
        high: sender_if(alloc, &range.high)?,
    })
}

fn spans_of(alloc: Global, ranges: &[Range]) -> Result<Many<Span>, AllocError>
    ensures { IfOk result (λ m. m ≡ map span_of ranges.now) }
{
    let mut spans = Vec::new(alloc);
    for range in ranges {
        let span = span_of(alloc, range)?;
        spans.push(span)?;
    }
    Ok(Many::of(spans))
}

fn spans_in(alloc: Global, clause: Option<&Clause>) -> Result<Option<Many<Span>>, AllocError>
    ensures { IfOk result (λ s. s ≡ spans_in (option_copied clause.entry)) }
{
    match clause {
        Some(Clause::Value(ranges)) => Ok(Some(spans_of(alloc, ranges.get())?)),
        Some(
            Clause::Pic(_)
            | Clause::Redefines(_)
            | Clause::Display
            | Clause::Binary
            | Clause::PackedDecimal
            | Clause::LeadingSeparate
            | Clause::TrailingSeparate,
        ) => Ok(None),
        None => Ok(None),
    }
}

fn kept_as(usage: Option<Usage>, sign: Option<Usage>) -> Usage
    ensures { result ≡ kept_as usage sign }
{
    match (usage, sign) {
        (Some(Usage::Binary), _) => Usage::Binary,
        (Some(Usage::Packed), _) => Usage::Packed,
        (_, Some(sign)) => sign,
        (_, None) => Usage::Display,
    }
}

fn form_kept_as(usage: Usage, form: Form) -> Form
    requires { IsFormed form }
    ensures value { result ≡ form_kept_as usage form }
    ensures formed { IsFormed result }
{
    match form {
        Form::Group => Form::Group,
        Form::Text { length } => Form::Text { length },
        Form::Number {
            digits,
            scale,
            signed,
            usage: _,
        } => Form::Number {
            digits,
            scale,
            signed,
            usage,
        },
        Form::Edited {
            picture,
            digits,
            scale,
        } => Form::Edited {
            picture,
            digits,
            scale,
        },
    }
}

/// The form of an allowed picture, else a group's.
fn allowed_form(alloc: Global, text: &[u8]) -> Result<Form, AllocError>
    ensures form { IfOk result (λ f. f ≡ form_or_group (picture_form text.now)) }
    ensures formed { IfOk result IsFormed }
{
    match picture_of(alloc, text) {
        Ok(form) => Ok(form),
        Err(PicEnd::Bad) => Ok(Form::Group),
        Err(PicEnd::Memory) => Err(AllocError),
    }
}

fn pictured_form(alloc: Global, clause: Option<&Clause>) -> Result<Form, AllocError>
    ensures form { IfOk result (λ f. f ≡ pictured_form (text_in (option_copied clause.entry))) }
    ensures formed { IfOk result IsFormed }
{
    match clause {
        Some(Clause::Pic(text)) => Ok(allowed_form(alloc, text.get())?),
        Some(Clause::Redefines(text)) => Ok(allowed_form(alloc, text.get())?),
        Some(
            Clause::Display
            | Clause::Binary
            | Clause::PackedDecimal
            | Clause::LeadingSeparate
            | Clause::TrailingSeparate
            | Clause::Value(_),
        ) => Ok(Form::Group),
        None => Ok(Form::Group),
    }
}

/// The bytes of a number with so many digits.
fn number_bytes(digits: u32, usage: Usage) -> u32
    requires { digits ≤ 18 }
    ensures { result ≡ number_length digits usage }
{
    match usage {
        Usage::Display => digits,
        Usage::Leading | Usage::Trailing => digits + 1,
        Usage::Binary if digits <= 4 => 2,
        Usage::Binary if digits <= 9 => 4,
        Usage::Binary => 8,
        Usage::Packed => digits / 2 + 1,
    }
}

/// The bytes of an elementary item of this form.
fn form_bytes(form: &Form) -> u32
    requires { IsFormed form.now }
    ensures { result ≡ form_bytes form.now }
{
    match form {
        Form::Group => 0,
        Form::Text { length } => *length,
        Form::Number { digits, usage, .. } => number_bytes(*digits, *usage),
        Form::Edited { picture, .. } => picture.get().len() as u32,
    }
}

fn has_text(clause: Option<&Clause>) -> bool
    ensures { result ≡ is_some (text_in (option_copied clause.entry)) }
{
    match clause {
        Some(Clause::Pic(_) | Clause::Redefines(_)) => true,
        Some(
            Clause::Display
            | Clause::Binary
            | Clause::PackedDecimal
            | Clause::LeadingSeparate
            | Clause::TrailingSeparate
            | Clause::Value(_),
        ) => false,
        None => false,
    }
}

fn description(alloc: Global, area: Area, entry: &Entry) -> Result<Description, AllocError>
    ensures { IfOk result (λ d. d ≡ description (record { area = area; entry = entry.now })) }
{
    let clauses = entry.clauses.get();
    let usage = usage_in(find_usage(clauses));
    let sign = usage_in(find_sign(clauses));
    let picture = find_picture(clauses);
    let form = form_kept_as(kept_as(usage, sign), pictured_form(alloc, picture)?);
    Ok(Description {
        area,
        line: entry.line,
        level: level_of(&entry.level),
        name: name_of(alloc, &entry.name)?,
        redefines: name_in(alloc, find_redefines(clauses))?,
        pictured: has_text(picture),
        bytes: form_bytes(&form),
        form,
        usage,
        sign,
        value: spans_in(alloc, find_value(clauses))?,
    })
}

/// The values of an entry that has one VALUE and nothing else.
fn only_values(alloc: Global, clauses: &[Clause]) -> Result<Option<Many<Span>>, AllocError>
    ensures { IfOk result (λ s. s ≡ only_values clauses.now) }
{
    match clauses {
        [Clause::Value(ranges)] => Ok(Some(spans_of(alloc, ranges.get())?)),
        _ => Ok(None),
    }
}

fn condition(alloc: Global, entry: &Entry, owner: Option<u32>) -> Result<Condition, AllocError>
    ensures { IfOk result (λ c. c ≡ condition entry.now owner) }
{
    Ok(Condition {
        line: entry.line,
        name: name_of(alloc, &entry.name)?,
        owner,
        value: only_values(alloc, entry.clauses.get())?,
    })
}

fn is_condition(entry: &Entry) -> bool
    ensures { result ≡ is_condition entry.now }
{
    level_of(&entry.level) == 88
}

/// The last of so many items, where it stands in this area.
fn owner_in(here: Area, count: u32, last: Option<Area>) -> Option<u32>
    ensures { result ≡ owner_in here count last }
{
    match last {
        None => None,
        Some(area) => {
            if same_area(area, here) {
                Some(count.saturating_sub(1))
            } else {
                None
            }
        }
    }
}

/// The items and the condition-names read so far, and the area of the last item.
#[derive(Drop)]
pub struct Table {
    pub items: Vec<Description>,
    pub conditions: Vec<Condition>,
    pub last: Option<Area>,
}

impl Table {
    fn push_condition(&mut self, alloc: Global, area: Area, entry: &Entry) -> Result<(), AllocError>
        requires few { length self.old.items.items < 2 ^ 32 }
        requires is { is_condition entry.now ≡ true }
        ensures moves { OnOk result ((ps : List Placed) → Moves self.old self.new (record { area = area; entry = entry.now } ∷ ps) ps) }
        ensures more { OnOk result (length self.new.items.items ≤ length self.old.items.items + 1) }
    {
        let owner = owner_in(area, self.items.len() as u32, self.last);
        let condition = condition(alloc, entry, owner)?;
        self.conditions.push(condition)?;
        Ok(())
    }

    fn push_item(&mut self, alloc: Global, area: Area, entry: &Entry) -> Result<(), AllocError>
        requires { is_condition entry.now ≡ false }
        ensures moves { OnOk result ((ps : List Placed) → Moves self.old self.new (record { area = area; entry = entry.now } ∷ ps) ps) }
        ensures more { OnOk result (length self.new.items.items ≤ length self.old.items.items + 1) }
    {
        let item = description(alloc, area, entry)?;
        self.items.push(item)?;
        self.last = Some(area);
        Ok(())
    }

    fn push(&mut self, alloc: Global, area: Area, entry: &Entry) -> Result<(), AllocError>
        requires { length self.old.items.items < 2 ^ 32 }
        ensures moves { OnOk result ((ps : List Placed) → Moves self.old self.new (record { area = area; entry = entry.now } ∷ ps) ps) }
        ensures more { OnOk result (length self.new.items.items ≤ length self.old.items.items + 1) }
    {
        if is_condition(entry) {
            self.push_condition(alloc, area, entry)
        } else {
            self.push_item(alloc, area, entry)
        }
    }

    /// Reads the entries of an area.
    pub fn read(&mut self, alloc: Global, area: Area, entries: &[Entry]) -> Result<(), AllocError>
        requires { length self.old.items.items + length entries.now ≤ token_limit }
        ensures moves { OnOk result ((later : List Placed) → Moves self.old self.new (placed area entries.now ++ later) later) }
        ensures more { OnOk result (length self.new.items.items ≤ length self.old.items.items + length entries.now) }
    {
        let mut rest = entries;
        while !rest.is_empty() {
            self.push(alloc, area, &rest[0])?;
            rest = behind(rest, 1);
        }
        Ok(())
    }
}
