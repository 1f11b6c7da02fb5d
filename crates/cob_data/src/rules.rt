//! The first rule that is broken, with its first line, or the first limit that is exceeded.
ghost use Rattle.std.specs.Prelude.{◌≡◌, ◌≤◌, ◌<◌, [], take, length, slice_index_or};
ghost use Rattle.rule_order.specs.Order.{least, first_broken};
ghost use Rattle.cob_data.specs.Rules.{item_breaks, condition_breaks, select_breaks, fd_breaks, end_breaks, item_lines, condition_lines, select_lines, fd_lines, end_lines, lines_in, data_rules, count_of, limit_of};
ghost use Rattle.cob_tree.specs.declared.front.Select.{Select};
ghost use Rattle.cob_tree.specs.declared.front.Fd.{Fd};
ghost use Rattle.cob_data.specs.Known.{AreSeated};
ghost use Rattle.cob_data.specs.Names.{HasNames};
ghost use Rattle.cob_data.specs.Files.{breaks_fd_match};
ghost use Rattle.cob_data.specs.Answers.{limit_or, limit_in, refusal_in};
ghost use Rattle.cob_tree.specs.Limits.{token_limit};

use crate::description::{Condition, Description, Spot};
use crate::end::{DataEnd, Rule, Which};
use crate::files::{breaks_end, breaks_record_size, has_record};
use crate::item_rules::{
    breaks_conditions, breaks_levels, breaks_parts, breaks_pictures, breaks_redefinitions,
    breaks_usages, breaks_values, is_stray,
};
use crate::limits::{count_items, storage_of};
use crate::names::Names;
use cob_tree::{EndProgram, Fd, Name, Select};
use rule_order::{lesser, noted};
use std::marker::Model;

/// The most bytes that data take.
const STORAGE_LIMIT: u64 = 1_048_576;

/// The rules on data, in their order.
const DATA_RULES: [Rule; 12] = [
    Rule::L1,
    Rule::L2,
    Rule::L3,
    Rule::L4,
    Rule::L5,
    Rule::L6,
    Rule::L7,
    Rule::L8,
    Rule::L9,
    Rule::L10,
    Rule::L11,
    Rule::L12,
];

/// What the rules speak of: the items with where they lie, the condition-names, the files, and END PROGRAM.
#[derive(Drop)]
pub struct Known<'a> {
    pub items: Vec<Description>,
    pub spots: Vec<Spot>,
    pub conditions: Vec<Condition>,
    pub selects: &'a [Select],
    pub fds: &'a [Fd],
    pub program: &'a Name,
    pub end: &'a Option<EndProgram>,
}

impl<'a> Model for Known<'a> {
    ghost use Rattle.cob_data.specs.Rules.{Facts};

    ghost Value = { Facts };

    ghost view = { λ k. record { items = k.items.items; spots = k.spots.items; conditions = k.conditions.items; selects = k.selects.now; fds = k.fds.now; program = k.program.now; end = k.end.now } };
}

fn item_breaks(rule: Rule, item: &Description, spot: &Spot) -> bool
    ensures { result ≡ item_breaks rule item.now spot.now }
{
    match rule {
        Rule::L1 => breaks_levels(item, spot),
        Rule::L2 => breaks_parts(item, spot),
        Rule::L3 => breaks_pictures(item),
        Rule::L4 => breaks_usages(item),
        Rule::L5 => breaks_values(item, spot),
        Rule::L6 => breaks_redefinitions(item, spot),
        _ => false,
    }
}

fn end_breaks(rule: Rule, program: &Name, end: &EndProgram) -> bool
    ensures { result ≡ end_breaks rule program.now end.now }
{
    match rule {
        Rule::L12 => breaks_end(program, end),
        _ => false,
    }
}

fn line_of_end(rule: Rule, program: &Name, end: &Option<EndProgram>) -> Option<u32>
    ensures { result ≡ least (end_lines rule program.now end.now) }
{
    match end {
        None => None,
        Some(end) => noted(None, end_breaks(rule, program, end), end.line),
    }
}

fn line_of_items(rule: Rule, items: &[Description], spots: &[Spot]) -> Option<u32>
    requires { length items.now ≡ length spots.now }
    ensures { result ≡ least (item_lines rule items.now spots.now) }
{
    let mut first = None;
    for place in 0..items.len() {
        let item = &items[place];
        let spot = &spots[place];
        let broken = item_breaks(rule, item, spot);
        first = noted(first, broken, item.line);
    }
    first
}

impl<'a> Known<'a> {
    fn condition_breaks(&self, rule: Rule, condition: &Condition) -> bool
        requires { AreSeated self.now }
        ensures { result ≡ condition_breaks rule self.now condition.now }
    {
        match rule {
            Rule::L1 => is_stray(condition),
            Rule::L7 => breaks_conditions(&self.items, &self.spots, condition),
            _ => false,
        }
    }

    /// Whether a rule is broken at the SELECT of this place.
    fn select_breaks(&self, names: &Names, rule: Rule, place: usize) -> bool
        requires named { HasNames names.now self.now }
        requires within { place < length self.now.selects }
        ensures { (s : Select) → s ≡ slice_index_or self.now.selects place s → result ≡ select_breaks rule self.now (take place self.now.selects) s }
    {
        match rule {
            Rule::L8 => names.breaks_select_match(place),
            Rule::L10 => names.breaks_externals(place),
            Rule::L11 => names.breaks_status(place),
            _ => false,
        }
    }

    fn breaks_fd_match(&self, names: &Names, file: u32) -> bool
        requires named { HasNames names.now self.now }
        requires within { file < length self.now.fds }
        ensures { (d : Fd) → d ≡ slice_index_or self.now.fds file d → result ≡ breaks_fd_match (take file self.now.fds) self.now.selects self.now.items file d }
    {
        names.lacks_select(file as usize) || !has_record(file, &self.items)
    }

    fn fd_breaks(&self, names: &Names, rule: Rule, file: u32, fd: &Fd) -> bool
        requires seated { AreSeated self.now }
        requires named { HasNames names.now self.now }
        requires within { file < length self.now.fds }
        requires is { fd.now ≡ slice_index_or self.now.fds file fd.now }
        ensures { result ≡ fd_breaks rule self.now (take file self.now.fds) file fd.now }
    {
        match rule {
            Rule::L8 => self.breaks_fd_match(names, file),
            Rule::L9 => breaks_record_size(&self.items, &self.spots, file, fd),
            _ => false,
        }
    }

    fn item_line(&self, rule: Rule) -> Option<u32>
        requires { AreSeated self.now }
        ensures { result ≡ least (item_lines rule self.now.items self.now.spots) }
    {
        line_of_items(rule, &self.items, &self.spots)
    }

    fn end_line(&self, rule: Rule) -> Option<u32>
        ensures { result ≡ least (end_lines rule self.now.program self.now.end) }
    {
        line_of_end(rule, self.program, self.end)
    }

    fn condition_line(&self, rule: Rule) -> Option<u32>
        requires { AreSeated self.now }
        ensures { result ≡ least (condition_lines rule self.now self.now.conditions) }
    {
        let mut first = None;
        for place in 0..self.conditions.len() {
            let condition = &self.conditions[place];
            let broken = self.condition_breaks(rule, condition);
            first = noted(first, broken, condition.line);
        }
        first
    }

    fn select_line(&self, names: &Names, rule: Rule) -> Option<u32>
        requires { HasNames names.now self.now }
        ensures { result ≡ least (select_lines rule self.now [] self.now.selects) }
    {
        let mut first = None;
        for place in 0..self.selects.len() {
            let select = &self.selects[place];
            let broken = self.select_breaks(names, rule, place);
            first = noted(first, broken, select.line);
        }
        first
    }

    fn fd_line(&self, names: &Names, rule: Rule) -> Option<u32>
        requires seated { AreSeated self.now }
        requires named { HasNames names.now self.now }
        requires few { length self.now.fds ≤ token_limit }
        ensures { result ≡ least (fd_lines rule self.now [] self.now.fds) }
    {
        let mut first = None;
        for place in 0..self.fds.len() {
            let fd = &self.fds[place];
            let broken = self.fd_breaks(names, rule, place as u32, fd);
            first = noted(first, broken, fd.line);
        }
        first
    }

    /// The first line at which a rule is broken.
    fn first_line(&self, names: &Names, rule: Rule) -> Option<u32>
        requires seated { AreSeated self.now }
        requires named { HasNames names.now self.now }
        requires few { length self.now.fds ≤ token_limit }
        ensures { result ≡ least (lines_in self.now rule) }
    {
        let items = self.item_line(rule);
        let data = lesser(items, self.condition_line(rule));
        let selects = lesser(data, self.select_line(names, rule));
        let files = lesser(selects, self.fd_line(names, rule));
        lesser(files, self.end_line(rule))
    }

    fn first_among(&self, names: &Names, rules: &[Rule]) -> Option<(Rule, u32)>
        requires seated { AreSeated self.now }
        requires named { HasNames names.now self.now }
        requires few { length self.now.fds ≤ token_limit }
        ensures { result ≡ first_broken (lines_in self.now) rules.now }
    {
        for place in 0..rules.len() {
            let rule = rules[place];
            match self.first_line(names, rule) {
                None => {}
                Some(line) => return Some((rule, line)),
            }
        }
        None
    }

    /// The first rule on data that is broken, with its first line.
    pub fn first_broken(&self, names: &Names) -> Option<(Rule, u32)>
        requires seated { AreSeated self.now }
        requires named { HasNames names.now self.now }
        requires few { length self.now.fds ≤ token_limit }
        ensures { result ≡ first_broken (lines_in self.now) data_rules }
    {
        self.first_among(names, &DATA_RULES)
    }
}

// ---- limits

/// How much there is of what is limited here.
fn count_of(known: &Known, which: Which) -> u64
    requires { AreSeated known.now }
    ensures { result ≡ count_of known.now which }
{
    match which {
        Which::Items => count_items(&known.items, &known.spots),
        Which::Storage => storage_of(&known.spots),
        Which::Files => known.selects.len() as u64,
        Which::Nesting | Which::Cells | Which::Nodes => 0,
    }
}

fn limit_of(which: Which) -> u64
    ensures { result ≡ limit_of which }
{
    match which {
        Which::Items => 512,
        Which::Storage => STORAGE_LIMIT,
        Which::Files => 16,
        Which::Nesting | Which::Cells | Which::Nodes => 0,
    }
}

fn limit_or(known: &Known, which: Which, other: Option<DataEnd>) -> Option<DataEnd>
    requires { AreSeated known.now }
    ensures { result ≡ limit_or known.now which other }
{
    let count = count_of(known, which);
    if limit_of(which) < count {
        Some(DataEnd::Limit { which, count })
    } else {
        other
    }
}

/// The first limit that is exceeded.
fn limit_in(known: &Known) -> Option<DataEnd>
    requires { AreSeated known.now }
    ensures { result ≡ limit_in known.now }
{
    let files = limit_or(known, Which::Files, None);
    let storage = limit_or(known, Which::Storage, files);
    limit_or(known, Which::Items, storage)
}

/// Why there is no layout: the first broken rule, or else the first limit that is exceeded.
pub fn refusal_in(known: &Known, names: &Names) -> Option<DataEnd>
    requires seated { AreSeated known.now }
    requires named { HasNames names.now known.now }
    requires few { length known.now.fds ≤ token_limit }
    ensures { result ≡ refusal_in known.now }
{
    match known.first_broken(names) {
        None => limit_in(known),
        Some((rule, line)) => Some(DataEnd::Outside { rule, line }),
    }
}
