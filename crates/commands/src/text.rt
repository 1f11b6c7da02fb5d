//! The text of answers: reports and refusals.
ghost use Rattle.std.specs.Prelude.{◌≡◌, ◌++◌, codes, decimal, OnOk, IfOk};
ghost use Rattle.commands.specs.ReportText.{line_end};
ghost use Rattle.commands.specs.Text.{at_line, bound_text, gap_text, leak_line, over_line, refusal_text, rule_text, shape_line, shape_text, ends_text, cell_text, difference_text, place_text, place_line, which_text};
ghost use Rattle.commands.specs.View.{plain_answer};
ghost use Rattle.commands.specs.Answer.{answer_text, usage_text};

use crate::answer::Answer;
use crate::{push_number, push_report};
use cert_check::{Gap, Shape};
use cob_data::{Rule, Which};
use cob_front::Refusal;
use std::alloc::{AllocError, Global};

// The two ends of a claim that was not met.
fn push_ends(text: &mut Vec<u8>, reached: i64, claimed: i64) -> Result<(), AllocError>
    ensures { OnOk result (text.new.items ≡ text.old.items ++ ends_text reached claimed) }
{
    text.extend_from_slice(b" reached ")?;
    push_number(text, reached)?;
    text.extend_from_slice(b" claimed ")?;
    push_number(text, claimed)
}

fn push_cell(text: &mut Vec<u8>, cell: u32) -> Result<(), AllocError>
    ensures { OnOk result (text.new.items ≡ text.old.items ++ cell_text cell) }
{
    text.extend_from_slice(b" cell ")?;
    push_number(text, cell)
}

fn push_bound(text: &mut Vec<u8>, bound: Option<i128>) -> Result<(), AllocError>
    ensures { OnOk result (text.new.items ≡ text.old.items ++ bound_text bound) }
{
    match bound {
        Some(most) => push_number(text, most),
        None => text.extend_from_slice(b"none"),
    }
}

fn push_place(text: &mut Vec<u8>, pack: u32, row: u32, column: u32) -> Result<(), AllocError>
    ensures { OnOk result (text.new.items ≡ text.old.items ++ place_text pack row column) }
{
    text.extend_from_slice(b" pack ")?;
    push_number(text, pack)?;
    text.extend_from_slice(b" row ")?;
    push_number(text, row)?;
    text.extend_from_slice(b" column ")?;
    push_number(text, column)
}

fn push_difference(
    text: &mut Vec<u8>,
    reached: Option<i128>,
    claimed: i128,
) -> Result<(), AllocError>
    ensures { OnOk result (text.new.items ≡ text.old.items ++ difference_text reached claimed) }
{
    text.extend_from_slice(b" reached ")?;
    push_bound(text, reached)?;
    text.extend_from_slice(b" claimed ")?;
    push_number(text, claimed)
}

fn push_gap(text: &mut Vec<u8>, gap: &Gap) -> Result<(), AllocError>
    ensures { OnOk result (text.new.items ≡ text.old.items ++ gap_text gap.now) }
{
    match gap {
        Gap::Reach => text.extend_from_slice(b" reach"),
        Gap::Class { cell } => {
            push_cell(text, *cell)?;
            text.extend_from_slice(b" class")
        }
        Gap::Low {
            cell,
            reached,
            claimed,
        } => {
            push_cell(text, *cell)?;
            text.extend_from_slice(b" low")?;
            push_ends(text, *reached, *claimed)
        }
        Gap::High {
            cell,
            reached,
            claimed,
        } => {
            push_cell(text, *cell)?;
            text.extend_from_slice(b" high")?;
            push_ends(text, *reached, *claimed)
        }
        Gap::Diff {
            pack,
            row,
            column,
            reached,
            claimed,
        } => {
            push_place(text, *pack, *row, *column)?;
            push_difference(text, *reached, *claimed)
        }
    }
}

/// The text of an answer: its report, or the one line of its refusal.
pub fn answer_text(alloc: Global, answer: &Answer) -> Result<Vec<u8>, AllocError>
    ensures { IfOk result (λ text. text.items ≡ answer_text (plain_answer answer.now)) }
{
    let mut text = Vec::new(alloc);
    push_answer(&mut text, answer)?;
    Ok(text)
}

fn push_word(text: &mut Vec<u8>, head: &[u8], word: &str) -> Result<(), AllocError>
    ensures { OnOk result (text.new.items ≡ text.old.items ++ (head.now ++ word.now ++ line_end)) }
{
    text.extend_from_slice(head)?;
    text.extend_from_slice(word.as_bytes())?;
    text.extend_from_slice(b"\n")
}

fn push_usage(text: &mut Vec<u8>, word: &str) -> Result<(), AllocError>
    ensures { OnOk result (text.new.items ≡ text.old.items ++ usage_text word.now) }
{
    if word.is_empty() {
        return text.extend_from_slice(b"E1 usage\n");
    }
    push_word(text, b"E1 usage ", word)
}

fn push_line(text: &mut Vec<u8>, code: &[u8], line: u32) -> Result<(), AllocError>
    ensures { OnOk result (text.new.items ≡ text.old.items ++ at_line code.now line) }
{
    text.extend_from_slice(code)?;
    text.extend_from_slice(b" line ")?;
    push_number(text, line)?;
    text.extend_from_slice(b"\n")
}

fn push_place_line(
    text: &mut Vec<u8>,
    code: &[u8],
    line: u32,
    column: u32,
) -> Result<(), AllocError>
    ensures { OnOk result (text.new.items ≡ text.old.items ++ place_line code.now line column) }
{
    text.extend_from_slice(code)?;
    text.extend_from_slice(b" line ")?;
    push_number(text, line)?;
    text.extend_from_slice(b" column ")?;
    push_number(text, column)?;
    text.extend_from_slice(b"\n")
}

fn rule_text(rule: Rule) -> &'static [u8]
    ensures { result.now ≡ rule_text rule }
{
    match rule {
        Rule::L1 => b"L1",
        Rule::L2 => b"L2",
        Rule::L3 => b"L3",
        Rule::L4 => b"L4",
        Rule::L5 => b"L5",
        Rule::L6 => b"L6",
        Rule::L7 => b"L7",
        Rule::L8 => b"L8",
        Rule::L9 => b"L9",
        Rule::L10 => b"L10",
        Rule::L11 => b"L11",
        Rule::L12 => b"L12",
        Rule::Q1 => b"Q1",
        Rule::Q2 => b"Q2",
        Rule::Q3 => b"Q3",
        Rule::Q4 => b"Q4",
        Rule::Q5 => b"Q5",
        Rule::Q6 => b"Q6",
        Rule::Q7 => b"Q7",
        Rule::Q8 => b"Q8",
        Rule::Q9 => b"Q9",
        Rule::Q10 => b"Q10",
        Rule::Q11 => b"Q11",
        Rule::N5 => b"N5",
        Rule::N1 => b"N1",
        Rule::N2 => b"N2",
        Rule::N3 => b"N3",
        Rule::N4 => b"N4",
    }
}

fn which_text(which: Which) -> &'static [u8]
    ensures { result.now ≡ which_text which }
{
    match which {
        Which::Nesting => b"nesting",
        Which::Items => b"items",
        Which::Storage => b"storage",
        Which::Files => b"files",
        Which::Cells => b"cells",
        Which::Nodes => b"nodes",
    }
}

fn push_broken(text: &mut Vec<u8>, rule: Rule, line: u32) -> Result<(), AllocError>
    ensures { OnOk result (text.new.items ≡ text.old.items ++ at_line (codes "E9 " ++ rule_text rule) line) }
{
    text.extend_from_slice(b"E9 ")?;
    push_line(text, rule_text(rule), line)
}

fn push_over(text: &mut Vec<u8>, which: Which, count: u64) -> Result<(), AllocError>
    ensures { OnOk result (text.new.items ≡ text.old.items ++ over_line which count) }
{
    text.extend_from_slice(b"E10 ")?;
    text.extend_from_slice(which_text(which))?;
    text.extend_from_slice(b" ")?;
    push_number(text, count)?;
    text.extend_from_slice(b"\n")
}

fn push_refusal(text: &mut Vec<u8>, cause: Refusal) -> Result<(), AllocError>
    ensures { OnOk result (text.new.items ≡ text.old.items ++ refusal_text cause) }
{
    match cause {
        Refusal::TooLong => text.extend_from_slice(b"E5 source too long\n"),
        Refusal::BadLine { line, column } => push_place_line(text, b"E6", line, column),
        Refusal::BadToken { line, column } => push_place_line(text, b"E7", line, column),
        Refusal::Syntax { line } => push_line(text, b"E8", line),
        Refusal::Nesting { count } => push_over(text, Which::Nesting, u64::from(count)),
        Refusal::Outside { rule, line } => push_broken(text, rule, line),
        Refusal::Limit { which, count } => push_over(text, which, count),
        Refusal::Memory => text.extend_from_slice(b"E19 memory\n"),
    }
}

fn push_leak(text: &mut Vec<u8>, layer: u8, edge: u32, gap: &Gap) -> Result<(), AllocError>
    ensures { OnOk result (text.new.items ≡ text.old.items ++ leak_line layer edge gap.now) }
{
    text.extend_from_slice(b"E14 layer ")?;
    push_number(text, layer)?;
    text.extend_from_slice(b" edge ")?;
    push_number(text, edge)?;
    push_gap(text, gap)?;
    text.extend_from_slice(b"\n")
}

fn shape_text(what: Shape) -> &'static [u8]
    ensures { result.now ≡ shape_text what }
{
    match what {
        Shape::Cells => b"cells",
        Shape::Nodes => b"nodes",
    }
}

fn push_misfit(text: &mut Vec<u8>, what: Shape, found: u32, wanted: u32) -> Result<(), AllocError>
    ensures { OnOk result (text.new.items ≡ text.old.items ++ shape_line what found wanted) }
{
    text.extend_from_slice(b"E13 ")?;
    text.extend_from_slice(shape_text(what))?;
    text.extend_from_slice(b" found ")?;
    push_number(text, found)?;
    text.extend_from_slice(b" wanted ")?;
    push_number(text, wanted)?;
    text.extend_from_slice(b"\n")
}

fn push_answer(text: &mut Vec<u8>, answer: &Answer) -> Result<(), AllocError>
    ensures { OnOk result (text.new.items ≡ text.old.items ++ answer_text (plain_answer answer.now)) }
{
    match answer {
        Answer::Usage(word) => push_usage(text, word),
        Answer::NoPaths(word) => push_usage(text, word.as_str()),
        Answer::Absent(name) => push_word(text, b"E2 absent ", name),
        Answer::Refused(cause) => push_refusal(text, *cause),
        Answer::CertificateLong => text.extend_from_slice(b"E11 certificate too long\n"),
        Answer::CertificateBad(line) => push_line(text, b"E12", *line),
        Answer::CertificateMisfit(what, found, wanted) => push_misfit(text, *what, *found, *wanted),
        Answer::NotInductive(layer, edge, gap) => push_leak(text, *layer, *edge, gap),
        Answer::Report(alarms) => push_report(text, alarms),
    }
}
