//! The text of a report.
ghost use Rattle.std.specs.Prelude.{◌≡◌, ◌++◌, OnOk, IfOk};
ghost use Rattle.cob_program.specs.ActView.{plain_program};
ghost use Rattle.commands.specs.Alarms.{alarms_of};
ghost use Rattle.commands.specs.ReportText.{alarm_text, report_text};

use crate::checking::alarms::{Alarm, alarms_of};
use cob_program::Program;
use cob_tree::Open;
use itoa::{Buffer, Integer};
use std::alloc::{AllocError, Global};

/// Appends a number in decimal.
pub fn push_number<I: Integer>(text: &mut Vec<u8>, number: I) -> Result<(), AllocError>
    ensures { OnOk result (text.new.items ≡ text.old.items ++ I.text number) }
{
    let mut buffer = Buffer::new();
    text.extend_from_slice(buffer.format(number).as_bytes())
}

fn push_alarm(text: &mut Vec<u8>, alarm: &Alarm) -> Result<(), AllocError>
    ensures { OnOk result (text.new.items ≡ text.old.items ++ alarm_text alarm.now) }
{
    text.extend_from_slice(alarm.kind.text().as_bytes())?;
    text.extend_from_slice(b" statement ")?;
    push_number(text, alarm.statement)?;
    text.extend_from_slice(b" line ")?;
    push_number(text, alarm.line)?;
    text.extend_from_slice(b"\n")
}

/// Appends the report with these alarms: `clean`, or a line for each and their number.
pub fn push_report(text: &mut Vec<u8>, alarms: &[Alarm]) -> Result<(), AllocError>
    ensures { OnOk result (text.new.items ≡ text.old.items ++ report_text alarms.now) }
{
    if alarms.is_empty() {
        return text.extend_from_slice(b"clean\n");
    }
    for alarm in alarms {
        push_alarm(text, alarm)?;
    }
    text.extend_from_slice(b"alarms ")?;
    push_number(text, alarms.len())?;
    text.extend_from_slice(b"\n")
}

/// The report on a program that leaves these pairs open.
pub fn report(alloc: Global, program: &Program, pairs: &[Open]) -> Result<Vec<u8>, AllocError>
    ensures { IfOk result (λ text. text.items ≡ report_text (alarms_of (plain_program program.now) pairs.now)) }
{
    let alarms = alarms_of(alloc, program, pairs)?;
    let mut text = Vec::new(alloc);
    push_report(&mut text, &alarms)?;
    Ok(text)
}
