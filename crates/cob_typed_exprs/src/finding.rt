//! Rules that are broken, with their lines.
ghost use Rattle.std.specs.Prelude.{◌≡◌, OnOk};
ghost use Rattle.cob_typed_exprs.specs.Judged.{noted, one, unless};

use cob_data::Rule;
use std::alloc::AllocError;

/// A rule that is broken, and the line of the statement that breaks it.
#[derive(Clone, Copy, PartialEq, Eq)]
pub struct Finding {
    pub rule: Rule,
    pub line: u32,
}

/// Notes that a rule is broken.
pub fn note(findings: &mut Vec<Finding>, line: u32, rule: Rule) -> Result<(), AllocError>
    ensures { OnOk result (findings.new.items ≡ noted line findings.old.items (one rule)) }
{
    findings.push(Finding { rule, line })?;
    Ok(())
}

/// Notes that a rule is broken, unless what it demands is met.
pub fn demand(
    findings: &mut Vec<Finding>,
    line: u32,
    rule: Rule,
    met: bool,
) -> Result<(), AllocError>
    ensures { OnOk result (findings.new.items ≡ noted line findings.old.items (unless rule met)) }
{
    if met {
        Ok(())
    } else {
        note(findings, line, rule)
    }
}
