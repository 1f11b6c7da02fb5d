//! The command `trial`: a source of the length that is asked for is made and analysed; what is found is then told as of
//! `analyse`, behind a line with the number of nodes.

ghost use Rattle.std.specs.Prelude.{◌≡◌, ◌++◌, IfErr, IfOk, MatchResult};
ghost use Rattle.commands.specs.Steps.{IsOfSource};
ghost use Rattle.commands.specs.View.{plain_answer};
ghost use Rattle.commands.specs.TrialEndings.{AnswersTrial, nodes_line};
ghost use Rattle.commands.specs.TrialSteps.{IsNumberedFinding, IsTrialFinding};

use crate::analysing::findings::{Findings, found_for};
use crate::analysing::trial_source::trial_source;
use crate::answer::{Answer, Stop};
use crate::checking::report_text::push_number;
use crate::source::{Laid, answer_to, laid_in};
use std::alloc::{AllocError, Global};

/// The name of the file that a trial writes.
pub const TRIAL_NAME: &str = "TRIAL";

// The line that tells the number of nodes, and a report.
fn with_nodes(alloc: Global, nodes: usize, report: &[u8]) -> Result<Vec<u8>, AllocError>
    ensures { IfOk result (λ text. text.items ≡ nodes_line nodes ++ report.now) }
{
    let mut text = Vec::new(alloc);
    text.extend_from_slice(b"nodes ")?;
    push_number(&mut text, nodes)?;
    text.extend_from_slice(b"\n")?;
    text.extend_from_slice(report)?;
    Ok(text)
}

// What is found for a source that was read, with the number of its nodes.
fn numbered_findings(alloc: Global, laid: &Laid) -> Result<Findings, Stop>
    requires { IsOfSource laid.now }
    ensures { MatchResult result (IsNumberedFinding laid.now) (λ stop. stop ≡ Stop.Memory) }
{
    let found = found_for(alloc, laid)?;
    let report = with_nodes(alloc, laid.graph.nodes.get().len(), &found.report)?;
    Ok(Findings {
        certificate: found.certificate,
        report,
        status: found.status,
    })
}

/// What is found for the source of a trial with so many paragraphs. Or else the answer to it, or want of memory.
pub fn trial_findings<'a>(alloc: Global, count: u32) -> Result<Findings, Result<Answer<'a>, Stop>>
    ensures finding { IfOk result (IsTrialFinding count) }
    ensures answer { IfErr result (λ found. MatchResult found
        (λ answer. AnswersTrial count (plain_answer answer)) (λ stop. stop ≡ Stop.Memory)) }
{
    let Ok(text) = trial_source(alloc, count) else {
        return Err(Err(Stop::Memory));
    };
    match laid_in(alloc, &text) {
        Ok(laid) => match numbered_findings(alloc, &laid) {
            Ok(findings) => Ok(findings),
            Err(stop) => Err(Err(stop)),
        },
        Err(cause) => Err(answer_to(cause)),
    }
}
