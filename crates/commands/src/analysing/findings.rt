//! `analyse`: the certificate that is found for a source, its file, and its report.
ghost use Rattle.std.specs.Prelude.{◌≡◌, ◌<◌, List, [], ℕ, false, MatchResult, IfErr, IfOk, IfSome};
ghost use Rattle.batch_io.specs.FilesState.{KeepsIds, known_bytes};
ghost use Rattle.cert_text.specs.View.{view};
ghost use Rattle.cob_program.specs.ActView.{plain_program};
ghost use Rattle.commands.specs.Call.{call};
ghost use Rattle.commands.specs.Steps.{IsOfSource, Reads, refused_by_fault};
ghost use Rattle.commands.specs.Answer.{AnswersSource, is_usage};
ghost use Rattle.commands.specs.View.{plain_answer};
ghost use Rattle.commands.specs.Analysis.{Analysis, IsFound, analysis, pairs_of};
ghost use Rattle.commands.specs.Endings.{EndsWithAnalysis};
ghost use Rattle.commands.specs.AnalysisSteps.{IsFinding, IsFindingFor, IsFindingOf};

use crate::answer::{Answer, Stop};
use crate::checking::alarms::alarms_of;
use crate::checking::certificate::CERTIFICATE_LIMIT;
use crate::show::{
    CERTIFICATE_REFUSED, OUT_OF_MEMORY, WRITE_FAULT, show_line, show_text, status_of,
};
use crate::source::{Laid, read_source};
use crate::text::answer_text;
use analyse_core::{Found, find};
use batch_io::{Files, MakeEnd, Sink, put_file};
use cert_text::print;
use dom_laws::Steps;
use source_facts::sources_have_source_graphs;
use std::alloc::Global;
use std::marker::Brand;
use std::sync::ledger::{Blank, Ledger};

/// What is found for a source: the text of its certificate, and that of its report with its status.
#[derive(Drop)]
pub struct Findings {
    pub certificate: Vec<u8>,
    pub report: Vec<u8>,
    pub status: u8,
}

// The texts of what was found.
fn texts_of(alloc: Global, laid: &Laid, found: &Found) -> Result<Findings, Stop>
    requires found { IsFound (analysis (plain_program laid.now.program) laid.now.graph (view found.now.cert)) }
    requires pairs { found.now.pairs.items
        ≡ pairs_of (analysis (plain_program laid.now.program) laid.now.graph (view found.now.cert)) }
    ensures { MatchResult result
        (IsFinding [] (analysis (plain_program laid.now.program) laid.now.graph (view found.now.cert)))
        (λ stop. stop ≡ Stop.Memory) }
{
    let alarms = alarms_of(alloc, &laid.program, &found.pairs)?;
    let report = Answer::Report(alarms);
    let certificate = print(alloc, &found.cert)?;
    let text = answer_text(alloc, &report)?;
    Ok(Findings {
        certificate,
        status: status_of(&report),
        report: text,
    })
}

// Finds with a counter of the analysis' steps, which nobody reads.
fn found_counted<L: Ledger>(alloc: Global, laid: &Laid, blank: Blank) -> Result<Findings, Stop>
    requires source { IsOfSource laid.now }
    requires name { blank.name ≡ L.name }
    requires parts { blank.parts ≡ L.parts }
    requires some { 0 < L.parts }
    ensures { MatchResult result (IsFindingFor laid.now) (λ stop. stop ≡ Stop.Memory) }
{
    sources_have_source_graphs();
    let mut steps = Steps::<L>::open(blank);
    let found = find(alloc, &laid.program, &laid.graph, &mut steps)?;
    texts_of(alloc, laid, &found)
}

/// What is found for a source that was read: the text of a certificate that holds, and the report of what it leaves
/// open. An error where memory ran out.
pub fn found_for(alloc: Global, laid: &Laid) -> Result<Findings, Stop>
    requires { IsOfSource laid.now }
    ensures { MatchResult result (IsFindingFor laid.now) (λ stop. stop ≡ Stop.Memory) }
{
    found_counted::<Brand>(alloc, laid, Blank::new(1))
}

/// Reads a source, and finds a certificate for it. Or else the answer to the source, or why there is none.
pub fn findings_for<'a, F: Files>(
    alloc: Global,
    source: &'a str,
    files: &mut F,
) -> Result<Findings, Result<Answer<'a>, Stop>>
    ensures reads { Reads (F.state files.old) (F.state files.new) (refused_by_fault result) }
    ensures finding { IfOk result (IsFindingOf (known_bytes (F.state files.old)) source.now) }
    ensures answer { IfErr result (λ found. IfOk found (λ answer. IfSome (known_bytes (F.state files.old)) (λ contents.
        AnswersSource contents source.now (plain_answer answer)))) }
    ensures usage { IfErr result (λ found. IfOk found (λ answer. is_usage (plain_answer answer) ≡ false)) }
{
    let laid = match read_source(alloc, source, files) {
        Ok(laid) => laid,
        Err(found) => return Err(found),
    };
    match found_for(alloc, &laid) {
        Ok(findings) => Ok(findings),
        Err(stop) => Err(Err(stop)),
    }
}

/// Makes the certificate's file, or empties it, and writes the text, unless that is too long; then shows the report. Gives
/// the process's status.
pub fn tell<F: Files, O: Sink>(
    findings: &Findings,
    certificate: &str,
    files: &mut F,
    out: &mut O,
) -> u8
    ensures ids { KeepsIds (F.state files.old) (F.state files.new) }
    ensures reading { (F.state files.new).reading ≡ (F.state files.old).reading }
    ensures ends { (words : List (List ℕ)) (heading : List ℕ) (a : Analysis) → IsFinding heading a findings.now → EndsWithAnalysis
        (call words (F.state files.old) (F.state files.new) (O.state out.old) (O.state out.new) result) certificate.now heading a }
{
    if findings.certificate.len() > CERTIFICATE_LIMIT {
        return show_line(out, b"E11 certificate too long\n", CERTIFICATE_REFUSED);
    }
    match put_file(files, certificate, &findings.certificate) {
        Ok(()) => show_text(out, &findings.report, findings.status, WRITE_FAULT),
        Err(MakeEnd::Failed) => show_line(out, b"E4 write\n", WRITE_FAULT),
        Err(MakeEnd::Memory) => show_line(out, b"E19 memory\n", OUT_OF_MEMORY),
    }
}
