//! `check`: the answer to a source and a certificate.
ghost use Rattle.std.specs.Prelude.{◌≡◌, false, IfOk, IfSome, MatchResult};
ghost use Rattle.batch_io.specs.FilesState.{known_bytes};
ghost use Rattle.cert_text.specs.View.{view};
ghost use Rattle.cert_text.specs.Allowed.{IsAllowed};
ghost use Rattle.cob_program.specs.ActView.{plain_program};
ghost use Rattle.commands.specs.Answer.{is_usage};
ghost use Rattle.commands.specs.Steps.{Reads, stopped_by_fault, IsOfSource};
ghost use Rattle.commands.specs.View.{plain_answer};
ghost use Rattle.commands.specs.CheckAnswers.{AnswersCertificate, AnswersCheck, AnswersProgram};
ghost use Rattle.commands.specs.CheckSteps.{AnswersBytes};

use crate::{Answer, CheckEnd, Laid, Stop, alarms_of, check_claims, read_source};
use batch_io::{FileEnd, Files, read_file};
use cert_text::{Cert, CertEnd, read as read_certificate};
use source_facts::sources_have_source_graphs;
use std::alloc::Global;

/// The most bytes of a certificate.
pub const CERTIFICATE_LIMIT: usize = 67_108_864;

/// Answers `check SOURCE CERT`: for the source's file, then for the certificate's, which is read where the source is of
/// the profile, and then for both together. An error where a file couldn't be read, or memory ran out.
pub fn check<'a, F: Files>(
    alloc: Global,
    source: &'a str,
    certificate: &'a str,
    files: &mut F,
) -> Result<Answer<'a>, Stop>
    ensures reads { Reads (F.state files.old) (F.state files.new) (stopped_by_fault result) }
    ensures answer { IfOk result (λ answer. IfSome (known_bytes (F.state files.old)) (λ contents.
        AnswersCheck contents source.now certificate.now (plain_answer answer))) }
    ensures usage { IfOk result (λ answer. is_usage (plain_answer answer) ≡ false) }
{
    match read_source(alloc, source, files) {
        Ok(laid) => check_program(alloc, &laid, certificate, files),
        Err(found) => found,
    }
}

// Answers for a source that was read.
fn check_program<'a, F: Files>(
    alloc: Global,
    laid: &Laid,
    certificate: &'a str,
    files: &mut F,
) -> Result<Answer<'a>, Stop>
    requires { IsOfSource laid.now }
    ensures reads { Reads (F.state files.old) (F.state files.new) (stopped_by_fault result) }
    ensures answer { IfOk result (λ answer. IfSome (known_bytes (F.state files.old)) (λ contents.
        AnswersProgram contents certificate.now (plain_program laid.now.program) laid.now.graph (plain_answer answer))) }
    ensures usage { IfOk result (λ answer. is_usage (plain_answer answer) ≡ false) }
{
    match read_file(alloc, files, certificate, CERTIFICATE_LIMIT) {
        Ok(bytes) => check_bytes(alloc, laid, &bytes),
        Err(FileEnd::Absent) => Ok(Answer::Absent(certificate)),
        Err(FileEnd::Long) => Ok(Answer::CertificateLong),
        Err(FileEnd::Failed) => Err(Stop::ReadFault),
        Err(FileEnd::Memory) => Err(Stop::Memory),
    }
}

// Answers for a certificate's bytes.
fn check_bytes<'a>(alloc: Global, laid: &Laid, bytes: &[u8]) -> Result<Answer<'a>, Stop>
    requires { IsOfSource laid.now }
    ensures { MatchResult result
        (λ answer. AnswersBytes bytes.now (plain_program laid.now.program) laid.now.graph (plain_answer answer))
        (λ stop. stop ≡ Stop.Memory) }
{
    match read_certificate(alloc, bytes) {
        Ok(cert) => check_certificate(alloc, laid, &cert),
        Err(CertEnd::Syntax { line }) => Ok(Answer::CertificateBad(line)),
        Err(CertEnd::Memory) => Err(Stop::Memory),
    }
}

/// Answers for a certificate of a source that was read: the report of the pairs that it leaves open, or the count that
/// differs, or the first edge at which it isn't inductive. An error where memory ran out.
pub fn check_certificate<'a>(alloc: Global, laid: &Laid, cert: &Cert) -> Result<Answer<'a>, Stop>
    requires source { IsOfSource laid.now }
    requires allowed { IsAllowed (view cert.now) }
    ensures { MatchResult result
        (λ answer. AnswersCertificate (plain_program laid.now.program) laid.now.graph (view cert.now) (plain_answer answer))
        (λ stop. stop ≡ Stop.Memory) }
{
    sources_have_source_graphs();
    match check_claims(alloc, &laid.program, &laid.graph, cert) {
        Ok(pairs) => Ok(Answer::Report(alarms_of(alloc, &laid.program, &pairs)?)),
        Err(
            CheckEnd::Shape {
                what,
                found,
                wanted,
            },
        ) => Ok(Answer::CertificateMisfit(what, found, wanted)),
        Err(CheckEnd::NotInductive { layer, edge, gap }) => Ok(Answer::NotInductive(
            layer, edge, gap,
        )),
        Err(CheckEnd::Memory) => Err(Stop::Memory),
    }
}
