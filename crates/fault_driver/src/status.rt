//! Commands, done on files and a sink.
use batch_io::{MemFiles, MemSink};
use command_words::RunWords;
use commands::{
    Answer, Findings, Stop, TRIAL_NAME, check, findings_for, run, show_found, task_for, tell,
    trial_findings,
};
use std::alloc::Global;

// Tells what is found, or why nothing is.
fn told(
    alloc: Global,
    findings: Result<Findings, Result<Answer, Stop>>,
    certificate: &str,
    files: &mut MemFiles,
    out: &mut MemSink,
) -> u8 {
    match findings {
        Ok(findings) => tell(&findings, certificate, files, out),
        Err(found) => show_found(alloc, found, out),
    }
}

// Runs a source whose files have their own names as paths.
fn run_status(alloc: Global, source: &str, files: &mut MemFiles, out: &mut MemSink) -> u8 {
    let said = RunWords {
        source,
        steps: 1_000_000,
        names: Vec::new(alloc),
    };
    match task_for(alloc, &said, files) {
        Ok(task) => run(alloc, &task, files, out),
        Err(found) => show_found(alloc, found, out),
    }
}

/// The status of a command, nothing where its words can't be read.
pub fn status_of(
    alloc: Global,
    words: &[&str],
    files: &mut MemFiles,
    out: &mut MemSink,
) -> Option<u8> {
    match words {
        ["check", source, certificate] => {
            let found = check(alloc, source, certificate, files);
            Some(show_found(alloc, found, out))
        }
        ["analyse", source, certificate] => {
            let findings = findings_for(alloc, source, files);
            Some(told(alloc, findings, certificate, files, out))
        }
        ["trial", count] => {
            let findings = trial_findings(alloc, count.parse::<u32>().ok()?);
            Some(told(alloc, findings, TRIAL_NAME, files, out))
        }
        ["run", source] => Some(run_status(alloc, source, files, out)),
        _ => None,
    }
}
