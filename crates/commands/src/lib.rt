//! The commands: their answers with texts and statuses, the report on a program, what is shown, and the source that each
//! of them reads.
//!
//! `check` shows nothing and changes no file. `analyse` and `trial` read a source, or make one of the length that is asked
//! for, and analyse it; text and report are made before the certificate's file is. `run` makes the task that its words ask
//! for, runs it, and tells in a line how the run ended.
#![tactic(auto)]

mod analysing;
mod answer;
mod checking;
mod laws;
mod running;
mod show;
mod source;
mod text;

pub use analysing::findings::{Findings, findings_for, found_for, tell};
pub use analysing::trial::{TRIAL_NAME, trial_findings};
pub use answer::{Answer, Stop};
pub use cert_check::{CheckEnd, accepted_claims_cover_runs, check as check_claims};
pub use checking::alarms::{Alarm, alarms_of};
pub use checking::certificate::{CERTIFICATE_LIMIT, check, check_certificate};
pub use checking::report_text::{push_number, push_report, report};
pub use laws::bytes_are_of_the_profile_or_not;
pub use running::task::{Task, run, task_for};
pub use show::{
    CERTIFICATE_REFUSED, OUT_OF_MEMORY, READ_FAULT, WRITE_FAULT, show_found, show_line, show_text,
    status_of,
};
pub use source::{Laid, answer_to, laid_in, read_source};
pub use text::answer_text;
