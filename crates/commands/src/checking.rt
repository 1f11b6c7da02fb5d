//! `check`: the answer to a source and a certificate, and the report on the alarms that are left.

pub(crate) mod alarms;
pub(crate) mod certificate;
pub(crate) mod report_text;
