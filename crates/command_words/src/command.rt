//! The commands.

/// What the words of `run` say, in the caller's own words: the source, the budget of steps, and the words `NAME=PATH`
/// in their order.
#[derive(Drop)]
pub struct RunWords<'a> {
    pub source: &'a str,
    pub steps: u64,
    pub names: Vec<&'a str>,
}

/// What the words of the command line ask for, in the caller's own words.
#[derive(Drop)]
pub enum Command<'a> {
    /// Analyse a source, and write its certificate.
    Analyse {
        source: &'a str,
        certificate: &'a str,
    },
    /// Check a certificate of a source.
    Check {
        source: &'a str,
        certificate: &'a str,
    },
    /// Run a source.
    Run(RunWords<'a>),
    /// Make a source of this length, analyse it, and check its certificate: 1 to 9,999.
    Trial {
        count: u32,
    },
}
