//! The words as `clap` reads them. No clause here tells what it reads.

use clap::builder::ValueRange;
use clap::error::ErrorKind;
use clap::{Arg, ArgAction, ArgMatches, Command, Error, value_parser};
use std::alloc::{AllocError, Global};

const WORDS: &str = "words";

// So many plain words.
fn plain_arg<'a, R: Into<ValueRange>>(alloc: Global, count: R) -> Arg<'a> {
    Arg::new(alloc, WORDS).required(true).num_args(count)
}

// Plain words, with the option anywhere among them.
fn run_arg<'a>(alloc: Global) -> Arg<'a> {
    plain_arg(alloc, 1..).action(ArgAction::Append)
}

fn steps_arg<'a>(alloc: Global) -> Arg<'a> {
    Arg::new(alloc, "steps")
        .long("steps")
        .value_parser(value_parser!(u64).range(1..=999_999_999_999_999_999))
}

fn trial_arg<'a>(alloc: Global) -> Arg<'a> {
    plain_arg(alloc, 1).value_parser(value_parser!(u64).range(1..=9_999))
}

// The command line: one command with one level of subcommands.
fn command_line<'a>(alloc: Global) -> Result<Command<'a>, AllocError> {
    let analyse = Command::new(alloc, "analyse").arg(plain_arg(alloc, 2))?;
    let check = Command::new(alloc, "check").arg(plain_arg(alloc, 2))?;
    let run = Command::new(alloc, "run")
        .arg(steps_arg(alloc))?
        .arg(run_arg(alloc))?;
    let trial = Command::new(alloc, "trial").arg(trial_arg(alloc))?;
    Command::new(alloc, "cobsound")
        .no_binary_name(true)
        .subcommand_required(true)
        .disable_help_subcommand(true)
        .disable_help_flag(true)
        .subcommand(analyse.disable_help_flag(true))?
        .subcommand(check.disable_help_flag(true))?
        .subcommand(run.disable_help_flag(true))?
        .subcommand(trial.disable_help_flag(true))
}

fn matches_of<'a>(alloc: Global, words: &'a [String]) -> Result<ArgMatches<'a>, Error> {
    command_line(alloc)?.try_get_matches_from(words)
}

// The plain words of the subcommand that was used.
fn plain_in<'a>(
    alloc: Global,
    matches: &ArgMatches<'a>,
) -> Result<Option<Vec<&'a str>>, AllocError> {
    let Some((_, inner)) = matches.subcommand() else {
        return Ok(None);
    };
    let Some(texts) = inner.get_strs(WORDS) else {
        return Ok(None);
    };
    let mut plain = Vec::new(alloc);
    for place in 0..texts.len() {
        plain.push(texts[place])?;
    }
    Ok(Some(plain))
}

/// The plain words that `clap` reads, or None where it refuses the words.
pub fn plain_by_clap<'a>(
    alloc: Global,
    words: &'a [String],
) -> Result<Option<Vec<&'a str>>, AllocError> {
    match matches_of(alloc, words) {
        Ok(matches) => plain_in(alloc, &matches),
        Err(error) if error.kind() == ErrorKind::OutOfMemory => Err(AllocError),
        Err(_) => Ok(None),
    }
}
