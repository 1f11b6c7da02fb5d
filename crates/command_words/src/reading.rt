//! What the words of the command line say.
ghost use Rattle.std.specs.Prelude.{◌≡◌, ℕ, List, IfOk, MatchOption};
ghost use Rattle.command_words.specs.Words.{texts, lent_texts};
ghost use Rattle.command_words.specs.Commands.{Answers, IsCommand, OneReading, Run, SayPair, SayRun, SayTrial, plain_run};
ghost use Rattle.command_words.specs.Parts.{plain_of, IsSaidBy};

use crate::by_clap::plain_by_clap;
use crate::command::{Command, RunWords};
use crate::number::number_up_to;
use crate::parts::{Parts, parts_of};
use std::alloc::{AllocError, Global};

const USUAL_STEPS: u64 = 1_000_000;

const MOST_TRIAL: u64 = 9_999;

// The plain words, as `clap` reads them; or those of the parts, where it refuses the words or reads others.
fn plain_words<'a>(
    alloc: Global,
    words: &'a [String],
    parts: &Parts<'a>,
) -> Result<Vec<&'a str>, AllocError>
    ensures { IfOk result (λ plain. lent_texts plain.items ≡ plain_of parts.now) }
{
    match plain_by_clap(alloc, words)? {
        Some(plain) if parts.are(&plain) => Ok(plain),
        _ => parts.plain(alloc),
    }
}

// The source and the certificate, where there are two plain words and no number of steps.
fn pair_of<'a>(plain: &[&'a str], steps: Option<u64>) -> Option<(&'a str, &'a str)>
    ensures { MatchOption result
        ((source certificate : List ℕ) → SayPair (lent_texts plain.now) steps source certificate → ⊥)
        (λ pair. SayPair (lent_texts plain.now) steps pair.0.now pair.1.now) }
{
    match (plain, steps) {
        ([source, certificate], None) => Some((*source, *certificate)),
        _ => None,
    }
}

// The number of a trial, where there is one plain word and no number of steps.
fn trial_of(plain: &[&str], steps: Option<u64>) -> Option<u32>
    ensures { MatchOption result
        ((count : ℕ) → SayTrial (lent_texts plain.now) steps count → ⊥)
        (λ count. SayTrial (lent_texts plain.now) steps count) }
{
    match (plain, steps) {
        ([word], None) => match number_up_to(word, MOST_TRIAL) {
            Some(count) => Some(count as u32),
            None => None,
        },
        _ => None,
    }
}

// What is to be run, where there is a plain word.
fn run_of<'a>(mut plain: Vec<&'a str>, steps: Option<u64>) -> Option<RunWords<'a>>
    ensures { MatchOption result
        ((r : Run) → SayRun (lent_texts plain.entry.items) steps r → ⊥)
        (λ r. SayRun (lent_texts plain.entry.items) steps (plain_run r)) }
{
    if plain.as_slice().is_empty() {
        return None;
    }
    let source = plain.remove(0);
    Some(RunWords {
        source,
        steps: steps.unwrap_or(USUAL_STEPS),
        names: plain,
    })
}

// What the first word says with the plain words and the number of steps.
fn said<'a>(first: &str, plain: Vec<&'a str>, steps: Option<u64>) -> Option<Command<'a>>
    ensures { Answers (IsSaidBy first.now (lent_texts plain.entry.items) steps) result }
{
    match first {
        "analyse" => {
            let (source, certificate) = pair_of(&plain, steps)?;
            Some(Command::Analyse {
                source,
                certificate,
            })
        }
        "check" => {
            let (source, certificate) = pair_of(&plain, steps)?;
            Some(Command::Check {
                source,
                certificate,
            })
        }
        "run" => Some(Command::Run(run_of(plain, steps)?)),
        "trial" => Some(Command::Trial {
            count: trial_of(&plain, steps)?,
        }),
        _ => None,
    }
}

/// What the words say, without the program's own name. None where they say no command.
pub fn command_of<'a>(alloc: Global, words: &'a [String]) -> Result<Option<Command<'a>>, AllocError>
    ensures { IfOk result (Answers (IsCommand (texts words.now))) }
{
    if words.is_empty() {
        return Ok(None);
    }
    let Some(parts) = parts_of(&words[1..]) else {
        return Ok(None);
    };
    let plain = plain_words(alloc, words, &parts)?;
    Ok(said(words[0].as_str(), plain, parts.steps))
}

/// Words are read in one way.
pub fn one_reading()
    ensures { OneReading }
{}
