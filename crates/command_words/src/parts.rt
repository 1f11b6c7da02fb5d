//! The words behind a command's own, taken apart: plain words, `--steps` with its number among them, and what stands
//! behind `--`.
ghost use Rattle.std.specs.Prelude.{◌≡◌, ℕ, List, ◌++◌, ◌↔◌, IsTrue, IfOk, IfSome, MatchOption, Option};
ghost use Rattle.command_words.specs.Words.{IsPlain, IsNumber, texts, lent_texts};
ghost use Rattle.command_words.specs.Commands.{ArePlainly, HavePlain};
ghost use Rattle.command_words.specs.Parts.{IsPlainCount, BeginWithSteps, plain_of};

use crate::number::number_up_to;
use std::alloc::{AllocError, Global};

const MOST_STEPS: u64 = 999_999_999_999_999_999;

/// The plain words before the option, the number of steps, and the plain words behind the option, up to `--` and
/// behind it.
#[derive(Clone, Copy)]
pub struct Parts<'a> {
    pub before: &'a [String],
    pub steps: Option<u64>,
    pub after: &'a [String],
    pub later: &'a [String],
}

// Whether a word isn't the name of an option.
fn is_plain(word: &str) -> bool
    ensures { IsTrue result ↔ IsPlain word.now }
{
    !word.starts_with('-') || word == "-"
}

// How many words stand before the first that isn't plain.
fn plain_count(words: &[String]) -> usize
    ensures { IsPlainCount words.now result }
{
    for place in 0..words.len() {
        if !is_plain(words[place].as_str()) {
            return place;
        }
    }
    words.len()
}

// The words before `--`, and those behind it, where there is no option.
fn around_end(words: &[String]) -> Option<(&[String], &[String])>
    ensures { MatchOption result
        ((plain : List (List ℕ)) → ArePlainly (texts words.now) plain → ⊥)
        (λ parts. ArePlainly (texts words.now) (texts parts.0.now ++ texts parts.1.now)) }
{
    let (before, rest) = words.split_at(plain_count(words));
    match rest {
        [] => Some((before, rest)),
        [word, later @ ..] if word.as_str() == "--" => Some((before, later)),
        _ => None,
    }
}

// The number of an option at the beginning of the words, as it is written, and the words behind it.
fn behind_steps(words: &[String]) -> Option<(&str, &[String])>
    ensures { MatchOption result
        ((count : List ℕ) (after : List (List ℕ)) → BeginWithSteps (texts words.now) count after → ⊥)
        (λ found. BeginWithSteps (texts words.now) found.0.now (texts found.1.now)) }
{
    match words {
        [option, count, after @ ..] if option.as_str() == "--steps" => Some((
            count.as_str(),
            after,
        )),
        [option, after @ ..] => Some((option.as_str().strip_prefix("--steps=")?, after)),
        [] => None,
    }
}

// The parts, by those before the option, its number, and the words behind it.
fn with_rest<'a>(before: &'a [String], steps: Option<u64>, rest: &'a [String]) -> Option<Parts<'a>>
    ensures { MatchOption result
        ((plain : List (List ℕ)) → ArePlainly (texts rest.now) plain → ⊥)
        (λ p. (texts p.before.now ≡ texts before.now) × (p.steps ≡ steps)
        × ArePlainly (texts rest.now) (texts p.after.now ++ texts p.later.now)) }
{
    let (after, later) = around_end(rest)?;
    Some(Parts {
        before,
        steps,
        after,
        later,
    })
}

/// Takes the words behind a command's own apart. None where an option isn't `--steps` with its number, or stands twice.
pub fn parts_of(words: &[String]) -> Option<Parts<'_>>
    ensures { MatchOption result
        ((plain : List (List ℕ)) (steps : Option ℕ) → HavePlain (texts words.now) plain steps → ⊥)
        (λ p. HavePlain (texts words.now) (plain_of p) p.steps) }
{
    let (before, rest) = words.split_at(plain_count(words));
    match behind_steps(rest) {
        Some((count, after)) => match number_up_to(count, MOST_STEPS) {
            Some(steps) => with_rest(before, Some(steps), after),
            None => None,
        },
        None => with_rest(before, None, rest),
    }
}

// Puts words behind others.
fn push_words<'a>(plain: &mut Vec<&'a str>, words: &'a [String]) -> Result<(), AllocError>
    ensures { IfOk result (λ _. lent_texts plain.new.items ≡ lent_texts plain.old.items ++ texts words.now) }
{
    for word in words {
        plain.push(word.as_str())?;
    }
    Ok(())
}

// What stands behind these words, where the plain ones begin with them.
fn behind_words<'s, 'a>(plain: &'s [&'a str], words: &[String]) -> Option<&'s [&'a str]>
    ensures { IfSome result (λ rest. lent_texts plain.now ≡ texts words.now ++ lent_texts rest.now) }
{
    if plain.len() < words.len() {
        return None;
    }
    for place in 0..words.len() {
        if plain[place] != words[place].as_str() {
            return None;
        }
    }
    Some(&plain[words.len()..])
}

impl<'a> Parts<'a> {
    /// The plain words.
    pub fn plain(&self, alloc: Global) -> Result<Vec<&'a str>, AllocError>
        ensures { IfOk result (λ plain. lent_texts plain.items ≡ plain_of self.now) }
    {
        let mut plain = Vec::new(alloc);
        push_words(&mut plain, self.before)?;
        push_words(&mut plain, self.after)?;
        push_words(&mut plain, self.later)?;
        Ok(plain)
    }

    // What stands behind the parts' words, where the plain ones begin with them.
    fn behind<'s>(&self, plain: &'s [&'a str]) -> Option<&'s [&'a str]>
        ensures { IfSome result (λ rest. lent_texts plain.now ≡ plain_of self.now ++ lent_texts rest.now) }
    {
        let plain = behind_words(plain, self.before)?;
        let plain = behind_words(plain, self.after)?;
        behind_words(plain, self.later)
    }

    /// Whether these are the plain words.
    pub fn are(&self, plain: &[&'a str]) -> bool
        ensures { IsTrue result → lent_texts plain.now ≡ plain_of self.now }
    {
        match self.behind(plain) {
            Some(rest) => rest.is_empty(),
            None => false,
        }
    }
}
