//! The paths of a program's files.
ghost use Rattle.std.specs.Prelude.{◌≡◌, IfOk, IfErr, [], length, string_bytes};
ghost use Rattle.commands.specs.declared.running.paths.PathsEnd.TheVariants.{Memory};
ghost use Rattle.cob_data.specs.Names.{stands_in};
ghost use Rattle.command_words.specs.Words.{texts, lent_texts};
ghost use Rattle.cob_interp.specs.Told.{AreDistinct};
ghost use Rattle.commands.specs.Paths.{AnswersPaths, Blames, blamed, clash, path_of, paths_of, unless_clash};

use crate::running::named::{first_refused, split_at_equals, word_of};
use cob_data::FileDecl;
use std::alloc::{AllocError, AllocFailed, Global};
use thiserror::Error;

/// Why the words give the files no paths.
#[derive(Debug, Drop, Error)]
pub enum PathsEnd {
    /// The word to blame, or the external name of a file to which no word gave its path.
    #[error("{0} gives no path")]
    Refused(String),
    #[error("out of memory")]
    Memory,
}

impl From<AllocError> for PathsEnd {
    ghost from_gives = { λ _ e. e ≡ Memory };

    fn from(_error: AllocError) -> PathsEnd {
        PathsEnd::Memory
    }
}

impl<T: Drop> From<AllocFailed<T>> for PathsEnd {
    ghost from_gives = { λ _ e. e ≡ Memory };

    fn from(_error: AllocFailed<T>) -> PathsEnd {
        PathsEnd::Memory
    }
}

// An external name as text. A source has no name that isn't UTF-8: one would be told as want of memory.
fn text_of(alloc: Global, name: &[u8]) -> Result<String, PathsEnd>
    ensures text { IfOk result (λ text. string_bytes text ≡ name.now) }
    ensures end { IfErr result (λ end. end ≡ Memory) }
{
    match str::from_utf8(name) {
        Ok(text) => Ok(String::from_str(alloc, text)?),
        Err(_) => Err(PathsEnd::Memory),
    }
}

// The file's path: a word's, or its external name.
fn path_of(alloc: Global, words: &[&str], file: &FileDecl) -> Result<String, PathsEnd>
    ensures text { IfOk result (λ text. string_bytes text ≡ path_of (lent_texts words.now) file.now) }
    ensures end { IfErr result (λ end. end ≡ Memory) }
{
    let external = file.external.get();
    if let Some(word) = word_of(external, words)
        && let Some((_, path)) = split_at_equals(word)
    {
        return Ok(String::from_str(alloc, path)?);
    }
    text_of(alloc, external)
}

// The word that gives the file's path, or its external name.
fn blamed(alloc: Global, words: &[&str], file: &FileDecl) -> Result<String, PathsEnd>
    ensures text { IfOk result (λ text. string_bytes text ≡ blamed (lent_texts words.now) file.now) }
    ensures end { IfErr result (λ end. end ≡ Memory) }
{
    let external = file.external.get();
    match word_of(external, words) {
        Some(word) => Ok(String::from_str(alloc, word)?),
        None => text_of(alloc, external),
    }
}

// The refusal of a file whose path is an earlier one's.
fn refusal(alloc: Global, words: &[&str], file: &FileDecl) -> PathsEnd
    ensures { Blames (blamed (lent_texts words.now) file.now) result }
{
    match blamed(alloc, words, file) {
        Ok(word) => PathsEnd::Refused(word),
        Err(end) => end,
    }
}

fn stands_in(paths: &[String], path: &str) -> bool
    ensures { result ≡ stands_in (texts paths.now) path.now }
{
    for earlier in paths {
        if earlier.as_str() == path {
            return true;
        }
    }
    false
}

// The paths of the files, unless two are equal.
fn distinct_paths(
    alloc: Global,
    files: &[FileDecl],
    words: &[&str],
) -> Result<Vec<String>, PathsEnd>
    ensures { AnswersPaths
        (unless_clash (lent_texts words.now) files.now (clash (lent_texts words.now) [] files.now)) result }
{
    let mut paths = Vec::new(alloc);
    for file in files {
        let path = path_of(alloc, words, file)?;
        if stands_in(&paths, path.as_str()) {
            return Err(refusal(alloc, words, file));
        }
        paths.push(path)?;
    }
    Ok(paths)
}

/// The files' paths, in their order. A word `NAME=PATH` gives a file its path by its external name, without regard to
/// capitals; another file has its external name as path.
pub fn paths_of(alloc: Global, files: &[FileDecl], names: &[&str]) -> Result<Vec<String>, PathsEnd>
    ensures paths { AnswersPaths (paths_of files.now (lent_texts names.now)) result }
    ensures count { IfOk result (λ paths. length paths.items ≡ length files.now) }
    ensures distinct { IfOk result (λ paths. AreDistinct (texts paths.items)) }
{
    if let Some(word) = first_refused(files, names) {
        return Err(PathsEnd::Refused(String::from_str(alloc, word)?));
    }
    distinct_paths(alloc, files, names)
}
