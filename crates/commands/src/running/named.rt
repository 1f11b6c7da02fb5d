//! Words on files: NAME=PATH.
ghost use Rattle.std.specs.Prelude.{◌≡◌, [], MatchOption, None, Some, find, is_some};
ghost use Rattle.std.specs.List.{list_any};
ghost use Rattle.std.specs.Str.{str_eq_ignore_ascii_case};
ghost use Rattle.command_words.specs.Words.{lent_texts};
ghost use Rattle.commands.specs.Paths.{split_at_equals, file_named, is_named_by, is_refused, first_refused};

use cob_data::FileDecl;

/// The NAME and the path of a word.
pub fn split_at_equals(word: &str) -> Option<(&str, &str)>
    ensures { MatchOption result
        (split_at_equals word.now ≡ None)
        (λ parts. split_at_equals word.now ≡ Some (parts.0.now, parts.1.now)) }
{
    word.split_once('=')
}

fn is_same_name(name: &str, external: &[u8]) -> bool
    ensures { result ≡ str_eq_ignore_ascii_case name.now external.now }
{
    name.as_bytes().eq_ignore_ascii_case(external)
}

fn is_file(name: &str, files: &[FileDecl]) -> bool
    ensures { result ≡ is_some (file_named name.now files.now) }
{
    for file in files {
        if is_same_name(name, file.external.get()) {
            return true;
        }
    }
    false
}

// Whether the word has this NAME.
fn is_named_by(name: &[u8], word: &str) -> bool
    ensures { result ≡ is_named_by name.now word.now }
{
    match split_at_equals(word) {
        Some((given, _)) => is_same_name(given, name),
        None => false,
    }
}

/// The first of the words that has this NAME.
pub fn word_of<'a>(name: &[u8], words: &[&'a str]) -> Option<&'a str>
    ensures { MatchOption result
        (find (is_named_by name.now) (lent_texts words.now) ≡ None)
        (λ word. find (is_named_by name.now) (lent_texts words.now) ≡ Some word.now) }
{
    for place in 0..words.len() {
        if is_named_by(name, words[place]) {
            return Some(words[place]);
        }
    }
    None
}

fn is_given(name: &str, words: &[&str]) -> bool
    ensures { result ≡ list_any (is_named_by name.now) (lent_texts words.now) }
{
    for place in 0..words.len() {
        if is_named_by(name.as_bytes(), words[place]) {
            return true;
        }
    }
    false
}

// Whether a word is refused behind earlier ones.
fn is_refused(files: &[FileDecl], earlier: &[&str], word: &str) -> bool
    ensures { result ≡ is_refused files.now (lent_texts earlier.now) word.now }
{
    match split_at_equals(word) {
        Some((name, _)) => !is_file(name, files) || is_given(name, earlier),
        None => true,
    }
}

/// The first word that has no equals sign, or the NAME of no file or of an earlier word.
pub fn first_refused<'a>(files: &[FileDecl], words: &[&'a str]) -> Option<&'a str>
    ensures { MatchOption result
        (first_refused files.now [] (lent_texts words.now) ≡ None)
        (λ word. first_refused files.now [] (lent_texts words.now) ≡ Some word.now) }
{
    for place in 0..words.len() {
        if is_refused(files, &words[..place], words[place]) {
            return Some(words[place]);
        }
    }
    None
}
