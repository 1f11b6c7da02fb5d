//! Cases of the words of the command line.
use command_words::plain_by_clap;
use std::alloc::{AllocError, Global};

const REFUSED: &str = "refused";

// The words of a line, which has a stroke between two.
fn words_in(alloc: Global, line: &str) -> Result<Vec<String>, AllocError> {
    let mut words = Vec::new(alloc);
    for word in line.split('|') {
        words.push(word.to_string(alloc)?)?;
    }
    Ok(words)
}

fn shown_words(alloc: Global, words: &[&str]) -> Result<String, AllocError> {
    let mut text = String::from_str(alloc, "plain")?;
    for word in words {
        text.push('|')?;
        text.push_str(word)?;
    }
    Ok(text)
}

/// `clap WORDS`: the plain words that `clap` reads, or `refused`.
pub fn clap_case(alloc: Global, given: &[&str]) -> Result<Option<String>, AllocError> {
    let [line] = given else {
        return Ok(None);
    };
    let words = words_in(alloc, line)?;
    match plain_by_clap(alloc, words.as_slice())? {
        Some(plain) => Ok(Some(shown_words(alloc, plain.as_slice())?)),
        None => Ok(Some(String::from_str(alloc, REFUSED)?)),
    }
}
