//! Counts the characters of the text of a source, and its tokens where that is asked for, for bench/lines.

use cob_lex::{LexEnd, Mark, SOURCE_LIMIT, TextEnd, text_of, tokens_of};
use std::rt::Files;
use std::{fs, io};

fn report_tokens(rt: &(impl Print + AllocGlobal), text: &[Mark]) -> io::Result<()> {
    match tokens_of(rt.alloc(), text) {
        Ok(tokens) => {
            let count = tokens.len();
            println!(rt; "{count} tokens")
        }
        Err(LexEnd::BadToken { line, column }) => println!(rt; "bad token at {line}:{column}"),
        Err(LexEnd::Memory) => println!(rt; "out of memory"),
    }
}

/// Says how long the text of the source in a file is, and how many tokens it has.
pub(super) fn count_lines(
    rt: &(impl Files + Print + AllocGlobal),
    path: &str,
    with_tokens: bool,
) -> io::Result<()> {
    let bytes = fs::read(rt, path)?;
    if bytes.len() > SOURCE_LIMIT {
        return println!(rt; "too long");
    }
    match text_of(rt.alloc(), bytes.as_slice()) {
        Ok(text) => {
            let count = text.len();
            println!(rt; "{count} characters")?;
            if with_tokens {
                report_tokens(rt, &text)?;
            }
            Ok(())
        }
        Err(TextEnd::BadLine { line, column }) => println!(rt; "refused at {line}:{column}"),
        Err(TextEnd::Memory) => println!(rt; "out of memory"),
    }
}
