//! Cases of whole sources: their text, and its tokens.
use crate::words::{bytes_of, push_bytes};
use cob_lex::{LexEnd, Mark, TextEnd, text_of, tokens_of};
use cob_tree::{Num, Rel, Tok, Token};
use std::alloc::{AllocError, Global};

// The bytes of a source.
fn source_of(alloc: Global, given: &[&str]) -> Result<Option<Vec<u8>>, AllocError> {
    match given {
        [written] => bytes_of(alloc, written),
        _ => Ok(None),
    }
}

fn marks_in(alloc: Global, source: &[u8]) -> Result<Vec<Mark>, TextEnd> {
    if source.len() > 1_048_576 {
        return Err(TextEnd::Memory);
    }
    text_of(alloc, source)
}

// The places of the first and the last character, and the characters.
fn shown_marks(alloc: Global, marks: &[Mark]) -> Result<String, AllocError> {
    let characters: Vec<u8> = marks.iter().map(|mark| mark.ch).collect(alloc)?;
    let mut text = match (marks.first(), marks.last()) {
        (Some(a), Some(b)) => {
            format!(in alloc; "text {} {} {} {} ", a.line, a.column, b.line, b.column)?
        }
        _ => String::from_str(alloc, "text")?,
    };
    push_bytes(&mut text, &characters)?;
    Ok(text)
}

fn refused_at(alloc: Global, line: u32, column: u32) -> Result<Option<String>, AllocError> {
    Ok(Some(format!(in alloc; "refused {line} {column}")?))
}

/// `lines SOURCE`: its text.
pub fn lines_case(alloc: Global, given: &[&str]) -> Result<Option<String>, AllocError> {
    let Some(source) = source_of(alloc, given)? else {
        return Ok(None);
    };
    match marks_in(alloc, &source) {
        Ok(marks) => Ok(Some(shown_marks(alloc, &marks)?)),
        Err(TextEnd::BadLine { line, column }) => refused_at(alloc, line, column),
        Err(TextEnd::Memory) => Err(AllocError),
    }
}

fn relation_name(relation: Rel) -> &'static str {
    match relation {
        Rel::Equal => "=",
        Rel::Less => "<",
        Rel::Greater => ">",
        Rel::AtLeast => ">=",
        Rel::AtMost => "<=",
    }
}

fn push_named(text: &mut String, kind: &str, bytes: &[u8]) -> Result<(), AllocError> {
    text.push_str(kind)?;
    text.push_str(" ")?;
    push_bytes(text, bytes)
}

// Scale, then sign and digits.
fn push_number(alloc: Global, text: &mut String, number: &Num) -> Result<(), AllocError> {
    let scale = format!(in alloc; "number {} ", number.scale)?;
    text.push_str(scale.as_str())?;
    if number.sign != 0 {
        push_bytes(text, &[number.sign])?;
    }
    push_bytes(text, number.digits.get())
}

fn push_tok(alloc: Global, text: &mut String, tok: &Tok) -> Result<(), AllocError> {
    match tok {
        Tok::Word(word) => push_named(text, "word", word.get()),
        Tok::Number(number) => push_number(alloc, text, number),
        Tok::Text(bytes) => push_named(text, "text", bytes.get()),
        Tok::Mark(mark) => push_named(text, "mark", &[*mark]),
        Tok::Relation(relation) => push_named(
            text,
            "relation",
            relation_name(*relation).as_bytes(),
        ),
        Tok::Pic(picture) => push_named(text, "pic", picture.get()),
        Tok::Stop => text.push_str("stop"),
    }
}

fn shown_tokens(alloc: Global, tokens: &[Token]) -> Result<String, AllocError> {
    let mut text = String::new(alloc);
    for token in tokens {
        let place = format!(in alloc; "{} {} ", token.line, token.column)?;
        text.push_str(place.as_str())?;
        push_tok(alloc, &mut text, &token.tok)?;
        text.push_str(";")?;
    }
    Ok(text)
}

/// `tokens SOURCE`: its tokens, each with its place, kind and value, a semicolon behind each.
pub fn tokens_case(alloc: Global, given: &[&str]) -> Result<Option<String>, AllocError> {
    let Some(source) = source_of(alloc, given)? else {
        return Ok(None);
    };
    match marks_in(alloc, &source) {
        Ok(marks) => answer_to_marks(alloc, &marks),
        Err(_) => Ok(None),
    }
}

fn answer_to_marks(alloc: Global, marks: &[Mark]) -> Result<Option<String>, AllocError> {
    match tokens_of(alloc, marks) {
        Ok(tokens) => Ok(Some(shown_tokens(alloc, &tokens)?)),
        Err(LexEnd::BadToken { line, column }) => refused_at(alloc, line, column),
        Err(LexEnd::Memory) => Err(AllocError),
    }
}
