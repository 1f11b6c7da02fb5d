//! Sentences and paragraphs.
ghost use Rattle.std.specs.Prelude.{◌≡◌, ◌≤◌, ◌<◌, length, IfOk, map};
ghost use Rattle.cob_tree.specs.StmtView.{plain_sentence, plain_paragraph};
ghost use Rattle.cob_parse_expr.specs.Steps.{signs, Gives};
ghost use Rattle.cob_parse_proc.specs.Program.{limit, sentence_at, sentences_at, behind_name, paragraph_at, paragraphs_at};
ghost use Rattle.cob_parse_proc.specs.StmtSteps.{plain_list};

use crate::outer::{name_on_line, stands_start};
use crate::statement::stmts_in;
use crate::token::left_at;
use cob_parse_expr::{Halt, Lexeme, behind_stop, stands_name, stop};
use cob_tree::{Many, Paragraph, Sentence, Stmt};
use std::alloc::Global;

fn sentence_of(stmts: Vec<Stmt>) -> Sentence
    ensures { plain_sentence result ≡ plain_list stmts }
{
    Sentence {
        statements: Many::of(stmts),
    }
}

// Statements and a point.
fn sentence(alloc: Global, lexemes: &[Lexeme]) -> Result<(Sentence, &[Lexeme]), Halt>
    ensures gives { Gives (λ x. (plain_sentence x.0, signs x.1.now)) result (sentence_at limit (signs lexemes.now)) }
    ensures rest { IfOk result (λ x. length x.1.now < length lexemes.now) }
{
    let (stmts, takes_not, rest) = or_leave!(stmts_in(alloc, lexemes, 64));
    match behind_stop(rest) {
        Some(rest) => Ok((sentence_of(stmts), rest)),
        None => {
            drop(stmts);
            Err(Halt::Stop(left_at(takes_not, rest)))
        }
    }
}

/// Sentences, as long as one begins.
pub fn sentences(alloc: Global, lexemes: &[Lexeme]) -> Result<(Vec<Sentence>, &[Lexeme]), Halt>
    ensures gives { Gives (λ x. (map plain_sentence x.0.items, signs x.1.now)) result (sentences_at limit (signs lexemes.now)) }
    ensures rest { IfOk result (λ x. length x.1.now ≤ length lexemes.now) }
{
    let mut left = lexemes;
    let mut sentences = Vec::new(alloc);
    'sentences: while stands_start(left) {
        let (sentence, after) = or_leave!(sentence(alloc, left), sentences);
        sentences.push(sentence)?;
        left = after;
    }
    Ok((sentences, left))
}

// What stands behind a paragraph's name.
fn behind_name(alloc: Global, lexemes: &[Lexeme]) -> Result<(Vec<Sentence>, &[Lexeme]), Halt>
    ensures gives { Gives (λ x. (map plain_sentence x.0.items, signs x.1.now)) result (behind_name limit (signs lexemes.now)) }
    ensures rest { IfOk result (λ x. length x.1.now ≤ length lexemes.now) }
{
    let rest = or_leave!(stop(lexemes));
    let (sentences, rest) = or_leave!(sentences(alloc, rest));
    Ok((sentences, rest))
}

fn paragraph(alloc: Global, lexemes: &[Lexeme]) -> Result<(Paragraph, &[Lexeme]), Halt>
    ensures gives { Gives (λ x. (plain_paragraph x.0, signs x.1.now)) result (paragraph_at limit (signs lexemes.now)) }
    ensures rest { IfOk result (λ x. length x.1.now < length lexemes.now) }
{
    let ((line, name), rest) = or_leave!(name_on_line(alloc, lexemes));
    let (sentences, rest) = or_leave!(behind_name(alloc, rest), name);
    let sentences = Many::of(sentences);
    Ok((
        Paragraph {
            line,
            name,
            sentences,
        },
        rest,
    ))
}

/// Paragraphs, as long as a name stands first.
pub fn paragraphs(alloc: Global, lexemes: &[Lexeme]) -> Result<(Vec<Paragraph>, &[Lexeme]), Halt>
    ensures gives { Gives (λ x. (map plain_paragraph x.0.items, signs x.1.now)) result (paragraphs_at limit (signs lexemes.now)) }
    ensures rest { IfOk result (λ x. length x.1.now ≤ length lexemes.now) }
{
    let mut left = lexemes;
    let mut paragraphs = Vec::new(alloc);
    'paragraphs: while stands_name(left) {
        let (paragraph, after) = or_leave!(paragraph(alloc, left), paragraphs);
        paragraphs.push(paragraph)?;
        left = after;
    }
    Ok((paragraphs, left))
}
