//! From tokens to lexemes, and from where reading halts to what a parser answers.
ghost use Rattle.std.specs.Prelude.{◌≡◌, ◌≤◌, ℕ, length, IfOk};
ghost use Rattle.cob_parse_expr.specs.Places.{from, line_at, end_at};
ghost use Rattle.cob_parse_expr.specs.Steps.{signs};

use crate::end::ParseEnd;
use crate::halt::Halt;
use crate::lexeme::{Lexeme, lexemes};
use cob_tree::Token;
use std::alloc::{AllocError, Global};

/// The line of the first of so many tokens at the end, or of the last token, or 1.
pub fn line_at(tokens: &[Token], left: usize) -> u32
    requires { left ≤ length tokens.now }
    ensures { result ≡ line_at tokens.now left }
{
    match tokens.get(tokens.len().saturating_sub(left.max(1))) {
        None => 1,
        Some(token) => token.line,
    }
}

/// The lexemes of the tokens from a place on.
pub fn lexemes_from(
    alloc: Global,
    tokens: &[Token],
    place: usize,
) -> Result<Vec<Lexeme>, AllocError>
    requires { place ≤ length tokens.now }
    ensures { IfOk result (λ lexemes. signs lexemes.items ≡ from tokens.now place) }
{
    let (_, left) = tokens.split_at(place);
    lexemes(alloc, left)
}

/// What a parser answers where its reader halts.
pub fn end_at(tokens: &[Token], halt: Halt) -> ParseEnd
    requires { (left : ℕ) → halt ≡ Halt.Stop left → left ≤ length tokens.now }
    ensures { result ≡ end_at tokens.now halt }
{
    match halt {
        Halt::Stop(left) => ParseEnd::Syntax {
            line: line_at(tokens, left),
        },
        Halt::Deep(_) => ParseEnd::Deep { count: 65 },
        Halt::Memory => ParseEnd::Memory,
    }
}
