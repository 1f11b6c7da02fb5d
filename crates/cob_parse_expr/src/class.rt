//! The tokens of which expressions and conditions are made, in front of lexemes.
ghost use Rattle.std.specs.Prelude.{◌≡◌, ◌+◌, length, IfOk, IfSome, IfNone, is_some, false};
ghost use Rattle.cob_parse_expr.specs.Lexemes.{plain_symbol};
ghost use Rattle.cob_parse_expr.specs.LexemeClasses.{word_symbol};
ghost use Rattle.cob_parse_expr.specs.Steps.{signs, Leads, Lacks};
ghost use Rattle.cob_parse_expr.specs.Classes.{name_of, const_key, const_as, const_of, mark_symbol, sign_mark, sign_of, scaling_mark, scaling_of, mark_class, mark_of, sign_test_key, sign_test_of, relation_symbol, relation_of, bare_symbol, bare_first, open_mark, close_mark, of_key, not_key, and_key, or_key, numeric_key};

use crate::lexeme::{Lexeme, Symbol};
use crate::other::name;
use crate::word::next;
use cob_tree::{Bytes, Const, Keyword, Name, Rel, Scaling, Sign, SignTest};
use std::alloc::{AllocError, Global};

fn sign(symbol: &Symbol) -> Option<Sign>
    ensures { result ≡ mark_symbol sign_mark (plain_symbol symbol.now) }
{
    match symbol {
        Symbol::Mark(b'+') => Some(Sign::Plus),
        Symbol::Mark(b'-') => Some(Sign::Minus),
        _ => None,
    }
}

fn scaling(symbol: &Symbol) -> Option<Scaling>
    ensures { result ≡ mark_symbol scaling_mark (plain_symbol symbol.now) }
{
    match symbol {
        Symbol::Mark(b'*') => Some(Scaling::Times),
        Symbol::Mark(b'/') => Some(Scaling::Over),
        _ => None,
    }
}

fn relation(symbol: &Symbol) -> Option<Rel>
    ensures { result ≡ relation_symbol (plain_symbol symbol.now) }
{
    match symbol {
        Symbol::Relation(relation) => Some(*relation),
        _ => None,
    }
}

fn sign_test(symbol: &Symbol) -> Option<SignTest>
    ensures { result ≡ word_symbol sign_test_key (plain_symbol symbol.now) }
{
    match symbol {
        Symbol::Key(Keyword::Positive) => Some(SignTest::Positive),
        Symbol::Key(Keyword::Negative) => Some(SignTest::Negative),
        Symbol::Key(Keyword::Zero) => Some(SignTest::Zero),
        _ => None,
    }
}

/// A mark or a word that is the only one of its class.
#[derive(Clone, Copy)]
pub enum Mark {
    Open,
    Close,
    Of,
    Not,
    And,
    Or,
    Numeric,
}

// Each mark is told by a function of its own.

fn is_open(symbol: &Symbol) -> bool
    ensures { result ≡ is_some (mark_symbol open_mark (plain_symbol symbol.now)) }
{
    matches!(symbol, Symbol::Mark(b'('))
}

fn is_close(symbol: &Symbol) -> bool
    ensures { result ≡ is_some (mark_symbol close_mark (plain_symbol symbol.now)) }
{
    matches!(symbol, Symbol::Mark(b')'))
}

fn is_of(symbol: &Symbol) -> bool
    ensures { result ≡ is_some (word_symbol of_key (plain_symbol symbol.now)) }
{
    matches!(symbol, Symbol::Key(Keyword::Of))
}

fn is_not(symbol: &Symbol) -> bool
    ensures { result ≡ is_some (word_symbol not_key (plain_symbol symbol.now)) }
{
    matches!(symbol, Symbol::Key(Keyword::Not))
}

fn is_and(symbol: &Symbol) -> bool
    ensures { result ≡ is_some (word_symbol and_key (plain_symbol symbol.now)) }
{
    matches!(symbol, Symbol::Key(Keyword::And))
}

fn is_or(symbol: &Symbol) -> bool
    ensures { result ≡ is_some (word_symbol or_key (plain_symbol symbol.now)) }
{
    matches!(symbol, Symbol::Key(Keyword::Or))
}

fn is_numeric(symbol: &Symbol) -> bool
    ensures { result ≡ is_some (word_symbol numeric_key (plain_symbol symbol.now)) }
{
    matches!(symbol, Symbol::Key(Keyword::Numeric))
}

fn is_mark(mark: Mark, symbol: &Symbol) -> bool
    ensures { result ≡ is_some (mark_class mark (plain_symbol symbol.now)) }
{
    match mark {
        Mark::Open => is_open(symbol),
        Mark::Close => is_close(symbol),
        Mark::Of => is_of(symbol),
        Mark::Not => is_not(symbol),
        Mark::And => is_and(symbol),
        Mark::Or => is_or(symbol),
        Mark::Numeric => is_numeric(symbol),
    }
}

fn asks(symbol: &Symbol) -> bool
    ensures { result ≡ bare_symbol (plain_symbol symbol.now) }
{
    matches!(
        symbol,
        Symbol::Relation(_)
            | Symbol::Key(Keyword::Numeric | Keyword::Positive | Keyword::Negative | Keyword::Zero)
    )
}

fn figurative(keyword: Keyword) -> Option<Const>
    ensures { result ≡ const_key keyword }
{
    match keyword {
        Keyword::Zero => Some(Const::Zero),
        Keyword::Space => Some(Const::Space),
        Keyword::Quote => Some(Const::Quote),
        Keyword::HighValue => Some(Const::HighValue),
        Keyword::LowValue => Some(Const::LowValue),
        _ => None,
    }
}

fn constant(alloc: Global, symbol: &Symbol) -> Result<Option<Const>, AllocError>
    ensures { IfOk result (λ constant. constant ≡ const_as (plain_symbol symbol.now)) }
{
    match symbol {
        Symbol::Number(number) => Ok(Some(Const::Number(number.copied(alloc)?))),
        Symbol::Text(text) => Ok(Some(Const::Text(Bytes::of(alloc, text.get())?))),
        Symbol::Key(keyword) => Ok(figurative(*keyword)),
        _ => Ok(None),
    }
}

fn is_figurative(keyword: Keyword) -> bool
    ensures { result ≡ is_some (const_key keyword) }
{
    matches!(
        keyword,
        Keyword::Zero | Keyword::Space | Keyword::Quote | Keyword::HighValue | Keyword::LowValue
    )
}

/// Whether a symbol is a literal or a figurative constant.
pub fn is_constant(symbol: &Symbol) -> bool
    ensures { result ≡ is_some (const_as (plain_symbol symbol.now)) }
{
    match symbol {
        Symbol::Number(_) | Symbol::Text(_) => true,
        Symbol::Key(keyword) => is_figurative(*keyword),
        _ => false,
    }
}

/// `+` or `-`, where one stands first, and the lexemes behind it.
pub fn sign_in(lexemes: &[Lexeme]) -> Option<(Sign, &[Lexeme])>
    ensures found { IfSome result (λ x. Leads sign_of x.0 (signs lexemes.now) (signs x.1.now)) }
    ensures none { IfNone result (Lacks sign_of (signs lexemes.now)) }
    ensures shorter { IfSome result (λ x. length lexemes.now ≡ length x.1.now + 1) }
{
    let (lexeme, rest) = next(lexemes)?;
    Some((sign(&lexeme.symbol)?, rest))
}

/// `*` or `/`, where one stands first, and the lexemes behind it.
pub fn scaling_in(lexemes: &[Lexeme]) -> Option<(Scaling, &[Lexeme])>
    ensures found { IfSome result (λ x. Leads scaling_of x.0 (signs lexemes.now) (signs x.1.now)) }
    ensures none { IfNone result (Lacks scaling_of (signs lexemes.now)) }
    ensures shorter { IfSome result (λ x. length lexemes.now ≡ length x.1.now + 1) }
{
    let (lexeme, rest) = next(lexemes)?;
    Some((scaling(&lexeme.symbol)?, rest))
}

/// A relation, where one stands first, and the lexemes behind it.
pub fn relation_in(lexemes: &[Lexeme]) -> Option<(Rel, &[Lexeme])>
    ensures found { IfSome result (λ x. Leads relation_of x.0 (signs lexemes.now) (signs x.1.now)) }
    ensures none { IfNone result (Lacks relation_of (signs lexemes.now)) }
    ensures shorter { IfSome result (λ x. length lexemes.now ≡ length x.1.now + 1) }
{
    let (lexeme, rest) = next(lexemes)?;
    Some((relation(&lexeme.symbol)?, rest))
}

/// POSITIVE, NEGATIVE or ZERO, where one stands first, and the lexemes behind it.
pub fn sign_test_in(lexemes: &[Lexeme]) -> Option<(SignTest, &[Lexeme])>
    ensures found { IfSome result (λ x. Leads sign_test_of x.0 (signs lexemes.now) (signs x.1.now)) }
    ensures none { IfNone result (Lacks sign_test_of (signs lexemes.now)) }
    ensures shorter { IfSome result (λ x. length lexemes.now ≡ length x.1.now + 1) }
{
    let (lexeme, rest) = next(lexemes)?;
    Some((sign_test(&lexeme.symbol)?, rest))
}

/// A name, where one stands first, and the lexemes behind it.
pub fn name_in(lexemes: &[Lexeme]) -> Option<(&Name, &[Lexeme])>
    ensures found { IfSome result (λ x. Leads name_of x.0.now (signs lexemes.now) (signs x.1.now)) }
    ensures none { IfNone result (Lacks name_of (signs lexemes.now)) }
    ensures shorter { IfSome result (λ x. length lexemes.now ≡ length x.1.now + 1) }
{
    let (lexeme, rest) = next(lexemes)?;
    Some((name(&lexeme.symbol)?, rest))
}

/// A constant, where one stands first, and the lexemes behind it.
pub fn constant_in(
    alloc: Global,
    lexemes: &[Lexeme],
) -> Result<Option<(Const, &[Lexeme])>, AllocError>
    ensures found { IfOk result (λ o. IfSome o (λ x. Leads const_of x.0 (signs lexemes.now) (signs x.1.now))) }
    ensures none { IfOk result (λ o. IfNone o (Lacks const_of (signs lexemes.now))) }
    ensures shorter { IfOk result (λ o. IfSome o (λ x. length lexemes.now ≡ length x.1.now + 1)) }
{
    match next(lexemes) {
        None => Ok(None),
        Some((lexeme, rest)) => match constant(alloc, &lexeme.symbol)? {
            None => Ok(None),
            Some(constant) => Ok(Some((constant, rest))),
        },
    }
}

/// The lexemes behind a mark, where it stands first.
pub fn behind(mark: Mark, lexemes: &[Lexeme]) -> Option<&[Lexeme]>
    ensures found { IfSome result (λ rest. Leads (mark_of mark) tt (signs lexemes.now) (signs rest.now)) }
    ensures none { IfNone result (Lacks (mark_of mark) (signs lexemes.now)) }
    ensures shorter { IfSome result (λ rest. length lexemes.now ≡ length rest.now + 1) }
{
    match next(lexemes) {
        Some((lexeme, rest)) if is_mark(mark, &lexeme.symbol) => Some(rest),
        _ => None,
    }
}

/// Whether a relation, NUMERIC, POSITIVE, NEGATIVE or ZERO stands first.
pub fn asks_first(lexemes: &[Lexeme]) -> bool
    ensures { result ≡ bare_first (signs lexemes.now) }
{
    match next(lexemes) {
        Some((lexeme, _)) => asks(&lexeme.symbol),
        None => false,
    }
}
