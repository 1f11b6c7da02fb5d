//! Tokens as the parsers see them: each word is a reserved word or a name, as was found when it was read.
ghost use Rattle.std.specs.Prelude.{◌≡◌, IfOk, map};
ghost use Rattle.cob_tree.specs.Symbols.{symbol_of, seen};
ghost use Rattle.cob_parse_expr.specs.Lexemes.{plain_symbol, plain_lexeme};

use cob_tree::{Bytes, Keyword, Name, Num, Rel, Tok, Token};
use std::alloc::{AllocError, Global};

/// What the grammar sees of a token: a word is a reserved word or a name.
#[derive(Drop)]
pub enum Symbol {
    Key(Keyword),
    Name(Name),
    Number(Num),
    Text(Bytes),
    Mark(u8),
    Relation(Rel),
    Pic(Bytes),
    Stop,
}

/// A symbol and the line of its token.
#[derive(Drop)]
pub struct Lexeme {
    pub symbol: Symbol,
    pub line: u32,
}

impl Symbol {
    /// The symbol of a token.
    pub fn of(alloc: Global, tok: &Tok) -> Result<Symbol, AllocError>
        ensures { IfOk result (λ symbol. plain_symbol symbol ≡ symbol_of tok.now) }
    {
        match tok {
            Tok::Word(word) => match word.keyword() {
                Some(keyword) => Ok(Symbol::Key(keyword)),
                None => Ok(Symbol::Name(Name::of(alloc, word.get())?)),
            },
            Tok::Number(number) => Ok(Symbol::Number(number.copied(alloc)?)),
            Tok::Text(text) => Ok(Symbol::Text(Bytes::of(alloc, text.get())?)),
            Tok::Mark(mark) => Ok(Symbol::Mark(*mark)),
            Tok::Relation(relation) => Ok(Symbol::Relation(*relation)),
            Tok::Pic(text) => Ok(Symbol::Pic(Bytes::of(alloc, text.get())?)),
            Tok::Stop => Ok(Symbol::Stop),
        }
    }
}

impl Lexeme {
    /// The lexeme of a token.
    pub fn of(alloc: Global, token: &Token) -> Result<Lexeme, AllocError>
        ensures { IfOk result (λ lexeme. plain_lexeme lexeme ≡ seen token.now) }
    {
        Ok(Lexeme {
            symbol: Symbol::of(alloc, &token.tok)?,
            line: token.line,
        })
    }
}

/// The lexemes of some tokens.
pub fn lexemes(alloc: Global, tokens: &[Token]) -> Result<Vec<Lexeme>, AllocError>
    ensures { IfOk result (λ lexemes. map plain_lexeme lexemes.items ≡ map seen tokens.now) }
{
    let mut lexemes = Vec::new(alloc);
    for token in tokens {
        lexemes.push(Lexeme::of(alloc, token)?)?;
    }
    Ok(lexemes)
}
