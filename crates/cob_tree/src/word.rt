//! Words of a source.
ghost use Rattle.std.specs.Prelude.{◌≡◌, None};
ghost use Rattle.cob_tree.specs.Keywords.{text_of, keyword_of};

use crate::bytes::Name;
use crate::keyword::Keyword;
use std::marker::Model;

/// What a word is known to be.
#[derive(Drop)]
pub enum Found {
    Reserved(Keyword),
    Free(Name),
}

/// A word in capitals that keeps which reserved word it is, so that it is looked up once. Contracts see it as the
/// list of its bytes.
#[derive(Drop)]
pub struct Word {
    found: Found,
}

impl Model for Word {
    ghost use Rattle.std.specs.Prelude.{ℕ, List};
    ghost use Rattle.cob_tree.specs.Words.{found_text, IsFound};

    ghost Value = { List ℕ };

    ghost view = { λ w. found_text w.found };

    ghost invariant = { λ w. IsFound w.found };
}

impl Word {
    /// A reserved word.
    pub fn reserved(keyword: Keyword) -> Word
        ensures { result ≡ text_of keyword }
    {
        Word {
            found: Found::Reserved(keyword),
        }
    }

    /// A word that is no reserved one.
    pub fn free(name: Name) -> Word
        requires { keyword_of name ≡ None }
        ensures { result ≡ name }
    {
        Word {
            found: Found::Free(name),
        }
    }

    /// The reserved word that it is.
    pub fn keyword(&self) -> Option<Keyword>
        ensures { result ≡ keyword_of self.now }
    {
        match &self.found {
            Found::Reserved(keyword) => Some(*keyword),
            Found::Free(_) => None,
        }
    }

    /// Shows the bytes.
    pub fn get(&self) -> &[u8]
        ensures { result.now ≡ self.now }
    {
        match &self.found {
            Found::Reserved(keyword) => keyword.text(),
            Found::Free(name) => name.get(),
        }
    }
}
