//! Strings of bytes, and names.
ghost use Rattle.std.specs.Prelude.{◌≡◌, ℕ, List, IfOk};

use std::alloc::{AllocError, Global};
use std::marker::Model;

/// A string of bytes. Contracts see it as the list of its bytes.
#[derive(Drop)]
pub struct Bytes {
    text: Vec<u8>,
}

impl Model for Bytes {
    ghost Value = { List ℕ };

    ghost view = { λ b. b.text.items };
}

impl Bytes {
    /// Copies the text.
    pub fn of(alloc: Global, text: &[u8]) -> Result<Bytes, AllocError>
        ensures { IfOk result (λ bytes. bytes ≡ text.now) }
    {
        Ok(Bytes {
            text: Vec::from_slice(alloc, text)?,
        })
    }

    /// Shows the bytes.
    pub fn get(&self) -> &[u8]
        ensures { result.now ≡ self.now }
    {
        self.text.as_slice()
    }
}

/// A name, in capitals. Contracts see it as the list of its bytes.
#[derive(Drop)]
pub struct Name {
    bytes: Bytes,
}

impl Model for Name {
    ghost Value = { List ℕ };

    ghost view = { λ n. n.bytes };
}

impl Name {
    /// Copies the text.
    pub fn of(alloc: Global, text: &[u8]) -> Result<Name, AllocError>
        ensures { IfOk result (λ name. name ≡ text.now) }
    {
        Ok(Name {
            bytes: Bytes::of(alloc, text)?,
        })
    }

    /// Shows the bytes.
    pub fn get(&self) -> &[u8]
        ensures { result.now ≡ self.now }
    {
        self.bytes.get()
    }
}
