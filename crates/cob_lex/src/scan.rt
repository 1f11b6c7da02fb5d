//! From a source's bytes to its canonical tokens: the reference format, and then the words (ISO 1989:1985, "Reference
//! format" and "Character-strings and separators").
ghost use Rattle.std.specs.Prelude.{◌≡◌, ◌≤◌, length, IfOk};
ghost use Rattle.cob_lex.specs.Scan.{IsScanned};
ghost use Rattle.cob_tree.specs.Limits.{token_limit};
ghost use Rattle.cob_lex.specs.Text.{source_limit};

use crate::text::{TextEnd, text_of};
use crate::{LexEnd, tokens_of};
use cob_tree::Token;
use std::alloc::Global;

/// Why a source has no canonical tokens.
#[derive(Clone, Copy, PartialEq, Eq)]
pub enum ScanEnd {
    /// The first place that the reference format refuses.
    BadLine { line: u32, column: u32 },
    /// The first place at which neither a token nor a separator stands.
    BadToken { line: u32, column: u32 },
    /// Memory ran out.
    Memory,
}

/// The canonical tokens of a source of at most 1,048,576 bytes.
pub fn tokens_in(alloc: Global, bytes: &[u8]) -> Result<Vec<Token>, ScanEnd>
    requires { length bytes.now ≤ source_limit }
    ensures scanned { IsScanned bytes.now result }
    ensures few { IfOk result (λ tokens. length tokens.items ≤ token_limit) }
{
    let text = match text_of(alloc, bytes) {
        Ok(text) => text,
        Err(TextEnd::BadLine { line, column }) => return Err(ScanEnd::BadLine { line, column }),
        Err(TextEnd::Memory) => return Err(ScanEnd::Memory),
    };
    match tokens_of(alloc, &text) {
        Ok(tokens) => Ok(tokens),
        Err(LexEnd::BadToken { line, column }) => Err(ScanEnd::BadToken { line, column }),
        Err(LexEnd::Memory) => Err(ScanEnd::Memory),
    }
}
