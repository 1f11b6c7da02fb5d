//! How parsing ends without a tree.
ghost use Rattle.std.specs.Prelude.{◌≡◌};
ghost use Rattle.cob_parse_expr.specs.declared.end.ParseEnd.TheVariants.{Memory};

use std::alloc::AllocError;

/// Why nothing is parsed.
#[derive(Drop)]
pub enum ParseEnd {
    /// The line of the first token at which nothing goes on; at the end of the tokens the last one's, or 1.
    Syntax { line: u32 },
    /// So many statements and parentheses are open, one more than may be.
    Deep { count: u32 },
    Memory,
}

impl From<AllocError> for ParseEnd {
    ghost from_gives = { λ _ e. e ≡ Memory };

    fn from(_error: AllocError) -> ParseEnd {
        ParseEnd::Memory
    }
}
