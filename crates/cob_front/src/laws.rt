//! What holds of all sources.
ghost use Rattle.std.specs.Prelude.{ℕ, List};
ghost use Rattle.cob_front.specs.Laws.{OneAnswer, SomeAnswer};

/// A law: bytes have one answer at most: one program, or one reason why they have none.
pub fn one_answer()
    ensures { (bytes : List ℕ) → OneAnswer bytes }
{}

/// A law: all bytes have an answer: they are the source of a program, or there is a reason why not.
pub fn some_answer()
    ensures { (bytes : List ℕ) → SomeAnswer bytes }
{}
