//! Laws of spelling, and how many tokens a source has.
ghost use Rattle.std.specs.Prelude.{◌≡◌, List};
ghost use Rattle.cob_lex.specs.Spellable.{CanonicalAreSpellable};
ghost use Rattle.cob_lex.specs.Printed.{PrintedAreRead};
ghost use Rattle.cob_lex.specs.declared.text.Mark.{Mark};
ghost use Rattle.cob_lex.specs.declared.piece.Place.{Place};
ghost use Rattle.cob_lex.specs.Tokens.{IsText};
ghost use Rattle.cob_lex.specs.Spelled.{Part, IsSpelled, IsStopped};
ghost use Rattle.cob_lex.specs.Marks.{content};
ghost use Rattle.cob_lex.specs.Few.{HasFewTokens};
ghost use Rattle.cob_lex.specs.Examples.{AreRead, AreRefused};

/// A law: a text is spelled in one way at most.
pub fn one_spelling()
    ensures { (text : List Mark) (ps : List Part) (qs : List Part) → IsSpelled text ps → IsSpelled text qs → ps ≡ qs }
{}

/// A law: it stops at one place at most, and never where it is spelled.
pub fn one_stop()
    ensures one { (text : List Mark) (p : Place) (q : Place) → IsStopped text p → IsStopped text q → p ≡ q }
    ensures not_both { (text : List Mark) (ps : List Part) (p : Place) → IsSpelled text ps → IsStopped text p → ⊥ }
{}

/// A law: what stands between the marks of a text is its content, with each mark doubled.
pub fn texts_stand_doubled()
    ensures { (front : List Mark) (is : IsText front) → content front ≡ is.content }
{}

/// A law: some characters are each canonical token.
pub fn canonical_tokens_are_spellable()
    ensures { CanonicalAreSpellable }
{}

/// A law: a source of ordinary lines, none blank and none with a literal open at its end, whose text is printed tokens
/// and the gaps between them has these tokens.
pub fn printed_tokens_are_read()
    ensures { PrintedAreRead }
{}

/// A law: a source of at most 1,048,576 bytes has at most 2^27 canonical tokens.
pub fn sources_have_few_tokens()
    ensures { HasFewTokens }
{}

/// A law: what some texts give, row by row.
pub fn examples()
    ensures read { AreRead }
    ensures refused { AreRefused }
{}
