//! Laws of reading statements before their own lists.
ghost use Rattle.std.specs.Prelude.{◌≡◌, ◌≤◌, ◌+◌, ℕ, suc};
ghost use Rattle.reading.specs.Law.{Law, Agrees, Deepens};
ghost use Rattle.cob_parse_verb.specs.Procedure.{procedure};
ghost use Rattle.cob_parse_verb.specs.Reading.{head_at};
ghost use Rattle.cob_parse_verb.specs.Turning.{choices_at};
ghost use Rattle.cob_parse_verb.specs.Syntaxes.{head_syntax, choices_syntax};

/// The law of heads: each that the grammar allows is read from its text, what is read is spelled so, and reading ends
/// at the first token with which no head goes on, within the room for parentheses.
pub fn heads_are_read()
    ensures { (room d top : ℕ) → top ≡ suc (d + room) → Law procedure (head_at room) (head_syntax d) top }
{}

/// The law of the WHENs of EVALUATE, likewise.
pub fn choices_are_read()
    ensures { (room d top : ℕ) → top ≡ suc (d + room) → Law procedure (choices_at room) (choices_syntax d) top }
{}

/// With more room heads are read alike, unless the answer was that there was too little.
pub fn more_room_agrees()
    ensures { (room wide : ℕ) → room ≤ wide → Agrees (head_at room) (head_at wide) }
{}

/// And that is the answer at the first token that opens one too many.
pub fn too_deep_is_told()
    ensures { (room more d top wide : ℕ) → top ≡ suc (d + room) → wide ≡ suc (d + (room + more)) → Deepens procedure (head_at room) (head_syntax d) top wide }
{}
