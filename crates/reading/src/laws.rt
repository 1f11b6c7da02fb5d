//! The laws of readers, shown on a small grammar of brackets.
ghost use Rattle.std.specs.Prelude.{◌≡◌, ℕ, zero, suc, ◌≤◌, List, ◌∷◌, ◌++◌, length, Err};
ghost use Rattle.reading.specs.Readers.{Deep, whole};
ghost use Rattle.reading.specs.Printing.{Matches};
ghost use Rattle.reading.specs.Law.{Law, OpensAt, Agrees};
ghost use Rattle.reading.specs.Brackets.{Bracket, Tree, brackets, print, tree_syntax, tree_in};

/// The law of a reader whose grammar holds itself: brackets, with room for so many in one another.
pub fn brackets_are_read()
    ensures { (room : ℕ) → Law brackets (tree_in room) (tree_syntax zero) (suc room) }
{}

/// With more room brackets are read alike, unless the answer was that there was too little.
pub fn more_room_agrees()
    ensures { (room wide : ℕ) → room ≤ wide → Agrees (tree_in room) (tree_in wide) }
{}

/// And that is the answer at the first token that opens one too many in some tree, whatever is behind it.
pub fn too_deep_is_told()
    ensures { (room : ℕ) (u v more : List Bracket) (t : Bracket) (a : Tree) → Matches brackets (print zero a) (u ++ t ∷ more) → OpensAt brackets (suc room) (print zero a) (length u) → whole (tree_in room) (u ++ t ∷ v) ≡ Err (Deep (suc (length v))) }
{}
