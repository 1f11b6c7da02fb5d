//! Laws of reading the divisions before PROCEDURE.
ghost use Rattle.std.specs.Prelude.{◌≡◌, ◌↔◌, ◌∷◌, [], ◌++◌, true, List, map};
ghost use Rattle.cob_tree.specs.declared.front.Front.{Front};
ghost use Rattle.cob_tree.specs.Symbols.{Sign};
ghost use Rattle.cob_tree.specs.PrintFront.{print_front};
ghost use Rattle.cob_tree.specs.Shaped.{ShapedFront};
ghost use Rattle.cob_parse_data.specs.Lines.{without_lines};
ghost use Rattle.cob_parse_data.specs.Outcome.{IsFront, Begins, IsRead, Stops};
ghost use Rattle.cob_parse_data.specs.Takes.{takes_front};

/// A law: two shaped trees of these divisions with the same printing are equal.
pub fn one_front()
    ensures { (f g : Front) → ShapedFront f → ShapedFront g → print_front f ≡ print_front g → f ≡ g }
{}

/// A law: where the printings have the same symbols, the trees are equal but for their lines.
pub fn same_but_for_lines()
    ensures { (f g : Front) → ShapedFront f → ShapedFront g → map (λ i. i.symbol) (print_front f) ≡ map (λ i. i.symbol) (print_front g) → without_lines f ≡ without_lines g }
{}

/// A law: at most one tree is read from tokens, and it ends at one place.
pub fn one_reading()
    ensures { (tokens : List Sign) (f g : Front) (rest others : List Sign) → IsRead tokens f rest → IsRead tokens g others → (f ≡ g) × (rest ≡ others) }
{}

/// A law: where reading stops, no tree is read.
pub fn read_or_stopped()
    ensures { (tokens : List Sign) (f : Front) (rest left : List Sign) → IsRead tokens f rest → Stops tokens left → ⊥ }
{}

/// A law: reading stops at one place.
pub fn one_stop()
    ensures { (tokens left others : List Sign) → Stops tokens left → Stops tokens others → left ≡ others }
{}

/// A law: a tree takes a symbol exactly where the text of some tree goes on with it behind that tree's text.
pub fn takes_is_going_on()
    ensures { (f : Front) (text : List Sign) (u : Sign) → IsFront f text → (takes_front f u.symbol ≡ true) ↔ (Begins (text ++ u ∷ [])) }
{}
