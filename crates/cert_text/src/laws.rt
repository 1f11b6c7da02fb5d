//! Laws of the text.
ghost use Rattle.std.specs.Prelude.{◌≡◌, ℕ, ◌<◌, ◌≤◌, List, length};
ghost use Rattle.cert_text.specs.Viable.{FirstBad};
ghost use Rattle.cert_text.specs.View.{Certificate};
ghost use Rattle.cert_text.specs.Allowed.{IsAllowed};
ghost use Rattle.cert_text.specs.Text.{spelling};
ghost use Rattle.cert_text.specs.Lengths.{most_bytes};
ghost use Rattle.cert_text.specs.Texts.{IsText};

/// No two certificates have one text.
pub fn one_spelling()
    ensures { (c d : Certificate) → IsAllowed c → IsAllowed d → spelling c ≡ spelling d → c ≡ d }
{}

/// A text has one first bad line.
pub fn one_place()
    ensures { (bytes : List ℕ) (m n : ℕ) → FirstBad IsText bytes m → FirstBad IsText bytes n → m ≡ n }
{}

/// No certificate's text has a bad line.
pub fn no_bad_line()
    ensures { (c : Certificate) (line : ℕ) → IsAllowed c → FirstBad IsText (spelling c) line → ⊥ }
{}

/// The text of a certificate with fewer than 1,000 cells and fewer than 10,000 nodes is short.
pub fn texts_of_certificates_are_short()
    ensures { (c : Certificate) → IsAllowed c → c.cells < 1000 → length c.nodes < 10000 → length (spelling c) ≤ most_bytes c }
{}
