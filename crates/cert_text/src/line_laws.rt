//! Laws of lines and of the first bad line.
ghost use Rattle.std.specs.Prelude.{◌≡◌, ℕ, Bool, IsTrue, List, []};
ghost use Rattle.std.specs.List.{AllByRecursion};
ghost use Rattle.cert_text.specs.Lines.{Line, text_of, cut, IsOneLine};
ghost use Rattle.cert_text.specs.Viable.{FirstBad, StopsAfter};

/// A law: a text has one first bad line.
pub fn one_line()
    ensures { (texts : List Line → Bool) (bytes : List ℕ) (m n : ℕ) → FirstBad (λ lines. IsTrue (texts lines)) bytes m → FirstBad (λ lines. IsTrue (texts lines)) bytes n → m ≡ n }
{}

/// A law: a text of the set has no bad line.
pub fn refused_nowhere()
    ensures { (texts : List Line → Bool) (bytes : List ℕ) (line : ℕ) (lines : List Line) → FirstBad (λ lines. IsTrue (texts lines)) bytes line → IsTrue (texts lines) → AllByRecursion IsOneLine lines → bytes ≡ text_of lines → ⊥ }
{}

/// A law: the text of some lines is cut into these lines, with nothing behind them.
pub fn cut_again()
    ensures { (bytes : List ℕ) (lines : List Line) → AllByRecursion IsOneLine lines → bytes ≡ text_of lines → (lines ≡ (cut bytes).whole) × ((cut bytes).rest ≡ []) }
{}

/// A law: a list stops to be one of a set at one place.
pub fn one_stop<T>()
    ensures { (lists : List T → Bool) (list : List T) (m n : ℕ) → StopsAfter (λ xs. IsTrue (lists xs)) list m → StopsAfter (λ xs. IsTrue (lists xs)) list n → m ≡ n }
{}

/// A law: a list of a set stops nowhere.
pub fn never_stops<T>()
    ensures { (lists : List T → Bool) (list : List T) (n : ℕ) → IsTrue (lists list) → StopsAfter (λ xs. IsTrue (lists xs)) list n → ⊥ }
{}
