//! Laws of reading programs.
ghost use Rattle.std.specs.Prelude.{List};
ghost use Rattle.cob_tree.specs.Symbols.{Sign};
ghost use Rattle.cob_parse_proc.specs.Laws.{OneTree, OneAnswer, SameButForLines};

/// A law: two programs that the grammar allows, with one printing, are one.
pub fn one_tree()
    ensures { OneTree }
{}

/// A law: each list of tokens has one answer.
pub fn one_answer()
    ensures { (ts : List Sign) → OneAnswer ts }
{}

/// A law: two programs that the grammar allows, with the same symbols, are equal but for the lines that they hold.
pub fn same_but_for_lines()
    ensures { SameButForLines }
{}
