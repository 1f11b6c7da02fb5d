//! What holds of numerals, layouts and typed programs, and so of the program of each source.
ghost use Rattle.cob_well_formed.specs.Doing.{TypedStatementsCanBeDone};
ghost use Rattle.cob_well_formed.specs.Layouts.{LayoutsAreWellFormed};
ghost use Rattle.cob_well_formed.specs.Sources.{RunsOfSourcesAreWays, SourcesCanBeRun};
ghost use Rattle.cob_well_formed.specs.Tokens.{NumeralsAreShort};
ghost use Rattle.cob_well_formed.specs.Typed.{TypedProgramsAreWellFormed};

/// A law: a number among the canonical tokens of a text has at most 18 digits, also where a zero was put before it, and
/// a scale of at most 18.
pub fn numerals_are_short()
    ensures { NumeralsAreShort }
{}

/// A law: in the layout of a tree whose numerals before its statements have at most 18 digits, each item has the bytes
/// of its form and lies within storage, and so does each file's record area; a FILE STATUS item has two bytes; items and
/// condition-names have values of the item's category.
pub fn layouts_are_well_formed()
    ensures { LayoutsAreWellFormed }
{}

/// A law: where the rules on statements are kept, each condition begins with a simple condition, OPEN and CLOSE name a
/// file, WRITE names a file's record, and each statement is found by its number.
pub fn typed_programs_are_well_formed()
    ensures { TypedProgramsAreWellFormed }
{}

/// A law: where the rules on statements are kept, operands of arithmetic are numbers whose intermediates have at most
/// 37 digits, and so have the sides of conditions; values are moved to items that can take them; TIMES counts by a
/// number, and VARYING begins with a number and goes on by one.
pub fn typed_statements_can_be_done()
    ensures { TypedStatementsCanBeDone }
{}

/// A law: the program of a source can be run. Its items and record areas lie within storage; its sums keep the rule of
/// bounds, and its values can be moved where they go, also numerals, which have at most 18 digits; each of its
/// statements is found by its number; and the files that they open, close and read are declared.
pub fn sources_can_be_run()
    ensures { SourcesCanBeRun }
{}

/// A law: so many steps of a run of a source's program are a way through its control graph, with the same storage,
/// files and shown text. While the run goes on the way leaves as many nodes at which a step begins, and stands at one
/// of the statement that is to be done next; it leaves at most as many once the run is over. A status that nothing
/// handles leads to the final node, and a fault is met in an edge of the node where the way ends.
pub fn runs_of_sources_are_ways()
    ensures { RunsOfSourcesAreWays }
{}
