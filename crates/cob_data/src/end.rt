//! The rules and the limits of the profile, and why a program has no layout.
/// A rule of the profile, by the name that is printed. L1 to L12 are on data, Q1 to Q11 and N5 on typing, N1 to N4 on
/// nesting.
#[derive(Clone, Copy, Debug, PartialEq, Eq)]
pub enum Rule {
    /// Records begin with 01, or 77 in working storage; other levels are 02 to 49 or 88; a 77 has no item below it.
    L1,
    /// An item with items below has no PIC, usage, SIGN, VALUE; any other has a PIC.
    L2,
    /// The picture is an allowed one.
    L3,
    /// BINARY and PACKED-DECIMAL stand with a numeric picture, SEPARATE with S and DISPLAY.
    L4,
    /// VALUE has one constant that fits; it doesn't stand on edited items, in the FILE SECTION, or in a redefinition.
    L5,
    /// REDEFINES names what stands directly before, isn't longer, and doesn't stand on the records of a file.
    L6,
    /// An 88 has a name and a VALUE alone, behind an item whose category its values have.
    L7,
    /// SELECT and FD match one to one; an FD has an 01.
    L8,
    /// RECORD CONTAINS is the largest record length.
    L9,
    /// External names differ.
    L10,
    /// FILE STATUS names one X item of 2 bytes in working storage.
    L11,
    /// END PROGRAM names the program.
    L12,
    Q1,
    Q2,
    Q3,
    Q4,
    Q5,
    Q6,
    Q7,
    Q8,
    Q9,
    Q10,
    Q11,
    N5,
    N1,
    N2,
    N3,
    N4,
}

/// What is limited.
#[derive(Clone, Copy, Debug, PartialEq, Eq)]
pub enum Which {
    Nesting,
    Items,
    Storage,
    Files,
    Cells,
    Nodes,
}

/// Why a tree has no layout.
#[derive(Clone, Copy, PartialEq, Eq)]
pub enum DataEnd {
    /// A rule is broken, at this line first.
    Outside { rule: Rule, line: u32 },
    /// No rule is broken, and there is more than the limit.
    Limit { which: Which, count: u64 },
    /// Memory ran out.
    Memory,
}
