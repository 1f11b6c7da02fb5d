//! Laws on where items lie.
ghost use Rattle.cob_data.specs.Extents.{StridesSetApart, TablesLieWithin, ColumnsLieApart, ColumnsLieInBlocks, BlocksLieApart};
ghost use Rattle.std.specs.Prelude.{◌≡◌, List, []};
ghost use Rattle.cob_data.specs.declared.description.Description.{Description};
ghost use Rattle.cob_data.specs.Spots.{all_spots};
ghost use Rattle.cob_data.specs.Parts.{AreAsLongAsParts, AreBehind, MayRedefine};

/// A law: a group is as long as its parts that redefine nothing (ISO 1989:1985, "Concept of levels").
pub fn groups_are_as_long_as_their_parts()
    ensures { (ds : List Description) → AreAsLongAsParts 0 ds (all_spots ds) }
{}

/// A law: where the rule on redefinitions is kept, a part of a group starts where the parts before it end, and a
/// redefinition starts where the part before it starts (ISO 1989:1985, "REDEFINES clause").
pub fn parts_follow_each_other()
    ensures { (ds : List Description) → MayRedefine ds (all_spots ds) → AreBehind [] [] ds (all_spots ds) }
{}

/// Occurrences that are no longer than their stride lie apart, and a table's lie within what it takes.
pub fn occurrences_lie_apart()
    ensures apart { StridesSetApart }
    ensures within { TablesLieWithin }
{}

/// Items below a table, one before the other, lie apart in all their occurrences, and in the block that the table takes.
pub fn columns_lie_apart()
    ensures apart { ColumnsLieApart }
    ensures within { ColumnsLieInBlocks }
    ensures blocks { BlocksLieApart }
{}
