//! What holds of items, of the numbers in them and of the values that they begin with, and of the list of statements.
ghost use Rattle.data_laws.specs.Items.{NumbersAreOwn, NumbersFillItems, NumbersReadBack};
ghost use Rattle.data_laws.specs.Values.{FirstStorageIsWhole, ValuesReadAtFirst, ValuesStandAtFirst};
ghost use Rattle.data_laws.specs.Statements.{FoundIsListed, ListedIsFound};
ghost use Rattle.data_laws.specs.Trees.{TreesGiveSigns, TreesKeepValuesApart, TreesPutValues, TreesStoreLiterals, TreesStoreNumbers};

/// A law: no two items that begin with a value have a byte in common, in whichever of their occurrences, where the rules
/// on data are kept (ISO 1989:1985, "VALUE clause").
pub fn values_stand_apart()
    ensures { TreesKeepValuesApart }
{}

/// A law: storage at the beginning of a run is as long as the layout says. Each occurrence of an item that begins with a
/// value holds the value's bytes there and reads as their number, whatever stood in storage before (ISO 1989:1985, "VALUE
/// clause").
pub fn values_stand_at_first()
    ensures whole { FirstStorageIsWhole }
    ensures bytes { ValuesStandAtFirst }
    ensures number { ValuesReadAtFirst }
{}

/// A law: each VALUE can be put into its item, where the rules on data are kept, and each occurrence of a numeric item
/// then reads as the value's number, whatever stood in storage before.
pub fn values_can_be_put()
    ensures put { TreesPutValues }
    ensures numbers { TreesStoreNumbers }
    ensures literals { TreesStoreLiterals }
{}

/// A law: an item whose sign is a byte of its own has S in its picture, where the rules on data are kept (ISO
/// 1989:1985, "SIGN clause").
pub fn separate_items_have_signs()
    ensures { TreesGiveSigns }
{}

/// A law: a number that is read of an item's occurrence has no more digits than the item's picture, and is below 0 only
/// where this has a sign.
pub fn numbers_lie_in_own_ranges()
    ensures { NumbersAreOwn }
{}

/// A law: a number that is put into an item has as many bytes as the item, and reads as this number, or as its absolute
/// value where the item has no sign.
pub fn numbers_fill_items_and_read_back()
    ensures fill { NumbersFillItems }
    ensures back { NumbersReadBack }
{}

/// A law: the list of a program's statements has each statement that is found by its number, and where each can be
/// found so, these alone.
pub fn statements_are_listed()
    ensures listed { FoundIsListed }
    ensures found { ListedIsFound }
{}
