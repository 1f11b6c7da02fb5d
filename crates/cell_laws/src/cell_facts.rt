//! What holds of the cells of each program, and of the items that they are of.
ghost use Rattle.cell_laws.specs.Cells.{CellsAreOfHomes, HomesHaveOwnRanges};
ghost use Rattle.cell_laws.specs.Entry.{FilledBytesStand};
ghost use Rattle.cell_laws.specs.Items.{ItemsAreSound};

/// A law: the cells of a program are those of its named numbers and short texts, in their order, and then those of its
/// PERFORMs with TIMES; the own range of each is its home's.
pub fn cells_are_of_homes()
    ensures cells { CellsAreOfHomes }
    ensures ranges { HomesHaveOwnRanges }
{}

/// A law: each occurrence of an item lies within storage, the number that it holds lies in the item's own range, and a number that it has room for
/// fills it and reads back.
pub fn items_are_sound()
    ensures { ItemsAreSound }
{}

/// A law: bytes that hold the same where each VALUE is put over zeros and over ones are those of each first storage,
/// whatever stood in storage before.
pub fn filled_bytes_stand()
    ensures { FilledBytesStand }
{}
