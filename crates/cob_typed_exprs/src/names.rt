//! The things that references name in a layout.
ghost use Rattle.std.specs.Prelude.{◌≡◌, ℕ, ◌+◌, ◌<◌, ◌≤◌, ◌∷◌, [], Option, Some, None, List, length, slice_get, Ok, IfOk, if◌then◌else◌};
ghost use Rattle.cob_tree.specs.declared.operand.Ref.{Ref};
ghost use Rattle.cob_tree.specs.declared.tree.Tree.{Tree};
ghost use Rattle.cob_tree.specs.StmtView.{plain_tree};
ghost use Rattle.cob_tree.specs.PrintStmt.{print_tree};
ghost use Rattle.cob_data.specs.declared.layout.Layout.{Layout};
ghost use Rattle.cob_data.specs.Answers.{IsAnswer};
ghost use Rattle.cob_typed_exprs.specs.declared.found.Found.{Found};
ghost use Rattle.cob_typed_exprs.specs.Names.{item_name, above, above_at, qualifies, file_above, IsFound, NamesItem, NamesFlag, NamesFile, NamesRecord, is_record};
ghost use Rattle.cob_typed_exprs.specs.Tables.{IsTable};
ghost use Rattle.cob_typed_exprs.specs.Search.{name_in, count_in, fits, NamesIn, HasFewPlaces, found_and};
ghost use Rattle.cob_tree.specs.Limits.{token_limit};

use crate::found::Found;
use crate::homes::homes_of;
use crate::kind::Kind;
use crate::qualifiers::{left_behind, name_home, none_left, parent_of};
use crate::table::Table;
use crate::tables::{files_table, flags_table, items_table};
use cob_data::Layout;
use cob_tree::{Name, Ref};
use indexmap::IndexMap;
use std::alloc::{AllocError, Global};
use std::marker::Model;

/// The names of a layout, built once. Contracts see it as the layout. No name is looked up by going over all items:
/// a look-up takes time in proportion to the places of the name, times the groups above each.
#[derive(Drop)]
pub struct Names<'a> {
    layout: &'a Layout,
    items: Table<'a>,
    flags: Table<'a>,
    files: Table<'a>,
    homes: IndexMap<u32, &'a [u8]>,
}

impl<'a> Model for Names<'a> {
    ghost use Rattle.cob_data.specs.declared.layout.Layout.{Layout};
    ghost use Rattle.cob_typed_exprs.specs.Search.{AreNames};

    ghost Value = { Layout };

    ghost view = { λ n. n.layout.now };

    ghost invariant = { λ n. AreNames n.layout.now n.items n.flags n.files n.homes };
}

impl<'a> Names<'a> {
    /// The names of a layout.
    pub fn of(alloc: Global, layout: &'a Layout) -> Result<Names<'a>, AllocError>
        requires { HasFewPlaces layout.now }
        ensures { IfOk result (λ names. names ≡ layout.now) }
    {
        let items = or_leave!(items_table(alloc, layout.items.get()));
        let flags = or_leave!(flags_table(alloc, layout.flags.get()), items);
        let files = or_leave!(files_table(alloc, layout.files.get()), items, flags);
        let homes = or_leave!(homes_of(alloc, layout.files.get()), items, flags, files);
        Ok(Names {
            layout,
            items,
            flags,
            files,
            homes,
        })
    }

    /// Where such names are looked up.
    fn table(&self, kind: Kind) -> &Table<'a>
        ensures { IsTable result.now (name_in self.now kind) (count_in self.now kind) }
    {
        match kind {
            Kind::Item => &self.items,
            Kind::Record => &self.items,
            Kind::Flag => &self.flags,
            Kind::File => &self.files,
        }
    }

    /// Whether these qualifiers name the file of a record.
    fn name_file(&self, of: &[Name], place: u32) -> bool
        ensures { result ≡ qualifies of.now (file_above self.now.files place) }
    {
        name_home(of, self.homes.get(&place).copied())
    }

    /// Whether each qualifier names one of what stands above a place below this group, in order. At most so many
    /// groups are looked at.
    fn qualify(&self, of: &[Name], place: u32, parent: Option<u32>, most: usize) -> bool
        ensures { result ≡ qualifies of.now (above_at self.now most place parent) }
    {
        let items = self.layout.items.get();
        let mut left = of;
        let mut below = place;
        let mut above = parent;
        for step in 0..most {
            match above {
                None => return self.name_file(left, below),
                Some(group) => {
                    left = left_behind(items, left, group);
                    below = group;
                    above = parent_of(items, group);
                }
            }
        }
        none_left(left)
    }

    /// Whether the item stands below what these qualifiers name.
    fn stands_below(&self, of: &[Name], place: u32) -> bool
        ensures { result ≡ qualifies of.now (above self.now place) }
    {
        let items = self.layout.items.get();
        self.qualify(of, place, parent_of(items, place), items.len() + 1)
    }

    /// Whether the item is one of these qualifiers' or stands below.
    fn stands_within(&self, of: &[Name], item: u32) -> bool
        ensures { result ≡ qualifies of.now (item_name (slice_get self.now.items item) ∷ above self.now item) }
    {
        let items = self.layout.items.get();
        self.qualify(of, item, Some(item), items.len() + 2)
    }

    /// Whether the item is an 01 of a file.
    fn is_record(&self, place: u32) -> bool
        ensures { result ≡ is_record self.now.files place }
    {
        self.homes.contains_key(&place)
    }

    /// Whether the place, which has the name, is of this kind and stands below what the qualifiers name.
    fn fits(&self, kind: Kind, of: &[Name], place: u32) -> bool
        requires { place < count_in self.now kind }
        ensures { result ≡ fits self.now kind of.now place }
    {
        match kind {
            Kind::Item => self.stands_below(of, place),
            Kind::Record => self.is_record(place) && self.stands_below(of, place),
            Kind::Flag => self.stands_within(of, self.layout.flags.get()[place as usize].item),
            Kind::File => true,
        }
    }

    /// What is found, with this place where it fits.
    fn count(&self, kind: Kind, of: &[Name], place: u32, found: Found) -> Found
        requires { place < count_in self.now kind }
        ensures { result ≡ (if fits self.now kind of.now place then found_and found place else found) }
    {
        if self.fits(kind, of, place) {
            found.and(place)
        } else {
            found
        }
    }

    /// What of this kind has the name and stands below what the qualifiers name: from the last place back, up to two.
    fn search(&self, kind: Kind, name: &[u8], of: &[Name]) -> Found
        ensures { IsFound (NamesIn self.now kind name.now of.now) result }
    {
        let table = self.table(kind);
        let mut found = Found::Nothing;
        let mut next = table.last(name);
        while let Some(place) = next {
            found = self.count(kind, of, place, found);
            if found.is_several() {
                return found;
            }
            next = table.before(place);
        }
        found
    }

    /// The items that the reference names: groups and elementary items, but no FILLER.
    pub fn item(&self, reference: &Ref) -> Found
        ensures { IsFound (NamesItem self.now reference.now) result }
    {
        self.search(Kind::Item, reference.name.get(), reference.of.get())
    }

    /// The condition-names that the reference names. They stand below their item.
    pub fn flag(&self, reference: &Ref) -> Found
        ensures { IsFound (NamesFlag self.now reference.now) result }
    {
        self.search(Kind::Flag, reference.name.get(), reference.of.get())
    }

    /// The files of this name.
    pub fn file(&self, name: &[u8]) -> Found
        ensures { IsFound (NamesFile self.now name.now) result }
    {
        self.search(Kind::File, name, &[])
    }

    /// The 01 items of files that the reference names.
    pub fn record(&self, reference: &Ref) -> Found
        ensures { IsFound (NamesRecord self.now reference.now) result }
    {
        self.search(Kind::Record, reference.name.get(), reference.of.get())
    }
}

/// What a name means is one of the three alone.
pub fn one_answer()
    ensures items { (l : Layout) (r : Ref) (f g : Found) → IsFound (NamesItem l r) f → IsFound (NamesItem l r) g → f ≡ g }
    ensures flags { (l : Layout) (r : Ref) (f g : Found) → IsFound (NamesFlag l r) f → IsFound (NamesFlag l r) g → f ≡ g }
    ensures files { (l : Layout) (text : List ℕ) (f g : Found) → IsFound (NamesFile l text) f → IsFound (NamesFile l text) g → f ≡ g }
    ensures records { (l : Layout) (r : Ref) (f g : Found) → IsFound (NamesRecord l r) f → IsFound (NamesRecord l r) g → f ≡ g }
{}

/// A layout that was made from a tree can have its names looked up.
pub fn layouts_have_few_places()
    ensures { (t : Tree) (l : Layout) → length (print_tree (plain_tree t)) ≤ token_limit → IsAnswer t (Ok l) → HasFewPlaces l }
{}
