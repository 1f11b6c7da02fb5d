//! The layout of a program, or why it has none.
ghost use Rattle.std.specs.Prelude.{◌≡◌, ℕ, ◌<◌, ◌≤◌, length, ◌+◌, ◌↔◌, IsTrue, IfSome};
ghost use Rattle.rule_order.specs.Order.{IsFirstBroken, AreKept};
ghost use Rattle.cob_tree.specs.StmtView.{plain_tree};
ghost use Rattle.cob_tree.specs.PrintStmt.{print_tree};
ghost use Rattle.cob_data.specs.declared.end.Rule.{Rule};
ghost use Rattle.cob_data.specs.declared.end.Which.{Which};
ghost use Rattle.cob_data.specs.declared.end.DataEnd.TheVariants.{Outside, Limit, Memory};
ghost use Rattle.cob_data.specs.Spots.{all_spots};
ghost use Rattle.cob_data.specs.Rules.{facts_of, broken_lines, data_rules, count_of, IsFirstExceeded};
ghost use Rattle.cob_data.specs.Layouts.{HasLayout};
ghost use Rattle.cob_data.specs.Known.{HasFewEntries};
ghost use Rattle.cob_data.specs.Overlaps.{Meet};
ghost use Rattle.cob_data.specs.Entries.{file_entries};
ghost use Rattle.cob_data.specs.Answers.{IsAnswer, IsRefused, IsAccepted, IsJudged};
ghost use Rattle.cob_tree.specs.Limits.{token_limit};

use crate::build::layout_in;
use crate::end::DataEnd;
use crate::extent::share_extents;
use crate::layout::{Item, Layout};
use crate::names::names_of;
use crate::read::facts_of;
use crate::rules::{Known, refusal_in};
use cob_tree::Tree;
use std::alloc::{AllocError, AllocFailed, Global};

impl<T: Drop> From<AllocFailed<T>> for DataEnd {
    ghost from_gives = { λ _ e. e ≡ Memory };

    fn from(_failed: AllocFailed<T>) -> DataEnd {
        DataEnd::Memory
    }
}

impl From<AllocError> for DataEnd {
    ghost from_gives = { λ _ e. e ≡ Memory };

    fn from(_failed: AllocError) -> DataEnd {
        DataEnd::Memory
    }
}

fn judged(alloc: Global, known: &Known) -> Result<Layout, DataEnd>
    requires laid { known.now.spots ≡ all_spots known.now.items }
    requires few { length known.now.items ≤ token_limit }
    requires short { length known.now.fds ≤ token_limit }
    ensures { IsJudged known.now result }
{
    let names = names_of(alloc, known.selects, known.fds, &known.items)?;
    match refusal_in(known, &names) {
        Some(end) => Err(end),
        None => Ok(layout_in(alloc, known)?),
    }
}

fn laid_out(alloc: Global, tree: &Tree) -> Result<Layout, DataEnd>
    requires { HasFewEntries tree.now.front }
    ensures { IsJudged (facts_of tree.now) result }
{
    let known = facts_of(alloc, tree)?;
    judged(alloc, &known)
}

/// Where the items of a program lie, with its condition-names and files, or the first rule on data that the program
/// breaks and the first line that breaks it, or the first limit that it exceeds: 512 named elementary items,
/// 1,048,576 bytes, 16 files (ISO 1989:1985, "Data division" and "Environment division").
///
/// Records follow each other from offset 0 in the order of the source; those of one file lie on each other, and a
/// redefinition lies on what it redefines. Where two entries clash, the line is the later one's.
pub fn layout_of(alloc: Global, tree: &Tree) -> Result<Layout, DataEnd>
    requires { length (print_tree (plain_tree tree.now)) ≤ token_limit }
    ensures answer { IsAnswer tree.now result }
    ensures outside { (rule : Rule) (line : ℕ) → IsFirstBroken (broken_lines tree.now) data_rules rule line → IsRefused result (Outside rule line) }
    ensures limit { (w : Which) → AreKept (broken_lines tree.now) data_rules → IsFirstExceeded tree.now w → IsRefused result (Limit w (count_of (facts_of tree.now) w)) }
    ensures accepted { HasLayout tree.now → IsAccepted result }
{
    laid_out(alloc, tree)
}

// Whether ranges that share bytes have some.
fn have_some(shared: bool, count: u32, many: u32) -> bool
    ensures { IsTrue result ↔ (IsTrue shared × (0 < count) × (0 < many)) }
{
    shared && count > 0 && many > 0
}

/// Whether some byte lies in both items, in whichever of their occurrences.
pub fn overlaps(a: &Item, b: &Item) -> bool
    ensures { IsTrue result ↔ Meet a.now b.now }
{
    let shared = share_extents(&a.extent(), &b.extent());
    have_some(shared, a.length, b.length)
}
