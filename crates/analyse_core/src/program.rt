//! The literals of a program.
ghost use Rattle.std.specs.Prelude.{◌≡◌, ◌==◌, ◌++◌, [], if◌then◌else◌, IfOk, OnOk};
ghost use Rattle.cob_program.specs.ActView.{plain_program};
ghost use Rattle.analyse_core.specs.Literals.{
  data_literals,
  flags_literals,
  item_literals,
  items_literals,
  numbers_of,
  pairs_literals,
  program_literals,
};

use crate::literals::{add_pairs, add_value};
use crate::statements::add_paras;
use cob_data::{Flag, Item, Layout};
use cob_program::Program;
use cob_tree::Num;
use std::alloc::{AllocError, Global};

// adds the literals of a condition-name, if it is of the item at this place
fn add_flag<'a>(literals: &mut Vec<&'a Num>, place: usize, flag: &'a Flag) -> Result<(), AllocError>
    ensures { OnOk result (numbers_of literals.new.items
        ≡ numbers_of literals.old.items ++ (if flag.now.item == place then pairs_literals flag.now.ranges else [])) }
{
    if flag.item as usize == place {
        return add_pairs(literals, flag.ranges.get());
    }
    Ok(())
}

fn add_flags<'a>(
    literals: &mut Vec<&'a Num>,
    place: usize,
    flags: &'a [Flag],
) -> Result<(), AllocError>
    ensures { OnOk result (numbers_of literals.new.items ≡ numbers_of literals.old.items ++ flags_literals place flags.now) }
{
    for flag in flags {
        add_flag(literals, place, flag)?;
    }
    Ok(())
}

fn add_item<'a>(
    literals: &mut Vec<&'a Num>,
    flags: &'a [Flag],
    place: usize,
    item: &'a Item,
) -> Result<(), AllocError>
    ensures { OnOk result (numbers_of literals.new.items ≡ numbers_of literals.old.items ++ item_literals flags.now place item.now) }
{
    add_value(literals, &item.value)?;
    add_flags(literals, place, flags)
}

fn add_items<'a>(
    literals: &mut Vec<&'a Num>,
    flags: &'a [Flag],
    items: &'a [Item],
) -> Result<(), AllocError>
    ensures { OnOk result (numbers_of literals.new.items ≡ numbers_of literals.old.items ++ items_literals flags.now 0 items.now) }
{
    for (place, item) in items.iter().enumerate() {
        add_item(literals, flags, place, item)?;
    }
    Ok(())
}

fn add_data<'a>(literals: &mut Vec<&'a Num>, layout: &'a Layout) -> Result<(), AllocError>
    ensures { OnOk result (numbers_of literals.new.items ≡ numbers_of literals.old.items ++ data_literals layout.now) }
{
    add_items(literals, layout.flags.get(), layout.items.get())
}

/// The numeric literals of a program, in the order of its source.
pub fn program_literals<'a>(alloc: Global, program: &'a Program) -> Result<Vec<&'a Num>, AllocError>
    ensures { IfOk result (λ literals. numbers_of literals.items ≡ program_literals (plain_program program.now)) }
{
    let mut literals = Vec::new(alloc);
    add_data(&mut literals, &program.layout)?;
    add_paras(&mut literals, program.paras.get())?;
    Ok(literals)
}
