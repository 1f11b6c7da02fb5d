//! Lists of slots, one for each id that was ever given. The slot of a closed id is empty.
ghost use Rattle.std.specs.Prelude.{◌≡◌, ◌<◌, ◌^◌, IfOk, OnErr, IsSome, Some, vec_len};
ghost use Rattle.batch_io.specs.Slots.{slot_at, AddsSlot, EndsSlot};

use std::alloc::AllocError;

// Gives the next id. Where ids run out, there is no memory for another.
pub fn add_slot<T: Drop>(slots: &mut Vec<Option<T>>, opened: T) -> Result<u32, AllocError>
    ensures ok { IfOk result (λ id. AddsSlot slots.old.items slots.new.items id opened) }
    ensures err { OnErr result (slots.new.items ≡ slots.old.items) }
{
    let Ok(id) = u32::try_from(slots.len()) else {
        return Err(AllocError);
    };
    slots.push(Some(opened))?;
    Ok(id)
}

// Empties the id's slot, and gives what stood there.
pub fn end_slot<T: Drop>(slots: &mut Vec<Option<T>>, id: u32) -> Option<T>
    ensures gives { result ≡ slot_at slots.old.items id }
    ensures ends { EndsSlot slots.old.items slots.new.items id }
{
    slots.get_mut(id as usize)?.take()
}
