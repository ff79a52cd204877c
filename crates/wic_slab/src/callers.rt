//! Callers of a slab, proved from its contracts and laws alone.
ghost use Rattle.std.specs.Prelude.{◌≡◌, ◌<◌, Some, IfOk, OnOk, OnErr};
ghost use Rattle.std.specs.FinMap.{get, len};
ghost use Rattle.wic_slab.specs.Order.{max_capacity};
ghost use Rattle.wic_slab.specs.Slab.{IsLive};

use crate::{Id, MAX_CAPACITY, Slab, law_give_back, law_take_back};
use wic_base::OutOfMemory;

// Holds both values or none: the room is reserved before the first one is held, so neither is refused then.
pub fn hold_both<T: Drop>(slab: &mut Slab<T>, first: T, second: T) -> Result<(Id, Id), OutOfMemory>
    ensures first { IfOk result (λ ids. get slab.new.live ids.0 ≡ Some first) }
    ensures second { IfOk result (λ ids. get slab.new.live ids.1 ≡ Some second) }
    ensures refusal_leaves { OnErr result (slab.new.live ≡ slab.old.live) }
{
    if slab.len() > MAX_CAPACITY - 2 {
        return Err(OutOfMemory::new(usize::MAX));
    }
    slab.reserve(2)?;
    let one = slab.alloc(first)?;
    let other = slab.alloc(second)?;
    Ok((one, other))
}

// A value is held and taken out again: what is live, and the order of all later ids, are as before.
pub fn hold_for_a_while<T: Drop>(slab: &mut Slab<T>, value: T) -> Result<(), OutOfMemory>
    requires { len slab.old.live < max_capacity }
    ensures live { OnOk result (slab.new.live ≡ slab.old.live) }
    ensures order { OnOk result (slab.new.order ≡ slab.old.order) }
{
    law_take_back::<T>();
    let id = slab.alloc(value)?;
    let _ = slab.dealloc(id);
    Ok(())
}

// A value is taken out and put back: it has its id again, and the order of all later ids is as before.
pub fn take_for_a_while<T: Drop>(slab: &mut Slab<T>, id: Id) -> Result<(), OutOfMemory>
    requires { IsLive slab.old id }
    ensures live { OnOk result (slab.new.live ≡ slab.old.live) }
    ensures order { OnOk result (slab.new.order ≡ slab.old.order) }
{
    law_give_back::<T>();
    let value = slab.dealloc(id);
    let _ = slab.alloc(value)?;
    Ok(())
}
