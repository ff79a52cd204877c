//! A table of resources of several kinds, proved from the contracts of a generational slab alone.
ghost use Rattle.std.specs.Prelude.{◌≡◌, ◌+◌, ◌<◌, Some, IfOk, IsSome, OnOk, false};
ghost use Rattle.std.specs.FinMap.{len};
ghost use Rattle.wic_slab.specs.Order.{max_capacity};
ghost use Rattle.gen_slab.specs.GenSlab.{KeepsGone, KeepsLive, KeepsOthers, value_of};

use crate::{GenRefusal, GenerationalId, GenerationalSlab};

// What the table holds.
#[derive(Clone, Copy, Debug, PartialEq, Eq)]
pub enum Resource {
    File(u32),
    Port(u16),
    Timer { ticks: u64 },
}

// Opens a resource: its handle finds it, and the open handles find what they found.
pub fn open(
    table: &mut GenerationalSlab<Resource>,
    resource: Resource,
) -> Result<GenerationalId, GenRefusal>
    requires { len table.old.state.live < max_capacity }
    ensures found { IfOk result (λ handle. value_of table.new.state handle ≡ Some resource) }
    ensures one_more { OnOk result (len table.new.state.live ≡ len table.old.state.live + 1) }
    ensures others { KeepsLive table.old.state table.new.state }
{
    table.alloc(resource)
}

// Opens a resource and closes it twice: the second time there is nothing to close.
pub fn open_and_close_twice(
    table: &mut GenerationalSlab<Resource>,
    resource: Resource,
) -> Result<bool, GenRefusal>
    requires { len table.old.state.live < max_capacity }
    ensures { IfOk result (λ again. again ≡ false) }
{
    let handle = table.alloc(resource)?;
    let _ = table.dealloc(handle);
    Ok(table.dealloc(handle).is_some())
}

// Puts another resource under a handle, if it is open: as many are open, the other handles find what they found, and what was
// closed stays closed.
pub fn exchange(
    table: &mut GenerationalSlab<Resource>,
    handle: GenerationalId,
    resource: Resource,
) -> bool
    ensures as_many { len table.new.state.live ≡ len table.old.state.live }
    ensures others { KeepsOthers handle table.old.state table.new.state }
    ensures keeps_gone { KeepsGone table.old.state table.new.state }
{
    match table.get_mut(handle) {
        Some(held) => {
            *held = resource;
            true
        }
        None => false,
    }
}

// Opens a resource, and then closes another one, sets back a timer and opens a port: the first handle finds its resource.
pub fn open_among_others(
    table: &mut GenerationalSlab<Resource>,
    resource: Resource,
    closed: GenerationalId,
    timer: GenerationalId,
) -> Result<Option<Resource>, GenRefusal>
    requires room { len table.old.state.live + 1 < max_capacity }
    requires closed_is_open { IsSome (value_of table.old.state closed) }
    requires timer_is_open { IsSome (value_of table.old.state timer) }
    ensures found { IfOk result (λ found. found ≡ Some resource) }
{
    let handle = table.alloc(resource)?;
    let _ = table.dealloc(closed);
    if let Some(held) = table.get_mut(timer) {
        *held = Resource::Timer { ticks: 0 };
    }
    let _ = table.alloc(Resource::Port(80))?;
    Ok(table.get(handle).copied())
}

// Closes a resource and opens another one, which may get the same id, sets back a timer and closes one more: the first
// handle finds nothing.
pub fn close_and_go_on(
    table: &mut GenerationalSlab<Resource>,
    closed: GenerationalId,
    resource: Resource,
    timer: GenerationalId,
) -> Result<bool, GenRefusal>
    requires room { len table.old.state.live < max_capacity }
    ensures { IfOk result (λ found. found ≡ false) }
{
    if table.dealloc(closed).is_none() {
        return Ok(false);
    }
    let opened = table.alloc(resource)?;
    if let Some(held) = table.get_mut(timer) {
        *held = Resource::Timer { ticks: 0 };
    }
    let _ = table.dealloc(opened);
    Ok(table.contains(closed))
}
