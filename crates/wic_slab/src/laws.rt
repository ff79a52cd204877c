//! Laws of the order in which ids are handed out. They speak of the definitions that the contracts of `Slab`
//! cite, and no call of this module does anything.
ghost use Rattle.wic_slab.specs.Laws.{AllocationUndoesGivingBack, GivingBackUndoesAllocation, StaysAnOrder};

/// After a live id is freed, the next allocation returns that id. If it allocates the value that was held
/// under the id, the live ids with their values and the hand-out order are as before both.
///
/// The contracts of `Slab::dealloc`, `Slab::try_alloc` and `Slab::alloc` tie it to the calls.
pub fn law_give_back<T>()
    ensures { AllocationUndoesGivingBack T }
{}

/// An allocation whose id is freed leaves the live ids with their values and the hand-out order as they were.
///
/// The contracts of `Slab::try_alloc`, `Slab::alloc` and `Slab::dealloc` tie it to the calls.
pub fn law_take_back<T>()
    ensures { GivingBackUndoesAllocation T }
{}

/// Taking the next id, below the limit, and freeing a live id lead from an order that belongs to the live ids to
/// one that belongs to those that are live then. It is for layers that speak of the order over many steps.
pub fn law_order_stays<T>()
    ensures { StaysAnOrder T }
{}
