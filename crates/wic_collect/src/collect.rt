//! Items of an iterator put into a vector: the one loop that all calls of this crate stand on.
ghost use Rattle.std.specs.Prelude.{◌≡◌, ◌<◌, ◌≤◌, ◌++◌, List, Result, Ok, length, IfSome};
ghost use Rattle.wic_collect.specs.Collect.{IsStoppedBy};

use std::alloc::Global;
use wic_base::OutOfMemory;
use wic_vec::TryVec;

/// An item as a result: a value, or a result that is passed on.
pub(crate) trait IntoResult<T, E> {
    ghost as_result: { Self → Result T E };

    fn into_result(self) -> Result<T, E>
        ensures { result ≡ as_result self };
}

impl<T, E> IntoResult<T, E> for T {
    ghost as_result = { λ x. Ok x };

    fn into_result(self) -> Result<T, E> {
        Ok(self)
    }
}

impl<T, E> IntoResult<T, E> for Result<T, E> {
    ghost as_result = { λ x. x };

    fn into_result(self) -> Result<T, E> {
        self
    }
}

/// Why no more items are put into a vector.
#[derive(Drop)]
pub(crate) enum Stop<E> {
    /// It has as many elements as it may have. The next item wasn't asked for.
    Full,
    /// There are no more items.
    Ended,
    /// An item was this error.
    Error(E),
    /// An item was read, and there was no memory for it.
    Refused(OutOfMemory),
}

/// Puts the values of the items of `iter` at the end of `to`, in order, until `to` has `limit` elements, the items end,
/// one of them is an `Err`, or the call is out of memory. No more items are read: `iter` goes on behind the last one.
pub(crate) fn pour<T: Drop, E, X: IntoResult<T, E>, I: Iterator<Item = X>>(
    to: &mut TryVec<T>,
    limit: Option<usize>,
    iter: &mut I,
) -> Stop<E>
    requires ready { IfSome limit (λ most. length to.old.items < most) → I.can_next iter.old }
    requires within { IfSome limit (λ most. length to.old.items ≤ most) }
    ensures items { (values : List T) × (to.new.items ≡ to.old.items ++ values)
        × IsStoppedBy I.next_gives X.as_result limit iter.old values iter.new to.new result }
    ensures capacity_never_falls { to.old.capacity ≤ to.new.capacity }
    ensures capacity_kept_within { IfSome limit (λ most. most ≤ to.old.capacity
        → to.new.capacity ≡ to.old.capacity) }
{
    while limit != Some(to.len()) {
        let Some(item) = iter.next() else {
            return Stop::Ended;
        };
        match item.into_result() {
            Ok(value) => {
                if let Err(oom) = to.push(value) {
                    return Stop::Refused(oom);
                }
            }
            Err(error) => return Stop::Error(error),
        }
    }
    Stop::Full
}
