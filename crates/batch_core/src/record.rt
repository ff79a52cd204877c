//! What commands leave behind after they took effect.

/// What a command that took effect tells, and what undoes it.
///
/// Each command leaves one record, except `Truncate`: it records one `Cut` per value, starting from the last, and then a
/// `Truncated`.
#[derive(Debug, Drop, PartialEq, Eq)]
pub enum Record<T> {
    /// A value was put at the end of the list.
    Pushed,
    /// This value was taken from the end of the list.
    Popped(T),
    /// The value in this place of the list was this one.
    Replaced { at: u64, old: T },
    /// A value is held under this id.
    Allocated { id: u32 },
    /// This id was freed, and its value was this one.
    Freed { id: u32, old: T },
    /// The value under this id was this one.
    Put { id: u32, old: T },
    /// The number is in the set: whether it is new there.
    Inserted { number: u64, was_new: bool },
    /// The number isn't in the set: whether it was there.
    Removed { number: u64, was_there: bool },
    /// This value was cut from the end of the list.
    Cut(T),
    /// So many values were cut from the list.
    Truncated { removed: u64 },
}
