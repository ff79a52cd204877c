//! Laws over the definitions that the contracts of `Workspace` cite. The calls of this module do nothing.
ghost use Rattle.batch_core.specs.Counts.{CountsAreEnough};
ghost use Rattle.batch_core.specs.Laws.{UndoingGoesBack, GoingBackInTwo};
ghost use Rattle.batch_core.specs.Laws.{AllocationAddsOne, EachCommandStandsOnce, SameContentsAreEqual};
ghost use Rattle.batch_core.specs.Many.{FitsLargerRooms, FitsLargerRoomsOver};

/// Undoing the records of an admitted command, the newest first, on the contents after it gives the contents before it:
/// list, set, live values and the order of all later ids. The contracts of `Workspace::step` and `Workspace::back_to` tie
/// it to the calls.
pub fn law_undo<T>()
    ensures { UndoingGoesBack T }
{}

/// A batch that fits a room fits every larger one, so that what was planned for one reservation may run within a greater one.
/// The clause `courses` says the same of whatever has a course, as a nest has.
pub fn law_larger_room<T>()
    ensures batches { FitsLargerRooms T }
    ensures courses { FitsLargerRoomsOver T }
{}

/// The course of a batch has one stand per command: so what is said of its stands by their number is said of its commands.
pub fn law_course_length<T>()
    ensures { EachCommandStandsOnce T }
{}

/// A batch fits a room by its counts alone, so that a caller knows before it begins which room is enough. It does, if
///
/// - it has at most as many commands as the room;
/// - it pushes nothing, or the list and all that it pushes are within the room;
/// - it allocates nothing, or the live ids and all that it allocates are within the room;
/// - it inserts no number that isn't below the room;
/// - it truncates nothing, or its commands, the list and all that it pushes are within the room together.
///
/// What it pops, frees and cuts off isn't taken from the counts: some batches fit a room, and their counts don't say so.
pub fn law_counts_are_enough<T>()
    ensures { CountsAreEnough T }
{}

/// Going back to a mark, and then to an earlier one, is going back to the earlier one at once.
pub fn law_back_in_two<T>()
    ensures { GoingBackInTwo T }
{}

/// An admitted allocation raises the number of live ids by one. With it a caller can show that a `step` keeps within the room: `mark`
/// tells that the contents are sound.
pub fn law_alloc_adds_one<T>()
    ensures { AllocationAddsOne T }
{}

/// For a type whose comparison is equality, `same_contents` says exactly whether list, set and live values are equal.
pub fn law_same_contents<T>()
    ensures { SameContentsAreEqual T }
{}
