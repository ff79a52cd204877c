//! Laws over the definitions that the contracts of `NestSpace` cite. The calls of this module do nothing.
ghost use Rattle.std.specs.Prelude.{List};
ghost use Rattle.batch_script.specs.Laws.{HasOnePlainRunOver, LinesTellItemsOver};
ghost use Rattle.batch_script.specs.Laws.{RoomMakesPlainOver, TextTellsRunOver};
ghost use Rattle.batch_nest.specs.Counts.{NestCountsAreEnough};
ghost use Rattle.batch_nest.specs.Laws.{WithoutInnerIsBatch, AllCommittedIsPlain, BalancedByTheBody};
ghost use Rattle.batch_nest.specs.Laws.{InnerAbortRestores, LinesTellTheBody, FitsLargerRooms};
ghost use Rattle.batch_nest.specs.Script.{PlainNestItem, nest_bodies, nest_printing};

/// Lines are balanced if the body that they lead to has these lines, which computes for lines that are known; and lines of commands
/// alone are balanced. So a caller that made the lines itself need not test them.
pub fn law_balanced<T>()
    ensures { BalancedByTheBody T }
{}

/// A nest without inner batches has the course of the batch of its commands: the first bad command, the records, the
/// contents in the end, and what passes the room are the same. It needs as many places to begin: so it fits a room exactly if
/// the batch does.
pub fn law_without_inner<T>()
    ensures { WithoutInnerIsBatch T }
{}

/// A nest whose inner batches all end in `Commit`, at every depth, has the course of the nest without the lines that begin
/// and end them. It needs as many places to begin, or one per inner batch if these are more.
pub fn law_all_committed<T>()
    ensures { AllCommittedIsPlain T }
{}

/// An inner batch that ends in `Abort`, at whatever depth it stands, leaves list, set, live values and the order of all later ids
/// as they were at its own start, and no records.
pub fn law_inner_abort<T>()
    ensures { InnerAbortRestores T }
{}

/// The lines of a nest tell its body: what `apply` says of each body that has these lines it says of one.
pub fn law_one_body<T>()
    ensures { LinesTellTheBody T }
{}

/// A nest that fits a room fits every larger one, so that what was planned for one reservation may run within a greater one.
pub fn law_larger_room<T>()
    ensures { FitsLargerRooms T }
{}

/// A nest fits a room by the counts of its lines alone, as a batch does, with two differences: there are no more inner batches than
/// the room either; and if it truncates, each truncation counts as many values as the list has at most, since an inner abort brings
/// them back to be cut again. Commands are counted whether an inner abort undoes them or not.
pub fn law_nest_counts_are_enough<T>()
    ensures { NestCountsAreEnough T }
{}

/// An input is the script of nests of one list of items alone: valid items that are printed alike, line for line, are the same items.
pub fn law_one_nest_script()
    ensures one_script { LinesTellItemsOver nest_printing }
{}

/// The text of a run of nests tells the reply to each item: items that are run to one text were given the same replies.
pub fn law_one_nest_run()
    ensures one_run { TextTellsRunOver nest_bodies }
{}

/// A run of nests whose first item reserves all the room that its items need, and is accepted, is the plain run: nothing in it is
/// refused for memory. And each list of items has exactly one plain run.
pub fn law_plain_nest_run()
    ensures plain_run { RoomMakesPlainOver nest_bodies }
    ensures one_plain_run { (items : List PlainNestItem) → HasOnePlainRunOver nest_bodies items }
{}
