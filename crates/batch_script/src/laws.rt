//! Laws over the definitions of scripts and runs. No call of this module does anything.
ghost use Rattle.std.specs.Prelude.{List};
ghost use Rattle.batch_script.specs.Laws.{LinesTellItems, TextTellsRun, RoomMakesPlain, HasOnePlainRun};
ghost use Rattle.batch_script.specs.Machine.{PlainItem};

/// An input is the script of one list of items alone: valid items that are printed alike, line for line, are the same items.
pub fn law_one_script()
    ensures one_script { LinesTellItems }
{}

/// The text of a run tells the reply to each item: items that are run to one text were given the same replies.
pub fn law_one_run()
    ensures one_run { TextTellsRun }
{}

/// A run whose first item reserves all the room that its items need, and is accepted, is the plain run: nothing in it is
/// refused for memory. And each list of items has exactly one plain run.
pub fn law_plain_run()
    ensures plain_run { RoomMakesPlain }
    ensures one_plain_run { (items : List PlainItem) → HasOnePlainRun items }
{}
