//! What a refusal says, as links of an error.
ghost use Rattle.std.specs.Prelude.{◌≡◌};
ghost use Rattle.batch_script.specs.Kind.{kind_of_cause};

use batch_core::Cause;
use wic_base::OutOfMemory;
use wic_error::Kind;
use wic_vec::TryString;

/// What was refused, and why: the links of the error whose line a refusal is.
#[derive(Clone, Copy, Debug, PartialEq, Eq)]
pub enum BatchKind {
    /// The list is empty.
    Empty,
    /// The position isn't below the length of the list; or more values are to be left than there are.
    Position,
    /// The id isn't live.
    Vacant,
    /// As many ids are live as there can be.
    Full,
    /// The number is too large for the set, or for a room.
    TooLarge,
    /// The command with this number in its batch, from 1.
    Command(u64),
    /// A reservation.
    Reserve,
}

impl BatchKind {
    /// The kind of a cause, or `None` for out of memory.
    pub(crate) fn of_cause(cause: Cause) -> Option<BatchKind>
        ensures kind { result ≡ kind_of_cause cause }
    {
        match cause {
            Cause::Empty => Some(BatchKind::Empty),
            Cause::Position => Some(BatchKind::Position),
            Cause::Vacant => Some(BatchKind::Vacant),
            Cause::Full => Some(BatchKind::Full),
            Cause::TooLarge => Some(BatchKind::TooLarge),
            Cause::Oom(_) => None,
        }
    }
}

impl Kind for BatchKind {
    ghost use Rattle.batch_script.specs.Kind.{kind_number, kind_text};

    ghost number = { kind_number };

    ghost text = { kind_text };

    fn number(&self) -> u32 {
        match self {
            BatchKind::Empty => 1,
            BatchKind::Position => 2,
            BatchKind::Vacant => 3,
            BatchKind::Full => 4,
            BatchKind::TooLarge => 5,
            BatchKind::Command(_) => 6,
            BatchKind::Reserve => 7,
        }
    }

    fn push_text(&self, out: &mut TryString) -> Result<(), OutOfMemory> {
        match self {
            BatchKind::Empty => out.push_str("list is empty"),
            BatchKind::Position => out.push_str("position is not below the length"),
            BatchKind::Vacant => out.push_str("id is not live"),
            BatchKind::Full => out.push_str("table is full"),
            BatchKind::TooLarge => out.push_str("number is too large"),
            BatchKind::Command(at) => {
                out.push_str("command ")?;
                out.push_decimal(*at)
            }
            BatchKind::Reserve => out.push_str("reserve"),
        }
    }
}
