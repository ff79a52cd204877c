//! Why a script was not run to its end.
use wic_base::OutOfMemory;

/// Why a script was not run to its end.
#[derive(Clone, Copy, Debug, PartialEq, Eq)]
pub enum RunError {
    /// The input is no script: the line of the fault, counted from 1.
    Syntax { line: u64 },
    /// Out of memory: for the script or for its replies.
    Oom,
}

impl From<OutOfMemory> for RunError {
    ghost use Rattle.std.specs.Prelude.{◌≡◌};
    ghost use Rattle.batch_script.specs.declared.run_error.RunError.TheVariants.{Oom};

    ghost from_gives = { λ _ error. error ≡ Oom };

    fn from(_: OutOfMemory) -> RunError {
        RunError::Oom
    }
}
