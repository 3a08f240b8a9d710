//! Why a run stops before its end.

ghost use Rattle.std.specs.Prelude.{◌≡◌};

use std::alloc::AllocError;

/// Why a run stops before its end.
#[derive(Clone, Copy)]
pub enum RunStop {
    /// The journal failed.
    JournalFault,
    /// There was no memory for the run itself.
    NoMemory,
}

impl From<AllocError> for RunStop {
    ghost use Rattle.cell_core.specs.declared.stop.RunStop.TheVariants.{NoMemory};

    ghost from_gives = { λ _ stop. stop ≡ NoMemory };

    fn from(_error: AllocError) -> Self {
        RunStop::NoMemory
    }
}
