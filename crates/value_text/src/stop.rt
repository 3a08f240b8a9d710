//! Why a reading stopped.

use std::alloc::{AllocError, AllocFailed};

/// Why a reading stopped.
#[derive(Clone, Copy)]
pub enum TextStop {
    /// The text doesn't go on so. This many bytes are left, the one at fault in front.
    Left(usize),
    /// There was no room in memory.
    NoMemory,
}

impl From<AllocError> for TextStop {
    ghost use Rattle.std.specs.Prelude.{◌≡◌};
    ghost use Rattle.value_text.specs.declared.stop.TextStop.TheVariants.{NoMemory};

    ghost from_gives = { λ _ stop. stop ≡ NoMemory };

    fn from(_error: AllocError) -> Self {
        TextStop::NoMemory
    }
}

impl<T: Drop> From<AllocFailed<T>> for TextStop {
    ghost use Rattle.std.specs.Prelude.{◌≡◌};
    ghost use Rattle.value_text.specs.declared.stop.TextStop.TheVariants.{NoMemory};

    ghost from_gives = { λ _ stop. stop ≡ NoMemory };

    fn from(_failed: AllocFailed<T>) -> Self {
        TextStop::NoMemory
    }
}
