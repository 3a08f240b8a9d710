//! What is wrong with a raw struct.

use std::alloc::{AllocError, AllocFailed};
use thiserror::Error;

/// Why a raw struct has no projection.
#[derive(Clone, Copy, Debug, PartialEq, Eq, Error)]
pub enum SkewFault {
    /// Of this struct the field with this id has to be there, and nothing that fits was sent for it.
    #[error("field {1} of struct {0} is missing")]
    Missing(u32, i16),
    /// Of this union none or more than one field was sent.
    #[error("union {0} has none or more than one field")]
    UnionFields(u32),
    /// The result has more than 64 levels.
    #[error("the value is too deep")]
    TooDeep,
    /// The result has more than 4,000,000 values.
    #[error("the value is too large")]
    TooMany,
    /// Memory ran out.
    #[error("no memory")]
    NoMemory,
}

impl From<AllocError> for SkewFault {
    ghost use Rattle.std.specs.Prelude.{◌≡◌};
    ghost use Rattle.struct_skew.specs.declared.fault.SkewFault.TheVariants as skews;

    ghost from_gives = { λ _ result. result ≡ skews.NoMemory };

    fn from(_error: AllocError) -> SkewFault {
        SkewFault::NoMemory
    }
}

impl<T: Drop> From<AllocFailed<T>> for SkewFault {
    ghost use Rattle.std.specs.Prelude.{◌≡◌};
    ghost use Rattle.struct_skew.specs.declared.fault.SkewFault.TheVariants as skews;

    ghost from_gives = { λ _ result. result ≡ skews.NoMemory };

    fn from(_failed: AllocFailed<T>) -> SkewFault {
        SkewFault::NoMemory
    }
}
