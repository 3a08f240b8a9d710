//! Why a constant can't be evaluated.

use idl_token::Place;
use std::alloc::{AllocError, AllocFailed};
use thiserror::Error;

/// Why a constant value can't be evaluated.
#[derive(Clone, Copy, Debug, PartialEq, Eq, Error)]
pub enum ConstFault {
    /// The form doesn't fit the type, or a union is given another number of entries than one.
    #[error("the value doesn't fit its type")]
    WrongKind,
    /// A number that the type doesn't hold.
    #[error("the number is out of range")]
    OutOfRange,
    /// No constant and no value of an enum has the name.
    #[error("the name stands for no value")]
    UnknownName,
    /// A double that isn't a whole number within plus or minus 2^53.
    #[error("the double isn't a whole number within 2^53")]
    DoubleConstant,
    /// A literal that writes no uuid.
    #[error("the literal is no uuid")]
    BadUuid,
    /// The value needs itself.
    #[error("the value needs itself")]
    ConstCycle,
    /// The struct has no field of the name.
    #[error("there is no such field")]
    UnknownField,
    /// A required field without a default isn't given.
    #[error("a required field is missing")]
    MissingField,
    /// The value has more than 64 levels or 4,000,000 values.
    #[error("the value is too large")]
    TooLarge,
    /// There was no room in memory, or the evaluation passes a bound on its work.
    #[error("out of memory")]
    NoMemory,
}

impl From<AllocError> for ConstFault {
    ghost use Rattle.std.specs.Prelude.{◌≡◌};
    ghost use Rattle.idl_const.specs.declared.faults.ConstFault.TheVariants.{NoMemory};

    ghost from_gives = { λ _ fault. fault ≡ NoMemory };

    fn from(_error: AllocError) -> Self {
        ConstFault::NoMemory
    }
}

/// Where evaluating ends before its end, and why; where memory ran out, anywhere.
#[derive(Clone, Copy, PartialEq, Eq)]
pub(crate) struct ConstStop {
    /// The place of the value at fault.
    pub(crate) at: Place,
    /// What is wrong there.
    pub(crate) fault: ConstFault,
}

impl From<AllocError> for ConstStop {
    ghost use Rattle.std.specs.Prelude.{◌≡◌};
    ghost use Rattle.idl_const.specs.declared.faults.ConstFault.TheVariants.{NoMemory};

    ghost from_gives = { λ _ stop. stop.fault ≡ NoMemory };

    fn from(_error: AllocError) -> Self {
        ConstStop {
            at: NOWHERE,
            fault: ConstFault::NoMemory,
        }
    }
}

/// Stands for no place.
const NOWHERE: Place = Place { line: 0, column: 0 };

impl<T: Drop> From<AllocFailed<T>> for ConstStop {
    ghost use Rattle.std.specs.Prelude.{◌≡◌};
    ghost use Rattle.idl_const.specs.declared.faults.ConstFault.TheVariants.{NoMemory};

    ghost from_gives = { λ _ stop. stop.fault ≡ NoMemory };

    fn from(_failed: AllocFailed<T>) -> Self {
        ConstStop {
            at: NOWHERE,
            fault: ConstFault::NoMemory,
        }
    }
}
