//! Why bytes are not a value.

use std::alloc::{AllocError, AllocFailed};
use thiserror::Error;
use wire_num::NumFault;

/// Why bytes are not a value, the same in each protocol.
#[derive(Clone, Copy, Debug, PartialEq, Eq, Error)]
pub enum WireFault {
    /// The bytes end before the item does, or before what a length or size announces.
    #[error("the bytes end inside a value")]
    Short,
    /// A type code that stands for no tag.
    #[error("no type has the code {0}")]
    BadType(u8),
    /// A length or size that is negative or too large for its type.
    #[error("a length or size is below 0 or too large")]
    BadSize,
    /// A variable-length number that goes on past its longest form.
    #[error("a number has more bytes than its longest form")]
    LongVarint,
    /// A field id past the greatest one.
    #[error("a field id is above 32767")]
    FieldRange,
    /// A struct or container that would be nested too deep.
    #[error("structs and containers are nested too deep")]
    TooDeep,
    /// A value past the greatest number of values.
    #[error("there are too many values")]
    TooMany,
    /// There was no memory for the value. No bytes are at fault.
    #[error("out of memory")]
    NoMemory,
}

impl From<NumFault> for WireFault {
    ghost use Rattle.std.specs.Prelude.{◌≡◌};
    ghost use Rattle.thrift_value.specs.Faults.{wire_fault_of};

    ghost from_gives = { λ fault result. result ≡ wire_fault_of fault };

    fn from(fault: NumFault) -> WireFault {
        match fault {
            NumFault::Short => WireFault::Short,
            NumFault::LongVarint => WireFault::LongVarint,
        }
    }
}

impl From<AllocError> for WireFault {
    ghost use Rattle.std.specs.Prelude.{◌≡◌};
    ghost use Rattle.thrift_value.specs.declared.wire_fault.WireFault.TheVariants as faults;

    ghost from_gives = { λ _ result. result ≡ faults.NoMemory };

    fn from(_error: AllocError) -> WireFault {
        WireFault::NoMemory
    }
}

impl<T: Drop> From<AllocFailed<T>> for WireFault {
    ghost use Rattle.std.specs.Prelude.{◌≡◌};
    ghost use Rattle.thrift_value.specs.declared.wire_fault.WireFault.TheVariants as faults;

    ghost from_gives = { λ _ result. result ≡ faults.NoMemory };

    fn from(_failed: AllocFailed<T>) -> WireFault {
        WireFault::NoMemory
    }
}
