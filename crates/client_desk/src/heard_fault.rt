//! Why a payload is no answer to a call.

ghost use Rattle.std.specs.Prelude.{◌≡◌};
ghost use Rattle.client_desk.specs.HeardFaults.{fault_of_skew, fault_of_wire};

use std::alloc::AllocError;
use streams::EnvelopeFault;
use struct_skew::SkewFault;
use thiserror::Error;
use thrift_value::WireFault;

/// Why a payload is no answer to a call, in the order in which it is found.
#[derive(Clone, Copy, Debug, PartialEq, Eq, Error)]
pub enum HeardFault {
    /// It has no head of a reply or an exception.
    #[error("the reply has no head: {0}")]
    Head(EnvelopeFault),
    /// It answers another method.
    #[error("the reply answers another method")]
    WrongName,
    /// It answers another call, by its sequence id.
    #[error("the reply answers another call, with the sequence id {0}")]
    WrongId(i32),
    /// Its struct can't be read.
    #[error("{0}")]
    Wire(WireFault),
    /// What it has can't be projected on the declared type.
    #[error("{0}")]
    Skew(SkewFault),
    /// There was no memory.
    #[error("out of memory")]
    NoMemory,
}

/// The fault of a reply whose bytes have this one; want of memory is none of theirs.
pub(crate) fn fault_of_wire(fault: WireFault) -> HeardFault
    ensures { result ≡ fault_of_wire fault }
{
    match fault {
        WireFault::NoMemory => HeardFault::NoMemory,
        _ => HeardFault::Wire(fault),
    }
}

/// The fault of a reply of which a value has this one; want of memory is none of its.
pub(crate) fn fault_of_skew(fault: SkewFault) -> HeardFault
    ensures { result ≡ fault_of_skew fault }
{
    match fault {
        SkewFault::NoMemory => HeardFault::NoMemory,
        _ => HeardFault::Skew(fault),
    }
}

impl From<AllocError> for HeardFault {
    ghost use Rattle.std.specs.Prelude.{◌≡◌};
    ghost use Rattle.client_desk.specs.declared.heard_fault.HeardFault.TheVariants as faults;

    ghost from_gives = { λ _ result. result ≡ faults.NoMemory };

    fn from(_error: AllocError) -> HeardFault {
        HeardFault::NoMemory
    }
}
