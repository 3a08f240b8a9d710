//! What is wrong with arguments that anyone sent.
ghost use Rattle.std.specs.Prelude.{◌≡◌};
ghost use Rattle.struct_skew.specs.ReadAs.{arg_of_skew, arg_of_wire};

use crate::fault::SkewFault;
use thiserror::Error;
use thrift_value::WireFault;

/// Why the bytes at a place are no struct as a schema declares it.
#[derive(Clone, Copy, Debug, Error)]
pub enum ArgFault {
    /// The bytes are at fault.
    #[error(transparent)]
    Wire(WireFault),
    /// The struct that was sent has no projection.
    #[error(transparent)]
    Skew(SkewFault),
    /// Memory ran out.
    #[error("out of memory")]
    NoMemory,
}

/// A fault of the bytes; want of memory is the same for both.
pub(crate) fn arg_of_wire(fault: WireFault) -> ArgFault
    ensures { result ≡ arg_of_wire fault }
{
    match fault {
        WireFault::Short => ArgFault::Wire(WireFault::Short),
        WireFault::BadType(code) => ArgFault::Wire(WireFault::BadType(code)),
        WireFault::BadSize => ArgFault::Wire(WireFault::BadSize),
        WireFault::LongVarint => ArgFault::Wire(WireFault::LongVarint),
        WireFault::FieldRange => ArgFault::Wire(WireFault::FieldRange),
        WireFault::TooDeep => ArgFault::Wire(WireFault::TooDeep),
        WireFault::TooMany => ArgFault::Wire(WireFault::TooMany),
        WireFault::NoMemory => ArgFault::NoMemory,
    }
}

/// A fault of a projection; want of memory is the same for both.
pub(crate) fn arg_of_skew(fault: SkewFault) -> ArgFault
    ensures { result ≡ arg_of_skew fault }
{
    match fault {
        SkewFault::Missing(which, id) => ArgFault::Skew(SkewFault::Missing(which, id)),
        SkewFault::UnionFields(which) => ArgFault::Skew(SkewFault::UnionFields(which)),
        SkewFault::TooDeep => ArgFault::Skew(SkewFault::TooDeep),
        SkewFault::TooMany => ArgFault::Skew(SkewFault::TooMany),
        SkewFault::NoMemory => ArgFault::NoMemory,
    }
}
