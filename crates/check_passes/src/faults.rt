//! What a program can be refused for.

use idl_const::ConstFault;
use idl_token::Place;
use std::alloc::{AllocError, AllocFailed};
use thiserror::Error;

/// What is wrong with a program.
#[derive(Clone, Copy, Debug, PartialEq, Eq, Error)]
pub enum CheckKind {
    /// A name that is defined has a dot.
    #[error("the name has a dot")]
    DottedName,
    /// The name was given before.
    #[error("the name was given before")]
    DuplicateName,
    /// The name stands for no type, or for no service where one is extended.
    #[error("the name stands for no type or service")]
    UnknownType,
    /// A typedef leads to itself.
    #[error("the typedef leads to itself")]
    TypedefCycle,
    /// A field's number isn't 1 to 32767, or 32768 fields without a number stand before it.
    #[error("the field's id isn't 1 to 32767, or too many fields have none")]
    FieldId,
    /// A field before has the same id.
    #[error("another field has this id")]
    DuplicateId,
    /// The number of an enum's value has more than 32 bits.
    #[error("the number of the enum's value is out of range")]
    EnumValue,
    /// A service extends itself, directly or not.
    #[error("the service extends itself")]
    ServiceCycle,
    /// A function before has the same name, or one that the service inherits.
    #[error("another function has this name")]
    DuplicateFunction,
    /// A oneway function has a result.
    #[error("a oneway function has a result")]
    OnewayNotVoid,
    /// A oneway function throws exceptions.
    #[error("a oneway function throws exceptions")]
    OnewayThrows,
    /// What a function throws is no exception.
    #[error("the type isn't that of an exception")]
    NotException,
    /// A struct or an exception has no finite value.
    #[error("each value of the struct needs another one inside")]
    StructLoop,
    /// A constant or a default has a fault; never want of memory.
    #[error("{0}")]
    Const(ConstFault),
    /// There was no room in memory.
    #[error("out of memory")]
    NoMemory,
}

/// The first fault of a program.
#[derive(Clone, Copy, Debug, PartialEq, Eq, Error)]
#[error("{at}: {kind}")]
pub struct CheckFault {
    /// The number of the file at fault; 0 where memory ran out.
    pub file: u32,
    /// The place in it; 0:0 where memory ran out.
    pub at: Place,
    /// What is wrong there.
    pub kind: CheckKind,
}

impl From<AllocError> for CheckFault {
    ghost use Rattle.std.specs.Prelude.{◌≡◌};
    ghost use Rattle.check_passes.specs.declared.faults.CheckKind.TheVariants.{NoMemory};

    ghost from_gives = { λ _ fault. fault.kind ≡ NoMemory };

    fn from(_error: AllocError) -> Self {
        CheckFault {
            file: 0,
            at: Place { line: 0, column: 0 },
            kind: CheckKind::NoMemory,
        }
    }
}

impl<T: Drop> From<AllocFailed<T>> for CheckFault {
    ghost use Rattle.std.specs.Prelude.{◌≡◌};
    ghost use Rattle.check_passes.specs.declared.faults.CheckKind.TheVariants.{NoMemory};

    ghost from_gives = { λ _ fault. fault.kind ≡ NoMemory };

    fn from(_failed: AllocFailed<T>) -> Self {
        CheckFault::from(AllocError)
    }
}
