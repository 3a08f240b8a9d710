//! Why an exchange came to nothing.

ghost use Rattle.std.specs.Prelude.{◌≡◌};
ghost use Rattle.port_calls.specs.declared.asking_fault.AskingFault.TheVariants.{NetFault, NoMemory};

use std::alloc::AllocError;
use streams::Failed;
use thiserror::Error;

/// Why a port gave no answer.
#[derive(Clone, Copy, Debug, PartialEq, Eq, Error)]
pub enum AskingFault {
    /// The port can't be dialled, or a write or a read failed, and the binder's count of faults rose.
    #[error("the net failed")]
    NetFault,
    /// The input ended before the frame, and no whole size outside the limits came.
    #[error("the input ended before the frame")]
    Cut,
    /// A frame of this size was announced, which is below 1 or above the limit.
    #[error("a frame of size {0}")]
    SizeFault(i32),
    /// Memory ran out.
    #[error("out of memory")]
    NoMemory,
}

impl From<AllocError> for AskingFault {
    ghost from_gives = { λ _ e. e ≡ NoMemory };

    fn from(_: AllocError) -> AskingFault {
        AskingFault::NoMemory
    }
}

impl From<Failed> for AskingFault {
    ghost from_gives = { λ _ e. e ≡ NetFault };

    fn from(_: Failed) -> AskingFault {
        AskingFault::NetFault
    }
}
