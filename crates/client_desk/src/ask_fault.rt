//! Why no call is asked for.

use std::alloc::AllocError;
use thiserror::Error;

/// Why no call is asked for, in the order in which it is found.
#[derive(Clone, Copy, Debug, PartialEq, Eq, Error)]
pub enum AskFault {
    /// The service has no such method.
    #[error("the service has no such method")]
    NoMethod,
    /// The arguments aren't tidy, are too deep or too many, aren't what the method declares, or lack what is required.
    #[error("the arguments don't fit the method")]
    Unfit,
    /// The payload would be longer than one may be.
    #[error("the call is too large")]
    TooLarge,
    /// There was no memory.
    #[error("out of memory")]
    NoMemory,
}

impl From<AllocError> for AskFault {
    ghost use Rattle.std.specs.Prelude.{◌≡◌};
    ghost use Rattle.client_desk.specs.declared.ask_fault.AskFault.TheVariants as faults;

    ghost from_gives = { λ _ result. result ≡ faults.NoMemory };

    fn from(_error: AllocError) -> AskFault {
        AskFault::NoMemory
    }
}
