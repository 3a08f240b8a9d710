//! Why a pair is refused.

use std::alloc::AllocError;
use thiserror::Error;

/// Why a pair is refused, or after all pairs the default: the first of these that holds.
#[derive(Clone, Copy, Debug, Error)]
pub enum BindKind {
    /// The schema has no service of its name.
    #[error("there is no such service")]
    UnknownService,
    /// Its name was given before.
    #[error("the service was named before")]
    SameService,
    /// No handler of its kind was handed in.
    #[error("there is no handler of this kind")]
    UnknownKind,
    /// Each handler of its kind is taken by a pair before.
    #[error("each handler of this kind is taken")]
    SameKind,
    /// The handler that it takes doesn't suit the shapes of the service.
    #[error("the handler doesn't suit the service")]
    Unsuited,
    /// It is the default, and no pair has its name.
    #[error("the default is the name of no pair")]
    NotBound,
}

/// Why nothing is bound.
#[derive(Clone, Copy, Debug, Error)]
pub enum BindFault {
    /// The pair at this place, from 0, is the first that is refused, for this reason; behind the last pair stands the default.
    #[error("pair {0} is refused: {1}")]
    Refused(u32, BindKind),
    /// Memory ran out, at any pair.
    #[error("out of memory")]
    NoMemory,
}

impl From<AllocError> for BindFault {
    ghost use Rattle.std.specs.Prelude.{◌≡◌};
    ghost use Rattle.service_binding.specs.declared.fault.BindFault.TheVariants.{NoMemory};

    ghost from_gives = { λ _ fault. fault ≡ NoMemory };

    fn from(_error: AllocError) -> Self {
        BindFault::NoMemory
    }
}

/// Why a pair isn't bound.
#[derive(Clone, Copy)]
pub(crate) enum PairFault {
    /// It is refused.
    Refused(BindKind),
    /// Memory ran out.
    NoMemory,
}

impl From<BindKind> for PairFault {
    ghost use Rattle.std.specs.Prelude.{◌≡◌};
    ghost use Rattle.service_binding.specs.declared.fault.PairFault.TheVariants as faults;

    ghost from_gives = { λ kind fault. fault ≡ faults.Refused kind };

    fn from(kind: BindKind) -> Self {
        PairFault::Refused(kind)
    }
}

impl From<AllocError> for PairFault {
    ghost use Rattle.std.specs.Prelude.{◌≡◌};
    ghost use Rattle.service_binding.specs.declared.fault.PairFault.TheVariants as faults;

    ghost from_gives = { λ _ fault. fault ≡ faults.NoMemory };

    fn from(_error: AllocError) -> Self {
        PairFault::NoMemory
    }
}

impl PairFault {
    ghost use Rattle.std.specs.Prelude.{◌≡◌};
    ghost use Rattle.service_binding.specs.Steps.{refusal_at};

    /// The fault of the pair at a place.
    pub(crate) fn at(self, place: u32) -> BindFault
        ensures { result ≡ refusal_at place self }
    {
        match self {
            PairFault::Refused(kind) => BindFault::Refused(place, kind),
            PairFault::NoMemory => BindFault::NoMemory,
        }
    }
}
