//! Why a call came to nothing.

ghost use Rattle.std.specs.Prelude.{◌≡◌};
ghost use Rattle.port_calls.specs.Kinds.{refused_call_kind, refused_reply_kind};

use client_desk::{AskFault, HeardFault};
use std::alloc::AllocError;
use thiserror::Error;

/// Why a call isn't made, in the order in which it is found.
#[derive(Clone, Copy, Debug, PartialEq, Eq, Error)]
pub enum CallRefusal {
    /// The schema has no such service, or the name has a `:`.
    #[error("there is no such service")]
    NoService,
    /// The arguments aren't the text of a value.
    #[error("the arguments are no text of a value")]
    ArgsText,
    /// There is no frame of such a call.
    #[error("there is no such call: {0}")]
    Unasked(AskFault),
}

/// Why what came back is no answer.
#[derive(Clone, Copy, Debug, PartialEq, Eq, Error)]
pub enum ReplyRefusal {
    /// The input ended before the frame was whole.
    #[error("the reply is cut off")]
    Cut,
    /// The frame's size is below 1 or above the limit.
    #[error("a reply can't be of {0} bytes")]
    SizeFault(i32),
    /// The frame doesn't answer the call.
    #[error("the reply doesn't answer the call")]
    Unheard(HeardFault),
}

/// Why a call came to nothing.
#[derive(Clone, Copy, Debug, PartialEq, Eq, Error)]
pub enum CallFault {
    /// The call isn't made: no port was dialled.
    #[error("the call is refused: {0}")]
    Refused(CallRefusal),
    /// The port can't be dialled, or a read or a write of the pipe failed, and the binder's count of faults rose.
    #[error("the net failed")]
    NetFault,
    /// What came back is no answer.
    #[error("the reply is refused: {0}")]
    ReplyRefused(ReplyRefusal),
    /// A write of the output failed, and its count of faults rose.
    #[error("a write failed")]
    WriteFault,
    /// Memory ran out.
    #[error("out of memory")]
    NoMemory,
}

impl From<AllocError> for CallFault {
    ghost use Rattle.std.specs.Prelude.{◌≡◌};
    ghost use Rattle.port_calls.specs.declared.fault.CallFault.TheVariants as faults;

    ghost from_gives = { λ _ fault. fault ≡ faults.NoMemory };

    fn from(_: AllocError) -> CallFault {
        CallFault::NoMemory
    }
}

impl CallRefusal {
    /// The word of its kind.
    pub fn kind(self) -> &'static str
        ensures { result.now ≡ refused_call_kind self }
    {
        match self {
            CallRefusal::NoService => "NoService",
            CallRefusal::ArgsText => "ArgsText",
            CallRefusal::Unasked(fault) => ask_kind(fault),
        }
    }
}

/// The word of a fault's kind.
fn ask_kind(fault: AskFault) -> &'static str
    ensures { result.now ≡ refused_call_kind (CallRefusal.Unasked fault) }
{
    match fault {
        AskFault::NoMethod => "NoMethod",
        AskFault::Unfit => "Unfit",
        AskFault::TooLarge => "TooLarge",
        AskFault::NoMemory => "NoMemory",
    }
}

impl ReplyRefusal {
    /// The word of its kind, without what it holds.
    pub fn kind(self) -> &'static str
        ensures { result.now ≡ refused_reply_kind self }
    {
        match self {
            ReplyRefusal::Cut => "Cut",
            ReplyRefusal::SizeFault(_) => "SizeFault",
            ReplyRefusal::Unheard(fault) => heard_kind(fault),
        }
    }
}

/// The word of a fault's kind, without what it holds.
fn heard_kind(fault: HeardFault) -> &'static str
    ensures { result.now ≡ refused_reply_kind (ReplyRefusal.Unheard fault) }
{
    match fault {
        HeardFault::Head(_) => "Head",
        HeardFault::WrongName => "WrongName",
        HeardFault::WrongId(_) => "WrongId",
        HeardFault::Wire(_) => "Wire",
        HeardFault::Skew(_) => "Skew",
        HeardFault::NoMemory => "NoMemory",
    }
}
