//! Why a text is no script.

ghost use Rattle.std.specs.Prelude.{◌≡◌};
ghost use Rattle.script_text.specs.declared.fault.ScriptKind.TheVariants.{NoMemory};

use std::alloc::AllocError;
use thiserror::Error;

/// What is wrong with a line, or with the text.
#[derive(Clone, Copy, Debug, PartialEq, Eq, Error)]
pub enum ScriptKind {
    /// The text has more than 67,108,864 bytes.
    #[error("TooLong")]
    TooLong,
    /// The line has none of the forms, or a number past 32 bits, or takes 0 bytes.
    #[error("BadLine")]
    BadLine,
    /// The connection isn't opened above.
    #[error("NoConnection")]
    NoConnection,
    /// A piece or a second end behind the end of the connection's input.
    #[error("AfterEnd")]
    AfterEnd,
    /// Behind all lines: the input of a connection has no end.
    #[error("NoEnd")]
    NoEnd,
    /// The line opens connection number 1,025.
    #[error("TooMany")]
    TooMany,
    /// There is no such worker.
    #[error("NoWorker")]
    NoWorker,
    /// A line of a schedule where none may be.
    #[error("Schedule")]
    Schedule,
    /// A `rest` line where none may be.
    #[error("Rest")]
    Rest,
    /// The script found no room in memory.
    #[error("NoMemory")]
    NoMemory,
}

/// The first fault of a text.
#[derive(Clone, Copy, Debug, PartialEq, Eq, Error)]
#[error("{line} {kind}")]
pub struct ScriptFault {
    /// The line, from 1; 0 for the text as a whole, and where memory ran out.
    pub line: u32,
    /// What is wrong with it.
    pub kind: ScriptKind,
}

impl From<AllocError> for ScriptFault {
    ghost from_gives = { λ _ fault. fault.kind ≡ NoMemory };

    fn from(_: AllocError) -> ScriptFault {
        ScriptFault {
            line: 0,
            kind: ScriptKind::NoMemory,
        }
    }
}
