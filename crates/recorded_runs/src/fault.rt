//! Why a recording isn't answered.

ghost use Rattle.std.specs.Prelude.{◌≡◌};
ghost use Rattle.recorded_runs.specs.Steps.{fault_of_input, fault_of_report, fault_of_script};
ghost use Rattle.recorded_runs.specs.declared.fault.ServingFault.TheVariants.{NoMemory as NoRoom};

use crate::input::InputError;
use run_report::ReportFault;
use script_text::{ScriptFault, ScriptKind};
use std::alloc::AllocError;
use thiserror::Error;

/// Why a recording isn't answered, or not to its report's end.
#[derive(Clone, Copy, Debug, PartialEq, Eq, Error)]
pub enum ServingFault {
    /// The input is no script.
    #[error("{0}")]
    NoScript(ScriptFault),
    /// A read of the input failed.
    #[error("a read failed")]
    ReadFault,
    /// A write of the output failed.
    #[error("a write failed")]
    WriteFault,
    /// The journal failed, and its count of faults rose.
    #[error("the journal failed")]
    JournalFault,
    /// Memory ran out.
    #[error("out of memory")]
    NoMemory,
}

impl From<AllocError> for ServingFault {
    ghost from_gives = { λ _ fault. fault ≡ NoRoom };

    fn from(_: AllocError) -> ServingFault {
        ServingFault::NoMemory
    }
}

impl From<InputError> for ServingFault {
    ghost from_gives = { λ error fault. fault ≡ fault_of_input error };

    fn from(error: InputError) -> ServingFault {
        match error {
            InputError::Failed => ServingFault::ReadFault,
            InputError::NoMemory => ServingFault::NoMemory,
        }
    }
}

impl From<ScriptFault> for ServingFault {
    ghost from_gives = { λ error fault. fault ≡ fault_of_script error };

    fn from(error: ScriptFault) -> ServingFault {
        match error.kind {
            ScriptKind::NoMemory => ServingFault::NoMemory,
            _ => ServingFault::NoScript(error),
        }
    }
}

impl From<ReportFault> for ServingFault {
    ghost from_gives = { λ error fault. fault ≡ fault_of_report error };

    fn from(error: ReportFault) -> ServingFault {
        match error {
            ReportFault::Failed => ServingFault::WriteFault,
            ReportFault::NoMemory => ServingFault::NoMemory,
        }
    }
}
