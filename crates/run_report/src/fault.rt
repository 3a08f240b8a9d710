//! Why a report isn't written whole.

ghost use Rattle.std.specs.Prelude.{◌≡◌};
ghost use Rattle.run_report.specs.declared.fault.ReportFault.TheVariants.{Failed as SinkFailed, NoMemory as NoRoom};

use std::alloc::{AllocError, AllocFailed};
use streams::Failed;
use thiserror::Error;

/// Why a report isn't written whole.
#[derive(Clone, Copy, Debug, PartialEq, Eq, Error)]
pub enum ReportFault {
    /// A write failed, and the sink's count of faults rose.
    #[error("a write failed")]
    Failed,
    /// The lines that were pending found no room in memory.
    #[error("out of memory")]
    NoMemory,
}

impl From<Failed> for ReportFault {
    ghost from_gives = { λ _ fault. fault ≡ SinkFailed };

    fn from(_: Failed) -> ReportFault {
        ReportFault::Failed
    }
}

impl From<AllocError> for ReportFault {
    ghost from_gives = { λ _ fault. fault ≡ NoRoom };

    fn from(_: AllocError) -> ReportFault {
        ReportFault::NoMemory
    }
}

impl From<AllocFailed<u8>> for ReportFault {
    ghost from_gives = { λ _ fault. fault ≡ NoRoom };

    fn from(_: AllocFailed<u8>) -> ReportFault {
        ReportFault::NoMemory
    }
}
