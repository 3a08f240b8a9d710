//! Why a port isn't served to the end.

ghost use Rattle.std.specs.Prelude.{◌≡◌};
ghost use Rattle.port_serving.specs.Steps.{fault_of_binding, fault_of_summary};

use outside::BindFail;
use run_report::ReportFault;
use thiserror::Error;

/// Why a port isn't served until all is over, or not told of to the summary's end. It is the first fault that was met.
#[derive(Clone, Copy, Debug, PartialEq, Eq, Error)]
pub enum PortFault {
    /// The journal's file can't be made, and the count of faults of the files rose.
    #[error("the journal's file can't be made")]
    FileFault,
    /// The port can't be listened at, or its links failed, and the binder's count of faults rose.
    #[error("the net failed")]
    NetFault,
    /// A write of the summary failed, and the output's count of faults rose.
    #[error("a write failed")]
    WriteFault,
    /// A write of the journal failed, and the files' count of sinks that failed rose.
    #[error("the journal failed")]
    JournalFault,
    /// Memory ran out.
    #[error("out of memory")]
    NoMemory,
}

impl From<BindFail> for PortFault {
    ghost from_gives = { λ error fault. fault ≡ fault_of_binding error };

    fn from(error: BindFail) -> PortFault {
        match error {
            BindFail::Failed => PortFault::NetFault,
            BindFail::NoMemory => PortFault::NoMemory,
        }
    }
}

impl From<ReportFault> for PortFault {
    ghost from_gives = { λ error fault. fault ≡ fault_of_summary error };

    fn from(error: ReportFault) -> PortFault {
        match error {
            ReportFault::Failed => PortFault::WriteFault,
            ReportFault::NoMemory => PortFault::NoMemory,
        }
    }
}
