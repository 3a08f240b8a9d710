//! The files of the system, of which nothing is told.

ghost use Rattle.std.specs.Prelude.{◌≡◌, ◌≤◌, length, IfOk};

use super::files::{FileFail, Files};
use super::real::RealOut;
use super::streams::Failed;
use std::alloc::Global;
use std::fs;
use std::io::Read;
use std::marker::Model;

/// The system's files, by their paths.
#[derive(Drop)]
pub struct RealFiles<'a> {
    /// What opens them.
    rt: &'a HostRuntime,
    /// How many calls failed; it stands still at its type's end.
    faults: u64,
    /// How many sinks came back with a fault; it stands still at its type's end.
    sink_faults: u64,
}

impl<'a> Model for RealFiles<'a> {
    ghost use Rattle.streams.specs.Counts.{FaultCounts};

    ghost Value = { FaultCounts };

    ghost view = { λ s. record { faults = s.faults; sink_faults = s.sink_faults } };
}

impl<'a> RealFiles<'a> {
    /// The files that the runtime opens.
    pub fn new(rt: &'a HostRuntime) -> Self
        ensures { result ≡ record { faults = 0; sink_faults = 0 } }
    {
        RealFiles {
            rt,
            faults: 0,
            sink_faults: 0,
        }
    }

    /// How many calls failed.
    pub fn faults(&self) -> u64
        ensures { result ≡ self.now.faults }
    {
        self.faults
    }

    /// How many sinks came back with a fault.
    pub fn sink_faults(&self) -> u64
        ensures { result ≡ self.now.sink_faults }
    {
        self.sink_faults
    }
}

impl<'a> Files for RealFiles<'a> {
    ghost use Rattle.std.specs.Prelude.{None};

    type Out = RealOut<fs::File>;

    ghost files = { λ _. None };

    ghost faults = { λ s. s.faults };

    ghost sink_faults = { λ s. s.sink_faults };

    fn read_whole(&mut self, alloc: Global, name: &str, limit: usize) -> Result<Vec<u8>, FileFail> {
        let read = read_to_limit(self.rt, alloc, name, limit);
        if let Err(FileFail::Failed) = &read {
            self.faults = self.faults.saturating_add(1);
        }
        read
    }

    fn create(&mut self, _alloc: Global, name: &str) -> Result<RealOut<fs::File>, Failed> {
        match fs::create(self.rt, name) {
            Ok(file) => Ok(RealOut::over(file)),
            Err(_) => {
                self.faults = self.faults.saturating_add(1);
                Err(Failed)
            }
        }
    }

    fn take_back(&mut self, _name: &str, out: RealOut<fs::File>) {
        if out.faults() > 0 {
            self.sink_faults = self.sink_faults.saturating_add(1);
        }
    }
}

/// The bytes of a file, read no further than one behind the limit.
fn read_to_limit(
    rt: &HostRuntime,
    alloc: Global,
    name: &str,
    limit: usize,
) -> Result<Vec<u8>, FileFail>
    ensures { IfOk result (λ bytes. length bytes.items ≤ limit) }
{
    let file = fs::open(rt, name)?;
    let mut bytes = Vec::new(alloc);
    let most = (limit as u64).saturating_add(1);
    file.take(most).read_to_end(&mut bytes)?;
    if bytes.len() > limit {
        return Err(FileFail::TooLong);
    }
    Ok(bytes)
}
