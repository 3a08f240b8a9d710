//! The trait of a store of files.

ghost use Rattle.std.specs.Prelude.{◌≡◌, ℕ, List, Option, MatchResult};
ghost use Rattle.std.specs.Vec.{vec_items};
ghost use Rattle.streams.specs.Cause.{HasCause, next_if_faulty};
ghost use Rattle.streams.specs.Files.{File, IsWholeFile, HasFileCause};
ghost use Rattle.streams.specs.Making.{told_with_file, IsThere, MakesFile};

use super::streams::{Failed, Sink};
use std::alloc::{AllocError, Global};
use std::io;
use std::io::ErrorKind;
use thiserror::Error;

/// Why a file wasn't read. Where several hold, the first of them is answered.
#[derive(Clone, Copy, Debug, PartialEq, Eq, Error)]
pub enum FileFail {
    /// No file has this name.
    #[error("there is no such file")]
    Absent,
    /// The file has more bytes than the limit.
    #[error("the file is too long")]
    TooLong,
    /// The read failed, and the count of faults rose.
    #[error("the file can't be read")]
    Failed,
    /// The file found no room in memory.
    #[error("there is no memory for the file")]
    NoMemory,
}

impl From<AllocError> for FileFail {
    ghost use Rattle.std.specs.Prelude.{◌≡◌};
    ghost use Rattle.streams.specs.declared.files.FileFail.TheVariants.{NoMemory};

    ghost from_gives = { λ _ fail. fail ≡ NoMemory };

    fn from(_: AllocError) -> FileFail {
        FileFail::NoMemory
    }
}

impl From<io::Error> for FileFail {
    fn from(error: io::Error) -> FileFail {
        match error.kind() {
            ErrorKind::NotFound => FileFail::Absent,
            ErrorKind::OutOfMemory => FileFail::NoMemory,
            _ => FileFail::Failed,
        }
    }
}

/// Files by their names.
pub trait Files {
    /// Where the bytes of a file go that is made.
    type Out: Sink + Send + Drop;

    // The files, where they are told.
    ghost files: { Self → Option (List File) };
    // How many faults were counted; the count stands still at 2^64 - 1.
    ghost faults: { Self → ℕ };
    // How many sinks were handed back that had counted a fault; the count stands still at 2^64 - 1.
    ghost sink_faults: { Self → ℕ };

    /// All bytes of the file of this name, at most `limit` of them.
    fn read_whole(&mut self, alloc: Global, name: &str, limit: usize) -> Result<Vec<u8>, FileFail>
        ensures read { IsWholeFile (files self.old) name.now limit (λ bytes. bytes.items) result }
        ensures same { files self.new ≡ files self.old }
        ensures sinks { sink_faults self.new ≡ sink_faults self.old }
        ensures cause { HasFileCause (faults self.old) (faults self.new) result };

    /// Makes a file of this name, or empties the one that there is, and gives the sink of its bytes.
    fn create(&mut self, alloc: Global, name: &str) -> Result<Self::Out, Failed>
        ensures made { MatchResult result
            (λ out. MakesFile (files self.old) (files self.new) name.now (Self.Out.taken out) (Self.Out.faults out))
            (λ _. files self.new ≡ files self.old) }
        ensures sinks { sink_faults self.new ≡ sink_faults self.old }
        ensures cause { HasCause (faults self.old) (faults self.new) result };

    /// Takes back the sink of a file that was made, whose bytes are then the sink's. It takes no memory, and can't fail.
    fn take_back(&mut self, name: &str, out: Self::Out)
        requires { IsThere (files self.old) name.now }
        ensures files { files self.new ≡ told_with_file (files self.old) name.now (Self.Out.taken out) }
        ensures sinks { sink_faults self.new ≡ next_if_faulty (Self.Out.faults out) (sink_faults self.old) }
        ensures same { faults self.new ≡ faults self.old };
}
