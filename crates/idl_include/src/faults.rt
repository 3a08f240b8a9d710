//! What a program can be refused for.

ghost use Rattle.std.specs.Prelude.{◌≡◌, Result, IsOk, MatchResult};
ghost use Rattle.idl_include.specs.Loads.{StopsWith, StopsIn};

use idl_parser::ParseKind;
use idl_token::{LexKind, Place};
use lists::ByteText;
use std::alloc::{AllocError, AllocFailed, Global};
use thiserror::Error;

/// Why a program can't be loaded.
#[derive(Clone, Copy, Debug, Error)]
pub enum LoadKind {
    /// There is no such file.
    #[error("there is no such file")]
    Absent,
    /// The file has more than 4,194,304 bytes.
    #[error("the file is too long")]
    TooLong,
    /// The file couldn't be read, and the count of faults rose.
    #[error("the file can't be read")]
    File,
    /// An include's literal isn't UTF-8.
    #[error("the file's name isn't UTF-8")]
    BadName,
    /// The first fault of the lexer; never want of memory.
    #[error("{0}")]
    Lex(LexKind),
    /// The first fault of the parser; never want of memory.
    #[error("{0}")]
    Parse(ParseKind),
    /// An include leads back to a file that is being loaded.
    #[error("the file includes itself, directly or not")]
    Cycle,
    /// Another file has the same base name.
    #[error("another file has this base name")]
    SameBase,
    /// It would be file number 257.
    #[error("there are more than 256 files")]
    TooMany,
    /// There was no room in memory.
    #[error("out of memory")]
    NoMemory,
}

/// The first fault of a program.
#[derive(Debug, Drop, Error)]
#[error("{at}: {kind}")]
pub struct LoadFault {
    /// The name of the file at fault; empty where memory ran out.
    pub file: ByteText,
    /// The place in it, or 0:0 for the file as a whole.
    pub at: Place,
    /// What is wrong there.
    pub kind: LoadKind,
}

/// How loading ends before its end.
#[derive(Drop)]
pub(crate) enum LoadStop {
    /// There was no room in memory.
    NoMemory,
    /// The program has a fault, or a file couldn't be read.
    At(LoadFault),
}

impl From<AllocError> for LoadStop {
    ghost use Rattle.std.specs.Prelude.{◌≡◌};
    ghost use Rattle.idl_include.specs.declared.faults.LoadStop.TheVariants.{NoMemory};

    ghost from_gives = { λ _ stop. stop ≡ NoMemory };

    fn from(_error: AllocError) -> Self {
        LoadStop::NoMemory
    }
}

impl<T: Drop> From<AllocFailed<T>> for LoadStop {
    ghost use Rattle.std.specs.Prelude.{◌≡◌};
    ghost use Rattle.idl_include.specs.declared.faults.LoadStop.TheVariants.{NoMemory};

    ghost from_gives = { λ _ stop. stop ≡ NoMemory };

    fn from(_failed: AllocFailed<T>) -> Self {
        LoadStop::NoMemory
    }
}

/// A step of loading that fails only for want of memory.
pub(crate) fn or_stop(step: Result<(), AllocError>) -> Result<(), LoadStop>
    ensures { MatchResult step (λ _. IsOk result) (λ _. result ≡ Result.Err LoadStop.NoMemory) }
{
    step?;
    Ok(())
}

/// The place of a file as a whole.
pub(crate) const NOWHERE: Place = Place { line: 0, column: 0 };

/// Want of memory, as a fault of no file.
pub(crate) fn no_memory(alloc: Global) -> LoadFault
    ensures { result.kind ≡ LoadKind.NoMemory }
{
    LoadFault {
        file: ByteText::new(Vec::new(alloc)),
        at: NOWHERE,
        kind: LoadKind::NoMemory,
    }
}

/// A fault of the file of this name as a whole.
pub(crate) fn stop_in(file: ByteText, kind: LoadKind) -> LoadStop
    ensures { StopsIn file kind result }
{
    LoadStop::At(LoadFault {
        file,
        at: NOWHERE,
        kind,
    })
}

/// A fault in the file of this name, or want of memory.
pub(crate) fn stop_at(alloc: Global, file: &str, at: Place, kind: LoadKind) -> LoadStop
    ensures { StopsWith file.now at kind result }
{
    match file.as_bytes().to_vec(alloc) {
        Ok(name) => LoadStop::At(LoadFault {
            file: ByteText::new(name),
            at,
            kind,
        }),
        Err(_) => LoadStop::NoMemory,
    }
}
