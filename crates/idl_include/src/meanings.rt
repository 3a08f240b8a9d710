//! What an include means: a file that was begun before, one that is new, or nothing that may be included.

ghost use Rattle.std.specs.Prelude.{◌≡◌, true, ℕ, List, MatchResult};
ghost use Rattle.std.specs.Str.{bytes_eq};
ghost use Rattle.std.specs.List.{list_any, position_from};
ghost use Rattle.idl_include.specs.FileNames.{included_name};
ghost use Rattle.idl_include.specs.Loading.{is_among, include_case};
ghost use Rattle.idl_include.specs.SourcesOf.{AreBegun, program_in};
ghost use Rattle.idl_include.specs.Begun.{written_in, include_meant, IsNameMeaning, IsIncludeMeaning, IsRefusedAt};

use crate::faults::{LoadKind, LoadStop, stop_at};
use crate::names::{base_name, included_name};
use crate::opening::WantedFile;
use crate::sources::IdlFile;
use lists::ByteText;
use std::alloc::Global;
use std::collections::VecDeque;

/// What a name means.
#[derive(Drop)]
pub(crate) enum NameMeaning {
    /// No file that may be included here.
    Refused(LoadKind),
    /// The file of this number.
    Before(usize),
    /// A file that isn't begun.
    New,
}

/// What an include means.
#[derive(Drop)]
pub(crate) enum IncludeMeaning {
    /// The file of this number.
    Before(usize),
    /// The file of this name, which isn't begun.
    New(String),
}

/// What an include of the file of this name means, while the files of the names `above` are being loaded.
pub(crate) fn include_meaning(
    alloc: Global,
    begun: &[IdlFile],
    above: &VecDeque<ByteText>,
    file: &str,
    wanted: &WantedFile,
) -> Result<IncludeMeaning, LoadStop>
    requires { AreBegun begun.now }
    ensures { MatchResult result
        (IsIncludeMeaning (included_name file.now wanted.now.text) begun.now (include_meant above.now.items file.now (written_in wanted.now) begun.now))
        (IsRefusedAt file.now wanted.now.at (include_meant above.now.items file.now (written_in wanted.now) begun.now)) }
{
    let Ok(literal) = str::from_utf8(wanted.text.as_slice()) else {
        return Err(stop_at(alloc, file, wanted.at, LoadKind::BadName));
    };
    let name = included_name(alloc, file, literal)?;
    match name_meaning(begun, above, name.as_bytes()) {
        NameMeaning::Refused(kind) => Err(stop_at(alloc, file, wanted.at, kind)),
        NameMeaning::Before(number) => Ok(IncludeMeaning::Before(number)),
        NameMeaning::New => Ok(IncludeMeaning::New(name)),
    }
}

/// What a name means.
fn name_meaning(begun: &[IdlFile], above: &VecDeque<ByteText>, name: &[u8]) -> NameMeaning
    requires { AreBegun begun.now }
    ensures { IsNameMeaning name.now begun.now (include_case true above.now.items (program_in begun.now) name.now) result }
{
    if is_open(above, name) {
        return NameMeaning::Refused(LoadKind::Cycle);
    }
    if let Some(number) = number_of(begun, name) {
        return NameMeaning::Before(number);
    }
    if has_base(begun, base_name(name)) {
        return NameMeaning::Refused(LoadKind::SameBase);
    }
    NameMeaning::New
}

/// Whether a file of this name is being loaded.
fn is_open(above: &VecDeque<ByteText>, name: &[u8]) -> bool
    ensures { result ≡ is_among name.now above.now.items }
{
    above.iter().any(|other| is_text(other, name))
}

/// The number of the file of this name.
fn number_of(begun: &[IdlFile], name: &[u8]) -> Option<usize>
    ensures { result ≡ position_from (λ (file : IdlFile). bytes_eq file.name name.now) 0 begun.now }
{
    begun.iter().position(|file| is_text(&file.name, name))
}

/// Whether a file has this base name.
fn has_base(begun: &[IdlFile], base: &[u8]) -> bool
    ensures { result ≡ list_any (λ (file : IdlFile). bytes_eq file.base base.now) begun.now }
{
    begun.iter().any(|file| is_text(&file.base, base))
}

/// Whether a text has these bytes.
fn is_text(text: &ByteText, bytes: &[u8]) -> bool
    ensures { result ≡ bytes_eq text.now bytes.now }
{
    text.as_slice() == bytes
}
