//! The walk over files, depth first: each file is begun once, and each of its includes is followed in order.

ghost use Rattle.std.specs.Prelude.{◌≡◌, ◌<◌, ◌≤◌, ◌∷◌, [], ℕ, List, suc, true, false, length, IfOk, IfErr, OnOk, MatchResult};
ghost use Rattle.streams.specs.Cause.{Rose};
ghost use Rattle.idl_include.specs.Readings.{FileReading};
ghost use Rattle.idl_include.specs.Loading.{program_of};
ghost use Rattle.idl_include.specs.SourcesOf.{AreBegun, AreFiles, sources_in};
ghost use Rattle.idl_include.specs.Loads.{Tells, IsLoaded, IsReadFault, is_file, is_inner_want};
ghost use Rattle.idl_include.specs.Begun.{written_in, wanted_in, IsNewName};
ghost use Rattle.idl_include.specs.Steps.{load_stage, file_left, includes_left, include_left, all_loaded, LoadSteps};

use crate::faults::{LoadFault, LoadKind, LoadStop, NOWHERE, no_memory, or_stop, stop_at};
use crate::laws::each_file_is_read_as_one_thing;
use crate::links::link;
use crate::meanings::{IncludeMeaning, include_meaning};
use crate::opening::{MAX_FILES, WantedFile, begin_file};
use crate::sources::{IdlFile, Sources};
use lists::ByteText;
use std::alloc::{AllocError, Global};
use std::collections::VecDeque;
use streams::Files;

/// The program of the main file of this name, or its first fault. The answer is what the definitions make of the
/// files' content, with the documents that were read. A file that couldn't be read is one at which loading stops where it
/// alone has a flaw; want of memory may come anywhere.
///
/// # Errors
/// The first fault in the order of loading, with the name of its file and the place in it; `File` just where the count of
/// faults rose. Where the program is loaded, or stops at another fault, no read has failed.
pub fn load<F: Files>(alloc: Global, files: &mut F, main: &str) -> Result<Sources, LoadFault>
    ensures told { (reader : List ℕ → FileReading) → Tells (F.files files.old) reader → IsLoaded reader (program_of reader main.now) result }
    ensures sound { IfOk result (λ sources. AreFiles (sources_in sources)) }
    ensures read { IfErr result (λ fault. is_file fault.kind ≡ true → IsReadFault (F.files files.old) main.now fault) }
    ensures same { F.files files.new ≡ F.files files.old }
    ensures sinks { F.sink_faults files.new ≡ F.sink_faults files.old }
    ensures later { F.faults files.old ≤ F.faults files.new }
    ensures rose { IfErr result (λ fault. is_file fault.kind ≡ true → Rose (F.faults files.old) (F.faults files.new)) }
    ensures kept { OnOk result (F.faults files.new ≡ F.faults files.old) }
    ensures quiet { IfErr result (λ fault. is_file fault.kind ≡ false → F.faults files.new ≡ F.faults files.old) }
    ensures outer { IfErr result (λ fault. is_inner_want fault.kind ≡ false) }
{
    each_file_is_read_as_one_thing();
    let mut begun = Vec::new(alloc);
    let mut above = VecDeque::new(alloc);
    match load_file(alloc, files, &mut begun, &mut above, main, MAX_FILES + 1) {
        Ok(()) => Ok(Sources::new(begun)),
        Err(LoadStop::At(fault)) => Err(fault),
        Err(LoadStop::NoMemory) => Err(no_memory(alloc)),
    }
}

/// A file that isn't begun, and what it includes, at most `levels` deep, while the files of the names `above` are being loaded.
#[cycle(walk)]
fn load_file<F: Files>(
    alloc: Global,
    files: &mut F,
    begun: &mut Vec<IdlFile>,
    above: &mut VecDeque<ByteText>,
    name: &str,
    levels: usize,
) -> Result<(), LoadStop>
    requires begun { AreBegun begun.old.items }
    requires fresh { IsNewName name.now begun.old.items }
    ensures steps { LoadSteps result (load_stage (F.files files.old) (F.faults files.old) begun.old.items)
        (load_stage (F.files files.new) (F.faults files.new) begun.new.items)
        (file_left levels above.old.items name.now begun.old.items) (λ _. all_loaded begun.new.items) }
    ensures above { OnOk result (above.new.items ≡ above.old.items) }
    ensures more { OnOk result (length begun.old.items < length begun.new.items) }
    ensures sinks { F.sink_faults files.new ≡ F.sink_faults files.old }
{
    if levels == 0 {
        return Err(stop_at(alloc, name, NOWHERE, LoadKind::TooMany));
    }
    let of = begun.len();
    let wanted = open(alloc, files, begun, above, name)?;
    let followed = follow_all(
        alloc,
        files,
        begun,
        above,
        name,
        of,
        wanted.as_slice(),
        levels - 1,
    );
    let _name = above.pop_front();
    followed
}

/// Begins the file of this name, which is being loaded from now on.
fn open<F: Files>(
    alloc: Global,
    files: &mut F,
    begun: &mut Vec<IdlFile>,
    above: &mut VecDeque<ByteText>,
    name: &str,
) -> Result<Vec<WantedFile>, LoadStop>
    requires begun { AreBegun begun.old.items }
    requires fresh { IsNewName name.now begun.old.items }
    ensures steps { (levels : ℕ) → LoadSteps result (load_stage (F.files files.old) (F.faults files.old) begun.old.items)
        (load_stage (F.files files.new) (F.faults files.new) begun.new.items) (file_left (suc levels) above.old.items name.now begun.old.items)
        (λ wanted. includes_left levels above.new.items name.now (length begun.old.items) (wanted_in wanted.items) begun.new.items) }
    ensures above { OnOk result (above.new.items ≡ name.now ∷ above.old.items) }
    ensures one_more { OnOk result (length begun.new.items ≡ suc (length begun.old.items)) }
    ensures sinks { F.sink_faults files.new ≡ F.sink_faults files.old }
{
    let wanted = begin_file(alloc, files, begun, name)?;
    put_above(alloc, above, name)?;
    Ok(wanted)
}

/// Adds the name of a file that is being loaded.
fn put_above(alloc: Global, above: &mut VecDeque<ByteText>, name: &str) -> Result<(), AllocError>
    ensures { OnOk result (above.new.items ≡ name.now ∷ above.old.items) }
{
    let bytes = name.as_bytes().to_vec(alloc)?;
    above.push_front(ByteText::new(bytes))?;
    Ok(())
}

/// The includes of the file of this name and of number `of`, one after another.
#[cycle(walk)]
fn follow_all<F: Files>(
    alloc: Global,
    files: &mut F,
    begun: &mut Vec<IdlFile>,
    above: &mut VecDeque<ByteText>,
    file: &str,
    of: usize,
    wanted: &[WantedFile],
    levels: usize,
) -> Result<(), LoadStop>
    requires begun { AreBegun begun.old.items }
    requires of { of < length begun.old.items }
    ensures steps { LoadSteps result (load_stage (F.files files.old) (F.faults files.old) begun.old.items)
        (load_stage (F.files files.new) (F.faults files.new) begun.new.items)
        (includes_left levels above.old.items file.now of (wanted_in wanted.now) begun.old.items) (λ _. all_loaded begun.new.items) }
    ensures above { OnOk result (above.new.items ≡ above.old.items) }
    ensures sinks { F.sink_faults files.new ≡ F.sink_faults files.old }
{
    for one in wanted {
        follow(alloc, files, begun, above, file, of, one, levels)?;
    }
    Ok(())
}

/// Follows one include of the file of this name and of number `of`.
#[cycle(walk)]
fn follow<F: Files>(
    alloc: Global,
    files: &mut F,
    begun: &mut Vec<IdlFile>,
    above: &mut VecDeque<ByteText>,
    file: &str,
    of: usize,
    wanted: &WantedFile,
    levels: usize,
) -> Result<(), LoadStop>
    requires begun { AreBegun begun.old.items }
    requires of { of < length begun.old.items }
    ensures steps { LoadSteps result (load_stage (F.files files.old) (F.faults files.old) begun.old.items)
        (load_stage (F.files files.new) (F.faults files.new) begun.new.items)
        (include_left levels above.old.items file.now of (written_in wanted.now) begun.old.items) (λ _. all_loaded begun.new.items) }
    ensures above { OnOk result (above.new.items ≡ above.old.items) }
    ensures sinks { F.sink_faults files.new ≡ F.sink_faults files.old }
{
    let meaning = include_meaning(alloc, begun.as_slice(), above, file, wanted)?;
    match meaning {
        IncludeMeaning::Before(number) => or_stop(link(begun, of, number)),
        IncludeMeaning::New(name) => {
            let number = begun.len();
            load_file(alloc, files, begun, above, name.as_str(), levels)?;
            or_stop(link(begun, of, number))
        }
    }
}
