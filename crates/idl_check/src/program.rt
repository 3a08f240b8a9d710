//! The schema of an IDL's program of files, and its text.

ghost use Rattle.std.specs.Prelude.{◌≡◌, ◌≤◌, ◌<◌, true, false, ℕ, length, IfErr, IfOk, MatchResult, OnOk};
ghost use Rattle.streams.specs.Cause.{Rose};
ghost use Rattle.schema.specs.SchemaOf.{schema_of};
ghost use Rattle.schema.specs.SchemaText.{schema_text};
ghost use Rattle.schema.specs.Sound.{IsSound};
ghost use Rattle.idl_include.specs.Loading.{Loaded, loaded};
ghost use Rattle.check_model.specs.FirstFlaw.{IsFirstFlaw};
ghost use Rattle.idl_include.specs.SourcesOf.{AreFiles, program_in, sources_in};
ghost use Rattle.idl_include.specs.Loads.{IsFlawOf, is_file};
ghost use Rattle.check_passes.specs.Faults.{TellsFlaw};
ghost use Rattle.idl_check.specs.Tutorial.{tutorial_name, tutorial_files};
ghost use Rattle.idl_check.specs.Verdicts.{IsIdlVerdictOfLoaded, IsVerdictIn, IsVerdictTold, IsIdlVerdict, IsSchemaTextOf, StopsAtRead, IsUnreadIdl};
ghost use Rattle.idl_check.specs.Telling.{TellsWhy, TellsSchema, RefusesIn, is_file_fault};

use crate::check;
use crate::kinds::{IdlFaultKind, check_kind, load_kind};
use crate::refusal::{IdlRefusal, NoSchema};
use crate::tutorial::tutorial_store;
use check_passes::CheckFault;
use idl_include::laws::each_file_is_read_as_one_thing;
use idl_include::{IdlFile, LoadFault, LoadKind, Sources, load};
use idl_token::Place;
use schema::Schema;
use std::alloc::{AllocError, Global};
use streams::Files;

/// The text of the schema of the IDL of this name.
///
/// # Errors
/// As for [`program_schema`].
pub fn program_text<F: Files>(alloc: Global, files: &mut F, idl: &str) -> Result<Vec<u8>, NoSchema>
    ensures text { MatchResult result (λ text. IsSchemaTextOf (F.files files.old) idl.now text.items)
        (TellsWhy (IsIdlVerdict (F.files files.old) idl.now) (IsUnreadIdl (F.files files.old) idl.now)) }
    ensures same { F.files files.new ≡ F.files files.old }
    ensures sinks { F.sink_faults files.new ≡ F.sink_faults files.old }
    ensures later { F.faults files.old ≤ F.faults files.new }
    ensures rose { IfErr result (λ reason. is_file_fault reason ≡ true → Rose (F.faults files.old) (F.faults files.new)) }
    ensures kept { OnOk result (F.faults files.new ≡ F.faults files.old) }
    ensures quiet { IfErr result (λ reason. is_file_fault reason ≡ false → F.faults files.new ≡ F.faults files.old) }
{
    let schema = program_schema(alloc, files, idl)?;
    Ok(text_of(alloc, schema)?)
}

/// The schema of the IDL of this name, which is sound: the file and those that it includes, loaded and checked. `@tutorial` names two files
/// that the program holds.
///
/// # Errors
/// `Refused` for the first fault, in the order of loading or else of the checks; `FileFault` just where the count of faults rose.
pub fn program_schema<F: Files>(alloc: Global, files: &mut F, idl: &str) -> Result<Schema, NoSchema>
    ensures schema { TellsSchema (IsIdlVerdict (F.files files.old) idl.now) (IsUnreadIdl (F.files files.old) idl.now) result }
    ensures same { F.files files.new ≡ F.files files.old }
    ensures sinks { F.sink_faults files.new ≡ F.sink_faults files.old }
    ensures later { F.faults files.old ≤ F.faults files.new }
    ensures rose { IfErr result (λ reason. is_file_fault reason ≡ true → Rose (F.faults files.old) (F.faults files.new)) }
    ensures kept { OnOk result (F.faults files.new ≡ F.faults files.old) }
    ensures quiet { IfErr result (λ reason. is_file_fault reason ≡ false → F.faults files.new ≡ F.faults files.old) }
{
    if idl == "@tutorial" {
        return tutorial_schema(alloc);
    }
    schema_among(alloc, files, idl)
}

/// The schema of the tutorial.
fn tutorial_schema(alloc: Global) -> Result<Schema, NoSchema>
    ensures schema { TellsSchema (IsVerdictIn tutorial_files tutorial_name) ⊥ result }
    ensures no_fault { IfErr result (λ reason. is_file_fault reason ≡ false) }
{
    let mut files = tutorial_store(alloc)?;
    match schema_among(alloc, &mut files, "tutorial.thrift") {
        Ok(schema) => Ok(schema),
        Err(NoSchema::Refused(refusal)) => Err(NoSchema::Refused(refusal)),
        // A store's count is of all its calls, so it isn't known here that no read of this one fails.
        Err(NoSchema::FileFault | NoSchema::NoMemory) => Err(NoSchema::NoMemory),
    }
}

/// The schema of the program of this main file.
fn schema_among<F: Files>(alloc: Global, files: &mut F, main: &str) -> Result<Schema, NoSchema>
    ensures schema { TellsSchema (IsVerdictTold (F.files files.old) main.now) (StopsAtRead (F.files files.old) main.now) result }
    ensures same { F.files files.new ≡ F.files files.old }
    ensures sinks { F.sink_faults files.new ≡ F.sink_faults files.old }
    ensures later { F.faults files.old ≤ F.faults files.new }
    ensures rose { IfErr result (λ reason. is_file_fault reason ≡ true → Rose (F.faults files.old) (F.faults files.new)) }
    ensures kept { OnOk result (F.faults files.new ≡ F.faults files.old) }
    ensures quiet { IfErr result (λ reason. is_file_fault reason ≡ false → F.faults files.new ≡ F.faults files.old) }
{
    each_file_is_read_as_one_thing();
    match load(alloc, files, main) {
        Ok(sources) => checked_schema(alloc, &sources),
        Err(fault) => Err(unloaded(fault)),
    }
}

/// Why there is no schema of a program whose loading stopped.
fn unloaded(fault: LoadFault) -> NoSchema
    ensures why { (come : Loaded) → IsFlawOf come fault → TellsWhy (IsIdlVerdictOfLoaded come) (is_file fault.kind ≡ true) result }
    ensures unread { is_file_fault result ≡ is_file fault.kind }
{
    let LoadFault { file, at, kind } = fault;
    if is_file(kind) {
        return NoSchema::FileFault;
    }
    match load_kind(kind) {
        Some(kind) => NoSchema::Refused(IdlRefusal { file, at, kind }),
        None => NoSchema::NoMemory,
    }
}

/// Whether a file couldn't be read.
fn is_file(kind: LoadKind) -> bool
    ensures { result ≡ is_file kind }
{
    match kind {
        LoadKind::File => true,
        _ => false,
    }
}

/// The schema of a program of files.
fn checked_schema(alloc: Global, sources: &Sources) -> Result<Schema, NoSchema>
    requires { AreFiles (sources_in sources.now) }
    ensures schema { TellsSchema (IsIdlVerdictOfLoaded (loaded (program_in (sources_in sources.now)))) ⊥ result }
    ensures no_fault { IfErr result (λ reason. is_file_fault reason ≡ false) }
{
    match check(alloc, sources) {
        Ok(schema) => Ok(schema),
        Err(fault) => Err(unchecked(alloc, sources.files(), fault)),
    }
}

/// Why there is no schema of a program with this first fault.
fn unchecked(alloc: Global, files: &[IdlFile], fault: CheckFault) -> NoSchema
    requires { TellsFlaw (IsFirstFlaw (program_in files.now)) fault }
    ensures why { TellsWhy (IsIdlVerdictOfLoaded (loaded (program_in files.now))) ⊥ result }
    ensures no_fault { is_file_fault result ≡ false }
{
    match check_kind(fault.kind) {
        Some(kind) => refused_in(alloc, &files[fault.file as usize], fault.at, kind),
        None => NoSchema::NoMemory,
    }
}

/// A refusal in a file; without memory for its name, want of memory.
fn refused_in(alloc: Global, file: &IdlFile, at: Place, kind: IdlFaultKind) -> NoSchema
    ensures { RefusesIn file.now.name at kind result }
{
    match file.name.try_clone(alloc) {
        Ok(file) => NoSchema::Refused(IdlRefusal { file, at, kind }),
        Err(_) => NoSchema::NoMemory,
    }
}

/// The text of a schema, which is let go.
fn text_of(alloc: Global, schema: Schema) -> Result<Vec<u8>, AllocError>
    requires { IsSound (schema_of schema) }
    ensures { IfOk result (λ text. text.items ≡ schema_text (schema_of schema)) }
{
    schema.text(alloc)
}
