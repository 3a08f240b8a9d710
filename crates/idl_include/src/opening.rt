//! The beginning of a file: it is read, and stands behind those that were begun before.

ghost use Rattle.std.specs.Prelude.{◌≡◌, ◌≤◌, ◌++◌, ◌∷◌, [], ℕ, List, suc, map, length, IfOk, IfErr, OnOk, OnErr, MatchResult};
ghost use Rattle.idl_include.specs.FileNames.{base_name};
ghost use Rattle.idl_include.specs.DeclaredIn.{literal_in};
ghost use Rattle.idl_include.specs.SourcesOf.{AreBegun};
ghost use Rattle.idl_include.specs.Begun.{wanted_in, IsFreshFile, IsStarted, IsNewName};
ghost use Rattle.idl_include.specs.Steps.{load_stage, file_left, includes_left, LoadSteps};

use crate::faults::{LoadKind, LoadStop, NOWHERE, stop_at};
use crate::laws::a_document_declares_what_its_tree_does;
use crate::names::base_name;
use crate::reading::read_file;
use crate::sources::IdlFile;
use idl_parser::{Document, Include};
use idl_token::Place;
use lists::ByteText;
use std::alloc::{AllocError, Global};
use streams::Files;

/// How many files a program has at most.
pub(crate) const MAX_FILES: usize = 256;

/// The literal of an include, and its place.
#[derive(Drop)]
pub(crate) struct WantedFile {
    /// The place of the literal.
    pub(crate) at: Place,
    /// What the literal stands for.
    pub(crate) text: ByteText,
}

/// Begins the file of this name: it is read, and stands behind those begun before. The literals of its includes are left to be
/// followed.
pub(crate) fn begin_file<F: Files>(
    alloc: Global,
    files: &mut F,
    begun: &mut Vec<IdlFile>,
    name: &str,
) -> Result<Vec<WantedFile>, LoadStop>
    requires begun { AreBegun begun.old.items }
    requires fresh { IsNewName name.now begun.old.items }
    ensures steps { (levels : ℕ) (above : List (List ℕ)) → LoadSteps result (load_stage (F.files files.old) (F.faults files.old) begun.old.items)
        (load_stage (F.files files.new) (F.faults files.new) begun.new.items) (file_left (suc levels) above name.now begun.old.items)
        (λ wanted. includes_left levels (name.now ∷ above) name.now (length begun.old.items) (wanted_in wanted.items) begun.new.items) }
    ensures one_more { OnOk result (length begun.new.items ≡ suc (length begun.old.items)) }
    ensures sinks { F.sink_faults files.new ≡ F.sink_faults files.old }
{
    a_document_declares_what_its_tree_does();
    if begun.len() >= MAX_FILES {
        return Err(stop_at(alloc, name, NOWHERE, LoadKind::TooMany));
    }
    let document = read_file(alloc, files, name)?;
    let wanted = start(alloc, begun, name, document)?;
    Ok(wanted)
}

/// A file of this name and document stands behind those begun before.
fn start(
    alloc: Global,
    begun: &mut Vec<IdlFile>,
    name: &str,
    document: Document,
) -> Result<Vec<WantedFile>, AllocError>
    ensures started { IfOk result (λ wanted. IsStarted name.now document begun.old.items begun.new.items (wanted_in wanted.items)) }
    ensures kept { OnErr result (begun.new.items ≡ begun.old.items) }
{
    let wanted = wanted_files(alloc, document.includes.as_slice())?;
    let file = fresh_file(alloc, name, document)?;
    begun.push(file)?;
    Ok(wanted)
}

/// A file of this name and document, which includes nothing yet.
fn fresh_file(alloc: Global, name: &str, document: Document) -> Result<IdlFile, AllocError>
    ensures { IfOk result (IsFreshFile name.now document) }
{
    let bytes = name.as_bytes();
    Ok(IdlFile {
        name: ByteText::new(bytes.to_vec(alloc)?),
        base: ByteText::new(base_name(bytes).to_vec(alloc)?),
        document,
        includes: Vec::new(alloc),
    })
}

/// The literals of includes, in order.
fn wanted_files(alloc: Global, includes: &[Include]) -> Result<Vec<WantedFile>, AllocError>
    ensures { IfOk result (λ all. wanted_in all.items ≡ map (λ (include : Include). literal_in include.file) includes.now) }
{
    let mut all = Vec::new(alloc);
    for include in includes {
        want(alloc, &mut all, include)?;
    }
    Ok(all)
}

/// Adds the literal of an include.
fn want(alloc: Global, all: &mut Vec<WantedFile>, include: &Include) -> Result<(), AllocError>
    ensures { OnOk result (wanted_in all.new.items ≡ wanted_in all.old.items ++ literal_in include.now.file ∷ []) }
{
    let text = include.file.bytes.try_clone(alloc)?;
    all.push(WantedFile {
        at: include.file.at,
        text,
    })?;
    Ok(())
}
