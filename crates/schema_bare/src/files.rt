//! The files of a schema.

ghost use Rattle.std.specs.Prelude.{◌≡◌, ◌++◌, ◌∷◌, [], All, map, IfOk, OnOk};
ghost use Rattle.idl_include.specs.DeclaredIn.{definition_in};
ghost use Rattle.idl_include.specs.Numbering.{all_counted};
ghost use Rattle.idl_include.specs.SourcesOf.{file_in, program_in};
ghost use Rattle.idl_names.specs.Bases.{HasOwnBase};
ghost use Rattle.idl_names.specs.SpotsIn.{counts_in};
ghost use Rattle.schema.specs.SchemaOf.{plain_file};
ghost use Rattle.check_model.specs.SchemaParts.{ref_behind, refs_behind, files_of, files_behind};

use idl_include::IdlFile;
use idl_names::{DefinitionCounts, no_counts, with_definition};
use idl_parser::Definition;
use schema::{DefRef, FileDesc, Listed};
use std::alloc::{AllocError, Global};

/// A definition by its kind and its number, behind so many.
#[tactic(auto, unfolding(idl_include::specs::DeclaredIn::definition_in))]
fn ref_behind(counts: DefinitionCounts, definition: &Definition) -> DefRef
    ensures { result ≡ ref_behind (counts_in counts) (definition_in definition.now) }
{
    match definition {
        Definition::Const(_) => DefRef::Constant(counts.constants),
        Definition::Typedef(_) => DefRef::Alias(counts.aliases),
        Definition::Enum(_) => DefRef::Enum(counts.enums),
        Definition::Struct(_) => DefRef::Struct(counts.structs),
        Definition::Service(_) => DefRef::Service(counts.services),
    }
}

/// Puts definitions in order behind so many, and tells how many there are with them.
fn put_refs(
    refs: &mut Vec<DefRef>,
    counts: DefinitionCounts,
    definitions: &[Definition],
) -> Result<DefinitionCounts, AllocError>
    ensures refs { OnOk result (refs.new.items ≡ refs.old.items ++ refs_behind (counts_in counts) (map definition_in definitions.now)) }
    ensures counts { IfOk result (λ next. counts_in next ≡ all_counted (counts_in counts) (map definition_in definitions.now)) }
{
    let mut met = counts;
    for definition in definitions {
        refs.push(ref_behind(met, definition))?;
        met = with_definition(met, definition)?;
    }
    Ok(met)
}

/// A file with these definitions.
fn file_desc(alloc: Global, file: &IdlFile, refs: Vec<DefRef>) -> Result<FileDesc, AllocError>
    ensures { IfOk result (λ made. plain_file made ≡ record { base = file.now.base; includes = file.now.includes.items; defs = refs.items }) }
{
    let base = file.base.try_clone(alloc)?;
    let includes = file.includes.as_slice().to_vec(alloc)?;
    Ok(FileDesc {
        base,
        includes: Listed::new(includes),
        defs: Listed::new(refs),
    })
}

/// One file more, behind so many definitions. How many there are with its own.
#[tactic(auto, unfolding(idl_include::specs::DeclaredIn::definitions_in))]
fn put_file(
    alloc: Global,
    made: &mut Vec<FileDesc>,
    counts: DefinitionCounts,
    file: &IdlFile,
) -> Result<DefinitionCounts, AllocError>
    requires { HasOwnBase file.now }
    ensures files { OnOk result (map plain_file made.new.items ≡ map plain_file made.old.items ++ files_behind (counts_in counts) (file_in file.now ∷ [])) }
    ensures counts { IfOk result (λ next. counts_in next ≡ all_counted (counts_in counts) (map definition_in file.now.document.definitions.items)) }
{
    let mut refs = Vec::new(alloc);
    let next = put_refs(&mut refs, counts, file.document.definitions.as_slice())?;
    let desc = file_desc(alloc, file, refs)?;
    made.push(desc)?;
    Ok(next)
}

/// The files of a program.
pub(crate) fn all_files(alloc: Global, files: &[IdlFile]) -> Result<Vec<FileDesc>, AllocError>
    requires { All HasOwnBase files.now }
    ensures { IfOk result (λ made. map plain_file made.items ≡ files_of (program_in files.now)) }
{
    let mut made = Vec::with_capacity(alloc, files.len())?;
    let mut counts = no_counts();
    for file in files {
        counts = put_file(alloc, &mut made, counts, file)?;
    }
    Ok(made)
}
