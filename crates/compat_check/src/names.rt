//! What the main file of the new schema defines, by name.
ghost use Rattle.std.specs.Prelude.{◌≡◌, ◌==◌, ◌&&◌, ℕ, List, OnOk, IfOk, map};
ghost use Rattle.std.specs.List.{position_from};
ghost use Rattle.std.specs.Str.{bytes_eq};
ghost use Rattle.idl_names.specs.NameMaps.{number_of_name};
ghost use Rattle.schema.specs.PlainSchema.{PlainService};
ghost use Rattle.schema.specs.SchemaOf.{schema_of, plain_service, plain_struct};
ghost use Rattle.compat_model.specs.NamedThings.{is_arguments, is_main_struct, main_service_named, main_struct_named};
ghost use Rattle.compat_check.specs.Plain.{change_of};
ghost use Rattle.compat_check.specs.Tables.{HasOneMoreIf, HasServices, HasStructs};

use crate::change::Change;
use idl_names::{NameMap, note, number_of_name};
use indexmap::IndexMap;
use schema::{Schema, ServiceDesc, StructDesc, StructKind};
use std::alloc::{AllocError, Global};

/// Whether it is the arguments of a function.
fn is_arguments(kind: StructKind) -> bool
    ensures { result ≡ is_arguments kind }
{
    match kind {
        StructKind::Args => true,
        StructKind::Struct => false,
        StructKind::Union => false,
        StructKind::Exception => false,
    }
}

/// Whether it is a struct, a union or an exception of the main file.
pub(crate) fn is_main_struct(found: &StructDesc) -> bool
    ensures { result ≡ is_main_struct (plain_struct found.now) }
{
    found.file == 0 && !is_arguments(found.kind)
}

/// Adds a name where a test holds, unless it is there.
fn note_if<'a>(
    names: &mut NameMap<'a>,
    holds: bool,
    name: &'a [u8],
    place: usize,
) -> Result<(), AllocError>
    ensures { OnOk result (HasOneMoreIf holds name.now place names.old names.new) }
{
    if !holds {
        return Ok(());
    }
    let Ok(number) = u32::try_from(place) else {
        return Err(AllocError);
    };
    note(names, name, number)?;
    Ok(())
}

/// The number of the first struct of each name that is one of the main file.
fn struct_names<'a>(alloc: Global, structs: &'a [StructDesc]) -> Result<NameMap<'a>, AllocError>
    ensures { IfOk result (λ names. (name : List ℕ) → number_of_name names name
        ≡ position_from (λ d. is_main_struct d && bytes_eq d.name name) 0 (map plain_struct structs.now)) }
{
    let mut names = IndexMap::new(alloc);
    for (place, found) in structs.iter().enumerate() {
        note_if(
            &mut names,
            is_main_struct(found),
            found.name.as_slice(),
            place,
        )?;
    }
    Ok(names)
}

/// The number of the first service of each name that is one of the main file.
fn service_names<'a>(alloc: Global, services: &'a [ServiceDesc]) -> Result<NameMap<'a>, AllocError>
    ensures { IfOk result (λ names. (name : List ℕ) → number_of_name names name
        ≡ position_from (λ (v : PlainService). v.file == 0 && bytes_eq v.name name) 0 (map plain_service services.now)) }
{
    let mut names = IndexMap::new(alloc);
    for (place, found) in services.iter().enumerate() {
        note_if(&mut names, found.file == 0, found.name.as_slice(), place)?;
    }
    Ok(names)
}

/// A change, with the tables of names.
pub(crate) fn change_between<'a>(
    alloc: Global,
    old: &'a Schema,
    new: &'a Schema,
) -> Result<Change<'a>, AllocError>
    ensures change { IfOk result (λ c. change_of c ≡ record { old = schema_of old.now; new = schema_of new.now }) }
    ensures structs { IfOk result HasStructs }
    ensures services { IfOk result HasServices }
{
    let structs = struct_names(alloc, new.structs.as_slice())?;
    let services = service_names(alloc, new.services.as_slice())?;
    Ok(Change {
        old,
        new,
        structs,
        services,
    })
}

/// The number of the new main file's struct, union or exception with a name.
pub(crate) fn main_struct_named(change: &Change<'_>, name: &[u8]) -> Option<u32>
    requires { HasStructs change.now }
    ensures { result ≡ main_struct_named (change_of change.now).new name.now }
{
    number_of_name(&change.structs, name)
}

/// The number of the new main file's service with a name.
pub(crate) fn main_service_named(change: &Change<'_>, name: &[u8]) -> Option<u32>
    requires { HasServices change.now }
    ensures { result ≡ main_service_named (change_of change.now).new name.now }
{
    number_of_name(&change.services, name)
}
