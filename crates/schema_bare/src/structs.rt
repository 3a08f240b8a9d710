//! The structs of a schema: structs, unions and exceptions, and the arguments of functions.

ghost use Rattle.std.specs.Prelude.{◌≡◌, [], ◌∷◌, map, IfOk, OnOk};
ghost use Rattle.std.specs.List.{AllZip, flat_map};
ghost use Rattle.idl_include.specs.DeclaredIn.{function_in};
ghost use Rattle.idl_include.specs.Program.{Program};
ghost use Rattle.idl_include.specs.Numbering.{structs_of, services_of};
ghost use Rattle.idl_include.specs.SourcesOf.{program_in};
ghost use Rattle.idl_names.specs.FiledIn.{filed_structs, filed_services};
ghost use Rattle.schema.specs.SchemaOf.{plain_struct};
ghost use Rattle.check_model.specs.FieldLists.{FieldsDecl, kind_said, field_lists};
ghost use Rattle.check_model.specs.SchemaParts.{NoDefault, IsStructFrom};
ghost use Rattle.schema_bare.specs.GivenLists.{struct_given, args_given, service_args};
ghost use Rattle.idl_types.specs.Known.{AreAliasTypes};
ghost use Rattle.schema_bare.specs.StructsAdded.{AddsStructs};

use crate::fields::field_list;
use idl_names::InFile;
use idl_parser::{Function, Service, Struct, StructKind};
use idl_types::TypeTables;
use schema::{StructDesc, StructKind as FieldsKind};
use std::alloc::{AllocError, Global};

/// What a struct's word makes.
fn kind_said(kind: StructKind) -> FieldsKind
    ensures { result ≡ kind_said kind }
{
    match kind {
        StructKind::Struct => FieldsKind::Struct,
        StructKind::Union => FieldsKind::Union,
        StructKind::Exception => FieldsKind::Exception,
    }
}

/// A struct, a union or an exception, without defaults.
fn struct_desc(
    alloc: Global,
    tables: &TypeTables<'_, '_>,
    given: &InFile<'_, Struct>,
    room: &mut u32,
) -> Result<StructDesc, AllocError>
    requires { AreAliasTypes (program_in tables.now.names.now) tables.now.aliases.now }
    ensures { IfOk result (λ made. IsStructFrom NoDefault (program_in tables.now.names.now) (struct_given given.now) (plain_struct made)) }
{
    let name = given.item.name.text.try_clone(alloc)?;
    let kind = kind_said(given.item.kind);
    let fields = field_list(
        alloc,
        tables,
        given.file,
        kind,
        given.item.fields.as_slice(),
        room,
    )?;
    Ok(StructDesc {
        file: given.file,
        name,
        kind,
        fields,
    })
}

/// The arguments of a function, without defaults.
#[tactic(auto, unfolding(idl_include::specs::DeclaredIn::function_in))]
fn args_desc(
    alloc: Global,
    tables: &TypeTables<'_, '_>,
    file: u32,
    function: &Function,
    room: &mut u32,
) -> Result<StructDesc, AllocError>
    requires { AreAliasTypes (program_in tables.now.names.now) tables.now.aliases.now }
    ensures { IfOk result (λ made. IsStructFrom NoDefault (program_in tables.now.names.now) (args_given file function.now) (plain_struct made)) }
{
    let name = function.name.text.try_clone(alloc)?;
    let arguments = function.arguments.as_slice();
    let fields = field_list(alloc, tables, file, FieldsKind::Args, arguments, room)?;
    Ok(StructDesc {
        file,
        name,
        kind: FieldsKind::Args,
        fields,
    })
}

/// Adds a struct at the end of others.
fn put_made(
    structs: &mut Vec<StructDesc>,
    made: Result<StructDesc, AllocError>,
) -> Result<(), AllocError>
    ensures { (program : Program) (d : FieldsDecl) → IfOk made (λ one. IsStructFrom NoDefault program d (plain_struct one))
        → OnOk result (AddsStructs program (d ∷ []) structs.old.items structs.new.items) }
{
    let one = made?;
    structs.push(one)?;
    Ok(())
}

/// Adds structs, unions and exceptions at the end of others.
fn put_structs(
    alloc: Global,
    tables: &TypeTables<'_, '_>,
    structs: &mut Vec<StructDesc>,
    given: &[InFile<'_, Struct>],
    room: &mut u32,
) -> Result<(), AllocError>
    requires { AreAliasTypes (program_in tables.now.names.now) tables.now.aliases.now }
    ensures { OnOk result (AddsStructs (program_in tables.now.names.now) (map struct_given given.now) structs.old.items structs.new.items) }
{
    for one in given {
        put_made(structs, struct_desc(alloc, tables, one, room))?;
    }
    Ok(())
}

/// The arguments of functions at the end of other structs.
fn put_args(
    alloc: Global,
    tables: &TypeTables<'_, '_>,
    structs: &mut Vec<StructDesc>,
    file: u32,
    functions: &[Function],
    room: &mut u32,
) -> Result<(), AllocError>
    requires { AreAliasTypes (program_in tables.now.names.now) tables.now.aliases.now }
    ensures { OnOk result (AddsStructs (program_in tables.now.names.now) (map (args_given file) functions.now) structs.old.items structs.new.items) }
{
    for function in functions {
        put_made(structs, args_desc(alloc, tables, file, function, room))?;
    }
    Ok(())
}

/// The arguments of all functions of services at the end of other structs.
fn put_all_args(
    alloc: Global,
    tables: &TypeTables<'_, '_>,
    structs: &mut Vec<StructDesc>,
    services: &[InFile<'_, Service>],
    room: &mut u32,
) -> Result<(), AllocError>
    requires { AreAliasTypes (program_in tables.now.names.now) tables.now.aliases.now }
    ensures { OnOk result (AddsStructs (program_in tables.now.names.now) (flat_map service_args services.now) structs.old.items structs.new.items) }
{
    for service in services {
        let functions = service.item.functions.as_slice();
        put_args(alloc, tables, structs, service.file, functions, room)?;
    }
    Ok(())
}

/// The structs, unions and exceptions of a program by number, and behind them the arguments of each function, without defaults.
pub(crate) fn all_structs(
    alloc: Global,
    tables: &TypeTables<'_, '_>,
    structs: &[InFile<'_, Struct>],
    services: &[InFile<'_, Service>],
    room: &mut u32,
) -> Result<Vec<StructDesc>, AllocError>
    requires aliases { AreAliasTypes (program_in tables.now.names.now) tables.now.aliases.now }
    requires structs { filed_structs structs.now ≡ structs_of (program_in tables.now.names.now) }
    requires services { filed_services services.now ≡ services_of (program_in tables.now.names.now) }
    ensures { IfOk result (λ made. AllZip (IsStructFrom NoDefault (program_in tables.now.names.now)) (field_lists (program_in tables.now.names.now)) (map plain_struct made.items)) }
{
    let mut made = Vec::with_capacity(alloc, structs.len())?;
    put_structs(alloc, tables, &mut made, structs, room)?;
    put_all_args(alloc, tables, &mut made, services, room)?;
    Ok(made)
}
