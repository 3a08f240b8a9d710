//! The services of a schema.

ghost use Rattle.std.specs.Prelude.{◌≡◌, ◌+◌, length, map, IfOk};
ghost use Rattle.std.specs.Option.{option_map};
ghost use Rattle.idl_include.specs.Cycles.{parent_named};
ghost use Rattle.idl_include.specs.DeclaredIn.{field_in, function_in};
ghost use Rattle.idl_include.specs.Numbering.{services_of};
ghost use Rattle.idl_include.specs.SourcesOf.{program_in};
ghost use Rattle.idl_names.specs.FiledIn.{filed_by, filed_services, service_declared};
ghost use Rattle.schema.specs.PlainKind.{kind_of};
ghost use Rattle.schema.specs.SchemaOf.{plain_function, plain_service};
ghost use Rattle.check_model.specs.SchemaParts.{NoDefault, ResultMeans, IsFunctionOf, AreFunctionsOf, IsServiceOf, AreServicesOf};
ghost use Rattle.idl_types.specs.Known.{AreAliasTypes};

use crate::fields::field_list;
use idl_names::{InFile, NameTables};
use idl_parser::{Field, Function, Service};
use idl_types::{TypeTables, type_meant};
use schema::{FnDesc, Listed, ServiceDesc, StructKind as FieldsKind, TypeDesc};
use std::alloc::{AllocError, Global};

/// The number behind so many.
fn number_behind(first: u32, count: usize) -> Result<u32, AllocError>
    ensures { IfOk result (λ number. number ≡ first + count) }
{
    let Ok(count) = u32::try_from(count) else {
        return Err(AllocError);
    };
    first.checked_add(count).ok_or(AllocError)
}

/// The exceptions that a function throws.
#[tactic(auto, unfolding(idl_include::specs::DeclaredIn::function_in))]
pub fn thrown(function: &Function) -> &[Field]
    ensures { map field_in result.now ≡ (function_in function.now).throws }
{
    match &function.throws {
        Some(fields) => fields.as_slice(),
        None => &[],
    }
}

/// The type of a function's result, if it has one.
#[tactic(auto, unfolding(idl_include::specs::DeclaredIn::function_in))]
fn result_kind(
    alloc: Global,
    tables: &TypeTables<'_, '_>,
    file: u32,
    function: &Function,
    room: &mut u32,
) -> Result<Option<TypeDesc>, AllocError>
    requires { AreAliasTypes (program_in tables.now.names.now) tables.now.aliases.now }
    ensures { IfOk result (λ kind. ResultMeans (program_in tables.now.names.now) file (function_in function.now).result (option_map kind_of kind)) }
{
    match &function.result {
        Some(tree) => {
            let kind = type_meant(alloc, tables, file, tree, room)?;
            Ok(Some(kind))
        }
        None => Ok(None),
    }
}

/// A function with the number of its arguments' struct, without defaults.
#[tactic(auto, unfolding(idl_include::specs::DeclaredIn::function_in))]
fn function_desc(
    alloc: Global,
    tables: &TypeTables<'_, '_>,
    file: u32,
    args: u32,
    function: &Function,
    room: &mut u32,
) -> Result<FnDesc, AllocError>
    requires { AreAliasTypes (program_in tables.now.names.now) tables.now.aliases.now }
    ensures { IfOk result (λ made. IsFunctionOf NoDefault (program_in tables.now.names.now) file args (function_in function.now) (plain_function made)) }
{
    let name = function.name.text.try_clone(alloc)?;
    let result = result_kind(alloc, tables, file, function, room)?;
    let throws = field_list(
        alloc,
        tables,
        file,
        FieldsKind::Args,
        thrown(function),
        room,
    )?;
    Ok(FnDesc {
        name,
        oneway: function.oneway,
        args,
        result,
        throws,
    })
}

/// The functions of a service, the first of which has the struct of this number.
fn functions_made(
    alloc: Global,
    tables: &TypeTables<'_, '_>,
    file: u32,
    first: u32,
    functions: &[Function],
    room: &mut u32,
) -> Result<Vec<FnDesc>, AllocError>
    requires { AreAliasTypes (program_in tables.now.names.now) tables.now.aliases.now }
    ensures { IfOk result (λ made. AreFunctionsOf NoDefault (program_in tables.now.names.now) file first (map function_in functions.now) (map plain_function made.items)) }
{
    let mut made = Vec::with_capacity(alloc, functions.len())?;
    for (place, function) in functions.iter().enumerate() {
        let args = number_behind(first, place)?;
        let one = function_desc(alloc, tables, file, args, function, room)?;
        made.push(one)?;
    }
    Ok(made)
}

/// The number of the service that a service extends.
fn parent_number(names: &NameTables<'_>, given: &InFile<'_, Service>) -> Option<u32>
    ensures { result ≡ parent_named (program_in names.now) (filed_by service_declared given.now) }
{
    match &given.item.parent {
        Some(name) => names.service_named(given.file, name.text.as_slice()),
        None => None,
    }
}

/// A service, the first function of which has the struct of this number.
fn service_desc(
    alloc: Global,
    tables: &TypeTables<'_, '_>,
    first: u32,
    given: &InFile<'_, Service>,
    room: &mut u32,
) -> Result<ServiceDesc, AllocError>
    requires { AreAliasTypes (program_in tables.now.names.now) tables.now.aliases.now }
    ensures { IfOk result (λ made. IsServiceOf NoDefault (program_in tables.now.names.now) first (filed_by service_declared given.now) (plain_service made)) }
{
    let name = given.item.name.text.try_clone(alloc)?;
    let parent = parent_number(tables.names, given);
    let functions = given.item.functions.as_slice();
    let functions = functions_made(alloc, tables, given.file, first, functions, room)?;
    Ok(ServiceDesc {
        file: given.file,
        name,
        parent,
        functions: Listed::new(functions),
    })
}

/// The services of a program by number, the first function of which has the struct of this number.
pub(crate) fn all_services(
    alloc: Global,
    tables: &TypeTables<'_, '_>,
    first: u32,
    given: &[InFile<'_, Service>],
    room: &mut u32,
) -> Result<Vec<ServiceDesc>, AllocError>
    requires { AreAliasTypes (program_in tables.now.names.now) tables.now.aliases.now }
    ensures { IfOk result (λ made. AreServicesOf NoDefault (program_in tables.now.names.now) first (filed_services given.now) (map plain_service made.items)) }
{
    let mut made = Vec::with_capacity(alloc, given.len())?;
    let mut next = first;
    for one in given {
        let service = service_desc(alloc, tables, next, one, room)?;
        made.push(service)?;
        next = number_behind(next, one.item.functions.len())?;
    }
    Ok(made)
}
