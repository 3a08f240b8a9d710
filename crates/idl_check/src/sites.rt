//! The lists of fields that are structs of a schema, with the numbers of their files.

ghost use Rattle.std.specs.Prelude.{◌≡◌, ◌++◌, map, IfOk, OnOk};
ghost use Rattle.std.specs.List.{flat_map};
ghost use Rattle.idl_include.specs.Numbering.{structs_of, services_of};
ghost use Rattle.idl_include.specs.Program.{Program};
ghost use Rattle.idl_names.specs.FiledIn.{filed_structs, filed_services};
ghost use Rattle.check_model.specs.FieldLists.{field_lists};
ghost use Rattle.schema_bare.specs.GivenLists.{struct_given, args_given, service_args};
ghost use Rattle.idl_check.specs.Sites.{sited, sited_in};

use idl_names::InFile;
use idl_parser::{Field, Function, Service, Struct};
use std::alloc::{AllocError, Global};

/// Fields that stand in a file.
#[derive(Drop)]
pub(crate) struct FieldSite<'a> {
    /// The number of the file.
    pub(crate) file: u32,
    /// The fields, as they are written.
    pub(crate) fields: &'a [Field],
}

/// The fields of structs, unions and exceptions, behind others.
fn put_structs<'a>(
    sites: &mut Vec<FieldSite<'a>>,
    given: &[InFile<'a, Struct>],
) -> Result<(), AllocError>
    ensures { OnOk result (map sited_in sites.new.items ≡ map sited_in sites.old.items ++ map sited (map struct_given given.now)) }
{
    for one in given {
        sites.push(FieldSite {
            file: one.file,
            fields: one.item.fields.as_slice(),
        })?;
    }
    Ok(())
}

/// The arguments of functions, behind others.
#[tactic(auto, unfolding(idl_include::specs::DeclaredIn::function_in))]
fn put_arguments<'a>(
    sites: &mut Vec<FieldSite<'a>>,
    file: u32,
    functions: &'a [Function],
) -> Result<(), AllocError>
    ensures { OnOk result (map sited_in sites.new.items ≡ map sited_in sites.old.items ++ map sited (map (args_given file) functions.now)) }
{
    for function in functions {
        sites.push(FieldSite {
            file,
            fields: function.arguments.as_slice(),
        })?;
    }
    Ok(())
}

/// The arguments of the functions of services, behind others.
fn put_services<'a>(
    sites: &mut Vec<FieldSite<'a>>,
    given: &[InFile<'a, Service>],
) -> Result<(), AllocError>
    ensures { OnOk result (map sited_in sites.new.items ≡ map sited_in sites.old.items ++ map sited (flat_map service_args given.now)) }
{
    for one in given {
        put_arguments(sites, one.file, one.item.functions.as_slice())?;
    }
    Ok(())
}

/// The fields of structs, unions and exceptions, and then the arguments of services, behind others.
fn put_all<'a>(
    sites: &mut Vec<FieldSite<'a>>,
    structs: &[InFile<'a, Struct>],
    services: &[InFile<'a, Service>],
) -> Result<(), AllocError>
    ensures { OnOk result (map sited_in sites.new.items ≡ (map sited_in sites.old.items ++ map sited (map struct_given structs.now)) ++ map sited (flat_map service_args services.now)) }
{
    put_structs(sites, structs)?;
    put_services(sites, services)
}

/// The fields of all structs of a schema, by number.
pub(crate) fn field_sites<'a>(
    alloc: Global,
    structs: &[InFile<'a, Struct>],
    services: &[InFile<'a, Service>],
) -> Result<Vec<FieldSite<'a>>, AllocError>
    ensures { (program : Program) → filed_structs structs.now ≡ structs_of program → filed_services services.now ≡ services_of program
        → IfOk result (λ sites. map sited_in sites.items ≡ map sited (field_lists program)) }
{
    let mut sites = Vec::new(alloc);
    match put_all(&mut sites, structs, services) {
        Ok(()) => Ok(sites),
        Err(fault) => Err(fault),
    }
}
