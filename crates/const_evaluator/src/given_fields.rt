//! The lists of fields of a program, as they are written.

ghost use Rattle.std.specs.Prelude.{◌≡◌, ◌++◌, map, IfOk, OnOk};
ghost use Rattle.std.specs.List.{flat_map};
ghost use Rattle.idl_include.specs.DeclaredIn.{function_in};
ghost use Rattle.idl_include.specs.Numbering.{structs_of, services_of};
ghost use Rattle.idl_include.specs.Program.{Program};
ghost use Rattle.idl_names.specs.FiledIn.{filed_structs, filed_services};
ghost use Rattle.check_model.specs.FieldLists.{field_lists};
ghost use Rattle.const_evaluator.specs.GivenFields.{fields_filed, fields_given, struct_fields, args_fields, service_fields};

use idl_names::InFile;
use idl_parser::{Field, Function, Service, Struct};
use std::alloc::{AllocError, Global};

/// The fields of a struct, a union or an exception, or the arguments of a function, as they are written.
#[derive(Clone, Copy)]
pub(crate) struct GivenFields<'a> {
    /// The number of the file.
    pub(crate) file: u32,
    /// The fields in order.
    pub(crate) fields: &'a [Field],
}

/// The fields of structs at the end of other lists.
fn put_structs<'a>(
    lists: &mut Vec<GivenFields<'a>>,
    structs: &[InFile<'a, Struct>],
) -> Result<(), AllocError>
    ensures { OnOk result (map fields_given lists.new.items ≡ map fields_given lists.old.items ++ map struct_fields structs.now) }
{
    for one in structs {
        lists.push(GivenFields {
            file: one.file,
            fields: one.item.fields.as_slice(),
        })?;
    }
    Ok(())
}

/// The arguments of functions at the end of other lists.
#[tactic(auto, unfolding(idl_include::specs::DeclaredIn::function_in))]
fn put_args<'a>(
    lists: &mut Vec<GivenFields<'a>>,
    file: u32,
    functions: &'a [Function],
) -> Result<(), AllocError>
    ensures { OnOk result (map fields_given lists.new.items ≡ map fields_given lists.old.items ++ map (args_fields file) functions.now) }
{
    for function in functions {
        lists.push(GivenFields {
            file,
            fields: function.arguments.as_slice(),
        })?;
    }
    Ok(())
}

/// The arguments of all functions of services at the end of other lists.
fn put_services<'a>(
    lists: &mut Vec<GivenFields<'a>>,
    services: &[InFile<'a, Service>],
) -> Result<(), AllocError>
    ensures { OnOk result (map fields_given lists.new.items ≡ map fields_given lists.old.items ++ flat_map service_fields services.now) }
{
    for service in services {
        put_args(lists, service.file, service.item.functions.as_slice())?;
    }
    Ok(())
}

/// The lists of fields of a program: of structs, unions and exceptions by number, and behind them the arguments of each function.
pub(crate) fn given_fields<'a>(
    alloc: Global,
    structs: &[InFile<'a, Struct>],
    services: &[InFile<'a, Service>],
) -> Result<Vec<GivenFields<'a>>, AllocError>
    ensures { IfOk result (λ lists. (program : Program) → filed_structs structs.now ≡ structs_of program → filed_services services.now ≡ services_of program
        → map fields_given lists.items ≡ map fields_filed (field_lists program)) }
{
    let mut lists = Vec::new(alloc);
    put_structs(&mut lists, structs)?;
    put_services(&mut lists, services)?;
    Ok(lists)
}
