//! The services of a schema get the defaults of what their functions throw.

ghost use Rattle.std.specs.Prelude.{map, OnOk};
ghost use Rattle.idl_include.specs.DeclaredIn.{function_in};
ghost use Rattle.idl_include.specs.Program.{Program};
ghost use Rattle.idl_names.specs.FiledIn.{filed_by, filed_services, service_declared};
ghost use Rattle.schema.specs.SchemaOf.{plain_function, plain_service};
ghost use Rattle.idl_check.specs.Taking.{AreWorths};
ghost use Rattle.idl_check.specs.Sites.{AllZipped};
ghost use Rattle.idl_check.specs.Filling.{IsFunctionFilled, IsServiceFilled};

use crate::fields::fill_fields;
use crate::worths::Worths;
use idl_names::InFile;
use idl_parser::{Function, Service};
use schema::{FnDesc, Listed, ServiceDesc};
use schema_bare::thrown;
use std::alloc::{AllocError, Global};
use std::mem;

/// A function gets the defaults of what it throws.
fn fill_function(
    alloc: Global,
    worths: &mut Worths<'_>,
    file: u32,
    given: &Function,
    function: &mut FnDesc,
) -> Result<(), AllocError>
    ensures { (program : Program) → AreWorths program worths.old
        → OnOk result (IsFunctionFilled program file (function_in given.now) (plain_function function.old) (plain_function function.new) × AreWorths program worths.new) }
{
    fill_fields(alloc, worths, file, thrown(given), &mut function.throws)
}

/// Functions in this order get the defaults of what they throw.
fn fill_functions(
    alloc: Global,
    worths: &mut Worths<'_>,
    file: u32,
    given: &[Function],
    functions: &mut Vec<FnDesc>,
) -> Result<(), AllocError>
    ensures { (program : Program) → AreWorths program worths.old
        → OnOk result (AllZipped (IsFunctionFilled program file) (map function_in given.now) (map plain_function functions.old.items) (map plain_function functions.new.items) × AreWorths program worths.new) }
{
    if given.len() != functions.len() {
        return Err(AllocError);
    }
    for place in 0..given.len() {
        fill_function(alloc, worths, file, &given[place], &mut functions[place])?;
    }
    Ok(())
}

/// A service gets the defaults of what its functions throw.
fn fill_service(
    alloc: Global,
    worths: &mut Worths<'_>,
    given: &InFile<'_, Service>,
    service: &mut ServiceDesc,
) -> Result<(), AllocError>
    ensures { (program : Program) → AreWorths program worths.old
        → OnOk result (IsServiceFilled program (filed_by service_declared given.now) (plain_service service.old) (plain_service service.new) × AreWorths program worths.new) }
{
    let mut all = mem::replace(&mut service.functions, Listed::new(Vec::new(alloc))).into_vec();
    let declared = given.item.functions.as_slice();
    let done = fill_functions(alloc, worths, given.file, declared, &mut all);
    service.functions = Listed::new(all);
    done
}

/// Services in this order get the defaults of what their functions throw.
fn fill_each(
    alloc: Global,
    worths: &mut Worths<'_>,
    given: &[InFile<'_, Service>],
    services: &mut Vec<ServiceDesc>,
) -> Result<(), AllocError>
    ensures { (program : Program) → AreWorths program worths.old
        → OnOk result (AllZipped (IsServiceFilled program) (filed_services given.now) (map plain_service services.old.items) (map plain_service services.new.items) × AreWorths program worths.new) }
{
    if given.len() != services.len() {
        return Err(AllocError);
    }
    for place in 0..given.len() {
        fill_service(alloc, worths, &given[place], &mut services[place])?;
    }
    Ok(())
}

/// The services of a schema get the defaults of what their functions throw.
pub(crate) fn fill_services(
    alloc: Global,
    worths: &mut Worths<'_>,
    given: &[InFile<'_, Service>],
    services: &mut Listed<ServiceDesc>,
) -> Result<(), AllocError>
    ensures { (program : Program) → AreWorths program worths.old
        → OnOk result (AllZipped (IsServiceFilled program) (filed_services given.now) (map plain_service services.old) (map plain_service services.new) × AreWorths program worths.new) }
{
    let mut all = mem::replace(services, Listed::new(Vec::new(alloc))).into_vec();
    let done = fill_each(alloc, worths, given, &mut all);
    *services = Listed::new(all);
    done
}
