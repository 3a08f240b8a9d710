//! The functions of a service, inherited ones included, in order and by name.
ghost use Rattle.std.specs.Prelude.{◌≡◌, ◌++◌, ℕ, List, All, OnOk, IfOk, map, slice_get};
ghost use Rattle.std.specs.List.{position_from};
ghost use Rattle.std.specs.Option.{option_copied, option_map};
ghost use Rattle.idl_names.specs.NameMaps.{number_of_name};
ghost use Rattle.schema.specs.Inherited.{functions_of, own_functions, parent_of};
ghost use Rattle.schema.specs.LookUp.{is_named};
ghost use Rattle.schema.specs.SchemaOf.{schema_of, plain_function};
ghost use Rattle.schema.specs.Shapes.{shown_function};
ghost use Rattle.compat_check.specs.Tables.{HasFunctions, tabled_function};

use crate::steps::spend;
use idl_names::{NameMap, note, number_of_name};
use indexmap::IndexMap;
use schema::{FnDesc, Schema};
use std::alloc::{AllocError, Global};

/// The own functions of the service at a number, and the number of the service that it extends.
fn own_part(schema: &Schema, which: u32) -> (&[FnDesc], Option<u32>)
    ensures functions { map plain_function result.0.now ≡ own_functions (schema_of schema.now).services which }
    ensures parent { result.1 ≡ parent_of (schema_of schema.now).services which }
{
    match schema.services.as_slice().get(which as usize) {
        Some(found) => (found.functions.as_slice(), found.parent),
        None => (&[], None),
    }
}

/// Appends functions to a list of them.
fn add_functions<'a>(all: &mut Vec<&'a FnDesc>, functions: &'a [FnDesc]) -> Result<(), AllocError>
    ensures { OnOk result (map shown_function all.new.items ≡ map shown_function all.old.items ++ map plain_function functions.now) }
{
    for function in functions {
        all.push(function)?;
    }
    Ok(())
}

/// The functions of a service: its own, and then those that it inherits, the nearest first.
pub(crate) fn functions_of<'a>(
    alloc: Global,
    left: &mut u32,
    schema: &'a Schema,
    service: u32,
) -> Result<Vec<&'a FnDesc>, AllocError>
    ensures { IfOk result (λ all. map shown_function all.items ≡ functions_of (schema_of schema.now).services service) }
{
    let mut all = Vec::new(alloc);
    let mut next = Some(service);
    for _steps in 0..schema.services.as_slice().len() {
        let Some(which) = next else {
            return Ok(all);
        };
        spend(left, 1)?;
        let (functions, parent) = own_part(schema, which);
        add_functions(&mut all, functions)?;
        next = parent;
    }
    Ok(all)
}

/// The functions of a service by name.
#[derive(Drop)]
pub struct FunctionTable<'a> {
    /// The functions in order.
    pub(crate) functions: Vec<&'a FnDesc>,
    /// The place of each name's.
    pub(crate) places: NameMap<'a>,
}

/// The place of the first function of each name.
fn places_of<'a>(alloc: Global, functions: &[&'a FnDesc]) -> Result<NameMap<'a>, AllocError>
    ensures { IfOk result (λ places. (name : List ℕ) → number_of_name places name ≡ position_from (is_named name) 0 (map shown_function functions.now)) }
{
    let mut places = IndexMap::new(alloc);
    for (place, function) in functions.iter().enumerate() {
        let Ok(number) = u32::try_from(place) else {
            return Err(AllocError);
        };
        note(&mut places, function.name.as_slice(), number)?;
    }
    Ok(places)
}

/// The functions of a service by name, inherited ones included.
pub(crate) fn function_table<'a>(
    alloc: Global,
    left: &mut u32,
    schema: &'a Schema,
    service: u32,
) -> Result<FunctionTable<'a>, AllocError>
    ensures { IfOk result (HasFunctions (schema_of schema.now) service) }
{
    let functions = functions_of(alloc, left, schema, service)?;
    let places = places_of(alloc, functions.as_slice())?;
    Ok(FunctionTable { functions, places })
}

/// The item at a place.
pub(crate) fn item<T>(items: &[T], place: usize) -> Option<&T>
    ensures { option_copied result ≡ slice_get items.now place }
{
    items.get(place)
}

/// The function at a place.
fn function_at<'a>(functions: &[&'a FnDesc], place: u32) -> Option<&'a FnDesc>
    ensures { option_map plain_function (option_copied result) ≡ slice_get (map shown_function functions.now) place }
{
    item(functions, place as usize).copied()
}

/// The function with a name.
pub(crate) fn tabled_function<'a>(table: &FunctionTable<'a>, name: &[u8]) -> Option<&'a FnDesc>
    ensures { option_map plain_function (option_copied result) ≡ tabled_function table.now name.now }
{
    match number_of_name(&table.places, name) {
        Some(place) => function_at(table.functions.as_slice(), place),
        None => None,
    }
}
