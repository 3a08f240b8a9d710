//! Tables of a schema's functions by their names, which are made once.

ghost use Rattle.std.specs.Prelude.{◌≡◌, ◌<◌, ◌==◌, ℕ, true, length, map, All, OnOk, IfOk, IsPermutation};
ghost use Rattle.std.specs.List.{slice_get, list_any};
ghost use Rattle.std.specs.List.Sorted.{IsSortedBy};
ghost use Rattle.std.specs.Option.{option_map, option_copied};
ghost use Rattle.schema.specs.SchemaOf.{plain_function, plain_service, schema_of};
ghost use Rattle.processor.specs.Tables.{are_tables, is_placed_before, is_table, name_at_place};

use schema::{FnDesc, Listed, NumberList, Schema, ServiceDesc};
use std::alloc::{AllocError, Global};

/// The function at a place.
pub(crate) fn function_at(functions: &[FnDesc], place: u32) -> Option<&FnDesc>
    ensures { option_map plain_function (option_copied result) ≡ slice_get (map plain_function functions.now) place }
{
    functions.get(place as usize)
}

/// The name of the function at a place.
pub(crate) fn name_at(functions: &[FnDesc], place: u32) -> &[u8]
    ensures { result.now ≡ name_at_place (map plain_function functions.now) place }
{
    match function_at(functions, place) {
        Some(function) => function.name.as_slice(),
        None => &[],
    }
}

/// The places of functions, in the order of definition.
fn places_of(alloc: Global, functions: &[FnDesc]) -> Result<Vec<u32>, AllocError>
    ensures each { IfOk result (λ places. (k : ℕ) → k < length functions.now → list_any (λ place. place == k) places.items ≡ true) }
    ensures within { IfOk result (λ places. All (λ place. place < length functions.now) places.items) }
{
    let mut places = Vec::with_capacity(alloc, functions.len())?;
    for place in 0..functions.len() {
        let Ok(number) = u32::try_from(place) else {
            return Err(AllocError);
        };
        places.push(number)?;
    }
    Ok(places)
}

/// Sorts places by the names of their functions.
fn sort_by_name(functions: &[FnDesc], places: &mut Vec<u32>) -> Result<(), AllocError>
    ensures permutation { IsPermutation places.old.items places.new.items }
    ensures sorted { OnOk result (IsSortedBy (is_placed_before (map plain_function functions.now)) places.new.items) }
{
    places.sort_by(|a, b| name_at(functions, *a).cmp(name_at(functions, *b)))?;
    Ok(())
}

/// The table of functions.
fn function_table(alloc: Global, functions: &[FnDesc]) -> Result<NumberList, AllocError>
    ensures { IfOk result (λ table. is_table (map plain_function functions.now) table ≡ true) }
{
    let mut places = places_of(alloc, functions)?;
    sort_by_name(functions, &mut places)?;
    Ok(NumberList::new(places))
}

/// The table of each service's own functions.
fn tables_of(alloc: Global, services: &[ServiceDesc]) -> Result<Vec<NumberList>, AllocError>
    ensures { IfOk result (λ tables. are_tables (map plain_service services.now) tables.items ≡ true) }
{
    let mut tables = Vec::with_capacity(alloc, services.len())?;
    for service in services {
        let table = function_table(alloc, service.functions.as_slice())?;
        tables.push(table)?;
    }
    Ok(tables)
}

/// The table of the own functions of each service of a schema.
pub(crate) fn function_tables(
    alloc: Global,
    schema: &Schema,
) -> Result<Listed<NumberList>, AllocError>
    ensures { IfOk result (λ tables. are_tables (schema_of schema.now).services tables ≡ true) }
{
    Ok(Listed::new(tables_of(alloc, schema.services.as_slice())?))
}
