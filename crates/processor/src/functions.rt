//! The function that a name asks for, by the tables of a schema.

ghost use Rattle.std.specs.Prelude.{◌≡◌, true, map, option_and_then};
ghost use Rattle.std.specs.List.{find, slice_get};
ghost use Rattle.std.specs.Option.{option_map, option_copied};
ghost use Rattle.schema.specs.Inherited.{own_functions, parent_of};
ghost use Rattle.schema.specs.LookUp.{function_named, is_named};
ghost use Rattle.schema.specs.PlainSchema.{PlainFunction};
ghost use Rattle.schema.specs.SchemaOf.{plain_function, schema_of};
ghost use Rattle.schema.specs.Sound.{AreDifferent, IsSound};
ghost use Rattle.processor.specs.Tables.{are_tables, is_table, table_at};

use crate::tabling::{function_at, name_at};
use schema::{FnDesc, NumberList, Schema};

/// So many functions are looked through in less time than a search takes.
const FEW: usize = 8;

/// The first function with a name.
fn first_named<'a>(functions: &'a [FnDesc], name: &[u8]) -> Option<&'a FnDesc>
    ensures { option_map plain_function (option_copied result) ≡ find (is_named name.now) (map plain_function functions.now) }
{
    for function in functions {
        if function.name.as_slice() == name {
            return Some(function);
        }
    }
    None
}

/// The function whose place stands at a place of a table.
fn function_in<'a>(functions: &'a [FnDesc], table: &[u32], at: usize) -> Option<&'a FnDesc>
    ensures { option_map plain_function (option_copied result) ≡ option_and_then (slice_get (map plain_function functions.now)) (slice_get table.now at) }
{
    match table.get(at) {
        Some(place) => function_at(functions, *place),
        None => None,
    }
}

/// The function with a name, by a table.
fn searched<'a>(functions: &'a [FnDesc], table: &[u32], name: &[u8]) -> Option<&'a FnDesc>
    requires different { AreDifferent (map (λ (f : PlainFunction). f.name) (map plain_function functions.now)) }
    requires tabled { is_table (map plain_function functions.now) table.now ≡ true }
    ensures { option_map plain_function (option_copied result) ≡ find (is_named name.now) (map plain_function functions.now) }
{
    match table.binary_search_by(|place| name_at(functions, *place).cmp(name)) {
        Ok(at) => function_in(functions, table, at),
        Err(_) => None,
    }
}

/// The own functions of the service at a number, and the number of the service that it extends.
fn own_part(schema: &Schema, which: u32) -> (&[FnDesc], Option<u32>)
    ensures functions { map plain_function result.0.now ≡ own_functions (schema_of schema.now).services which }
    ensures parent { result.1 ≡ parent_of (schema_of schema.now).services which }
{
    match schema.services.as_slice().get(which as usize) {
        Some(found) => (found.functions.as_slice(), found.parent),
        None => (&[], None),
    }
}

/// The table of the service at a number.
fn own_table(tables: &[NumberList], which: u32) -> &[u32]
    ensures { result.now ≡ table_at tables.now which }
{
    match tables.get(which as usize) {
        Some(table) => table.as_slice(),
        None => &[],
    }
}

/// The own function of a service with a name.
fn own_function<'a>(
    schema: &Schema,
    tables: &[NumberList],
    which: u32,
    functions: &'a [FnDesc],
    name: &[u8],
) -> Option<&'a FnDesc>
    requires sound { IsSound (schema_of schema.now) }
    requires tabled { are_tables (schema_of schema.now).services tables.now ≡ true }
    requires own { map plain_function functions.now ≡ own_functions (schema_of schema.now).services which }
    ensures { option_map plain_function (option_copied result) ≡ find (is_named name.now) (map plain_function functions.now) }
{
    if functions.len() <= FEW {
        return first_named(functions, name);
    }
    searched(functions, own_table(tables, which), name)
}

/// The function with a name of the service at a number, inherited ones included, which is found in a few steps for each service in its
/// line.
pub(crate) fn function_by_name<'a>(
    schema: &'a Schema,
    tables: &[NumberList],
    service: u32,
    name: &[u8],
) -> Option<&'a FnDesc>
    requires sound { IsSound (schema_of schema.now) }
    requires tabled { are_tables (schema_of schema.now).services tables.now ≡ true }
    ensures { option_map plain_function (option_copied result) ≡ function_named (schema_of schema.now) service name.now }
{
    let mut next = Some(service);
    for _steps in 0..schema.services.as_slice().len() {
        let Some(which) = next else {
            return None;
        };
        let (functions, parent) = own_part(schema, which);
        if let Some(function) = own_function(schema, tables, which, functions, name) {
            return Some(function);
        }
        next = parent;
    }
    None
}
