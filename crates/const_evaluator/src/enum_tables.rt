//! The values of enums by name.

ghost use Rattle.std.specs.Prelude.{◌≡◌, ℕ, List, IfOk, OnOk};
ghost use Rattle.std.specs.List.{position_from};
ghost use Rattle.std.specs.Str.{bytes_eq};
ghost use Rattle.idl_names.specs.NameMaps.{number_of_name, HasOneMore};
ghost use Rattle.idl_parser.specs.declared.tree.EnumValue.{EnumValue};
ghost use Rattle.const_evaluator.specs.EnumTables.{number_in_table, number_in_tables, IsTableOf, AreTablesOf};

use idl_names::{InFile, NameMap, enum_numbers, note, number_of_name};
use idl_parser::{Enum, EnumValue};
use indexmap::IndexMap;
use std::alloc::{AllocError, Global};

/// The values of an enum by name.
#[derive(Drop)]
pub(crate) struct EnumTable<'a> {
    /// The place of the first value of each name.
    pub(crate) places: NameMap<'a>,
    /// The numbers of the values, in order.
    pub(crate) numbers: Vec<i64>,
}

/// The place of the first value of each name.
fn first_places<'a>(alloc: Global, values: &'a [EnumValue]) -> Result<NameMap<'a>, AllocError>
    ensures { IfOk result (λ places. (name : List ℕ) → number_of_name places name ≡ position_from (λ (v : EnumValue). bytes_eq v.name.text name) 0 values.now) }
{
    let mut places = IndexMap::new(alloc);
    for (place, value) in values.iter().enumerate() {
        put_value(&mut places, place, value)?;
    }
    Ok(places)
}

/// Adds the place of a value by its name, unless the name is there.
fn put_value<'a>(
    places: &mut NameMap<'a>,
    place: usize,
    value: &'a EnumValue,
) -> Result<(), AllocError>
    ensures { OnOk result (HasOneMore value.now.name.text place places.old places.new) }
{
    let Ok(place) = u32::try_from(place) else {
        return Err(AllocError);
    };
    note(places, value.name.text.as_slice(), place)
}

/// The values of an enum by name.
fn enum_table<'a>(alloc: Global, values: &'a [EnumValue]) -> Result<EnumTable<'a>, AllocError>
    ensures { IfOk result (IsTableOf values.now) }
{
    let numbers = enum_numbers(alloc, values)?;
    match first_places(alloc, values) {
        Ok(places) => Ok(EnumTable { places, numbers }),
        Err(fault) => Err(fault),
    }
}

/// The values of each enum by name.
pub(crate) fn enum_tables<'a>(
    alloc: Global,
    enums: &[InFile<'a, Enum>],
) -> Result<Vec<EnumTable<'a>>, AllocError>
    ensures { IfOk result (λ tables. AreTablesOf enums.now tables.items) }
{
    let mut tables = Vec::new(alloc);
    for item in enums {
        let table = enum_table(alloc, item.item.values.as_slice())?;
        tables.push(table)?;
    }
    Ok(tables)
}

/// The number of the first value of a name.
fn number_in_table(table: &EnumTable<'_>, name: &[u8]) -> Option<i64>
    ensures { result ≡ number_in_table table.now name.now }
{
    match number_of_name(&table.places, name) {
        Some(place) => table.numbers.get(place as usize).copied(),
        None => None,
    }
}

/// The number of the first value of a name, in the enum of some number.
pub(crate) fn number_in_tables(tables: &[EnumTable<'_>], which: u32, name: &[u8]) -> Option<i64>
    ensures { result ≡ number_in_tables tables.now which name.now }
{
    match tables.get(which as usize) {
        Some(table) => number_in_table(table, name),
        None => None,
    }
}
