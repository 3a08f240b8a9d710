//! The enums of a schema.

ghost use Rattle.std.specs.Prelude.{◌≡◌, ◌<◌, pos, length, map, slice_index_or, IfOk, OnOk};
ghost use Rattle.idl_include.specs.DeclaredIn.{enum_value_in};
ghost use Rattle.idl_include.specs.EnumNumbers.{enum_numbers};
ghost use Rattle.idl_names.specs.FiledIn.{filed_by, filed_enums, enum_declared};
ghost use Rattle.schema.specs.SchemaOf.{plain_enum};
ghost use Rattle.check_model.specs.SchemaParts.{named_numbers, enum_made};

use idl_names::{InFile, enum_numbers};
use idl_parser::{Enum, EnumValue};
use schema::{EnumDesc, Listed};
use std::alloc::{AllocError, Global};
use thrift_value::ByteText;

/// The number of 32 bits at a place; want of memory where it has more.
fn number_at(numbers: &[i64], place: usize) -> Result<i32, AllocError>
    ensures within { OnOk result (place < length numbers.now) }
    ensures value { IfOk result (λ number. number ≡ slice_index_or numbers.now place (pos 0)) }
{
    let Some(number) = numbers.get(place) else {
        return Err(AllocError);
    };
    match i32::try_from(*number) {
        Ok(number) => Ok(number),
        Err(_) => Err(AllocError),
    }
}

/// The names of values with these numbers.
fn value_list(
    alloc: Global,
    values: &[EnumValue],
    numbers: &[i64],
) -> Result<Vec<(ByteText, i32)>, AllocError>
    ensures { IfOk result (λ list. list.items ≡ named_numbers (map enum_value_in values.now) numbers.now) }
{
    let mut list = Vec::with_capacity(alloc, values.len())?;
    for (place, value) in values.iter().enumerate() {
        let number = number_at(numbers, place)?;
        let name = value.name.text.try_clone(alloc)?;
        list.push((name, number))?;
    }
    Ok(list)
}

/// An enum; want of memory where a number has more than 32 bits.
fn enum_desc(alloc: Global, given: &InFile<'_, Enum>) -> Result<EnumDesc, AllocError>
    ensures { IfOk result (λ made. plain_enum made ≡ enum_made (filed_by enum_declared given.now)) }
{
    let name = given.item.name.text.try_clone(alloc)?;
    let values = given.item.values.as_slice();
    let numbers = enum_numbers(alloc, values)?;
    let list = value_list(alloc, values, numbers.as_slice())?;
    Ok(EnumDesc {
        file: given.file,
        name,
        values: Listed::new(list),
    })
}

/// The enums of a program by number.
pub(crate) fn all_enums(
    alloc: Global,
    given: &[InFile<'_, Enum>],
) -> Result<Vec<EnumDesc>, AllocError>
    ensures { IfOk result (λ made. map plain_enum made.items ≡ map enum_made (filed_enums given.now)) }
{
    let mut made = Vec::with_capacity(alloc, given.len())?;
    for one in given {
        let desc = enum_desc(alloc, one)?;
        made.push(desc)?;
    }
    Ok(made)
}
