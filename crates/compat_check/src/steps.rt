//! How much may be compared.

use crate::change::Change;
use crate::faults::fields_of;
use crate::pair::Pair;
use schema::{FieldDesc, FnDesc, Schema, StructDesc, TypeDesc};
use std::alloc::AllocError;

/// The most steps that a comparison takes: parts of types that are looked at, fields, and services that are inherited from.
pub(crate) const MAX_STEPS: u32 = 64_000_000;

/// Takes some of the steps that are left.
pub(crate) fn spend(left: &mut u32, steps: usize) -> Result<(), AllocError> {
    let Ok(steps) = u32::try_from(steps) else {
        return Err(AllocError);
    };
    let Some(rest) = left.checked_sub(steps) else {
        return Err(AllocError);
    };
    *left = rest;
    Ok(())
}

/// Takes a step for each part of a type.
fn spend_on_parts(left: &mut u32, kind: &TypeDesc) -> Result<(), AllocError> {
    spend(left, 1)?;
    match kind {
        TypeDesc::Map(key, value) => {
            spend_on_parts(left, key)?;
            spend_on_parts(left, value)
        }
        TypeDesc::Set(inner) | TypeDesc::List(inner) => spend_on_parts(left, inner),
        TypeDesc::Bool
        | TypeDesc::I8
        | TypeDesc::I16
        | TypeDesc::I32
        | TypeDesc::I64
        | TypeDesc::Double
        | TypeDesc::Text
        | TypeDesc::Binary
        | TypeDesc::Uuid
        | TypeDesc::Enum(_)
        | TypeDesc::Struct(_) => Ok(()),
    }
}

/// Takes the steps in which a type is compared: one for each part, and before each key or member one for each of its parts.
fn spend_on_type(left: &mut u32, kind: &TypeDesc) -> Result<(), AllocError> {
    spend(left, 1)?;
    match kind {
        TypeDesc::Map(key, value) => {
            spend_on_parts(left, key)?;
            spend_on_type(left, key)?;
            spend_on_type(left, value)
        }
        TypeDesc::Set(member) => {
            spend_on_parts(left, member)?;
            spend_on_type(left, member)
        }
        TypeDesc::List(element) => spend_on_type(left, element),
        TypeDesc::Bool
        | TypeDesc::I8
        | TypeDesc::I16
        | TypeDesc::I32
        | TypeDesc::I64
        | TypeDesc::Double
        | TypeDesc::Text
        | TypeDesc::Binary
        | TypeDesc::Uuid
        | TypeDesc::Enum(_)
        | TypeDesc::Struct(_) => Ok(()),
    }
}

/// Takes the steps for the types of some fields.
fn spend_on_fields(left: &mut u32, fields: &[FieldDesc]) -> Result<(), AllocError> {
    for field in fields {
        spend_on_type(left, &field.kind)?;
    }
    Ok(())
}

/// Takes the steps for the fields of some structs.
pub(crate) fn spend_on_structs(left: &mut u32, structs: &[StructDesc]) -> Result<(), AllocError> {
    for found in structs {
        spend_on_fields(left, found.fields.as_slice())?;
    }
    Ok(())
}

/// Takes the steps for the types of a function.
fn spend_on_function(left: &mut u32, schema: &Schema, function: &FnDesc) -> Result<(), AllocError> {
    spend_on_fields(left, fields_of(schema, function.args))?;
    spend_on_fields(left, function.throws.as_slice())?;
    match &function.result {
        Some(kind) => spend_on_type(left, kind),
        None => spend(left, 1),
    }
}

/// Takes the steps for the types of some functions.
pub(crate) fn spend_on_functions(
    left: &mut u32,
    schema: &Schema,
    functions: &[&FnDesc],
) -> Result<(), AllocError> {
    for function in functions {
        spend_on_function(left, schema, function)?;
    }
    Ok(())
}

/// Takes the steps for a pair of structs, and one for the pair.
fn spend_on_pair(left: &mut u32, change: &Change<'_>, pair: &Pair) -> Result<(), AllocError> {
    let (writer, reader) = if pair.backward {
        (change.new, change.old)
    } else {
        (change.old, change.new)
    };
    spend(left, 1)?;
    spend(left, fields_of(reader, pair.to).len())?;
    spend_on_fields(left, fields_of(writer, pair.from))
}

/// Takes the steps for some pairs of structs.
pub(crate) fn spend_on_pairs(
    left: &mut u32,
    change: &Change<'_>,
    pairs: &[Pair],
) -> Result<(), AllocError> {
    for pair in pairs {
        spend_on_pair(left, change, pair)?;
    }
    Ok(())
}
