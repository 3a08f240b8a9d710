//! The text of services.
ghost use Rattle.std.specs.Prelude.{◌≡◌, ◌++◌, map, OnOk};
ghost use Rattle.std.specs.List.{flat_map};
ghost use Rattle.std.specs.Option.{option_map, option_copied};
ghost use Rattle.schema.specs.LookUp.{fields_at};
ghost use Rattle.schema.specs.PlainKind.{kind_of};
ghost use Rattle.schema.specs.SchemaOf.{schema_of, plain_field, plain_function, plain_service};
ghost use Rattle.schema.specs.SchemaText.{fields_in_text, function_in_text, function_line_of, parent_part, result_name, service_in_text, throws_part};
ghost use Rattle.schema.specs.Shapes.{oneway_front};

use crate::fields_text::put_fields;
use crate::types::{FieldDesc, FnDesc, Schema, ServiceDesc, TypeDesc};
use crate::types_text::{at, put_kind, put_service_name};
use limits::MOST_TYPE_LEVELS;
use std::alloc::AllocError;

/// Appends the word in front of a function to which no reply follows.
pub(crate) fn put_oneway(into: &mut Vec<u8>, oneway: bool) -> Result<(), AllocError>
    ensures { OnOk result (into.new.items ≡ into.old.items ++ oneway_front oneway) }
{
    if oneway {
        into.extend_from_slice(b"oneway ")
    } else {
        Ok(())
    }
}

fn put_result(
    into: &mut Vec<u8>,
    schema: &Schema,
    kind: Option<&TypeDesc>,
) -> Result<(), AllocError>
    ensures { OnOk result (into.new.items ≡ into.old.items
        ++ result_name (schema_of schema.now) (option_map kind_of (option_copied kind.entry))) }
{
    match kind {
        Some(kind) => put_kind(into, schema, kind, MOST_TYPE_LEVELS),
        None => into.extend_from_slice(b"void"),
    }
}

/// Appends the arguments of a function.
fn put_arguments(into: &mut Vec<u8>, schema: &Schema, args: u32) -> Result<(), AllocError>
    ensures { OnOk result (into.new.items ≡ into.old.items
        ++ fields_in_text (schema_of schema.now) (fields_at (schema_of schema.now) args)) }
{
    match at(schema.structs.as_slice(), args) {
        Some(found) => put_fields(into, schema, found.fields.as_slice()),
        None => into.extend_from_slice(b"()"),
    }
}

fn put_throws(into: &mut Vec<u8>, schema: &Schema, throws: &[FieldDesc]) -> Result<(), AllocError>
    ensures { OnOk result (into.new.items ≡ into.old.items ++ throws_part (schema_of schema.now) (map plain_field throws.now)) }
{
    if throws.is_empty() {
        return Ok(());
    }
    into.extend_from_slice(b" throws ")?;
    put_fields(into, schema, throws)
}

/// Appends a function.
#[tactic(auto, unfolding(crate::specs::SchemaText::function_in_text))]
fn put_function(into: &mut Vec<u8>, schema: &Schema, function: &FnDesc) -> Result<(), AllocError>
    ensures { OnOk result (into.new.items ≡ into.old.items ++ function_in_text (schema_of schema.now) (plain_function function.now)) }
{
    put_oneway(into, function.oneway)?;
    put_result(into, schema, function.result.as_ref())?;
    into.extend_from_slice(b" ")?;
    into.extend_from_slice(function.name.as_slice())?;
    put_arguments(into, schema, function.args)?;
    put_throws(into, schema, function.throws.as_slice())
}

fn put_function_line(
    into: &mut Vec<u8>,
    schema: &Schema,
    function: &FnDesc,
) -> Result<(), AllocError>
    ensures { OnOk result (into.new.items ≡ into.old.items ++ function_line_of (schema_of schema.now) (plain_function function.now)) }
{
    into.extend_from_slice(b"  ")?;
    put_function(into, schema, function)?;
    into.extend_from_slice(b"\n")
}

fn put_function_lines(
    into: &mut Vec<u8>,
    schema: &Schema,
    functions: &[FnDesc],
) -> Result<(), AllocError>
    ensures { OnOk result (into.new.items ≡ into.old.items
        ++ flat_map (function_line_of (schema_of schema.now)) (map plain_function functions.now)) }
{
    for function in functions {
        put_function_line(into, schema, function)?;
    }
    Ok(())
}

fn put_parent(into: &mut Vec<u8>, schema: &Schema, parent: Option<u32>) -> Result<(), AllocError>
    ensures { OnOk result (into.new.items ≡ into.old.items ++ parent_part (schema_of schema.now) parent) }
{
    match parent {
        Some(parent) => {
            into.extend_from_slice(b" extends ")?;
            put_service_name(into, schema, parent)
        }
        None => Ok(()),
    }
}

/// Appends a service.
#[tactic(auto, unfolding(crate::specs::SchemaText::service_in_text))]
pub(crate) fn put_service(
    into: &mut Vec<u8>,
    schema: &Schema,
    service: &ServiceDesc,
) -> Result<(), AllocError>
    ensures { OnOk result (into.new.items ≡ into.old.items ++ service_in_text (schema_of schema.now) (plain_service service.now)) }
{
    into.extend_from_slice(b"service ")?;
    into.extend_from_slice(service.name.as_slice())?;
    put_parent(into, schema, service.parent)?;
    into.extend_from_slice(b"\n")?;
    put_function_lines(into, schema, service.functions.as_slice())
}
