//! Why there is no call or no result, as callers read it.

ghost use Rattle.std.specs.Prelude.{◌≡◌, ◌++◌, [], OnOk, IfOk, unwrap_or};
ghost use Rattle.std.specs.List.{slice_get};
ghost use Rattle.std.specs.Option.{option_map, option_copied};
ghost use Rattle.schema.specs.SchemaOf.{schema_of, plain_struct};
ghost use Rattle.schema.specs.Sound.{IsSound};
ghost use Rattle.call_model.specs.Names.{service_part};
ghost use Rattle.call_model.specs.Failures.{bad_arguments, field_name, no_method, no_result, no_service, skew_fault_text, struct_name_at, too_large, wire_fault_text};
ghost use Rattle.processor.specs.Seen.{argument_fault_text, failure_of};

use crate::arguments::ArgumentFault;
use crate::names::name_parts;
use schema::{Schema, StructDesc};
use std::alloc::{AllocError, Global};
use struct_skew::SkewFault;
use text_out::decimal;
use thrift_value::WireFault;

/// The method is unknown, or its service is (TApplicationException).
const UNKNOWN_METHOD: i32 = 1;

/// There is no result (TApplicationException).
const INTERNAL_ERROR: i32 = 6;

/// The content of a message is at fault (TApplicationException).
const PROTOCOL_ERROR: i32 = 7;

/// The most bytes that a text has beside a name: those of 'Internal error processing '.
const WORDS_ROOM: usize = 26;

/// What a caller reads where there is no call, or no result.
#[derive(Drop)]
pub(crate) struct FailureText {
    pub(crate) text: Vec<u8>,
    pub(crate) code: i32,
}

/// An empty text, with room for a name and the words beside it.
fn beside_name(alloc: Global, name: &[u8]) -> Result<Vec<u8>, AllocError>
    ensures { IfOk result (λ text. text.items ≡ []) }
{
    Vec::with_capacity(alloc, WORDS_ROOM + name.len())
}

/// No service is bound under the name's front, or under the whole name where it has no front.
pub(crate) fn no_service(alloc: Global, name: &[u8]) -> Result<FailureText, AllocError>
    ensures { IfOk result (λ failure. failure_of failure ≡ no_service name.now) }
{
    let mut text = beside_name(alloc, name)?;
    text.extend_from_slice(b"Service name not found: ")?;
    text.extend_from_slice(service_or_whole(name))?;
    Ok(FailureText {
        text,
        code: UNKNOWN_METHOD,
    })
}

/// The part of a name that names a service, or the whole name.
fn service_or_whole(name: &[u8]) -> &[u8]
    ensures { result.now ≡ unwrap_or (service_part name.now) name.now }
{
    match name_parts(name).service {
        Some(service) => service,
        None => name,
    }
}

/// The service has no function of this name.
pub(crate) fn no_method(alloc: Global, method: &[u8]) -> Result<FailureText, AllocError>
    ensures { IfOk result (λ failure. failure_of failure ≡ no_method method.now) }
{
    let mut text = beside_name(alloc, method)?;
    text.extend_from_slice(b"Invalid method name: '")?;
    text.extend_from_slice(method)?;
    text.extend_from_slice(b"'")?;
    Ok(FailureText {
        text,
        code: UNKNOWN_METHOD,
    })
}

/// Appends the fault of a struct that can't be read.
fn put_wire_fault(fault: WireFault, into: &mut Vec<u8>) -> Result<(), AllocError>
    ensures { OnOk result (into.new.items ≡ into.old.items ++ wire_fault_text fault) }
{
    match fault {
        WireFault::Short => into.extend_from_slice(b"Short"),
        WireFault::BadType(code) => {
            into.extend_from_slice(b"BadType ")?;
            decimal(into, i128::from(code))
        }
        WireFault::BadSize => into.extend_from_slice(b"BadSize"),
        WireFault::LongVarint => into.extend_from_slice(b"LongVarint"),
        WireFault::FieldRange => into.extend_from_slice(b"FieldRange"),
        WireFault::TooDeep => into.extend_from_slice(b"TooDeep"),
        WireFault::TooMany => into.extend_from_slice(b"TooMany"),
        WireFault::NoMemory => Ok(()),
    }
}

/// The name of the field with an id of the struct at a number.
fn field_name(schema: &Schema, which: u32, id: i16) -> &[u8]
    requires { IsSound (schema_of schema.now) }
    ensures { result.now ≡ field_name (schema_of schema.now) which id }
{
    match schema.field(which, id) {
        Some(field) => field.name.as_slice(),
        None => &[],
    }
}

/// The declared struct at a number.
fn declared_struct(schema: &Schema, which: u32) -> Option<&StructDesc>
    ensures { option_map plain_struct (option_copied result) ≡ slice_get (schema_of schema.now).structs which }
{
    schema.structs.as_slice().get(which as usize)
}

/// The name of the struct at a number.
fn struct_name(schema: &Schema, which: u32) -> &[u8]
    ensures { result.now ≡ struct_name_at (schema_of schema.now) which }
{
    match declared_struct(schema, which) {
        Some(desc) => desc.name.as_slice(),
        None => &[],
    }
}

/// Appends that a field is missing.
fn put_missing(schema: &Schema, which: u32, id: i16, into: &mut Vec<u8>) -> Result<(), AllocError>
    requires { IsSound (schema_of schema.now) }
    ensures { OnOk result (into.new.items ≡ into.old.items ++ skew_fault_text (schema_of schema.now) (SkewFault.Missing which id)) }
{
    put_named(b"Missing ", field_name(schema, which, id), into)
}

/// Appends a word and a name.
fn put_named(word: &[u8], name: &[u8], into: &mut Vec<u8>) -> Result<(), AllocError>
    ensures { OnOk result (into.new.items ≡ into.old.items ++ (word.now ++ name.now)) }
{
    into.extend_from_slice(word)?;
    into.extend_from_slice(name)
}

/// Appends that a union hasn't one field.
fn put_union_fields(schema: &Schema, which: u32, into: &mut Vec<u8>) -> Result<(), AllocError>
    ensures { OnOk result (into.new.items ≡ into.old.items ++ skew_fault_text (schema_of schema.now) (SkewFault.UnionFields which)) }
{
    put_named(b"UnionFields ", struct_name(schema, which), into)
}

/// Appends the fault of a struct that isn't what is declared.
fn put_skew_fault(schema: &Schema, fault: SkewFault, into: &mut Vec<u8>) -> Result<(), AllocError>
    requires { IsSound (schema_of schema.now) }
    ensures { OnOk result (into.new.items ≡ into.old.items ++ skew_fault_text (schema_of schema.now) fault) }
{
    match fault {
        SkewFault::Missing(which, id) => put_missing(schema, which, id, into),
        SkewFault::UnionFields(which) => put_union_fields(schema, which, into),
        SkewFault::TooDeep => into.extend_from_slice(b"TooDeep"),
        SkewFault::TooMany => into.extend_from_slice(b"TooMany"),
        SkewFault::NoMemory => Ok(()),
    }
}

/// Appends the fault of arguments.
fn put_argument_fault(
    schema: &Schema,
    fault: ArgumentFault,
    into: &mut Vec<u8>,
) -> Result<(), AllocError>
    requires { IsSound (schema_of schema.now) }
    ensures { OnOk result (into.new.items ≡ into.old.items ++ argument_fault_text (schema_of schema.now) fault) }
{
    match fault {
        ArgumentFault::Wire(fault) => put_wire_fault(fault, into),
        ArgumentFault::Skew(fault) => put_skew_fault(schema, fault, into),
    }
}

/// The arguments are at fault.
pub(crate) fn bad_arguments(
    alloc: Global,
    schema: &Schema,
    fault: ArgumentFault,
) -> Result<FailureText, AllocError>
    requires { IsSound (schema_of schema.now) }
    ensures { IfOk result (λ failure. failure_of failure ≡ bad_arguments (argument_fault_text (schema_of schema.now) fault)) }
{
    let mut text = Vec::new(alloc);
    text.extend_from_slice(b"Bad arguments: ")?;
    put_argument_fault(schema, fault, &mut text)?;
    Ok(FailureText {
        text,
        code: PROTOCOL_ERROR,
    })
}

/// The call has no result that may go back.
pub(crate) fn no_result(alloc: Global, method: &[u8]) -> Result<FailureText, AllocError>
    ensures { IfOk result (λ failure. failure_of failure ≡ no_result method.now) }
{
    let mut text = beside_name(alloc, method)?;
    text.extend_from_slice(b"Internal error processing ")?;
    text.extend_from_slice(method)?;
    Ok(FailureText {
        text,
        code: INTERNAL_ERROR,
    })
}

/// The result is longer than a payload may be.
pub(crate) fn too_large(alloc: Global) -> Result<FailureText, AllocError>
    ensures { IfOk result (λ failure. failure_of failure ≡ too_large) }
{
    let mut text = Vec::new(alloc);
    text.extend_from_slice(b"Reply is too large")?;
    Ok(FailureText {
        text,
        code: INTERNAL_ERROR,
    })
}
