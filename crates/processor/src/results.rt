//! The struct of a result, from an answer that is lent.

ghost use Rattle.std.specs.Prelude.{◌≡◌, ◌++◌, ◌<◌, ◌^◌, map, pos, IfSome, OnOk};
ghost use Rattle.std.specs.Ordering.{int_eq};
ghost use Rattle.std.specs.Option.{option_map, option_copied};
ghost use Rattle.struct_skew.specs.Needs.{needs_of};
ghost use Rattle.thrift_value.specs.Sizes.{HasSmallSizes};
ghost use Rattle.thrift_value.specs.Tree.{of_struct};
ghost use Rattle.thrift_value.specs.TreeOf.{tree_of};
ghost use Rattle.call_rules.specs.Answers.{plain_answer};
ghost use Rattle.schema.specs.PlainKind.{kind_of};
ghost use Rattle.schema.specs.SchemaOf.{schema_of, plain_field, plain_function};
ghost use Rattle.schema.specs.Sound.{IsSound};
ghost use Rattle.schema.specs.WrittenAs.{field_with_id};
ghost use Rattle.wire_model.specs.Encoder.{behind_heading, heading, text};
ghost use Rattle.call_model.specs.Replies.{alone_under, encoder_of, may_go_back, result_fields, success_fields, throws_fields};
ghost use Rattle.processor.specs.Results.{HasSmallField, lent_fields};
ghost use Rattle.wire_walk.specs.Steps.{field_header_of};

use binary_codec::Binary;
use call_rules::Answer;
use compact_codec::Compact;
use envelope::Protocol;
use schema::{FieldDesc, FnDesc, Schema, TypeDesc};
use std::alloc::AllocError;
use struct_skew::{NeededFields, may_go_out};
use thrift_value::{Tag, Value};
use wire_walk::{Codec, Header, put};

/// The most levels of a value that goes back: the struct around it has one more.
const DEEPEST_RESULT: u32 = 63;

/// The id of the field that has the value of a result.
const SUCCESS: i16 = 0;

/// What the struct of a result has in it.
#[derive(Clone, Copy)]
pub(crate) enum ResultField<'a> {
    /// Nothing.
    Nothing,
    /// A value under an id.
    One(i16, &'a Value),
}

/// So many elements of a result get room before they are written.
const MOST_ELEMENTS: usize = 4096;

/// Room for an element: a number, or a short text or struct.
const ELEMENT_ROOM: usize = 16;

/// Room for the elements of a list or a set.
fn room_for(elements: usize) -> usize
    ensures { result < 2 ^ 63 }
{
    elements.min(MOST_ELEMENTS) * ELEMENT_ROOM
}

/// How many bytes a result has about: as many as a bytes value has, and some for each element of a list or a set.
pub(crate) fn room_in(field: ResultField<'_>) -> usize
    ensures { result < 2 ^ 63 }
{
    match field {
        ResultField::One(_, Value::Bytes(bytes)) => bytes.as_slice().len(),
        ResultField::One(_, Value::List(_, items)) => room_for(items.as_slice().len()),
        ResultField::One(_, Value::Set(_, items)) => room_for(items.as_slice().len()),
        ResultField::One(_, _) => 0,
        ResultField::Nothing => 0,
    }
}

/// Whether a value may go back under a type.
#[inline(always)]
#[tactic(auto, unfolding(call_model::specs::Replies::may_go_back))]
fn may_go_back(schema: &Schema, needed: &NeededFields, kind: &TypeDesc, value: &Value) -> bool
    requires sound { IsSound (schema_of schema.now) }
    requires needed { needed.now ≡ map needs_of (schema_of schema.now).structs }
    ensures { result ≡ may_go_back (schema_of schema.now).structs (kind_of kind.now) (tree_of value.now) }
{
    may_go_out(schema, needed, kind, value, DEEPEST_RESULT)
}

/// A value alone in its struct, where it may go back.
fn alone_under<'a>(
    schema: &Schema,
    needed: &NeededFields,
    id: i16,
    kind: &TypeDesc,
    value: &'a Value,
) -> Option<ResultField<'a>>
    requires sound { IsSound (schema_of schema.now) }
    requires needed { needed.now ≡ map needs_of (schema_of schema.now).structs }
    ensures made { option_map lent_fields result ≡ alone_under (schema_of schema.now).structs id (kind_of kind.now) (tree_of value.now) }
    ensures sizes { IfSome result HasSmallField }
{
    if may_go_back(schema, needed, kind, value) {
        Some(ResultField::One(id, value))
    } else {
        None
    }
}

/// The struct that a value makes; a function without a result has no place for one.
fn success_field<'a>(
    schema: &Schema,
    needed: &NeededFields,
    function: &FnDesc,
    value: &'a Value,
) -> Option<ResultField<'a>>
    requires sound { IsSound (schema_of schema.now) }
    requires needed { needed.now ≡ map needs_of (schema_of schema.now).structs }
    ensures made { option_map lent_fields result ≡ success_fields (schema_of schema.now).structs (plain_function function.now).result (tree_of value.now) }
    ensures sizes { IfSome result HasSmallField }
{
    match &function.result {
        Some(kind) => alone_under(schema, needed, SUCCESS, kind, value),
        None => None,
    }
}

/// Whether a declared field has an id.
fn has_id(field: &FieldDesc, id: i16) -> bool
    ensures { result ≡ int_eq (plain_field field.now).id id }
{
    field.id == id
}

/// The exception with an id among those that a function declares.
fn thrown(throws: &[FieldDesc], id: i16) -> Option<&FieldDesc>
    ensures { option_map plain_field (option_copied result) ≡ field_with_id id (map plain_field throws.now) }
{
    for field in throws {
        if has_id(field, id) {
            return Some(field);
        }
    }
    None
}

/// The struct that an exception makes, under the id of a declared one.
fn throws_field<'a>(
    schema: &Schema,
    needed: &NeededFields,
    function: &FnDesc,
    id: i16,
    exception: &'a Value,
) -> Option<ResultField<'a>>
    requires sound { IsSound (schema_of schema.now) }
    requires needed { needed.now ≡ map needs_of (schema_of schema.now).structs }
    ensures made { option_map lent_fields result ≡ throws_fields (schema_of schema.now).structs
        (field_with_id id (plain_function function.now).throws) (tree_of exception.now) }
    ensures sizes { IfSome result HasSmallField }
{
    match thrown(function.throws.as_slice(), id) {
        Some(field) => alone_under(schema, needed, field.id, &field.kind, exception),
        None => None,
    }
}

/// The struct that an answer makes; none where the function has no such answer.
pub(crate) fn result_field<'a>(
    schema: &Schema,
    needed: &NeededFields,
    function: &FnDesc,
    answer: &'a Answer,
) -> Option<ResultField<'a>>
    requires sound { IsSound (schema_of schema.now) }
    requires needed { needed.now ≡ map needs_of (schema_of schema.now).structs }
    ensures made { option_map lent_fields result ≡ result_fields (schema_of schema.now).structs (plain_function function.now) (plain_answer answer.now) }
    ensures sizes { IfSome result HasSmallField }
{
    match answer {
        Answer::Success(value) => success_field(schema, needed, function, value),
        Answer::Empty => Some(ResultField::Nothing),
        Answer::Throws(id, exception) => throws_field(schema, needed, function, *id, exception),
        Answer::Broken => None,
    }
}

/// The header of a field: a bool may have its value in it.
fn header_of<C: Codec>(id: i16, value: &Value) -> Header
    ensures { field_header_of result ≡ heading C.encoder.flags id (tree_of value.now) }
{
    match value {
        Value::Bool(flag) => {
            if C::flags() {
                Header::Flag(id, *flag)
            } else {
                Header::Field(id, Tag::Bool)
            }
        }
        _ => Header::Field(id, value.tag()),
    }
}

/// Appends what stands behind a field's header: its value, unless the header has it.
fn put_behind<C: Codec>(header: Header, value: &Value, into: &mut Vec<u8>) -> Result<(), AllocError>
    requires { HasSmallSizes (tree_of value.now) }
    ensures { OnOk result (into.new.items ≡ into.old.items ++ behind_heading (field_header_of header) (text C.encoder (tree_of value.now))) }
{
    match header {
        Header::Field(_, _) => put::<C>(value, into),
        Header::Flag(_, _) | Header::Stop => Ok(()),
    }
}

/// Appends a field's header and its value.
fn put_field<C: Codec>(id: i16, value: &Value, into: &mut Vec<u8>) -> Result<(), AllocError>
    requires { HasSmallSizes (tree_of value.now) }
    ensures { OnOk result (into.new.items ≡ into.old.items ++ (C.encoder.header (pos 0) (heading C.encoder.flags id (tree_of value.now))
        ++ behind_heading (heading C.encoder.flags id (tree_of value.now)) (text C.encoder (tree_of value.now)))) }
{
    let header = header_of::<C>(id, value);
    C::put_header(0, header, into)?;
    put_behind::<C>(header, value, into)
}

/// Appends the struct of a result.
fn put_struct<C: Codec>(field: ResultField<'_>, into: &mut Vec<u8>) -> Result<(), AllocError>
    requires { HasSmallField field }
    ensures { OnOk result (into.new.items ≡ into.old.items ++ text C.encoder (of_struct (lent_fields field.entry))) }
{
    match field {
        ResultField::Nothing => C::put_header(0, Header::Stop, into),
        ResultField::One(id, value) => {
            put_field::<C>(id, value, into)?;
            C::put_header(id, Header::Stop, into)
        }
    }
}

/// Appends the struct of a result in a protocol.
pub(crate) fn put_result(
    protocol: Protocol,
    field: ResultField<'_>,
    into: &mut Vec<u8>,
) -> Result<(), AllocError>
    requires { HasSmallField field }
    ensures { OnOk result (into.new.items ≡ into.old.items ++ text (encoder_of protocol) (of_struct (lent_fields field.entry))) }
{
    match protocol {
        Protocol::Binary => put_struct::<Binary>(field, into),
        Protocol::Compact => put_struct::<Compact>(field, into),
    }
}
