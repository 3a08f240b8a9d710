//! What a payload answers to a call.

ghost use Rattle.std.specs.Prelude.{◌≡◌, ◌≤◌, length, map, Some, IfOk};
ghost use Rattle.std.specs.Option.{option_map};
ghost use Rattle.schema.specs.PlainKind.{kind_of};
ghost use Rattle.schema.specs.SchemaOf.{schema_of, plain_field, plain_function};
ghost use Rattle.schema.specs.Sound.{IsSound};
ghost use Rattle.struct_skew.specs.Answering.{ProjectsOrNoMemory};
ghost use Rattle.struct_skew.specs.Projection.{meaning_within_bounds};
ghost use Rattle.thrift_value.specs.TreeOf.{tree_of, field_tree, field_trees};
ghost use Rattle.wire_model.specs.Answering.{AnswersOrNoMemory};
ghost use Rattle.wire_model.specs.Place.{struct_at};
ghost use Rattle.call_model.specs.Arguments.{wire_of};
ghost use Rattle.client_desk.specs.Hearing.{first_thrown, heard_exception, heard_nothing, heard_result, heard_thrown, heard_value, result_in, success, throws};
ghost use Rattle.client_desk.specs.HeardFaults.{HearsOrNoMemory};
ghost use Rattle.client_desk.specs.HeardOf.{plain_heard};

use crate::client::Client;
use crate::heard::Heard;
use crate::heard_fault::{HeardFault, fault_of_skew, fault_of_wire};
use crate::replies::{fields_in, first_thrown, last_bytes, last_fitting, last_number};
use envelope::{HeadFault, LentHead, Protocol, lend_reply_head};
use schema::{FieldDesc, FnDesc, Schema, TypeDesc};
use std::alloc::{AllocError, Global};
use struct_skew::{SkewFault, needed_fields, project_value};
use thrift_value::{ByteText, Raw, Value, WireFault};

/// The type of an exception.
const EXCEPTION: u8 = 3;

/// The id of the field that has the value of a result.
const SUCCESS: i16 = 0;

/// The ids of the text and of the code of an exception.
const TEXT: i16 = 1;

const CODE: i16 = 2;

/// The struct at a place of a payload, and the place behind it.
fn struct_at(
    alloc: Global,
    protocol: Protocol,
    payload: &[u8],
    at: usize,
) -> Result<(Raw, usize), WireFault>
    requires { at ≤ length payload.now }
    ensures { AnswersOrNoMemory (λ x. (tree_of x.0, x.1)) result (struct_at (wire_of protocol) payload.now at) }
{
    match protocol {
        Protocol::Binary => binary_codec::read_struct(alloc, payload, at),
        Protocol::Compact => compact_codec::read_struct(alloc, payload, at),
    }
}

/// The exception that these fields make.
fn heard_exception(alloc: Global, fields: &[(i16, Raw)]) -> Result<Heard, AllocError>
    ensures { IfOk result (λ heard. plain_heard heard ≡ heard_exception (field_trees (map field_tree fields.now))) }
{
    let code = last_number(fields, &CODE).unwrap_or(0);
    let text = last_bytes(fields, &TEXT).unwrap_or(&[]).to_vec(alloc)?;
    Ok(Heard::Exception(code, ByteText::new(text)))
}

/// What a raw value means under a type.
fn meaning(alloc: Global, schema: &Schema, kind: &TypeDesc, raw: &Raw) -> Result<Value, SkewFault>
    requires { IsSound (schema_of schema.now) }
    ensures { ProjectsOrNoMemory tree_of result (meaning_within_bounds (schema_of schema.now) (kind_of kind.now) (tree_of raw.now)) }
{
    let needed = needed_fields(alloc, schema)?;
    project_value(alloc, schema, &needed, kind, raw)
}

/// A result, as it means under its type.
fn heard_success(
    alloc: Global,
    schema: &Schema,
    kind: &TypeDesc,
    raw: &Raw,
) -> Result<Heard, HeardFault>
    requires { IsSound (schema_of schema.now) }
    ensures { HearsOrNoMemory plain_heard result (heard_value (schema_of schema.now) success (kind_of kind.now) (tree_of raw.now)) }
{
    match meaning(alloc, schema, kind, raw) {
        Ok(value) => Ok(Heard::Success(value)),
        Err(fault) => Err(fault_of_skew(fault)),
    }
}

/// A declared exception, as it means under its type.
fn heard_throws(
    alloc: Global,
    schema: &Schema,
    declared: &FieldDesc,
    raw: &Raw,
) -> Result<Heard, HeardFault>
    requires { IsSound (schema_of schema.now) }
    ensures { HearsOrNoMemory plain_heard result
        (heard_value (schema_of schema.now) (throws (plain_field declared.now).id) (plain_field declared.now).kind (tree_of raw.now)) }
{
    match meaning(alloc, schema, &declared.kind, raw) {
        Ok(value) => Ok(Heard::Throws(declared.id, value)),
        Err(fault) => Err(fault_of_skew(fault)),
    }
}

/// The field that is a result of this type, with the type.
fn result_of<'a>(kind: &'a TypeDesc, fields: &'a [(i16, Raw)]) -> Option<(&'a TypeDesc, &'a Raw)>
    ensures { option_map (λ r. (kind_of r.0.now, tree_of r.1.now)) result
        ≡ result_in (Some (kind_of kind.now)) (field_trees (map field_tree fields.now)) }
{
    match last_fitting(fields, &SUCCESS, kind) {
        Some(raw) => Some((kind, raw)),
        None => None,
    }
}

/// The field that is the result of a function, with its type; a function without a result has none.
fn result_in<'a>(function: &'a FnDesc, fields: &'a [(i16, Raw)]) -> Option<(&'a TypeDesc, &'a Raw)>
    ensures { option_map (λ r. (kind_of r.0.now, tree_of r.1.now)) result
        ≡ result_in (plain_function function.now).result (field_trees (map field_tree fields.now)) }
{
    match &function.result {
        Some(kind) => result_of(kind, fields),
        None => None,
    }
}

/// A reply in which neither a result nor an exception stands.
fn heard_nothing(function: &FnDesc) -> Heard
    ensures { plain_heard result ≡ heard_nothing (plain_function function.now).result }
{
    match &function.result {
        Some(_) => Heard::Missing,
        None => Heard::Void,
    }
}

/// The field that is an exception of a function, with its declaration.
fn thrown_in<'a>(function: &'a FnDesc, fields: &'a [(i16, Raw)]) -> Option<(&'a FieldDesc, &'a Raw)>
    ensures { option_map (λ t. (plain_field t.0.now, tree_of t.1.now)) result
        ≡ first_thrown (plain_function function.now).throws (field_trees (map field_tree fields.now)) }
{
    first_thrown(function.throws.as_slice(), fields)
}

/// A reply in which no result stands.
fn heard_thrown(
    alloc: Global,
    schema: &Schema,
    function: &FnDesc,
    fields: &[(i16, Raw)],
) -> Result<Heard, HeardFault>
    requires { IsSound (schema_of schema.now) }
    ensures { HearsOrNoMemory plain_heard result (heard_thrown (schema_of schema.now) (plain_function function.now)
        (first_thrown (plain_function function.now).throws (field_trees (map field_tree fields.now)))) }
{
    match thrown_in(function, fields) {
        Some((declared, raw)) => heard_throws(alloc, schema, declared, raw),
        None => Ok(heard_nothing(function)),
    }
}

/// A reply of a function.
fn heard_reply(
    alloc: Global,
    schema: &Schema,
    function: &FnDesc,
    fields: &[(i16, Raw)],
) -> Result<Heard, HeardFault>
    requires { IsSound (schema_of schema.now) }
    ensures { HearsOrNoMemory plain_heard result (heard_result (schema_of schema.now) (plain_function function.now) (field_trees (map field_tree fields.now))
        (result_in (plain_function function.now).result (field_trees (map field_tree fields.now)))) }
{
    match result_in(function, fields) {
        Some((kind, raw)) => heard_success(alloc, schema, kind, raw),
        None => heard_thrown(alloc, schema, function, fields),
    }
}

impl Client {
    ghost use Rattle.std.specs.Prelude.{◌≡◌, ◌≤◌, false, length, map, MatchOption};
    ghost use Rattle.schema.specs.LookUp.{function_named};
    ghost use Rattle.schema.specs.PlainSchema.{PlainFunction};
    ghost use Rattle.schema.specs.SchemaOf.{schema_of};
    ghost use Rattle.schema.specs.Sound.{IsSound};
    ghost use Rattle.thrift_value.specs.TreeOf.{field_tree, field_trees};
    ghost use Rattle.client_desk.specs.ClientOf.{plain_client};
    ghost use Rattle.client_desk.specs.Hearing.{heard, heard_behind, heard_fields, heard_struct};
    ghost use Rattle.client_desk.specs.HeardFaults.{HearsOrNoMemory};
    ghost use Rattle.client_desk.specs.HeardOf.{plain_heard};

    /// What an answer of this type tells, by the fields of its struct.
    fn hear_fields(
        &self,
        alloc: Global,
        method: &[u8],
        kind: u8,
        fields: &[(i16, Raw)],
    ) -> Result<Heard, HeardFault>
        requires { IsSound (schema_of self.now.schema) }
        ensures { HearsOrNoMemory plain_heard result (heard_fields (plain_client self.now) method.now kind (field_trees (map field_tree fields.now))) }
    {
        if kind == EXCEPTION {
            return Ok(heard_exception(alloc, fields)?);
        }
        match self.schema.function(self.service, method) {
            Some(function) => heard_reply(alloc, &self.schema, function, fields),
            None => Ok(Heard::Missing),
        }
    }

    /// What an answer with this head tells, by the struct behind it.
    fn hear_struct(
        &self,
        alloc: Global,
        method: &[u8],
        payload: &[u8],
        head: &LentHead<'_>,
    ) -> Result<Heard, HeardFault>
        requires sound { IsSound (schema_of self.now.schema) }
        requires within { head.now.behind ≤ length payload.now }
        ensures { HearsOrNoMemory plain_heard result (heard_struct (plain_client self.now) method.now head.now.kind
            (struct_at (wire_of self.now.protocol) payload.now head.now.behind)) }
    {
        match struct_at(alloc, self.protocol, payload, head.behind()) {
            Ok((raw, _behind)) => self.hear_fields(alloc, method, head.kind(), fields_in(&raw)),
            Err(fault) => Err(fault_of_wire(fault)),
        }
    }

    /// What an answer with this head tells, if it answers the call.
    fn hear_behind(
        &self,
        alloc: Global,
        method: &[u8],
        id: i32,
        payload: &[u8],
        head: &LentHead<'_>,
    ) -> Result<Heard, HeardFault>
        requires sound { IsSound (schema_of self.now.schema) }
        requires within { head.now.behind ≤ length payload.now }
        ensures { HearsOrNoMemory plain_heard result (heard_behind (plain_client self.now) method.now id payload.now head.now) }
    {
        if head.name() != method {
            return Err(HeardFault::WrongName);
        }
        if head.id() != id {
            return Err(HeardFault::WrongId(head.id()));
        }
        self.hear_struct(alloc, method, payload, head)
    }

    /// What a payload answers to the call of a method with this sequence id (Thrift RPC specification, 'Response', 'Application
    /// Exceptions'), or the fault that comes first. Of a field that stands more than once the last that fits counts.
    pub fn read_reply(
        &self,
        alloc: Global,
        method: &[u8],
        id: i32,
        payload: &[u8],
    ) -> Result<Heard, HeardFault>
        requires { MatchOption (function_named (plain_client self.now).schema (plain_client self.now).service method.now) ⊥
            (λ (f : PlainFunction). f.oneway ≡ false) }
        ensures exact { HearsOrNoMemory plain_heard result (heard (plain_client self.now) method.now id payload.now) }
    {
        match lend_reply_head(self.protocol, payload) {
            Ok(head) => self.hear_behind(alloc, method, id, payload, &head),
            Err(HeadFault::Envelope(fault)) => Err(HeardFault::Head(fault)),
            Err(HeadFault::NoMemory) => Err(HeardFault::NoMemory),
        }
    }
}
