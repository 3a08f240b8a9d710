//! Whether a service is the calculator that a workload calls.

ghost use Rattle.std.specs.Prelude.{◌≡◌, map};
ghost use Rattle.std.specs.List.{slice_get};
ghost use Rattle.std.specs.Option.{option_copied};
ghost use Rattle.schema.specs.PlainKind.{kind_of};
ghost use Rattle.schema.specs.SchemaOf.{schema_of, plain_field, plain_function};
ghost use Rattle.schema.specs.Sound.{IsSound};
ghost use Rattle.known_parts.specs.Parts.{struct_of_kind};
ghost use Rattle.struct_skew.specs.Projection.{is_required, is_union};
ghost use Rattle.workload.specs.CalculatorTests.{is_number, is_enum, holds_number, holds_enum, may_be_missing, are_work_fields, passes_as_struct, is_work, are_two_numbers, are_number_and_work, gives_number, is_add, is_calculate, is_calculator};

use schema::{FieldDesc, FnDesc, Need, Schema, StructDesc, StructKind, TypeDesc};

/// Whether the service at a number has the functions that a workload calls, as that of the Thrift tutorial has.
pub fn is_calculator(schema: &Schema, service: u32) -> bool
    requires { IsSound (schema_of schema.now) }
    ensures { result ≡ is_calculator (schema_of schema.now) service }
{
    let Some(add) = schema.function(service, b"add") else {
        return false;
    };
    if !is_add(schema, add) {
        return false;
    }
    match schema.function(service, b"calculate") {
        Some(calculate) => is_calculate(schema, calculate),
        None => false,
    }
}

/// Whether a function is the one that adds.
fn is_add(schema: &Schema, function: &FnDesc) -> bool
    ensures { result ≡ is_add (schema_of schema.now) (plain_function function.now) }
{
    gives_number(function) && takes_two_numbers(schema, function.args)
}

/// Whether a function is the one that takes a work.
fn is_calculate(schema: &Schema, function: &FnDesc) -> bool
    ensures { result ≡ is_calculate (schema_of schema.now) (plain_function function.now) }
{
    gives_number(function) && takes_work(schema, function.args)
}

/// Whether a function is answered with an i32.
fn gives_number(function: &FnDesc) -> bool
    ensures { result ≡ gives_number (plain_function function.now) }
{
    if function.oneway {
        return false;
    }
    match &function.result {
        Some(kind) => is_number(kind),
        None => false,
    }
}

/// The struct at a number.
fn struct_at(structs: &[StructDesc], which: u32) -> Option<&StructDesc>
    ensures { option_copied result ≡ slice_get structs.now which }
{
    structs.get(which as usize)
}

/// Whether the struct at a number has the arguments of the function that adds.
fn takes_two_numbers(schema: &Schema, which: u32) -> bool
    ensures { result ≡ passes_as_struct (schema_of schema.now).structs are_two_numbers which }
{
    match struct_at(schema.structs.as_slice(), which) {
        Some(found) => !is_union(found.kind) && are_two_numbers(found.fields.as_slice()),
        None => false,
    }
}

/// Whether it has the arguments of the one that takes a work.
fn takes_work(schema: &Schema, which: u32) -> bool
    ensures { result ≡ passes_as_struct (schema_of schema.now).structs (are_number_and_work (schema_of schema.now).structs) which }
{
    match struct_at(schema.structs.as_slice(), which) {
        Some(found) => {
            !is_union(found.kind) && are_number_and_work(schema, found.fields.as_slice())
        }
        None => false,
    }
}

/// Whether it has the fields of a work.
fn has_work_fields(schema: &Schema, which: u32) -> bool
    ensures { result ≡ passes_as_struct (schema_of schema.now).structs are_work_fields which }
{
    match struct_at(schema.structs.as_slice(), which) {
        Some(found) => !is_union(found.kind) && are_work_fields(found.fields.as_slice()),
        None => false,
    }
}

/// Whether fields are two numbers.
fn are_two_numbers(fields: &[FieldDesc]) -> bool
    ensures { result ≡ are_two_numbers (map plain_field fields.now) }
{
    match fields {
        [a, b] => holds_number(a, 1) && holds_number(b, 2),
        _ => false,
    }
}

/// Whether fields are a number and a work.
fn are_number_and_work(schema: &Schema, fields: &[FieldDesc]) -> bool
    ensures { result ≡ are_number_and_work (schema_of schema.now).structs (map plain_field fields.now) }
{
    match fields {
        [logid, work] => holds_number(logid, 1) && work.id == 2 && is_work(schema, &work.kind),
        _ => false,
    }
}

/// Whether fields are those of a work.
fn are_work_fields(fields: &[FieldDesc]) -> bool
    ensures { result ≡ are_work_fields (map plain_field fields.now) }
{
    match fields {
        [a, b, op, comment] => {
            holds_number(a, 1)
                && holds_number(b, 2)
                && holds_enum(op, 3)
                && may_be_missing(comment, 4)
        }
        _ => false,
    }
}

/// Whether a field of this id holds an i32.
fn holds_number(field: &FieldDesc, id: i16) -> bool
    ensures { result ≡ holds_number id (plain_field field.now) }
{
    field.id == id && is_number(&field.kind)
}

/// Whether a field of this id holds an enum.
fn holds_enum(field: &FieldDesc, id: i16) -> bool
    ensures { result ≡ holds_enum id (plain_field field.now) }
{
    field.id == id && is_enum(&field.kind)
}

/// Whether a field of this id may be missing, and then has no value.
fn may_be_missing(field: &FieldDesc, id: i16) -> bool
    ensures { result ≡ may_be_missing id (plain_field field.now) }
{
    field.id == id && !is_required(field.need) && field.default.is_none()
}

/// Whether a type is the struct of a work.
fn is_work(schema: &Schema, kind: &TypeDesc) -> bool
    ensures { result ≡ is_work (schema_of schema.now).structs (kind_of kind.now) }
{
    match struct_of_kind(kind) {
        Some(which) => has_work_fields(schema, which),
        None => false,
    }
}

/// The number of a struct's type.
fn struct_of_kind(kind: &TypeDesc) -> Option<u32>
    ensures { result ≡ struct_of_kind (kind_of kind.now) }
{
    match kind {
        TypeDesc::Struct(which) => Some(*which),
        TypeDesc::Bool
        | TypeDesc::I8
        | TypeDesc::I16
        | TypeDesc::I32
        | TypeDesc::I64
        | TypeDesc::Double
        | TypeDesc::Text
        | TypeDesc::Binary
        | TypeDesc::Uuid
        | TypeDesc::Enum(_)
        | TypeDesc::Map(_, _)
        | TypeDesc::Set(_)
        | TypeDesc::List(_) => None,
    }
}

/// Whether a type is i32.
fn is_number(kind: &TypeDesc) -> bool
    ensures { result ≡ is_number (kind_of kind.now) }
{
    match kind {
        TypeDesc::I32 => true,
        TypeDesc::Bool
        | TypeDesc::I8
        | TypeDesc::I16
        | TypeDesc::I64
        | TypeDesc::Double
        | TypeDesc::Text
        | TypeDesc::Binary
        | TypeDesc::Uuid
        | TypeDesc::Enum(_)
        | TypeDesc::Struct(_)
        | TypeDesc::Map(_, _)
        | TypeDesc::Set(_)
        | TypeDesc::List(_) => false,
    }
}

/// Whether a type is an enum.
fn is_enum(kind: &TypeDesc) -> bool
    ensures { result ≡ is_enum (kind_of kind.now) }
{
    match kind {
        TypeDesc::Enum(_) => true,
        TypeDesc::Bool
        | TypeDesc::I8
        | TypeDesc::I16
        | TypeDesc::I32
        | TypeDesc::I64
        | TypeDesc::Double
        | TypeDesc::Text
        | TypeDesc::Binary
        | TypeDesc::Uuid
        | TypeDesc::Struct(_)
        | TypeDesc::Map(_, _)
        | TypeDesc::Set(_)
        | TypeDesc::List(_) => false,
    }
}

/// Whether a field has to be there.
fn is_required(need: Need) -> bool
    ensures { result ≡ is_required need }
{
    match need {
        Need::Required => true,
        Need::Default => false,
        Need::Optional => false,
    }
}

/// Whether exactly one of the fields has to be there.
fn is_union(kind: StructKind) -> bool
    ensures { result ≡ is_union kind }
{
    match kind {
        StructKind::Union => true,
        StructKind::Struct => false,
        StructKind::Exception => false,
        StructKind::Args => false,
    }
}
