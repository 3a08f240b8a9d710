//! What is at fault with a pair of structs.
ghost use Rattle.std.specs.Prelude.{◌≡◌, List, map, pos};
ghost use Rattle.std.specs.List.{slice_get};
ghost use Rattle.std.specs.Option.{option_copied, option_map};
ghost use Rattle.schema.specs.LookUp.{fields_at, field_at};
ghost use Rattle.schema.specs.PlainKind.{kind_of};
ghost use Rattle.schema.specs.SchemaOf.{schema_of, plain_field, plain_struct};
ghost use Rattle.schema.specs.Sound.{IsSound};
ghost use Rattle.struct_skew.specs.Projection.{is_required, is_union};
ghost use Rattle.compat_model.specs.declared.break_kind.BreakKind.TheVariants as breaks;
ghost use Rattle.compat_model.specs.Faults.{fields_fault, first_at_fault, is_newly_required, holds_for_one_alone, is_union_at, is_unknown, is_unlike, kind_fault, lost_field, struct_fault};
ghost use Rattle.compat_check.specs.Plain.{plain_fault};

use crate::likeness::are_like;
use compat_model::BreakKind;
use schema::{FieldDesc, Need, Schema, StructDesc, StructKind};

/// A fault, with the id of the field where it is one of a field, and else 0.
#[derive(Drop)]
pub struct Fault {
    pub(crate) id: i16,
    pub(crate) kind: BreakKind,
}

/// The struct at a number.
pub(crate) fn struct_of(schema: &Schema, which: u32) -> Option<&StructDesc>
    ensures { option_map plain_struct (option_copied result) ≡ slice_get (schema_of schema.now).structs which }
{
    schema.structs.as_slice().get(which as usize)
}

/// The fields of the struct at a number.
pub(crate) fn fields_of(schema: &Schema, which: u32) -> &[FieldDesc]
    ensures { map plain_field result.now ≡ fields_at (schema_of schema.now) which }
{
    match struct_of(schema, which) {
        Some(found) => found.fields.as_slice(),
        None => &[],
    }
}

/// Whether the struct at a number is a union.
fn is_union_at(schema: &Schema, which: u32) -> bool
    ensures { result ≡ is_union_at (schema_of schema.now) which }
{
    match struct_of(schema, which) {
        Some(found) => is_union(found.kind),
        None => false,
    }
}

/// Whether it is a union.
fn is_union(kind: StructKind) -> bool
    ensures { result ≡ is_union kind }
{
    match kind {
        StructKind::Union => true,
        StructKind::Struct => false,
        StructKind::Exception => false,
        StructKind::Args => false,
    }
}

/// Whether a field has to be there.
fn is_required(need: Need) -> bool
    ensures { result ≡ is_required need }
{
    match need {
        Need::Required => true,
        Need::Default => false,
        Need::Optional => false,
    }
}

/// Whether one of two holds, and the other doesn't.
pub(crate) fn holds_for_one_alone(one: bool, other: bool) -> bool
    ensures { result ≡ holds_for_one_alone one other }
{
    if one { !other } else { other }
}

/// Whether no field of the reader has a field's id.
fn is_unknown(reader: &Schema, read: u32, field: &FieldDesc) -> bool
    requires { IsSound (schema_of reader.now) }
    ensures { result ≡ is_unknown (fields_at (schema_of reader.now) read) (plain_field field.now) }
{
    reader.field(read, field.id).is_none()
}

/// Whether a field of the reader has a field's id, and a type that isn't like it.
fn is_unlike(reader: &Schema, read: u32, field: &FieldDesc) -> bool
    requires { IsSound (schema_of reader.now) }
    ensures { result ≡ is_unlike (fields_at (schema_of reader.now) read) (plain_field field.now) }
{
    match reader.field(read, field.id) {
        Some(other) => !are_like(&field.kind, &other.kind),
        None => false,
    }
}

/// Whether a field has to be there for the reader, and not for the writer.
fn is_newly_required(writer: &Schema, written: u32, field: &FieldDesc) -> bool
    requires { IsSound (schema_of writer.now) }
    ensures { result ≡ is_newly_required (fields_at (schema_of writer.now) written) (plain_field field.now) }
{
    if !is_required(field.need) {
        return false;
    }
    match writer.field(written, field.id) {
        Some(before) => !is_required(before.need),
        None => true,
    }
}

/// The first field of a union that the reader doesn't know.
fn first_unknown(fields: &[FieldDesc], reader: &Schema, read: u32) -> Option<Fault>
    requires { IsSound (schema_of reader.now) }
    ensures { option_map plain_fault result ≡ first_at_fault breaks.UnionField (is_unknown (fields_at (schema_of reader.now) read)) (map plain_field fields.now) }
{
    for field in fields {
        if is_unknown(reader, read, field) {
            return Some(Fault {
                id: field.id,
                kind: BreakKind::UnionField,
            });
        }
    }
    None
}

/// The first field whose type isn't like that of the reader's field with its id.
fn first_unlike(fields: &[FieldDesc], reader: &Schema, read: u32) -> Option<Fault>
    requires { IsSound (schema_of reader.now) }
    ensures { option_map plain_fault result ≡ first_at_fault breaks.Unlike (is_unlike (fields_at (schema_of reader.now) read)) (map plain_field fields.now) }
{
    for field in fields {
        if is_unlike(reader, read, field) {
            return Some(Fault {
                id: field.id,
                kind: BreakKind::Unlike,
            });
        }
    }
    None
}

/// The first field that has to be there, and didn't have to be for the writer.
fn first_newly_required(fields: &[FieldDesc], writer: &Schema, written: u32) -> Option<Fault>
    requires { IsSound (schema_of writer.now) }
    ensures { option_map plain_fault result ≡ first_at_fault breaks.NewRequired (is_newly_required (fields_at (schema_of writer.now) written)) (map plain_field fields.now) }
{
    for field in fields {
        if is_newly_required(writer, written, field) {
            return Some(Fault {
                id: field.id,
                kind: BreakKind::NewRequired,
            });
        }
    }
    None
}

/// The first fault of the fields of a struct that is read as another.
fn fields_fault(
    union: bool,
    writer: &Schema,
    written: u32,
    reader: &Schema,
    read: u32,
) -> Option<Fault>
    requires writer { IsSound (schema_of writer.now) }
    requires reader { IsSound (schema_of reader.now) }
    ensures { option_map plain_fault result ≡ fields_fault union (fields_at (schema_of writer.now) written) (fields_at (schema_of reader.now) read) }
{
    let fields = fields_of(writer, written);
    if union {
        if let Some(fault) = first_unknown(fields, reader, read) {
            return Some(fault);
        }
    }
    if let Some(fault) = first_unlike(fields, reader, read) {
        return Some(fault);
    }
    let others = fields_of(reader, read);
    first_newly_required(others, writer, written)
}

/// The first fault of a struct of one schema that is read as one of another.
pub fn struct_fault(writer: &Schema, written: u32, reader: &Schema, read: u32) -> Option<Fault>
    requires writer { IsSound (schema_of writer.now) }
    requires reader { IsSound (schema_of reader.now) }
    ensures { option_map plain_fault result ≡ struct_fault (schema_of writer.now) written (schema_of reader.now) read }
{
    let union = is_union_at(writer, written);
    if holds_for_one_alone(union, is_union_at(reader, read)) {
        return Some(Fault {
            id: 0,
            kind: BreakKind::Kind,
        });
    }
    fields_fault(union, writer, written, reader, read)
}
