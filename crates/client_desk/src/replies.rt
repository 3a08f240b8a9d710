//! The fields of a reply's struct that count.

ghost use Rattle.std.specs.Prelude.{◌≡◌, if◌then◌else◌, map, None};
ghost use Rattle.std.specs.Ordering.{int_eq};
ghost use Rattle.std.specs.Option.{option_map, option_copied, option_or};
ghost use Rattle.schema.specs.PlainKind.{kind_of};
ghost use Rattle.schema.specs.SchemaOf.{plain_field};
ghost use Rattle.thrift_value.specs.TreeOf.{tree_of, field_tree, field_trees};
ghost use Rattle.call_rules.specs.Arguments.{fields_in};
ghost use Rattle.client_desk.specs.Hearing.{as_bytes, as_fitting, as_i32, first_thrown, last_as, under_id};

use schema::{FieldDesc, TypeDesc};
use struct_skew::fits_kind;
use thrift_value::{Raw, Value};

/// The fields of a struct.
#[tactic(auto, using(thrift_value::proofs::Trees::tree_equations))]
pub(crate) fn fields_in(raw: &Raw) -> &[(i16, Raw)]
    ensures { field_trees (map field_tree result.now) ≡ fields_in (tree_of raw.now) }
{
    match raw {
        Value::Struct(fields) => fields.as_slice(),
        _ => &[],
    }
}

/// A field, where it has this id and fits a type, else what stood before it.
fn fitting_or<'a>(
    id: &i16,
    kind: &TypeDesc,
    other: &i16,
    raw: &'a Raw,
    before: Option<&'a Raw>,
) -> Option<&'a Raw>
    ensures { option_map tree_of (option_copied result)
        ≡ option_or (under_id (as_fitting (kind_of kind.now)) id.now other.now (tree_of raw.now)) (option_map tree_of (option_copied before.entry)) }
{
    if other == id {
        if fits_kind(raw, kind) {
            return Some(raw);
        }
    }
    before
}

/// The last field of an id that fits a type.
pub(crate) fn last_fitting<'a>(
    fields: &'a [(i16, Raw)],
    id: &i16,
    kind: &TypeDesc,
) -> Option<&'a Raw>
    ensures { option_map tree_of (option_copied result) ≡ last_as (as_fitting (kind_of kind.now)) id.now (field_trees (map field_tree fields.now)) }
{
    let mut found = None;
    for (other, raw) in fields {
        found = fitting_or(id, kind, other, raw, found);
    }
    found
}

/// The number of a field, where it has this id and is an i32, else what stood before it.
#[tactic(auto, using(thrift_value::proofs::Trees::tree_equations))]
fn number_or(id: &i16, other: &i16, raw: &Raw, before: Option<i32>) -> Option<i32>
    ensures { result ≡ option_or (under_id as_i32 id.now other.now (tree_of raw.now)) before }
{
    if other == id {
        if let Value::I32(number) = raw {
            return Some(*number);
        }
    }
    before
}

/// The last field of an id that is an i32.
pub(crate) fn last_number(fields: &[(i16, Raw)], id: &i16) -> Option<i32>
    ensures { result ≡ last_as as_i32 id.now (field_trees (map field_tree fields.now)) }
{
    let mut found = None;
    for (other, raw) in fields {
        found = number_or(id, other, raw, found);
    }
    found
}

/// The bytes of a field, where it has this id and is bytes, else what stood before it.
#[tactic(auto, using(thrift_value::proofs::Trees::tree_equations))]
fn bytes_or<'a>(id: &i16, other: &i16, raw: &'a Raw, before: Option<&'a [u8]>) -> Option<&'a [u8]>
    ensures { option_map (λ bytes. bytes.now) result
        ≡ option_or (under_id as_bytes id.now other.now (tree_of raw.now)) (option_map (λ bytes. bytes.now) before.entry) }
{
    if other == id {
        if let Value::Bytes(bytes) = raw {
            return Some(bytes.as_slice());
        }
    }
    before
}

/// The last field of an id that is bytes.
pub(crate) fn last_bytes<'a>(fields: &'a [(i16, Raw)], id: &i16) -> Option<&'a [u8]>
    ensures { option_map (λ bytes. bytes.now) result ≡ last_as as_bytes id.now (field_trees (map field_tree fields.now)) }
{
    let mut found = None;
    for (other, raw) in fields {
        found = bytes_or(id, other, raw, found);
    }
    found
}

/// The first declared exception that a field fits, with the last such field.
pub(crate) fn first_thrown<'a>(
    throws: &'a [FieldDesc],
    fields: &'a [(i16, Raw)],
) -> Option<(&'a FieldDesc, &'a Raw)>
    ensures { option_map (λ t. (plain_field t.0.now, tree_of t.1.now)) result
        ≡ first_thrown (map plain_field throws.now) (field_trees (map field_tree fields.now)) }
{
    for declared in throws {
        if let Some(raw) = last_fitting(fields, &declared.id, &declared.kind) {
            return Some((declared, raw));
        }
    }
    None
}
