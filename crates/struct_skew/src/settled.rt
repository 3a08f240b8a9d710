//! Whether a value means itself, so that nothing is to be done for its projection.
ghost use Rattle.std.specs.Prelude.{◌≡◌, ◌&&◌, map};
ghost use Rattle.std.specs.List.{slice_get};
ghost use Rattle.thrift_value.specs.TreeOf.{tree_of, field_tree, field_trees, item_trees, pair_tree, pair_trees};
ghost use Rattle.schema.specs.LookUp.{fields_at};
ghost use Rattle.schema.specs.PlainKind.{kind_of};
ghost use Rattle.schema.specs.SchemaOf.{schema_of, plain_struct};
ghost use Rattle.schema.specs.Sound.{IsSound};
ghost use Rattle.known_parts.specs.Parts.{tag_of_kind, are_same_tags};
ghost use Rattle.struct_skew.specs.FilledTests.{are_fields_filled, are_items_filled, are_pairs_filled, has_defaulted_fields, is_filled, is_settled, is_struct_filled};
ghost use Rattle.struct_skew.specs.Needs.{needs_of, plain_needs};
ghost use Rattle.struct_skew.specs.TidyTests.{is_tidy};

use crate::needs::{NeededFields, StructNeeds};
use crate::structs::struct_at;
use crate::written::{has_fields_at, is_written_as};
use known_parts::{
    are_same_tags, declared_field, list_of_kind, map_of_kind, set_of_kind, struct_of_kind,
    tag_of_kind,
};
use schema::{Schema, StructDesc, TypeDesc};
use thrift_value::{Tag, Value};

/// Whether each field is there that may be unsent and has a default then.
pub(crate) fn has_defaulted_fields(
    desc: &StructDesc,
    needs: &StructNeeds,
    fields: &[(i16, Value)],
) -> bool
    requires { plain_needs needs.now ≡ needs_of (plain_struct desc.now) }
    ensures { result ≡ has_defaulted_fields (plain_struct desc.now) (field_trees (map field_tree fields.now)) }
{
    has_fields_at(desc.fields.as_slice(), needs.defaulted.as_slice(), fields)
}

/// Whether two tags are those of two types.
pub(crate) fn are_tags_of(k: Tag, key: &TypeDesc, v: Tag, value: &TypeDesc) -> bool
    ensures { result ≡ (are_same_tags k (tag_of_kind (kind_of key.now)) && are_same_tags v (tag_of_kind (kind_of value.now))) }
{
    are_same_tags(k, tag_of_kind(key)) && are_same_tags(v, tag_of_kind(value))
}

/// Whether nothing is left to fill in. It recurses once a level that the value and the type both have.
#[cycle(filling)]
fn is_filled(value: &Value, schema: &Schema, needed: &NeededFields, kind: &TypeDesc) -> bool
    requires sound { IsSound (schema_of schema.now) }
    requires needed { needed.now ≡ map needs_of (schema_of schema.now).structs }
    ensures { result ≡ is_filled (schema_of schema.now).structs (kind_of kind.now) (tree_of value.now) }
{
    match value {
        Value::Struct(fields) => match struct_of_kind(kind) {
            Some(which) => struct_is_filled(fields.as_slice(), schema, needed, which),
            None => true,
        },
        Value::Map(k, v, pairs) => match map_of_kind(kind) {
            Some((key, value)) => {
                if !are_tags_of(*k, key, *v, value) {
                    return false;
                }
                pairs_are_filled(pairs.as_slice(), schema, needed, key, value)
            }
            None => true,
        },
        Value::Set(t, items) => match set_of_kind(kind) {
            Some(member) => {
                if !are_same_tags(*t, tag_of_kind(member)) {
                    return false;
                }
                items_are_filled(items.as_slice(), schema, needed, member)
            }
            None => true,
        },
        Value::List(t, items) => match list_of_kind(kind) {
            Some(element) => {
                if !are_same_tags(*t, tag_of_kind(element)) {
                    return false;
                }
                items_are_filled(items.as_slice(), schema, needed, element)
            }
            None => true,
        },
        // It is a bool, a number, a uuid or bytes.
        _ => true,
    }
}

/// Whether the fields with a default are there, and nothing is left to fill in in any field.
#[cycle(filling)]
fn struct_is_filled(
    fields: &[(i16, Value)],
    schema: &Schema,
    needed: &NeededFields,
    which: u32,
) -> bool
    requires sound { IsSound (schema_of schema.now) }
    requires needed { needed.now ≡ map needs_of (schema_of schema.now).structs }
    ensures { result ≡ is_struct_filled (schema_of schema.now).structs (slice_get (schema_of schema.now).structs which) (field_trees (map field_tree fields.now)) }
{
    let Some((desc, needs)) = struct_at(schema, needed, which) else {
        return false;
    };
    if !has_defaulted_fields(desc, needs, fields) {
        return false;
    }
    fields_are_filled(fields, schema, needed, which)
}

/// Whether each field is declared, and nothing is left to fill in in it.
#[cycle(filling)]
fn fields_are_filled(
    fields: &[(i16, Value)],
    schema: &Schema,
    needed: &NeededFields,
    which: u32,
) -> bool
    requires sound { IsSound (schema_of schema.now) }
    requires needed { needed.now ≡ map needs_of (schema_of schema.now).structs }
    ensures { result ≡ are_fields_filled (schema_of schema.now).structs (fields_at (schema_of schema.now) which) (field_trees (map field_tree fields.now)) }
{
    for (id, value) in fields {
        let Some(field) = declared_field(schema, which, id) else {
            return false;
        };
        if !is_filled(value, schema, needed, &field.kind) {
            return false;
        }
    }
    true
}

/// Whether nothing is left to fill in in any element.
#[cycle(filling)]
fn items_are_filled(
    items: &[Value],
    schema: &Schema,
    needed: &NeededFields,
    kind: &TypeDesc,
) -> bool
    requires sound { IsSound (schema_of schema.now) }
    requires needed { needed.now ≡ map needs_of (schema_of schema.now).structs }
    ensures { result ≡ are_items_filled (schema_of schema.now).structs (kind_of kind.now) (item_trees (map tree_of items.now)) }
{
    for value in items {
        if !is_filled(value, schema, needed, kind) {
            return false;
        }
    }
    true
}

/// Whether nothing is left to fill in in any key or value.
#[cycle(filling)]
fn pairs_are_filled(
    pairs: &[(Value, Value)],
    schema: &Schema,
    needed: &NeededFields,
    key_kind: &TypeDesc,
    value_kind: &TypeDesc,
) -> bool
    requires sound { IsSound (schema_of schema.now) }
    requires needed { needed.now ≡ map needs_of (schema_of schema.now).structs }
    ensures { result ≡ are_pairs_filled (schema_of schema.now).structs (kind_of key_kind.now) (kind_of value_kind.now) (pair_trees (map pair_tree pairs.now)) }
{
    for (key, value) in pairs {
        if !is_filled(key, schema, needed, key_kind) {
            return false;
        }
        if !is_filled(value, schema, needed, value_kind) {
            return false;
        }
    }
    true
}

/// Whether a value is tidy.
fn is_tidy(value: &Value) -> bool
    ensures { result ≡ is_tidy (tree_of value.now) }
{
    value.is_tidy()
}

/// Whether a value means itself under a type: it is tidy and of that type, and nothing is left to fill in. It takes no memory, and
/// time for the value, however many fields are declared.
pub fn is_settled(value: &Value, schema: &Schema, needed: &NeededFields, kind: &TypeDesc) -> bool
    requires sound { IsSound (schema_of schema.now) }
    requires needed { needed.now ≡ map needs_of (schema_of schema.now).structs }
    ensures { result ≡ is_settled (schema_of schema.now).structs (kind_of kind.now) (tree_of value.now) }
{
    if !is_tidy(value) {
        return false;
    }
    if !is_written_as(value, schema, Some(needed), kind) {
        return false;
    }
    is_filled(value, schema, needed, kind)
}
