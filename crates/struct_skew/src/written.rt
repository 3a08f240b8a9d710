//! Whether a value may be written under a type.
ghost use Rattle.std.specs.Bool.{OnTrue};
ghost use Rattle.std.specs.Prelude.{◌≡◌, ⊤, map, IsTrue, MatchOption, Some};
ghost use Rattle.std.specs.List.{slice_get};
ghost use Rattle.std.specs.Ordering.{int_eq};
ghost use Rattle.thrift_value.specs.TreeOf.{tree_of, field_tree, field_trees, item_trees, pair_tree, pair_trees};
ghost use Rattle.schema.specs.LookUp.{fields_at};
ghost use Rattle.schema.specs.PlainKind.{kind_of};
ghost use Rattle.schema.specs.PlainSchema.{PlainStruct};
ghost use Rattle.schema.specs.SchemaOf.{schema_of, plain_field, plain_struct};
ghost use Rattle.schema.specs.Sound.{IsSound};
ghost use Rattle.struct_skew.specs.Needs.{is_required_field, needs_of, places_from};
ghost use Rattle.struct_skew.specs.TidyTests.{has_small_sizes};
ghost use Rattle.struct_skew.specs.WrittenTests.{are_fields_written_as, are_items_written_as, are_pairs_written_as, has_field_at, has_field_tree, has_fields_at, has_its_fields, has_required_fields, is_one_field, is_struct_written, is_written_as, may_be_written};

use crate::needs::{NeededFields, is_required, is_union, item};
use known_parts::{
    are_same_tags, declared_field, list_of_kind, map_of_kind, set_of_kind, struct_of_kind,
    tag_of_kind,
};
use schema::{FieldDesc, Schema, StructDesc, TypeDesc};
use thrift_value::Value;

/// Whether halving finds a field with this id, as it does where the ids rise.
fn is_found(fields: &[(i16, Value)], id: &i16) -> bool
    ensures { OnTrue result (IsTrue (has_field_tree id.now (field_trees (map field_tree fields.now)))) }
{
    match fields.binary_search_by_key(id, |field| field.0) {
        Ok(_) => true,
        Err(_) => false,
    }
}

/// Whether one of a value's fields has this id. It walks over all of them only where halving finds none.
#[inline(never)]
fn has_field(fields: &[(i16, Value)], id: &i16) -> bool
    ensures { result ≡ has_field_tree id.now (field_trees (map field_tree fields.now)) }
{
    if is_found(fields, id) {
        return true;
    }
    for (other, _) in fields {
        if other == id {
            return true;
        }
    }
    false
}

/// Whether a field has this id.
#[inline(always)]
fn is_id_of(field: &(i16, Value), id: &i16) -> bool
    ensures { result ≡ int_eq field.now.0 id.now }
{
    field.0 == *id
}

/// Whether the field at a place has this id.
#[inline(always)]
fn is_at(fields: &[(i16, Value)], place: usize, id: &i16) -> bool
    ensures { OnTrue result (IsTrue (has_field_tree id.now (field_trees (map field_tree fields.now)))) }
{
    match item(fields, place) {
        Some(field) => is_id_of(field, id),
        None => false,
    }
}

/// Whether one of a value's fields has this id: mostly it is the one at a place.
#[inline(always)]
fn has_field_near(fields: &[(i16, Value)], place: usize, id: &i16) -> bool
    ensures { result ≡ has_field_tree id.now (field_trees (map field_tree fields.now)) }
{
    if is_at(fields, place, id) {
        return true;
    }
    has_field(fields, id)
}

/// Whether each declared field that has to be there is there.
fn has_all_required(declared: &[FieldDesc], fields: &[(i16, Value)]) -> bool
    ensures { result ≡ has_required_fields (map plain_field declared.now) (field_trees (map field_tree fields.now)) }
{
    for field in declared {
        if is_required(field.need) {
            if !has_field(fields, &field.id) {
                return false;
            }
        }
    }
    true
}

/// Whether the declared field at a place is there.
fn has_field_at(declared: &[FieldDesc], place: usize, fields: &[(i16, Value)]) -> bool
    ensures { result ≡ has_field_at (map plain_field declared.now) place (field_trees (map field_tree fields.now)) }
{
    match item(declared, place) {
        Some(field) => has_field_near(fields, place, &field.id),
        None => false,
    }
}

/// Whether the declared field at each of these places is there.
pub(crate) fn has_fields_at(
    declared: &[FieldDesc],
    places: &[usize],
    fields: &[(i16, Value)],
) -> bool
    ensures { result ≡ has_fields_at (map plain_field declared.now) places.now (field_trees (map field_tree fields.now)) }
{
    for place in places {
        if !has_field_at(declared, *place, fields) {
            return false;
        }
    }
    true
}

/// Whether each declared field that has to be there is there, by their places where these are known.
fn has_required_fields(
    declared: &[FieldDesc],
    required: Option<&[usize]>,
    fields: &[(i16, Value)],
) -> bool
    requires { MatchOption required ⊤ (λ places. places.now ≡ places_from is_required_field 0 (map plain_field declared.now)) }
    ensures { result ≡ has_required_fields (map plain_field declared.now) (field_trees (map field_tree fields.now)) }
{
    match required {
        Some(places) => has_fields_at(declared, places, fields),
        None => has_all_required(declared, fields),
    }
}

/// Whether exactly one field is there.
fn is_one_field(fields: &[(i16, Value)]) -> bool
    ensures { result ≡ is_one_field (field_trees (map field_tree fields.now)) }
{
    fields.len() == 1
}

/// Whether each required field is there, and of a union exactly one.
pub(crate) fn has_its_fields(
    desc: &StructDesc,
    required: Option<&[usize]>,
    fields: &[(i16, Value)],
) -> bool
    requires { MatchOption required ⊤ (λ places. places.now ≡ (needs_of (plain_struct desc.now)).required) }
    ensures { result ≡ has_its_fields (plain_struct desc.now) (field_trees (map field_tree fields.now)) }
{
    if !has_required_fields(desc.fields.as_slice(), required, fields) {
        return false;
    }
    if !is_union(desc.kind) {
        return true;
    }
    is_one_field(fields)
}

/// The places of the fields that have to be there in the struct at a number, where they are known.
fn required_of<'a>(
    schema: &Schema,
    needed: Option<&'a NeededFields>,
    which: u32,
) -> Option<&'a [usize]>
    requires { MatchOption needed ⊤ (λ n. n.now ≡ map needs_of (schema_of schema.now).structs) }
    ensures { MatchOption result ⊤ (λ places. (d : PlainStruct) → slice_get (schema_of schema.now).structs which ≡ Some d → places.now ≡ (needs_of d).required) }
{
    let needs = needed?.row(which)?;
    Some(needs.required.as_slice())
}

/// Whether a value is of a type. It recurses once a level that both have.
#[cycle(writing)]
pub(crate) fn is_written_as(
    value: &Value,
    schema: &Schema,
    needed: Option<&NeededFields>,
    kind: &TypeDesc,
) -> bool
    requires sound { IsSound (schema_of schema.now) }
    requires needed { MatchOption needed ⊤ (λ n. n.now ≡ map needs_of (schema_of schema.now).structs) }
    ensures { result ≡ is_written_as (schema_of schema.now).structs (kind_of kind.now) (tree_of value.now) }
{
    match value {
        Value::Struct(fields) => match struct_of_kind(kind) {
            Some(which) => struct_is_written(fields.as_slice(), schema, needed, which),
            None => false,
        },
        Value::Map(_, _, pairs) => match map_of_kind(kind) {
            Some((key, value)) => pairs_are_written(pairs.as_slice(), schema, needed, key, value),
            None => false,
        },
        Value::Set(_, items) => match set_of_kind(kind) {
            Some(member) => items_are_written(items.as_slice(), schema, needed, member),
            None => false,
        },
        Value::List(_, items) => match list_of_kind(kind) {
            Some(element) => items_are_written(items.as_slice(), schema, needed, element),
            None => false,
        },
        // It is a bool, a number, a uuid or bytes.
        _ => are_same_tags(tag_of_kind(kind), value.tag()),
    }
}

/// Whether fields are those of the struct at a number, each of its type.
#[cycle(writing)]
fn struct_is_written(
    fields: &[(i16, Value)],
    schema: &Schema,
    needed: Option<&NeededFields>,
    which: u32,
) -> bool
    requires sound { IsSound (schema_of schema.now) }
    requires needed { MatchOption needed ⊤ (λ n. n.now ≡ map needs_of (schema_of schema.now).structs) }
    ensures { result ≡ is_struct_written (schema_of schema.now).structs (slice_get (schema_of schema.now).structs which) (field_trees (map field_tree fields.now)) }
{
    let Some(desc) = item(schema.structs.as_slice(), which as usize) else {
        return false;
    };
    let required = required_of(schema, needed, which);
    if !has_its_fields(desc, required, fields) {
        return false;
    }
    fields_are_written(fields, schema, needed, which)
}

/// Whether each field is declared in the struct at a number, and of its type.
#[cycle(writing)]
fn fields_are_written(
    fields: &[(i16, Value)],
    schema: &Schema,
    needed: Option<&NeededFields>,
    which: u32,
) -> bool
    requires sound { IsSound (schema_of schema.now) }
    requires needed { MatchOption needed ⊤ (λ n. n.now ≡ map needs_of (schema_of schema.now).structs) }
    ensures { result ≡ are_fields_written_as (schema_of schema.now).structs (fields_at (schema_of schema.now) which) (field_trees (map field_tree fields.now)) }
{
    for (id, value) in fields {
        let Some(field) = declared_field(schema, which, id) else {
            return false;
        };
        if !is_written_as(value, schema, needed, &field.kind) {
            return false;
        }
    }
    true
}

/// Whether each element is of a type.
#[cycle(writing)]
fn items_are_written(
    items: &[Value],
    schema: &Schema,
    needed: Option<&NeededFields>,
    kind: &TypeDesc,
) -> bool
    requires sound { IsSound (schema_of schema.now) }
    requires needed { MatchOption needed ⊤ (λ n. n.now ≡ map needs_of (schema_of schema.now).structs) }
    ensures { result ≡ are_items_written_as (schema_of schema.now).structs (kind_of kind.now) (item_trees (map tree_of items.now)) }
{
    for value in items {
        if !is_written_as(value, schema, needed, kind) {
            return false;
        }
    }
    true
}

/// Whether each key is of a type, and each value of another.
#[cycle(writing)]
fn pairs_are_written(
    pairs: &[(Value, Value)],
    schema: &Schema,
    needed: Option<&NeededFields>,
    key_kind: &TypeDesc,
    value_kind: &TypeDesc,
) -> bool
    requires sound { IsSound (schema_of schema.now) }
    requires needed { MatchOption needed ⊤ (λ n. n.now ≡ map needs_of (schema_of schema.now).structs) }
    ensures { result ≡ are_pairs_written_as (schema_of schema.now).structs (kind_of key_kind.now) (kind_of value_kind.now) (pair_trees (map pair_tree pairs.now)) }
{
    for (key, value) in pairs {
        if !is_written_as(key, schema, needed, key_kind) {
            return false;
        }
        if !is_written_as(value, schema, needed, value_kind) {
            return false;
        }
    }
    true
}

/// Whether the lengths and sizes in a value have an encoding.
fn has_small_sizes(value: &Value) -> bool
    ensures { result ≡ has_small_sizes (tree_of value.now) }
{
    value.has_small_sizes()
}

/// Whether a tidy value may be written under a type, by what the schema's structs need. It takes time for the value, however many
/// fields are declared.
pub fn fits_with(schema: &Schema, needed: &NeededFields, kind: &TypeDesc, value: &Value) -> bool
    requires sound { IsSound (schema_of schema.now) }
    requires needed { needed.now ≡ map needs_of (schema_of schema.now).structs }
    ensures { result ≡ may_be_written (schema_of schema.now).structs (kind_of kind.now) (tree_of value.now) }
{
    if !has_small_sizes(value) {
        return false;
    }
    is_written_as(value, schema, Some(needed), kind)
}

/// Whether a tidy value may be written under a type. It walks over the declared fields of each struct in the value: who asks for many
/// keeps `needed_fields` and calls `fits_with`.
pub fn fits(schema: &Schema, kind: &TypeDesc, value: &Value) -> bool
    requires sound { IsSound (schema_of schema.now) }
    ensures { result ≡ may_be_written (schema_of schema.now).structs (kind_of kind.now) (tree_of value.now) }
{
    if !has_small_sizes(value) {
        return false;
    }
    is_written_as(value, schema, None, kind)
}
