//! Whether a value may go out under a type, which one walk tells.
ghost use Rattle.std.specs.Prelude.{◌≡◌, ◌&&◌, ◌-◌, ◌<ℤ◌, map, nat_le, nat_lt, AllPairs};
ghost use Rattle.std.specs.List.{slice_get};
ghost use Rattle.thrift_value.specs.Measures.{depth_of};
ghost use Rattle.thrift_value.specs.TreeOf.{tree_of, field_tree, field_trees, item_trees, pair_tree, pair_trees};
ghost use Rattle.schema.specs.PlainKind.{kind_of};
ghost use Rattle.schema.specs.PlainSchema.{PlainField};
ghost use Rattle.schema.specs.SchemaOf.{schema_of, plain_field, plain_struct};
ghost use Rattle.schema.specs.Sound.{IsSound};
ghost use Rattle.known_parts.specs.Parts.{are_same_tags, tag_of_kind};
ghost use Rattle.struct_skew.specs.Needs.{needs_of, plain_needs};
ghost use Rattle.struct_skew.specs.OutgoingTests.{are_few_items, are_few_pairs, are_named_items, are_named_pairs, do_bytes_go_out, do_fields_go_out, do_items_go_out, do_pairs_go_out, does_list_go_out, does_map_go_out, does_set_go_out, does_struct_go_out, goes_out};
ghost use Rattle.struct_skew.specs.TidyTests.{is_tidy};
ghost use Rattle.struct_skew.specs.WrittenTests.{has_its_fields, may_be_written};

use crate::declared::field_near;
use crate::needs::{NeededFields, StructNeeds};
use crate::rising::{ids_rise, items_rise, keys_rise};
use crate::structs::struct_at;
use crate::written::has_its_fields;
use known_parts::{
    are_same_tags, list_of_kind, map_of_kind, set_of_kind, struct_of_kind, tag_of_kind,
};
use schema::{FieldDesc, Schema, StructDesc, TypeDesc};
use thrift_value::{Tag, Value};

/// The greatest length and the greatest number of elements that have an encoding (Thrift binary protocol, 'List and Set').
const MAX_SIZE: usize = 0x7fff_ffff;

/// Whether a value of a type has this tag.
#[inline(always)]
fn is_tag_of(kind: &TypeDesc, tag: Tag) -> bool
    ensures { result ≡ are_same_tags (tag_of_kind (kind_of kind.now)) tag }
{
    are_same_tags(tag_of_kind(kind), tag)
}

/// Whether elements, where there are any, have the tag of their type.
fn are_named_items(t: Tag, kind: &TypeDesc, items: &[Value]) -> bool
    ensures { result ≡ are_named_items t (kind_of kind.now) (item_trees (map tree_of items.now)) }
{
    match items {
        [] => true,
        _ => is_tag_of(kind, t),
    }
}

/// Whether keys and values, where there are any, have the tags of their types.
fn are_named_pairs(
    k: Tag,
    v: Tag,
    key: &TypeDesc,
    value: &TypeDesc,
    pairs: &[(Value, Value)],
) -> bool
    ensures { result ≡ are_named_pairs k v (kind_of key.now) (kind_of value.now) (pair_trees (map pair_tree pairs.now)) }
{
    match pairs {
        [] => true,
        _ => is_tag_of(key, k) && is_tag_of(value, v),
    }
}

/// Whether a size says how many elements there are, and they have the tag of their type.
#[tactic(auto, using(thrift_value::proofs::Lengths::tree_lengths))]
fn are_few_items(t: Tag, kind: &TypeDesc, items: &[Value]) -> bool
    ensures { result ≡ are_few_items t (kind_of kind.now) (item_trees (map tree_of items.now)) }
{
    if items.len() > MAX_SIZE {
        return false;
    }
    are_named_items(t, kind, items)
}

/// The same of pairs.
#[tactic(auto, using(thrift_value::proofs::Lengths::tree_lengths))]
fn are_few_pairs(k: Tag, v: Tag, key: &TypeDesc, value: &TypeDesc, pairs: &[(Value, Value)]) -> bool
    ensures { result ≡ are_few_pairs k v (kind_of key.now) (kind_of value.now) (pair_trees (map pair_tree pairs.now)) }
{
    if pairs.len() > MAX_SIZE {
        return false;
    }
    are_named_pairs(k, v, key, value, pairs)
}

/// Whether bytes are of a type, and a length says how many they are.
#[inline(always)]
fn bytes_go_out(bytes: &[u8], kind: &TypeDesc) -> bool
    ensures { result ≡ do_bytes_go_out (kind_of kind.now) bytes.now }
{
    if !is_tag_of(kind, Tag::Bytes) {
        return false;
    }
    bytes.len() <= MAX_SIZE
}

/// Whether a level may be opened.
#[inline(always)]
fn is_open(levels: u32) -> bool
    ensures { result ≡ nat_lt 0 levels }
{
    0 < levels
}

/// Whether the fields of a struct are there that have to be there, by what it needs.
fn has_its_fields_by(desc: &StructDesc, needs: &StructNeeds, fields: &[(i16, Value)]) -> bool
    requires { plain_needs needs.now ≡ needs_of (plain_struct desc.now) }
    ensures { result ≡ has_its_fields (plain_struct desc.now) (field_trees (map field_tree fields.now)) }
{
    has_its_fields(desc, Some(needs.required.as_slice()), fields)
}

/// Whether a value goes out where so many levels may be opened. It recurses once a level that the value and the type both have.
#[cycle(outgoing)]
#[inline(always)]
fn goes_out(
    value: &Value,
    schema: &Schema,
    needed: &NeededFields,
    kind: &TypeDesc,
    levels: u32,
) -> bool
    requires sound { IsSound (schema_of schema.now) }
    requires needed { needed.now ≡ map needs_of (schema_of schema.now).structs }
    ensures { result ≡ goes_out (schema_of schema.now).structs levels (kind_of kind.now) (tree_of value.now) }
{
    match value {
        Value::Struct(fields) => match struct_of_kind(kind) {
            Some(which) => struct_goes_out(fields.as_slice(), schema, needed, which, levels),
            None => false,
        },
        Value::Map(k, v, pairs) => match map_of_kind(kind) {
            Some((key, value)) => {
                map_goes_out(pairs.as_slice(), schema, needed, *k, key, *v, value, levels)
            }
            None => false,
        },
        Value::Set(t, items) => match set_of_kind(kind) {
            Some(member) => set_goes_out(items.as_slice(), schema, needed, *t, member, levels),
            None => false,
        },
        Value::List(t, items) => match list_of_kind(kind) {
            Some(element) => list_goes_out(items.as_slice(), schema, needed, *t, element, levels),
            None => false,
        },
        Value::Bytes(bytes) => bytes_go_out(bytes.as_slice(), kind),
        // It is a bool, a number or a uuid.
        _ => is_tag_of(kind, value.tag()),
    }
}

/// Whether the fields of the struct at a number go out.
#[cycle(outgoing)]
fn struct_goes_out(
    fields: &[(i16, Value)],
    schema: &Schema,
    needed: &NeededFields,
    which: u32,
    levels: u32,
) -> bool
    requires sound { IsSound (schema_of schema.now) }
    requires needed { needed.now ≡ map needs_of (schema_of schema.now).structs }
    ensures { result ≡ does_struct_go_out (schema_of schema.now).structs levels (slice_get (schema_of schema.now).structs which) (field_trees (map field_tree fields.now)) }
{
    if !is_open(levels) {
        return false;
    }
    let Some((desc, needs)) = struct_at(schema, needed, which) else {
        return false;
    };
    if !ids_rise(fields) {
        return false;
    }
    if !has_its_fields_by(desc, needs, fields) {
        return false;
    }
    let declared = desc.fields.as_slice();
    fields_go_out(fields, schema, needed, declared, levels.saturating_sub(1))
}

/// Whether the pairs of a map go out.
#[cycle(outgoing)]
fn map_goes_out(
    pairs: &[(Value, Value)],
    schema: &Schema,
    needed: &NeededFields,
    k: Tag,
    key: &TypeDesc,
    v: Tag,
    value: &TypeDesc,
    levels: u32,
) -> bool
    requires sound { IsSound (schema_of schema.now) }
    requires needed { needed.now ≡ map needs_of (schema_of schema.now).structs }
    ensures { result ≡ does_map_go_out (schema_of schema.now).structs levels (kind_of key.now) (kind_of value.now) k v (pair_trees (map pair_tree pairs.now)) }
{
    if !is_open(levels) {
        return false;
    }
    if !are_few_pairs(k, v, key, value, pairs) {
        return false;
    }
    if !keys_rise(pairs) {
        return false;
    }
    pairs_go_out(pairs, schema, needed, key, value, levels.saturating_sub(1))
}

/// Whether the members of a set go out.
#[cycle(outgoing)]
fn set_goes_out(
    items: &[Value],
    schema: &Schema,
    needed: &NeededFields,
    t: Tag,
    kind: &TypeDesc,
    levels: u32,
) -> bool
    requires sound { IsSound (schema_of schema.now) }
    requires needed { needed.now ≡ map needs_of (schema_of schema.now).structs }
    ensures { result ≡ does_set_go_out (schema_of schema.now).structs levels (kind_of kind.now) t (item_trees (map tree_of items.now)) }
{
    if !list_goes_out(items, schema, needed, t, kind, levels) {
        return false;
    }
    items_rise(items)
}

/// Whether the elements of a list go out.
#[cycle(outgoing)]
fn list_goes_out(
    items: &[Value],
    schema: &Schema,
    needed: &NeededFields,
    t: Tag,
    kind: &TypeDesc,
    levels: u32,
) -> bool
    requires sound { IsSound (schema_of schema.now) }
    requires needed { needed.now ≡ map needs_of (schema_of schema.now).structs }
    ensures { result ≡ does_list_go_out (schema_of schema.now).structs levels (kind_of kind.now) t (item_trees (map tree_of items.now)) }
{
    if !is_open(levels) {
        return false;
    }
    if !are_few_items(t, kind, items) {
        return false;
    }
    items_go_out(items, schema, needed, kind, levels.saturating_sub(1))
}

/// Whether each field is declared, and goes out under its type.
#[cycle(outgoing)]
fn fields_go_out(
    fields: &[(i16, Value)],
    schema: &Schema,
    needed: &NeededFields,
    declared: &[FieldDesc],
    levels: u32,
) -> bool
    requires sound { IsSound (schema_of schema.now) }
    requires needed { needed.now ≡ map needs_of (schema_of schema.now).structs }
    requires rising { AllPairs (λ (f g : PlainField). f.id <ℤ g.id) (map plain_field declared.now) }
    ensures { result ≡ do_fields_go_out (schema_of schema.now).structs levels (map plain_field declared.now) (field_trees (map field_tree fields.now)) }
{
    let mut next = 0;
    for (id, value) in fields {
        let Some((field, place)) = field_near(declared, next, *id) else {
            return false;
        };
        next = place.wrapping_add(1);
        if !goes_out(value, schema, needed, &field.kind, levels) {
            return false;
        }
    }
    true
}

/// Whether each element goes out under a type.
#[cycle(outgoing)]
fn items_go_out(
    items: &[Value],
    schema: &Schema,
    needed: &NeededFields,
    kind: &TypeDesc,
    levels: u32,
) -> bool
    requires sound { IsSound (schema_of schema.now) }
    requires needed { needed.now ≡ map needs_of (schema_of schema.now).structs }
    ensures { result ≡ do_items_go_out (schema_of schema.now).structs levels (kind_of kind.now) (item_trees (map tree_of items.now)) }
{
    for value in items {
        if !goes_out(value, schema, needed, kind, levels) {
            return false;
        }
    }
    true
}

/// Whether each key goes out under a type, and each value under another.
#[cycle(outgoing)]
fn pairs_go_out(
    pairs: &[(Value, Value)],
    schema: &Schema,
    needed: &NeededFields,
    key_kind: &TypeDesc,
    value_kind: &TypeDesc,
    levels: u32,
) -> bool
    requires sound { IsSound (schema_of schema.now) }
    requires needed { needed.now ≡ map needs_of (schema_of schema.now).structs }
    ensures { result ≡ do_pairs_go_out (schema_of schema.now).structs levels (kind_of key_kind.now) (kind_of value_kind.now) (pair_trees (map pair_tree pairs.now)) }
{
    for (key, value) in pairs {
        if !goes_out(key, schema, needed, key_kind, levels) {
            return false;
        }
        if !goes_out(value, schema, needed, value_kind, levels) {
            return false;
        }
    }
    true
}

/// Whether a value may go out under a type: it is tidy, opens so many levels at most, and may be written under the type. It walks
/// over the value once, and takes time for the value, however many fields are declared.
pub fn may_go_out(
    schema: &Schema,
    needed: &NeededFields,
    kind: &TypeDesc,
    value: &Value,
    levels: u32,
) -> bool
    requires sound { IsSound (schema_of schema.now) }
    requires needed { needed.now ≡ map needs_of (schema_of schema.now).structs }
    ensures { result ≡ (is_tidy (tree_of value.now) && (nat_le (depth_of (tree_of value.now)) levels && may_be_written (schema_of schema.now).structs (kind_of kind.now) (tree_of value.now))) }
{
    goes_out(value, schema, needed, kind, levels)
}
