//! Reading by type where all is in order. What is out of order, a fault of the bytes and want of memory are one answer, none, which
//! says nothing: the caller then reads as if nothing had been tried.
ghost use Rattle.std.specs.Bool.{OnTrue};
ghost use Rattle.std.specs.Prelude.{◌≡◌, ◌≤◌, ◌<ℤ◌, [], length, map, AllPairs, IfSome, Ok};
ghost use Rattle.thrift_value.specs.declared.tag.Tag.TheVariants as tags;
ghost use Rattle.thrift_value.specs.Tree.{of_bool};
ghost use Rattle.thrift_value.specs.TreeOf.{tree_of, fields_tree};
ghost use Rattle.schema.specs.PlainKind.{kind_of, kind_struct, kind_map, kind_set, kind_list};
ghost use Rattle.schema.specs.PlainSchema.{PlainField};
ghost use Rattle.schema.specs.SchemaOf.{schema_of, plain_field, plain_struct};
ghost use Rattle.schema.specs.Sound.{IsSound};
ghost use Rattle.schema.specs.WrittenAs.{HasItsFields};
ghost use Rattle.wire_model.specs.Decoder.{count_value};
ghost use Rattle.wire_model.specs.Wire.{IsScalar};
ghost use Rattle.known_parts.specs.Parts.{tag_of_kind};
ghost use Rattle.struct_skew.specs.Filled.{HasItsDefaults};
ghost use Rattle.struct_skew.specs.Needs.{needs_of, plain_needs};
ghost use Rattle.struct_skew.specs.ReadAs.{read_then_projected};
ghost use Rattle.struct_skew.specs.ReadSettled.{ReadsElements, ReadsField, ReadsFields, ReadsLeaf, ReadsPairs, ReadsSettled};

use crate::ahead::{Ahead, field, items, pairs, scalar, span};
use crate::declared::field_near;
use crate::needs::{NeededFields, StructNeeds};
use crate::order::is_rising;
use crate::settled::{are_tags_of, has_defaulted_fields};
use crate::structs::struct_at;
use crate::written::has_its_fields;
use known_parts::{
    MOST_EXPECTED, MOST_EXPECTED_FIELDS, are_same_tags, deeper, keep, kept_text, list_of_kind,
    make_room, map_of_kind, put, set_of_kind, struct_of_kind, tag_of_kind,
};
use limits::MOST_LEVELS;
use schema::{FieldDesc, Schema, StructDesc, TypeDesc};
use std::alloc::Global;
use thrift_value::{Fields, Items, Pairs, Tag, Value};
use wire_model::laws::value_read_is_spelled;
use wire_model::{FieldHead, Wire};

/// An empty list with room for as many items as are expected.
#[inline(always)]
fn room<T: Drop>(alloc: Global, expected: usize) -> Option<Vec<T>>
    ensures { IfSome result (λ list. list.items ≡ []) }
{
    let mut list = Vec::new(alloc);
    make_room(&mut list, expected).ok()?;
    Some(list)
}

/// The text in front.
#[inline(never)]
fn settled_text<'a, W: Wire>(alloc: Global, ahead: &mut Ahead<'a>) -> Option<Value>
    ensures { IfSome result (λ value. ReadsLeaf W.wire tags.Bytes ahead.old (tree_of value) ahead.new) }
{
    ahead.count_value()?;
    let text = span::<W>(ahead)?;
    let value = kept_text(alloc, text).ok()?;
    Some(value)
}

/// The number, bool or uuid in front.
#[inline(always)]
fn settled_number<'a, W: Wire>(ahead: &mut Ahead<'a>, tag: Tag) -> Option<Value>
    requires { IsScalar tag }
    ensures { IfSome result (λ value. ReadsLeaf W.wire tag ahead.old (tree_of value) ahead.new) }
{
    value_read_is_spelled::<W>();
    ahead.are_bytes();
    ahead.count_value()?;
    let value = scalar::<W>(ahead, tag)?;
    Some(value)
}

/// The value in front under a type of this tag, with so many levels that may still be opened, where it means itself.
#[cycle(settling)]
#[inline(always)]
fn settled_value<'a, W: Wire>(
    alloc: Global,
    ahead: &mut Ahead<'a>,
    levels: u32,
    schema: &Schema,
    needed: &NeededFields,
    kind: &TypeDesc,
    tag: Tag,
) -> Option<Value>
    requires sound { IsSound (schema_of schema.now) }
    requires needed { needed.now ≡ map needs_of (schema_of schema.now).structs }
    requires tag { tag ≡ tag_of_kind (kind_of kind.now) }
    ensures { IfSome result (λ value. ReadsSettled W.wire levels (schema_of schema.now).structs (kind_of kind.now) ahead.old (tree_of value) ahead.new) }
{
    match tag {
        Tag::Bytes => settled_text::<W>(alloc, ahead),
        Tag::Struct => {
            let which = struct_of_kind(kind)?;
            settled_struct::<W>(alloc, ahead, levels, schema, needed, which)
        }
        Tag::Map => {
            let (key, value) = map_of_kind(kind)?;
            settled_map::<W>(alloc, ahead, levels, schema, needed, key, value)
        }
        Tag::Set => {
            let member = set_of_kind(kind)?;
            settled_set::<W>(alloc, ahead, levels, schema, needed, member)
        }
        Tag::List => {
            let element = list_of_kind(kind)?;
            settled_list::<W>(alloc, ahead, levels, schema, needed, element)
        }
        tag => settled_number::<W>(ahead, tag),
    }
}

/// The tag and the elements of the list or the set in front, of a type.
#[cycle(settling)]
#[inline(never)]
fn settled_elements<'a, W: Wire>(
    alloc: Global,
    ahead: &mut Ahead<'a>,
    levels: u32,
    schema: &Schema,
    needed: &NeededFields,
    kind: &TypeDesc,
) -> Option<(Tag, Items)>
    requires sound { IsSound (schema_of schema.now) }
    requires needed { needed.now ≡ map needs_of (schema_of schema.now).structs }
    ensures { IfSome result (λ r. ReadsElements W.wire levels (schema_of schema.now).structs (kind_of kind.now) ahead.old r.0 r.1 ahead.new) }
{
    ahead.count_value()?;
    let levels = deeper(levels).ok()?;
    let (tag, count) = items::<W>(ahead)?;
    if !are_same_tags(tag_of_kind(kind), tag) {
        return None;
    }
    let mut items = room(alloc, (count as usize).min(MOST_EXPECTED))?;
    for step in 0..count {
        let value = settled_value::<W>(alloc, ahead, levels, schema, needed, kind, tag)?;
        put(&mut items, value).ok()?;
    }
    Some((tag, Items::new(items)))
}

/// The list in front, of elements of a type.
#[cycle(settling)]
#[inline(always)]
fn settled_list<'a, W: Wire>(
    alloc: Global,
    ahead: &mut Ahead<'a>,
    levels: u32,
    schema: &Schema,
    needed: &NeededFields,
    element: &TypeDesc,
) -> Option<Value>
    requires sound { IsSound (schema_of schema.now) }
    requires needed { needed.now ≡ map needs_of (schema_of schema.now).structs }
    ensures { IfSome result (λ value. ReadsSettled W.wire levels (schema_of schema.now).structs (kind_list (kind_of element.now)) ahead.old (tree_of value) ahead.new) }
{
    let (tag, found) = settled_elements::<W>(alloc, ahead, levels, schema, needed, element)?;
    Some(Value::List(tag, found))
}

/// The set in front, of members of a type.
#[cycle(settling)]
#[inline(always)]
fn settled_set<'a, W: Wire>(
    alloc: Global,
    ahead: &mut Ahead<'a>,
    levels: u32,
    schema: &Schema,
    needed: &NeededFields,
    member: &TypeDesc,
) -> Option<Value>
    requires sound { IsSound (schema_of schema.now) }
    requires needed { needed.now ≡ map needs_of (schema_of schema.now).structs }
    ensures { IfSome result (λ value. ReadsSettled W.wire levels (schema_of schema.now).structs (kind_set (kind_of member.now)) ahead.old (tree_of value) ahead.new) }
{
    let (tag, found) = settled_elements::<W>(alloc, ahead, levels, schema, needed, member)?;
    if !is_rising(found.as_slice()) {
        return None;
    }
    Some(Value::Set(tag, found))
}

/// The map in front, of keys of a type and values of another.
#[cycle(settling)]
#[inline(never)]
fn settled_map<'a, W: Wire>(
    alloc: Global,
    ahead: &mut Ahead<'a>,
    levels: u32,
    schema: &Schema,
    needed: &NeededFields,
    key_kind: &TypeDesc,
    value_kind: &TypeDesc,
) -> Option<Value>
    requires sound { IsSound (schema_of schema.now) }
    requires needed { needed.now ≡ map needs_of (schema_of schema.now).structs }
    ensures { IfSome result (λ value. ReadsSettled W.wire levels (schema_of schema.now).structs (kind_map (kind_of key_kind.now) (kind_of value_kind.now)) ahead.old (tree_of value) ahead.new) }
{
    ahead.count_value()?;
    let levels = deeper(levels).ok()?;
    let (key, value, count) = pairs::<W>(ahead)?;
    if !are_tags_of(key, key_kind, value, value_kind) {
        return None;
    }
    let found = settled_pairs::<W>(
        alloc, ahead, levels, schema, needed, key_kind, value_kind, count,
    )?;
    if !is_rising(found.as_slice()) {
        return None;
    }
    Some(Value::Map(key, value, found))
}

/// So many pairs in front, of keys of a type and values of another.
#[cycle(settling)]
fn settled_pairs<'a, W: Wire>(
    alloc: Global,
    ahead: &mut Ahead<'a>,
    levels: u32,
    schema: &Schema,
    needed: &NeededFields,
    key_kind: &TypeDesc,
    value_kind: &TypeDesc,
    count: u32,
) -> Option<Pairs>
    requires sound { IsSound (schema_of schema.now) }
    requires needed { needed.now ≡ map needs_of (schema_of schema.now).structs }
    ensures { IfSome result (λ r. ReadsPairs W.wire levels (schema_of schema.now).structs (kind_of key_kind.now) (kind_of value_kind.now) count ahead.old r ahead.new) }
{
    let key_tag = tag_of_kind(key_kind);
    let value_tag = tag_of_kind(value_kind);
    let mut pairs = room(alloc, (count as usize).min(MOST_EXPECTED))?;
    for step in 0..count {
        let key = settled_value::<W>(alloc, ahead, levels, schema, needed, key_kind, key_tag)?;
        let value = settled_value::<W>(
            alloc, ahead, levels, schema, needed, value_kind, value_tag,
        )?;
        put(&mut pairs, (key, value)).ok()?;
    }
    Some(Pairs::new(pairs))
}

/// The struct in front, of this number.
#[cycle(settling)]
#[inline(never)]
fn settled_struct<'a, W: Wire>(
    alloc: Global,
    ahead: &mut Ahead<'a>,
    levels: u32,
    schema: &Schema,
    needed: &NeededFields,
    which: u32,
) -> Option<Value>
    requires sound { IsSound (schema_of schema.now) }
    requires needed { needed.now ≡ map needs_of (schema_of schema.now).structs }
    ensures { IfSome result (λ value. ReadsSettled W.wire levels (schema_of schema.now).structs (kind_struct which) ahead.old (tree_of value) ahead.new) }
{
    ahead.count_value()?;
    let levels = deeper(levels).ok()?;
    let (desc, needs) = struct_at(schema, needed, which)?;
    let fields = settled_fields::<W>(alloc, ahead, levels, schema, needed, desc.fields.as_slice())?;
    if !has_all(desc, needs, &fields) {
        return None;
    }
    Some(Value::Struct(fields))
}

/// Whether each field is there that has to be there or has a default, and of a union exactly one.
#[inline(always)]
fn has_all(desc: &StructDesc, needs: &StructNeeds, fields: &Fields) -> bool
    requires { plain_needs needs.now ≡ needs_of (plain_struct desc.now) }
    ensures { OnTrue result (HasItsFields (plain_struct desc.now) (fields_tree fields.now) × HasItsDefaults (plain_struct desc.now) (fields_tree fields.now)) }
{
    if !has_its_fields(desc, Some(needs.required.as_slice()), fields.as_slice()) {
        return false;
    }
    has_defaulted_fields(desc, needs, fields.as_slice())
}

/// The value of a field of a type, whose head was read.
#[cycle(settling)]
#[inline(always)]
fn settled_field<'a, W: Wire>(
    alloc: Global,
    ahead: &mut Ahead<'a>,
    levels: u32,
    schema: &Schema,
    needed: &NeededFields,
    kind: &TypeDesc,
    tag: Tag,
    flag: Option<bool>,
) -> Option<Value>
    requires sound { IsSound (schema_of schema.now) }
    requires needed { needed.now ≡ map needs_of (schema_of schema.now).structs }
    ensures { IfSome result (λ value. ReadsField W.wire levels (schema_of schema.now).structs (kind_of kind.now) tag flag ahead.old (tree_of value) ahead.new) }
{
    if let Some(flag) = flag {
        return settled_flag(ahead, kind, flag);
    }
    if !are_same_tags(tag_of_kind(kind), tag) {
        return None;
    }
    settled_value::<W>(alloc, ahead, levels, schema, needed, kind, tag)
}

/// The bool that a field's head has, where the field is one of bools.
#[tactic(auto, using(thrift_value::proofs::Trees::tree_equations))]
fn settled_flag<'a>(ahead: &mut Ahead<'a>, kind: &TypeDesc, flag: bool) -> Option<Value>
    ensures { IfSome result (λ value. (count_value ahead.old ≡ Ok (tt, ahead.new)) × (tree_of value ≡ of_bool flag) × (tag_of_kind (kind_of kind.now) ≡ tags.Bool)) }
{
    if !are_same_tags(tag_of_kind(kind), Tag::Bool) {
        return None;
    }
    ahead.count_value()?;
    Some(Value::Bool(flag))
}

/// Whether an id is above the last one, or the first, which any may be.
#[inline(always)]
fn is_behind(fields: &Vec<(i16, Value)>, last: i16, id: i16) -> bool
    ensures { OnTrue result ((fields.now.items ≡ [] → ⊥) → last <ℤ id) }
{
    if last < id {
        return true;
    }
    fields.is_empty()
}

/// The fields of a struct in front, up to its end.
#[cycle(settling)]
#[inline(always)]
fn settled_fields<'a, W: Wire>(
    alloc: Global,
    ahead: &mut Ahead<'a>,
    levels: u32,
    schema: &Schema,
    needed: &NeededFields,
    declared: &[FieldDesc],
) -> Option<Fields>
    requires sound { IsSound (schema_of schema.now) }
    requires needed { needed.now ≡ map needs_of (schema_of schema.now).structs }
    requires rising { AllPairs (λ (f g : PlainField). f.id <ℤ g.id) (map plain_field declared.now) }
    ensures { IfSome result (λ r. ReadsFields W.wire levels (schema_of schema.now).structs (map plain_field declared.now) ahead.old r ahead.new) }
{
    let mut fields = Vec::new(alloc);
    let expected = declared.len().min(MOST_EXPECTED_FIELDS);
    let mut last = 0;
    let mut next = 0;
    // Each header takes a byte at least: the count shows that the loop ends.
    for step in 0..ahead.len() {
        let head = field::<W>(ahead, last)?;
        match head {
            FieldHead::Stop => return Some(Fields::new(fields)),
            FieldHead::Field { id, tag, flag } => {
                if !is_behind(&fields, last, id) {
                    return None;
                }
                let (found, place) = field_near(declared, next, id)?;
                let value = settled_field::<W>(
                    alloc,
                    ahead,
                    levels,
                    schema,
                    needed,
                    &found.kind,
                    tag,
                    flag,
                )?;
                keep(&mut fields, expected, (id, value)).ok()?;
                last = id;
                next = place.wrapping_add(1);
                continue;
            }
        }
    }
    None
}

/// The struct at a place and the place behind it, where it means itself.
pub(crate) fn settled_in<W: Wire>(
    alloc: Global,
    schema: &Schema,
    needed: &NeededFields,
    which: u32,
    bytes: &[u8],
    at: usize,
) -> Option<(Value, usize)>
    requires sound { IsSound (schema_of schema.now) }
    requires needed { needed.now ≡ map needs_of (schema_of schema.now).structs }
    requires within { at ≤ length bytes.now }
    ensures { IfSome result (λ r. read_then_projected W.wire (schema_of schema.now) which bytes.now at ≡ Ok (tree_of r.0, r.1)) }
{
    value_read_is_spelled::<W>();
    let mut ahead = Ahead::new(bytes, at);
    let value = settled_struct::<W>(alloc, &mut ahead, MOST_LEVELS, schema, needed, which)?;
    Some((value, bytes.len() - ahead.len()))
}
