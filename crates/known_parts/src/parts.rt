//! Values of the parts that were read, and the parts of types that are known to have them.
ghost use Rattle.std.specs.Prelude.{◌≡◌, suc, [], ◌∷◌, ◌++◌, map, Some, MatchResult, IfOk, OnOk};
ghost use Rattle.std.specs.Option.{option_copied, option_map};
ghost use Rattle.thrift_value.specs.declared.tag.Tag.TheVariants as tags;
ghost use Rattle.thrift_value.specs.Tree.{of_bool, of_bytes, of_map, of_set, of_list};
ghost use Rattle.thrift_value.specs.TreeOf.{tree_of, items_tree, pairs_tree, pair_tree};
ghost use Rattle.schema.specs.PlainKind.{kind_of, kind_struct, kind_map, kind_set, kind_list};
ghost use Rattle.schema.specs.LookUp.{field_at};
ghost use Rattle.schema.specs.SchemaOf.{schema_of, plain_field};
ghost use Rattle.schema.specs.Sound.{IsSound};
ghost use Rattle.known_parts.specs.KnownAt.{both_known, known_value_at, with_some_more};
ghost use Rattle.known_parts.specs.Parts.{tag_of_kind};

use crate::kinds::{
    are_same_tags, list_of_kind, map_of_kind, set_of_kind, struct_of_kind, tag_of_kind,
};
use schema::{FieldDesc, Schema, TypeDesc};
use std::alloc::{AllocError, Global};
use thrift_value::{ByteText, Items, Pairs, Tag, Value, WireFault};

/// One level less, if there is one.
#[inline(always)]
pub fn deeper(levels: u32) -> Result<u32, WireFault>
    ensures { MatchResult result (λ n. levels ≡ suc n) (λ fault. (levels ≡ 0) × (fault ≡ WireFault.TooDeep)) }
{
    if levels == 0 {
        return Err(WireFault::TooDeep);
    }
    Ok(levels - 1)
}

/// A text in memory of its own.
#[tactic(auto, using(thrift_value::proofs::Trees::tree_equations))]
pub fn kept_text(alloc: Global, text: &[u8]) -> Result<Value, AllocError>
    ensures { IfOk result (λ value. tree_of value ≡ of_bytes text.now) }
{
    Ok(Value::Bytes(ByteText::new(text.to_vec(alloc)?)))
}

/// The most items for which room is taken before they are read.
pub const MOST_EXPECTED: usize = 1024;

/// The most fields for which room is taken before they are read, of a struct that may be sent with few of many.
pub const MOST_EXPECTED_FIELDS: usize = 4;

/// Takes room for as many items as are expected, where none is there yet, so that a short list has just the room that it needs.
#[inline(always)]
pub fn make_room<T: Drop>(list: &mut Vec<T>, expected: usize) -> Result<(), AllocError>
    ensures { list.new.items ≡ list.old.items }
{
    if list.is_empty() {
        list.reserve_exact(expected)?;
    }
    Ok(())
}

/// One more at the end.
#[inline(always)]
pub fn put<T: Drop>(list: &mut Vec<T>, item: T) -> Result<(), AllocError>
    ensures { OnOk result (list.new.items ≡ list.old.items ++ item ∷ []) }
{
    list.push(item)?;
    Ok(())
}

/// One more at the end of a list of which so many are expected, whose room is taken with the first.
#[inline(always)]
pub fn keep<T: Drop>(list: &mut Vec<T>, expected: usize, item: T) -> Result<(), AllocError>
    ensures { OnOk result (list.new.items ≡ list.old.items ++ item ∷ []) }
{
    make_room(list, expected)?;
    put(list, item)
}

/// How many fields are expected of the struct at a number: as many as it declares, and few where these are many.
pub(crate) fn expected_fields(schema: &Schema, which: u32) -> usize {
    match schema.structs.as_slice().get(which as usize) {
        Some(desc) => desc.fields.as_slice().len().min(MOST_EXPECTED_FIELDS),
        None => 0,
    }
}

/// One more at the end of fields of which so many are expected, where there is one.
pub(crate) fn keep_some(
    list: &mut Vec<(i16, Value)>,
    expected: usize,
    id: &i16,
    item: Option<Value>,
) -> Result<(), AllocError>
    ensures { OnOk result (list.new.items ≡ with_some_more list.old.items (option_map (λ value. (id.now, value)) item)) }
{
    match item {
        Some(value) => {
            keep(list, expected, (*id, value))?;
            Ok(())
        }
        None => Ok(()),
    }
}

/// Both of two values, where both are there.
pub(crate) fn both(key: Option<Value>, value: Option<Value>) -> Option<(Value, Value)>
    ensures { option_map pair_tree result ≡ both_known (option_map tree_of key) (option_map tree_of value) }
{
    match key {
        Some(key) => match value {
            Some(value) => Some((key, value)),
            None => None,
        },
        None => None,
    }
}

/// The number of a struct's type.
pub(crate) fn struct_kind(kind: &TypeDesc) -> u32
    requires { tag_of_kind (kind_of kind.now) ≡ tags.Struct }
    ensures { kind_of kind.now ≡ kind_struct result }
{
    match struct_of_kind(kind) {
        Some(which) => which,
        None => 0,
    }
}

/// The types of a map's keys and values.
pub(crate) fn map_kinds(kind: &TypeDesc) -> (&TypeDesc, &TypeDesc)
    requires { tag_of_kind (kind_of kind.now) ≡ tags.Map }
    ensures { kind_of kind.now ≡ kind_map (kind_of result.0.now) (kind_of result.1.now) }
{
    match map_of_kind(kind) {
        Some(kinds) => kinds,
        None => (kind, kind),
    }
}

/// The type of a set's members.
pub(crate) fn member_kind(kind: &TypeDesc) -> &TypeDesc
    requires { tag_of_kind (kind_of kind.now) ≡ tags.Set }
    ensures { kind_of kind.now ≡ kind_set (kind_of result.now) }
{
    match set_of_kind(kind) {
        Some(member) => member,
        None => kind,
    }
}

/// The type of a list's elements.
pub(crate) fn element_kind(kind: &TypeDesc) -> &TypeDesc
    requires { tag_of_kind (kind_of kind.now) ≡ tags.List }
    ensures { kind_of kind.now ≡ kind_list (kind_of result.now) }
{
    match list_of_kind(kind) {
        Some(element) => element,
        None => kind,
    }
}

/// A map, a set and a list with the tags of the declared types, where all of their elements are known.
#[tactic(auto, using(thrift_value::proofs::Trees::tree_equations))]
pub(crate) fn map_of(key: &TypeDesc, value: &TypeDesc, pairs: Option<Pairs>) -> Option<Value>
    ensures { option_map tree_of result ≡ option_map (of_map (tag_of_kind (kind_of key.now)) (tag_of_kind (kind_of value.now))) (option_map pairs_tree pairs) }
{
    match pairs {
        Some(pairs) => Some(Value::Map(tag_of_kind(key), tag_of_kind(value), pairs)),
        None => None,
    }
}

#[tactic(auto, using(thrift_value::proofs::Trees::tree_equations))]
pub(crate) fn set_of(member: &TypeDesc, items: Option<Items>) -> Option<Value>
    ensures { option_map tree_of result ≡ option_map (of_set (tag_of_kind (kind_of member.now))) (option_map items_tree items) }
{
    match items {
        Some(items) => Some(Value::Set(tag_of_kind(member), items)),
        None => None,
    }
}

#[tactic(auto, using(thrift_value::proofs::Trees::tree_equations))]
pub(crate) fn list_of(element: &TypeDesc, items: Option<Items>) -> Option<Value>
    ensures { option_map tree_of result ≡ option_map (of_list (tag_of_kind (kind_of element.now))) (option_map items_tree items) }
{
    match items {
        Some(items) => Some(Value::List(tag_of_kind(element), items)),
        None => None,
    }
}

/// The declared field with an id of the struct at a number.
pub fn declared_field<'a>(schema: &'a Schema, which: u32, id: &i16) -> Option<&'a FieldDesc>
    requires { IsSound (schema_of schema.now) }
    ensures { option_map plain_field (option_copied result) ≡ field_at (schema_of schema.now) which id.now }
{
    schema.field(which, *id)
}

/// What is known of a bool that a field's header has.
#[tactic(auto, using(thrift_value::proofs::Trees::tree_equations))]
pub(crate) fn known_flag(schema: &Schema, which: u32, id: &i16, flag: bool) -> Option<Value>
    requires { IsSound (schema_of schema.now) }
    ensures { option_map tree_of result ≡ known_value_at (schema_of schema.now) which id.now (of_bool flag) }
{
    let field = declared_field(schema, which, id)?;
    if are_same_tags(tag_of_kind(&field.kind), Tag::Bool) {
        return Some(Value::Bool(flag));
    }
    None
}
