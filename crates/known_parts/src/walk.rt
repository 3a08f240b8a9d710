//! Reading by type: what is declared and fits is kept, and all else is passed over.
ghost use Rattle.std.specs.Prelude.{◌≡◌, ◌≤◌, length, pos, Option, Some, None, Result};
ghost use Rattle.wire_num.specs.Encoded.{AreByteSized};
ghost use Rattle.std.specs.Option.{option_map};
ghost use Rattle.limits.specs.Limits.{most_levels};
ghost use Rattle.thrift_value.specs.declared.tag.Tag.TheVariants as tags;
ghost use Rattle.thrift_value.specs.declared.wire_fault.WireFault.{WireFault};
ghost use Rattle.thrift_value.specs.Tree.{FieldTrees, ItemTrees, PairTrees, of_bytes, of_struct, of_map, of_set, of_list};
ghost use Rattle.thrift_value.specs.TreeOf.{tree_of, fields_tree, items_tree, pairs_tree};
ghost use Rattle.schema.specs.PlainKind.{kind_of, kind_struct, kind_map};
ghost use Rattle.schema.specs.SchemaOf.{schema_of};
ghost use Rattle.schema.specs.Sound.{IsSound};
ghost use Rattle.wire_model.specs.Answering.{AnswersOrNoMemory};
ghost use Rattle.wire_model.specs.AtPlace.{head_of};
ghost use Rattle.wire_model.specs.Decoder.{Unread};
ghost use Rattle.wire_model.specs.Wire.{IsScalar};
ghost use Rattle.wire_model.specs.declared.one_pass.FieldHead.TheVariants.{Field};
ghost use Rattle.wire_model.specs.Reading.{value, field_list, item_list, pair_list};
ghost use Rattle.wire_walk.specs.Walked.{held, elements};
ghost use Rattle.known_parts.specs.Known.{known, known_fields, known_items, known_pairs};
ghost use Rattle.known_parts.specs.KnownAt.{head_value, known_value_at, read_seen};
ghost use Rattle.known_parts.specs.Parts.{tag_of_kind};

use crate::kinds::{are_same_tags, tag_of_kind};
use crate::parts::{
    MOST_EXPECTED, both, declared_field, deeper, element_kind, expected_fields, keep, keep_some,
    kept_text, known_flag, list_of, map_kinds, map_of, member_kind, set_of, struct_kind,
};
use crate::passing::{pass_items, pass_pairs};
use crate::rest::{Rest, field, items, pairs, scalar, skip, span};
use schema::{Schema, TypeDesc};
use std::alloc::Global;
use thrift_value::{Fields, Items, Pairs, Tag, Value, WireFault};
use wire_model::laws::value_read_is_spelled;
use wire_model::{FieldHead, Wire};

/// Passes over a value whose tag isn't that of a type, so that nothing is known of it.
fn unknown<'a, W: Wire>(
    rest: Rest<'a>,
    levels: u32,
    tag: Tag,
) -> Result<(Option<Value>, Rest<'a>), WireFault>
    requires { levels ≤ most_levels }
    ensures { AnswersOrNoMemory (λ r. (option_map tree_of r.0, r.1)) result (read_seen (λ x. None) (value W.wire levels tag rest.entry)) }
{
    let rest = skip::<W>(rest, levels, tag)?;
    Ok((None, rest))
}

/// The text in front, which is known.
fn known_text<'a, W: Wire>(
    alloc: Global,
    rest: Rest<'a>,
) -> Result<(Option<Value>, Rest<'a>), WireFault>
    ensures { AnswersOrNoMemory (λ r. (option_map tree_of r.0, r.1)) result (read_seen (λ text. Some (of_bytes text)) (W.wire.span rest.entry)) }
{
    let (text, rest) = span::<W>(rest)?;
    let value = kept_text(alloc, text)?;
    Ok((Some(value), rest))
}

/// The value in front of a tag that is no text, struct or container, which is known.
fn known_number<'a, W: Wire>(
    rest: Rest<'a>,
    tag: Tag,
) -> Result<(Option<Value>, Rest<'a>), WireFault>
    requires { IsScalar tag }
    ensures { AnswersOrNoMemory (λ r. (option_map tree_of r.0, r.1)) result (read_seen (λ x. Some x) (W.wire.scalar tag rest.entry)) }
{
    let (value, rest) = scalar::<W>(rest, tag)?;
    Ok((Some(value), rest))
}

/// A struct of the fields that are known.
fn struct_in<'a>(
    found: Result<(Fields, Rest<'a>), WireFault>,
) -> Result<(Option<Value>, Rest<'a>), WireFault>
    ensures { (meant : Result (FieldTrees × Unread) WireFault) → AnswersOrNoMemory (λ r. (fields_tree r.0, r.1)) found.entry meant
        → AnswersOrNoMemory (λ r. (option_map tree_of r.0, r.1)) result (read_seen (λ f. Some (of_struct f)) meant) }
{
    let (fields, rest) = found?;
    Ok((Some(Value::Struct(fields)), rest))
}

/// A map of the pairs that are known, if all of them are.
fn map_in<'a>(
    key: &TypeDesc,
    value: &TypeDesc,
    found: Result<(Option<Pairs>, Rest<'a>), WireFault>,
) -> Result<(Option<Value>, Rest<'a>), WireFault>
    ensures { (meant : Result (Option PairTrees × Unread) WireFault) → AnswersOrNoMemory (λ r. (option_map pairs_tree r.0, r.1)) found.entry meant
        → AnswersOrNoMemory (λ r. (option_map tree_of r.0, r.1)) result
        (read_seen (option_map (of_map (tag_of_kind (kind_of key.now)) (tag_of_kind (kind_of value.now)))) meant) }
{
    let (pairs, rest) = found?;
    Ok((map_of(key, value, pairs), rest))
}

/// A set of the members that are known, if all of them are.
fn set_in<'a>(
    member: &TypeDesc,
    found: Result<(Option<Items>, Rest<'a>), WireFault>,
) -> Result<(Option<Value>, Rest<'a>), WireFault>
    ensures { (meant : Result (Option ItemTrees × Unread) WireFault) → AnswersOrNoMemory (λ r. (option_map items_tree r.0, r.1)) found.entry meant
        → AnswersOrNoMemory (λ r. (option_map tree_of r.0, r.1)) result (read_seen (option_map (of_set (tag_of_kind (kind_of member.now)))) meant) }
{
    let (items, rest) = found?;
    Ok((set_of(member, items), rest))
}

/// A list of the elements that are known, if all of them are.
fn list_in<'a>(
    element: &TypeDesc,
    found: Result<(Option<Items>, Rest<'a>), WireFault>,
) -> Result<(Option<Value>, Rest<'a>), WireFault>
    ensures { (meant : Result (Option ItemTrees × Unread) WireFault) → AnswersOrNoMemory (λ r. (option_map items_tree r.0, r.1)) found.entry meant
        → AnswersOrNoMemory (λ r. (option_map tree_of r.0, r.1)) result (read_seen (option_map (of_list (tag_of_kind (kind_of element.now)))) meant) }
{
    let (items, rest) = found?;
    Ok((list_of(element, items), rest))
}

/// What a type knows of the value of a tag in front, with so many levels that may still be opened.
#[cycle(knowing)]
pub(crate) fn known_value<'a, W: Wire>(
    alloc: Global,
    rest: Rest<'a>,
    levels: u32,
    schema: &Schema,
    kind: &TypeDesc,
    tag: Tag,
) -> Result<(Option<Value>, Rest<'a>), WireFault>
    requires sound { IsSound (schema_of schema.now) }
    requires levels { levels ≤ most_levels }
    ensures { AnswersOrNoMemory (λ r. (option_map tree_of r.0, r.1)) result
        (read_seen (λ x. known (schema_of schema.now) x (kind_of kind.now)) (value W.wire levels tag rest.entry)) }
{
    W::parts_agree();
    value_read_is_spelled::<W>();
    are_bytes(rest.bytes());
    if !are_same_tags(tag_of_kind(kind), tag) {
        return unknown::<W>(rest, levels, tag);
    }
    let rest = rest.count_value()?;
    match tag {
        Tag::Bytes => known_text::<W>(alloc, rest),
        Tag::Struct => known_struct::<W>(alloc, rest, levels, schema, struct_kind(kind)),
        Tag::Map => {
            let (key, value) = map_kinds(kind);
            known_map::<W>(alloc, rest, levels, schema, key, value)
        }
        Tag::Set => {
            let member = member_kind(kind);
            set_in(
                member,
                known_elements::<W>(alloc, rest, levels, schema, member),
            )
        }
        Tag::List => {
            let element = element_kind(kind);
            list_in(
                element,
                known_elements::<W>(alloc, rest, levels, schema, element),
            )
        }
        tag => known_number::<W>(rest, tag),
    }
}

/// What is known of a struct that was counted.
#[cycle(knowing)]
fn known_struct<'a, W: Wire>(
    alloc: Global,
    rest: Rest<'a>,
    levels: u32,
    schema: &Schema,
    which: u32,
) -> Result<(Option<Value>, Rest<'a>), WireFault>
    requires sound { IsSound (schema_of schema.now) }
    requires levels { levels ≤ most_levels }
    ensures { AnswersOrNoMemory (λ r. (option_map tree_of r.0, r.1)) result
        (read_seen (λ x. known (schema_of schema.now) x (kind_struct which)) (held W.wire levels tags.Struct rest.entry)) }
{
    let levels = deeper(levels)?;
    struct_in(known_fields::<W>(alloc, rest, levels, schema, which))
}

/// What is known of a map that was counted, of keys and values of these types.
#[cycle(knowing)]
fn known_map<'a, W: Wire>(
    alloc: Global,
    rest: Rest<'a>,
    levels: u32,
    schema: &Schema,
    key: &TypeDesc,
    value: &TypeDesc,
) -> Result<(Option<Value>, Rest<'a>), WireFault>
    requires sound { IsSound (schema_of schema.now) }
    requires levels { levels ≤ most_levels }
    ensures { AnswersOrNoMemory (λ r. (option_map tree_of r.0, r.1)) result
        (read_seen (λ x. known (schema_of schema.now) x (kind_map (kind_of key.now) (kind_of value.now))) (held W.wire levels tags.Map rest.entry)) }
{
    let levels = deeper(levels)?;
    let (key_tag, value_tag, count, rest) = pairs::<W>(rest)?;
    map_in(
        key,
        value,
        known_pairs::<W>(
            alloc, rest, levels, schema, key, value, key_tag, value_tag, count,
        ),
    )
}

/// What is known of the elements of a set or list that was counted.
#[cycle(knowing)]
fn known_elements<'a, W: Wire>(
    alloc: Global,
    rest: Rest<'a>,
    levels: u32,
    schema: &Schema,
    kind: &TypeDesc,
) -> Result<(Option<Items>, Rest<'a>), WireFault>
    requires sound { IsSound (schema_of schema.now) }
    requires levels { levels ≤ most_levels }
    ensures { AnswersOrNoMemory (λ r. (option_map items_tree r.0, r.1)) result
        (read_seen (λ e. known_items (schema_of schema.now) e.1 (kind_of kind.now)) (elements W.wire levels rest.entry)) }
{
    let levels = deeper(levels)?;
    let (tag, count, rest) = items::<W>(rest)?;
    known_items::<W>(alloc, rest, levels, schema, kind, tag, count)
}

/// Bytes are below 256.
fn are_bytes(bytes: &[u8])
    ensures { AreByteSized bytes.now }
{}

/// What is known of a field's value, whose header was read.
#[cycle(knowing)]
fn known_field<'a, W: Wire>(
    alloc: Global,
    rest: Rest<'a>,
    levels: u32,
    schema: &Schema,
    which: u32,
    id: &i16,
    tag: Tag,
    flag: Option<bool>,
) -> Result<(Option<Value>, Rest<'a>), WireFault>
    requires sound { IsSound (schema_of schema.now) }
    requires levels { levels ≤ most_levels }
    ensures { AnswersOrNoMemory (λ r. (option_map tree_of r.0, r.1)) result
        (read_seen (known_value_at (schema_of schema.now) which id.now) (head_value W.wire levels (head_of (Field id.now tag flag)) rest.entry)) }
{
    if let Some(flag) = flag {
        let rest = rest.count_value()?;
        return Ok((known_flag(schema, which, id, flag), rest));
    }
    match declared_field(schema, which, id) {
        Some(declared) => known_value::<W>(alloc, rest, levels, schema, &declared.kind, tag),
        None => unknown::<W>(rest, levels, tag),
    }
}

/// What is known of the fields of a struct, up to its end.
#[cycle(knowing)]
pub(crate) fn known_fields<'a, W: Wire>(
    alloc: Global,
    rest: Rest<'a>,
    levels: u32,
    schema: &Schema,
    which: u32,
) -> Result<(Fields, Rest<'a>), WireFault>
    requires sound { IsSound (schema_of schema.now) }
    requires levels { levels ≤ most_levels }
    ensures { AnswersOrNoMemory (λ r. (fields_tree r.0, r.1)) result
        (read_seen (known_fields (schema_of schema.now) which) (field_list W.wire (value W.wire levels) (length rest.entry.bytes) (pos 0) rest.entry)) }
{
    let mut fields = Vec::new(alloc);
    let expected = expected_fields(schema, which);
    let mut last = 0;
    let mut rest = rest;
    // Each header takes a byte at least: the count shows that the loop ends.
    for step in 0..rest.bytes().len() {
        let (head, behind) = field::<W>(rest, last)?;
        match head {
            FieldHead::Stop => return Ok((Fields::new(fields), behind)),
            FieldHead::Field { id, tag, flag } => {
                let (part, behind) = known_field::<W>(
                    alloc, behind, levels, schema, which, &id, tag, flag,
                )?;
                keep_some(&mut fields, expected, &id, part)?;
                last = id;
                rest = behind;
                continue;
            }
        }
    }
    Err(WireFault::Short)
}

/// What is known of so many values of a tag: all of them, or nothing.
#[cycle(knowing)]
fn known_items<'a, W: Wire>(
    alloc: Global,
    rest: Rest<'a>,
    levels: u32,
    schema: &Schema,
    kind: &TypeDesc,
    tag: Tag,
    count: u32,
) -> Result<(Option<Items>, Rest<'a>), WireFault>
    requires sound { IsSound (schema_of schema.now) }
    requires levels { levels ≤ most_levels }
    ensures { AnswersOrNoMemory (λ r. (option_map items_tree r.0, r.1)) result
        (read_seen (λ all. known_items (schema_of schema.now) all (kind_of kind.now)) (item_list (value W.wire levels) tag count rest.entry)) }
{
    let mut items = Vec::new(alloc);
    let expected = (count as usize).min(MOST_EXPECTED);
    let mut rest = rest;
    for step in 0..count {
        let (part, behind) = known_value::<W>(alloc, rest, levels, schema, kind, tag)?;
        let Some(value) = part else {
            let end = pass_items::<W>(behind, levels, tag, count - step - 1)?;
            return Ok((None, end));
        };
        keep(&mut items, expected, value)?;
        rest = behind;
    }
    Ok((Some(Items::new(items)), rest))
}

/// What is known of so many pairs: all of them, or nothing.
#[cycle(knowing)]
fn known_pairs<'a, W: Wire>(
    alloc: Global,
    rest: Rest<'a>,
    levels: u32,
    schema: &Schema,
    key_kind: &TypeDesc,
    value_kind: &TypeDesc,
    key_tag: Tag,
    value_tag: Tag,
    count: u32,
) -> Result<(Option<Pairs>, Rest<'a>), WireFault>
    requires sound { IsSound (schema_of schema.now) }
    requires levels { levels ≤ most_levels }
    ensures { AnswersOrNoMemory (λ r. (option_map pairs_tree r.0, r.1)) result
        (read_seen (λ all. known_pairs (schema_of schema.now) all (kind_of key_kind.now) (kind_of value_kind.now))
        (pair_list (value W.wire levels) key_tag value_tag count rest.entry)) }
{
    let mut pairs = Vec::new(alloc);
    let expected = (count as usize).min(MOST_EXPECTED);
    let mut rest = rest;
    for step in 0..count {
        let (key, between) = known_value::<W>(alloc, rest, levels, schema, key_kind, key_tag)?;
        let (value, behind) = known_value::<W>(
            alloc, between, levels, schema, value_kind, value_tag,
        )?;
        let Some(found) = both(key, value) else {
            let end = pass_pairs::<W>(behind, levels, key_tag, value_tag, count - step - 1)?;
            return Ok((None, end));
        };
        keep(&mut pairs, expected, found)?;
        rest = behind;
    }
    Ok((Some(Pairs::new(pairs)), rest))
}
