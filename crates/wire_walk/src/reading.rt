//! Reading a value: level by level, from left to right.

ghost use Rattle.std.specs.Prelude.{◌≡◌, length, pos, suc, ◌+◌, ◌<◌, ◌++◌, ◌∷◌, [], MatchResult, IfOk, OnOk};
ghost use Rattle.thrift_value.specs.declared.tag.Tag.TheVariants as tags;
ghost use Rattle.thrift_value.specs.Tree.{of_bytes};
ghost use Rattle.thrift_value.specs.TreeOf.{tree_of, fields_tree, items_tree, pairs_tree};
ghost use Rattle.wire_model.specs.Answering.{AnswersOrNoMemory};
ghost use Rattle.wire_model.specs.Decoder.{go_on, give};
ghost use Rattle.wire_model.specs.Reading.{value, field_list, item_list, pair_list};
ghost use Rattle.wire_walk.specs.Walked.{held, elements};

use crate::codec::Codec;
use crate::header::Header;
use crate::input::Input;
use std::alloc::{AllocError, Global};
use thrift_value::{ByteText, Fields, Items, Pairs, Tag, Value, WireFault};

/// The value of a tag in front, with so many levels that may still be opened.
#[cycle(reading)]
pub fn read<'a, C: Codec>(
    alloc: Global,
    rest: Input<'a>,
    levels: u32,
    tag: Tag,
) -> Result<(Value, Input<'a>), WireFault>
    ensures { AnswersOrNoMemory (λ r. (tree_of r.0, r.1)) result (value C.wire levels tag rest.entry) }
{
    let rest = rest.count_value()?;
    read_held::<C>(alloc, rest, levels, tag)
}

/// What a value holds that was counted.
#[cycle(reading)]
#[inline(always)]
fn read_held<'a, C: Codec>(
    alloc: Global,
    rest: Input<'a>,
    levels: u32,
    tag: Tag,
) -> Result<(Value, Input<'a>), WireFault>
    ensures { AnswersOrNoMemory (λ r. (tree_of r.0, r.1)) result (held C.wire levels tag rest.entry) }
{
    match tag {
        Tag::Bytes => read_text::<C>(alloc, rest),
        Tag::Struct => open_struct::<C>(alloc, rest, levels),
        Tag::Map => open_map::<C>(alloc, rest, levels),
        Tag::Set => open_set::<C>(alloc, rest, levels),
        Tag::List => open_list::<C>(alloc, rest, levels),
        tag => C::scalar(tag, rest),
    }
}

/// A text in front, in memory of its own.
#[inline(always)]
fn read_text<'a, C: Codec>(alloc: Global, rest: Input<'a>) -> Result<(Value, Input<'a>), WireFault>
    ensures { AnswersOrNoMemory (λ r. (tree_of r.0, r.1)) result (go_on (C.wire.span rest.entry) (λ text. give (of_bytes text))) }
{
    let (text, rest) = C::span(rest)?;
    let value = kept_text(alloc, text)?;
    Ok((value, rest))
}

/// A struct, with its level opened.
#[cycle(reading)]
#[inline(always)]
fn open_struct<'a, C: Codec>(
    alloc: Global,
    rest: Input<'a>,
    levels: u32,
) -> Result<(Value, Input<'a>), WireFault>
    ensures { AnswersOrNoMemory (λ r. (tree_of r.0, r.1)) result (held C.wire levels tags.Struct rest.entry) }
{
    let levels = deeper(levels)?;
    let (fields, rest) = read_fields::<C>(alloc, rest, levels)?;
    Ok((Value::Struct(fields), rest))
}

/// A map, with its level opened.
#[cycle(reading)]
#[inline(always)]
fn open_map<'a, C: Codec>(
    alloc: Global,
    rest: Input<'a>,
    levels: u32,
) -> Result<(Value, Input<'a>), WireFault>
    ensures { AnswersOrNoMemory (λ r. (tree_of r.0, r.1)) result (held C.wire levels tags.Map rest.entry) }
{
    let levels = deeper(levels)?;
    let (key, value, count, rest) = C::pairs(rest)?;
    let (pairs, rest) = read_pairs::<C>(alloc, rest, levels, key, value, count)?;
    Ok((Value::Map(key, value, pairs), rest))
}

/// A set, with its level opened.
#[cycle(reading)]
#[inline(always)]
fn open_set<'a, C: Codec>(
    alloc: Global,
    rest: Input<'a>,
    levels: u32,
) -> Result<(Value, Input<'a>), WireFault>
    ensures { AnswersOrNoMemory (λ r. (tree_of r.0, r.1)) result (held C.wire levels tags.Set rest.entry) }
{
    let (element, items, rest) = open_elements::<C>(alloc, rest, levels)?;
    Ok((Value::Set(element, items), rest))
}

/// A list, with its level opened.
#[cycle(reading)]
#[inline(always)]
fn open_list<'a, C: Codec>(
    alloc: Global,
    rest: Input<'a>,
    levels: u32,
) -> Result<(Value, Input<'a>), WireFault>
    ensures { AnswersOrNoMemory (λ r. (tree_of r.0, r.1)) result (held C.wire levels tags.List rest.entry) }
{
    let (element, items, rest) = open_elements::<C>(alloc, rest, levels)?;
    Ok((Value::List(element, items), rest))
}

/// What a set and a list hold alike: the tag of the elements, and the elements.
#[cycle(reading)]
#[inline(always)]
fn open_elements<'a, C: Codec>(
    alloc: Global,
    rest: Input<'a>,
    levels: u32,
) -> Result<(Tag, Items, Input<'a>), WireFault>
    ensures { AnswersOrNoMemory (λ r. ((r.0, items_tree r.1), r.2)) result (elements C.wire levels rest.entry) }
{
    let levels = deeper(levels)?;
    let (element, count, rest) = C::items(rest)?;
    let (items, rest) = read_items::<C>(alloc, rest, levels, element, count)?;
    Ok((element, items, rest))
}

/// One level less, if there is one.
pub(crate) fn deeper(levels: u32) -> Result<u32, WireFault>
    ensures { MatchResult result (λ n. levels ≡ suc n) (λ fault. (levels ≡ 0) × (fault ≡ WireFault.TooDeep)) }
{
    if levels == 0 {
        return Err(WireFault::TooDeep);
    }
    Ok(levels - 1)
}

/// A text in memory of its own.
#[tactic(auto, using(thrift_value::proofs::Trees::tree_equations))]
fn kept_text(alloc: Global, text: &[u8]) -> Result<Value, AllocError>
    ensures { IfOk result (λ value. tree_of value ≡ of_bytes text.now) }
{
    Ok(Value::Bytes(ByteText::new(text.to_vec(alloc)?)))
}

/// One more at the end of a list: a function of its own, so that a proof meets the dropping of what wasn't kept only here.
fn keep<T: Drop>(list: &mut Vec<T>, item: T) -> Result<(), AllocError>
    ensures { OnOk result (list.new.items ≡ list.old.items ++ item ∷ []) }
{
    list.push(item)?;
    Ok(())
}

/// The fields of a struct, up to its end.
#[cycle(reading)]
fn read_fields<'a, C: Codec>(
    alloc: Global,
    rest: Input<'a>,
    levels: u32,
) -> Result<(Fields, Input<'a>), WireFault>
    ensures { AnswersOrNoMemory (λ r. (fields_tree r.0, r.1)) result
        (field_list C.wire (value C.wire levels) (length rest.entry.bytes) (pos 0) rest.entry) }
{
    let mut fields = Vec::new(alloc);
    let mut last = 0;
    let mut rest = rest;
    // Each header takes a byte at least. The count shows that the loop ends, and each arm goes on by itself, so that a proof has
    // no two arms to join.
    for step in 0..rest.bytes().len() {
        let (header, behind) = C::field(last, rest)?;
        match header {
            Header::Stop => return Ok((Fields::new(fields), behind)),
            Header::Field(id, tag) => {
                let (value, behind) = read::<C>(alloc, behind, levels, tag)?;
                keep(&mut fields, (id, value))?;
                last = id;
                rest = behind;
                continue;
            }
            Header::Flag(id, flag) => {
                let behind = behind.count_value()?;
                keep(&mut fields, (id, Value::Bool(flag)))?;
                last = id;
                rest = behind;
                continue;
            }
        }
    }
    Err(WireFault::Short)
}

/// Reads so many values of a tag.
#[cycle(reading)]
fn read_items<'a, C: Codec>(
    alloc: Global,
    rest: Input<'a>,
    levels: u32,
    tag: Tag,
    count: usize,
) -> Result<(Items, Input<'a>), WireFault>
    ensures { AnswersOrNoMemory (λ r. (items_tree r.0, r.1)) result (item_list (value C.wire levels) tag count rest.entry) }
{
    let mut items = Vec::new(alloc);
    let mut rest = rest;
    for step in 0..count {
        let (value, behind) = read::<C>(alloc, rest, levels, tag)?;
        keep(&mut items, value)?;
        rest = behind;
    }
    Ok((Items::new(items), rest))
}

/// Reads so many pairs.
#[cycle(reading)]
fn read_pairs<'a, C: Codec>(
    alloc: Global,
    rest: Input<'a>,
    levels: u32,
    key_tag: Tag,
    value_tag: Tag,
    count: usize,
) -> Result<(Pairs, Input<'a>), WireFault>
    ensures { AnswersOrNoMemory (λ r. (pairs_tree r.0, r.1)) result
        (pair_list (value C.wire levels) key_tag value_tag count rest.entry) }
{
    let mut pairs = Vec::new(alloc);
    let mut rest = rest;
    for step in 0..count {
        let (key, behind) = read::<C>(alloc, rest, levels, key_tag)?;
        let (value, behind) = read::<C>(alloc, behind, levels, value_tag)?;
        keep(&mut pairs, (key, value))?;
        rest = behind;
    }
    Ok((Pairs::new(pairs), rest))
}
