//! Passing over a value: the walk of reading, which keeps nothing.

ghost use Rattle.std.specs.Prelude.{pos, length};
ghost use Rattle.thrift_value.specs.declared.tag.Tag.TheVariants as tags;
ghost use Rattle.wire_model.specs.Answering.{AnswersExactly};
ghost use Rattle.wire_model.specs.AtPlace.{passed_over};
ghost use Rattle.wire_model.specs.Reading.{value, field_list, item_list, pair_list};
ghost use Rattle.wire_walk.specs.Walked.{held, elements};

use crate::codec::Codec;
use crate::header::Header;
use crate::input::Input;
use crate::reading::deeper;
use thrift_value::{Tag, WireFault};

/// What is left behind the value of a tag in front, with so many levels that may still be opened.
#[cycle(passing)]
pub fn skip<'a, C: Codec>(rest: Input<'a>, levels: u32, tag: Tag) -> Result<Input<'a>, WireFault>
    ensures { AnswersExactly (λ r. r) result (passed_over (value C.wire levels tag rest.entry)) }
{
    let rest = rest.count_value()?;
    skip_held::<C>(rest, levels, tag)
}

/// What is left behind what a value holds that was counted.
#[cycle(passing)]
#[inline(always)]
fn skip_held<'a, C: Codec>(rest: Input<'a>, levels: u32, tag: Tag) -> Result<Input<'a>, WireFault>
    ensures { AnswersExactly (λ r. r) result (passed_over (held C.wire levels tag rest.entry)) }
{
    match tag {
        Tag::Bytes => skip_text::<C>(rest),
        Tag::Struct => skip_struct::<C>(rest, levels),
        Tag::Map => skip_map::<C>(rest, levels),
        Tag::Set => skip_elements::<C>(rest, levels),
        Tag::List => skip_elements::<C>(rest, levels),
        tag => skip_scalar::<C>(rest, tag),
    }
}

/// The same of a text.
#[inline(always)]
fn skip_text<'a, C: Codec>(rest: Input<'a>) -> Result<Input<'a>, WireFault>
    ensures { AnswersExactly (λ r. r) result (passed_over (C.wire.span rest.entry)) }
{
    let (_, rest) = C::span(rest)?;
    Ok(rest)
}

/// The same of a number or a bool.
#[inline(always)]
fn skip_scalar<'a, C: Codec>(rest: Input<'a>, tag: Tag) -> Result<Input<'a>, WireFault>
    ensures { AnswersExactly (λ r. r) result (passed_over (C.wire.scalar tag rest.entry)) }
{
    let (_, rest) = C::scalar(tag, rest)?;
    Ok(rest)
}

/// The same of a struct, with its level opened.
#[cycle(passing)]
#[inline(always)]
fn skip_struct<'a, C: Codec>(rest: Input<'a>, levels: u32) -> Result<Input<'a>, WireFault>
    ensures { AnswersExactly (λ r. r) result (passed_over (held C.wire levels tags.Struct rest.entry)) }
{
    let levels = deeper(levels)?;
    skip_fields::<C>(rest, levels)
}

/// The same of a map, with its level opened.
#[cycle(passing)]
#[inline(always)]
fn skip_map<'a, C: Codec>(rest: Input<'a>, levels: u32) -> Result<Input<'a>, WireFault>
    ensures { AnswersExactly (λ r. r) result (passed_over (held C.wire levels tags.Map rest.entry)) }
{
    let levels = deeper(levels)?;
    let (key, value, count, rest) = C::pairs(rest)?;
    skip_pairs::<C>(rest, levels, key, value, count)
}

/// The same of a set or list, with its level opened.
#[cycle(passing)]
#[inline(always)]
fn skip_elements<'a, C: Codec>(rest: Input<'a>, levels: u32) -> Result<Input<'a>, WireFault>
    ensures { AnswersExactly (λ r. r) result (passed_over (elements C.wire levels rest.entry)) }
{
    let levels = deeper(levels)?;
    let (element, count, rest) = C::items(rest)?;
    skip_items::<C>(rest, levels, element, count)
}

/// The same of the fields of a struct, up to its end.
#[cycle(passing)]
fn skip_fields<'a, C: Codec>(rest: Input<'a>, levels: u32) -> Result<Input<'a>, WireFault>
    ensures { AnswersExactly (λ r. r) result
        (passed_over (field_list C.wire (value C.wire levels) (length rest.entry.bytes) (pos 0) rest.entry)) }
{
    let mut last = 0;
    let mut rest = rest;
    // As in reading, the count shows that the loop ends, and each arm goes on by itself.
    for step in 0..rest.bytes().len() {
        let (header, behind) = C::field(last, rest)?;
        match header {
            Header::Stop => return Ok(behind),
            Header::Field(id, tag) => {
                rest = skip::<C>(behind, levels, tag)?;
                last = id;
                continue;
            }
            Header::Flag(id, _) => {
                rest = behind.count_value()?;
                last = id;
                continue;
            }
        }
    }
    Err(WireFault::Short)
}

/// The same of so many values of a tag.
#[cycle(passing)]
fn skip_items<'a, C: Codec>(
    rest: Input<'a>,
    levels: u32,
    tag: Tag,
    count: usize,
) -> Result<Input<'a>, WireFault>
    ensures { AnswersExactly (λ r. r) result (passed_over (item_list (value C.wire levels) tag count rest.entry)) }
{
    let mut rest = rest;
    for step in 0..count {
        rest = skip::<C>(rest, levels, tag)?;
    }
    Ok(rest)
}

/// The same of so many pairs.
#[cycle(passing)]
fn skip_pairs<'a, C: Codec>(
    rest: Input<'a>,
    levels: u32,
    key_tag: Tag,
    value_tag: Tag,
    count: usize,
) -> Result<Input<'a>, WireFault>
    ensures { AnswersExactly (λ r. r) result
        (passed_over (pair_list (value C.wire levels) key_tag value_tag count rest.entry)) }
{
    let mut rest = rest;
    for step in 0..count {
        let behind = skip::<C>(rest, levels, key_tag)?;
        rest = skip::<C>(behind, levels, value_tag)?;
    }
    Ok(rest)
}
