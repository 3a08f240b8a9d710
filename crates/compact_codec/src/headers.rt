//! Headers of fields and of containers, whose first byte has two halves (Thrift compact protocol, 'Struct', 'List and Set', 'Map').

ghost use Rattle.std.specs.Prelude.{◌≡◌, ◌++◌, ◌<◌, ◌-ℤ◌, OnOk, OnErr};
ghost use Rattle.wire_model.specs.Answering.{AnswersExactly};
ghost use Rattle.wire_walk.specs.Steps.{field_header_of, Grows};
ghost use Rattle.compact_codec.specs.Reading.{id_by_delta, header_by, items_size, items_in_half, pairs_in_byte};
ghost use Rattle.compact_codec.specs.Written.{heading_bytes, short_delta};

use crate::codes::tag_coded;
use crate::numbers::{i16_in, room_in, size_in};
use std::alloc::AllocError;
use thrift_value::{Tag, WireFault};
use wire_num::{put_u8, put_varint32, zigzag32};
use wire_walk::{Header, Input};

/// The id of a field: so much above that of the field before, or, where this is 0, a number of its own.
#[inline(always)]
pub(crate) fn id_by_delta(
    last: i16,
    delta: u8,
    rest: Input<'_>,
) -> Result<(i16, Input<'_>), WireFault>
    ensures { AnswersExactly (λ r. (r.0, r.1)) result (id_by_delta last delta rest.entry) }
{
    if delta == 0 {
        return i16_in(rest);
    }
    let id = i32::from(last) + i32::from(delta);
    if id >= 1 << 15 {
        return Err(WireFault::FieldRange);
    }
    Ok((id as i16, rest))
}

/// The header of a field with this code: a bool has its value in it.
#[inline(always)]
pub(crate) fn header_by(code: u8, tag: Tag, id: i16) -> Header
    ensures { field_header_of result ≡ header_by code tag id }
{
    match tag {
        Tag::Bool => Header::Flag(id, code == 1),
        tag => Header::Field(id, tag),
    }
}

/// Appends a header with this code: with a delta where the id is 1 to 15 above that of the field before.
#[inline(always)]
pub(crate) fn put_heading(
    code: u8,
    last: i16,
    id: i16,
    into: &mut Vec<u8>,
) -> Result<(), AllocError>
    requires { code < 16 }
    ensures ok { OnOk result (into.new.items ≡ into.old.items ++ heading_bytes code last id) }
    ensures err { OnErr result (Grows into.old.items into.new.items) }
{
    let delta = short_delta(last, id);
    if delta == 0 {
        put_u8(into, code)?;
        return put_varint32(into, zigzag32(i32::from(id)));
    }
    put_u8(into, 16 * delta + code)
}

/// How far an id is above that of the field before, where that is 1 to 15; else 0.
#[inline(always)]
fn short_delta(last: i16, id: i16) -> u8
    ensures delta { result ≡ short_delta (id -ℤ last) }
    ensures half { result < 16 }
{
    let delta = i32::from(id) - i32::from(last);
    match delta {
        1..=15 => delta as u8,
        _ => 0,
    }
}

/// The size that a header's byte has, or, where that is 15, the number behind it.
pub(crate) fn items_size(size: u8, rest: Input<'_>) -> Result<(usize, Input<'_>), WireFault>
    ensures { AnswersExactly (λ r. (r.0, r.1)) result (items_size size rest.entry) }
{
    if size == 15 {
        return size_in(rest);
    }
    room_in(usize::from(size), rest)
}

/// The tag of the elements of a container of this size.
pub(crate) fn items_in_half(
    code: u8,
    size: usize,
    rest: Input<'_>,
) -> Result<(Tag, usize, Input<'_>), WireFault>
    ensures { AnswersExactly (λ r. ((r.0, r.1), r.2)) result (items_in_half code size rest.entry) }
{
    if size == 0 {
        return Ok((Tag::Bool, size, rest));
    }
    let (tag, rest) = tag_coded(code, rest)?;
    Ok((tag, size, rest))
}

/// The tags of the keys and of the values of a map: the halves of a byte.
pub(crate) fn pairs_in_byte(
    size: usize,
    byte: u8,
    rest: Input<'_>,
) -> Result<(Tag, Tag, usize, Input<'_>), WireFault>
    ensures { AnswersExactly (λ r. ((r.0, r.1, r.2), r.3)) result (pairs_in_byte size byte rest.entry) }
{
    let (key, rest) = tag_coded(byte / 16, rest)?;
    let (value, rest) = tag_coded(byte % 16, rest)?;
    Ok((key, value, size, rest))
}
