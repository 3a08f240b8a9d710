//! How the compact protocol reads and writes the parts of a value that hold no other values.

ghost use Rattle.std.specs.Prelude.{◌≡◌, ◌<◌, ◌^◌, ◌++◌, length, OnOk, OnErr};
ghost use Rattle.thrift_value.specs.TreeOf.{tree_of};
ghost use Rattle.wire_walk.specs.Steps.{field_header_of, Grows};
ghost use Rattle.compact_codec.specs.Reading.{compact_field, compact_scalar, compact_span, compact_items, compact_pairs};
ghost use Rattle.compact_codec.specs.Written.{compact_header, compact_scalar_text, compact_span_text, compact_items_header, compact_pairs_header};

use crate::codes::{code_of, code_of_flag, tag_coded};
use crate::headers::{
    header_by, id_by_delta, items_in_half, items_size, pairs_in_byte, put_heading,
};
use crate::numbers::{size_in, u8_in};
use crate::protocol::Compact;
use crate::values::{
    bool_value, double_value, i8_value, i16_value, i32_value, i64_value, uuid_value,
};
use crate::varints::{append_varint32, append_varint64};
use std::alloc::AllocError;
use thrift_value::{Tag, Value, WireFault};
use wire_num::{put_be128, put_le64, put_u8, zigzag32, zigzag64};
use wire_walk::{Codec, Header, Input};

impl Codec for Compact {
    // A header is 0, or a byte of a delta and a code, and maybe an id (Thrift compact protocol, 'Struct').
    #[tactic(auto, unfolding(crate::specs::Reading::compact_field))]
    #[inline(always)]
    fn field<'a>(last: i16, rest: Input<'a>) -> Result<(Header, Input<'a>), WireFault> {
        let (byte, rest) = u8_in(rest)?;
        if byte == 0 {
            return Ok((Header::Stop, rest));
        }
        let code = byte % 16;
        let (tag, rest) = tag_coded(code, rest)?;
        let (id, rest) = id_by_delta(last, byte / 16, rest)?;
        Ok((header_by(code, tag, id), rest))
    }

    // A number (Thrift compact protocol, 'Integer encoding', 'Double encoding'), or a bool, whose byte is 1 or 2 ('Boolean
    // encoding'). Own choice: every byte but 1 is false, and a uuid is sixteen bytes, the highest first.
    #[tactic(auto, unfolding(crate::specs::Reading::compact_scalar))]
    #[inline(always)]
    fn scalar<'a>(tag: Tag, rest: Input<'a>) -> Result<(Value, Input<'a>), WireFault> {
        match tag {
            Tag::Bool => bool_value(rest),
            Tag::I8 => i8_value(rest),
            Tag::I16 => i16_value(rest),
            Tag::I32 => i32_value(rest),
            Tag::I64 => i64_value(rest),
            Tag::Double => double_value(rest),
            Tag::Uuid => uuid_value(rest),
            _ => Err(WireFault::Short),
        }
    }

    // A length and that many bytes (Thrift compact protocol, 'Binary encoding').
    #[tactic(auto, unfolding(crate::specs::Reading::compact_span))]
    fn span<'a>(rest: Input<'a>) -> Result<(&'a [u8], Input<'a>), WireFault> {
        let (size, rest) = size_in(rest)?;
        rest.next(size)
    }

    // A byte of a size and a code, and maybe a size (Thrift compact protocol, 'List and Set'). Own choice: the code of an empty
    // container isn't looked at.
    #[tactic(auto, unfolding(crate::specs::Reading::compact_items))]
    fn items<'a>(rest: Input<'a>) -> Result<(Tag, usize, Input<'a>), WireFault> {
        let (byte, rest) = u8_in(rest)?;
        let (size, rest) = items_size(byte / 16, rest)?;
        items_in_half(byte % 16, size, rest)
    }

    // A size and, where that isn't 0, a byte of two codes (Thrift compact protocol, 'Map').
    #[tactic(auto, unfolding(crate::specs::Reading::compact_pairs))]
    fn pairs<'a>(rest: Input<'a>) -> Result<(Tag, Tag, usize, Input<'a>), WireFault> {
        let (size, rest) = size_in(rest)?;
        if size == 0 {
            return Ok((Tag::Bool, Tag::Bool, size, rest));
        }
        let (byte, rest) = u8_in(rest)?;
        pairs_in_byte(size, byte, rest)
    }

    fn flags() -> bool {
        true
    }

    #[inline(always)]
    fn put_header(last: i16, header: Header, into: &mut Vec<u8>) -> Result<(), AllocError> {
        match header {
            Header::Stop => put_u8(into, 0),
            Header::Field(id, tag) => put_heading(code_of(tag), last, id, into),
            Header::Flag(id, flag) => put_heading(code_of_flag(flag), last, id, into),
        }
    }

    #[inline(always)]
    fn put_scalar(value: &Value, into: &mut Vec<u8>) -> Result<(), AllocError> {
        match value {
            Value::Bool(flag) => put_u8(into, code_of_flag(*flag)),
            Value::I8(number) => into.extend_from_slice(&number.to_be_bytes()),
            Value::I16(number) => append_varint32(into, zigzag32(i32::from(*number))),
            Value::I32(number) => append_varint32(into, zigzag32(*number)),
            Value::I64(number) => append_varint64(into, zigzag64(*number)),
            Value::Double(bits) => put_le64(into, *bits),
            Value::Uuid(uuid) => put_be128(into, uuid.number()),
            _ => Ok(()),
        }
    }

    fn put_span(text: &[u8], into: &mut Vec<u8>) -> Result<(), AllocError> {
        append_varint32(into, text.len() as u32)?;
        into.extend_from_slice(text)
    }

    fn put_items(tag: Tag, count: usize, into: &mut Vec<u8>) -> Result<(), AllocError> {
        if count < 15 {
            return put_u8(into, 16 * count as u8 + code_of(tag));
        }
        put_u8(into, 240 + code_of(tag))?;
        append_varint32(into, count as u32)
    }

    fn put_pairs(key: Tag, value: Tag, count: usize, into: &mut Vec<u8>) -> Result<(), AllocError> {
        if count == 0 {
            return put_u8(into, 0);
        }
        append_varint32(into, count as u32)?;
        put_u8(into, 16 * code_of(key) + code_of(value))
    }
}
