//! How the binary protocol reads and writes the parts of a value that hold no other values.

ghost use Rattle.std.specs.Prelude.{◌≡◌, ◌<◌, ◌^◌, ◌++◌, length, OnOk, OnErr};
ghost use Rattle.thrift_value.specs.TreeOf.{tree_of};
ghost use Rattle.wire_walk.specs.Steps.{field_header_of, Grows};
ghost use Rattle.binary_codec.specs.Reading.{binary_field, binary_scalar, binary_span, binary_items, binary_pairs};
ghost use Rattle.binary_codec.specs.Written.{header_text, scalar_text, span_text, items_header, pairs_header};

use crate::codes::{code_of, tag_coded};
use crate::numbers::{i16_in, size_in, u8_in};
use crate::protocol::Binary;
use crate::values::{
    bool_value, double_value, i8_value, i16_value, i32_value, i64_value, uuid_value,
};
use std::alloc::AllocError;
use thrift_value::{Tag, Value, WireFault};
use wire_num::{put_be64, put_be128, put_i16, put_i32, put_i64, put_u8};
use wire_walk::{Codec, Header, Input};

impl Codec for Binary {
    // A header is 0, or a type code and an id (Thrift binary protocol, 'Struct').
    #[tactic(auto, unfolding(crate::specs::Reading::binary_field))]
    fn field<'a>(_last: i16, rest: Input<'a>) -> Result<(Header, Input<'a>), WireFault> {
        let (code, rest) = u8_in(rest)?;
        if code == 0 {
            return Ok((Header::Stop, rest));
        }
        let (tag, rest) = tag_coded(code, rest)?;
        let (id, rest) = i16_in(rest)?;
        Ok((Header::Field(id, tag), rest))
    }

    // A number (Thrift binary protocol, 'Integer encoding', 'Double encoding'), or a bool, whose byte is 1 or 0 ('Boolean
    // encoding'). Own choice: every byte but 1 is false, and a uuid is sixteen bytes, the highest first.
    #[tactic(auto, unfolding(crate::specs::Reading::binary_scalar))]
    #[inline(always)]
    fn scalar<'a>(tag: Tag, rest: Input<'a>) -> Result<(Value, Input<'a>), WireFault> {
        match tag {
            Tag::Bool => bool_value(rest),
            Tag::I8 => i8_value(rest),
            Tag::I16 => i16_value(rest),
            Tag::I32 => i32_value(rest),
            Tag::I64 => i64_value(rest),
            Tag::Double => double_value(rest),
            Tag::Uuid => uuid_value(rest),
            _ => Err(WireFault::Short),
        }
    }

    // A length and that many bytes (Thrift binary protocol, 'Binary encoding').
    #[tactic(auto, unfolding(crate::specs::Reading::binary_span))]
    fn span<'a>(rest: Input<'a>) -> Result<(&'a [u8], Input<'a>), WireFault> {
        let (size, rest) = size_in(rest)?;
        rest.next(size)
    }

    // A type code and a size (Thrift binary protocol, 'List and Set'). Own choice: the code of an empty container isn't
    // looked at.
    #[tactic(auto, unfolding(crate::specs::Reading::binary_items))]
    fn items<'a>(rest: Input<'a>) -> Result<(Tag, usize, Input<'a>), WireFault> {
        let (code, rest) = u8_in(rest)?;
        let (size, rest) = size_in(rest)?;
        if size == 0 {
            return Ok((Tag::Bool, size, rest));
        }
        let (tag, rest) = tag_coded(code, rest)?;
        Ok((tag, size, rest))
    }

    // Two type codes and a size (Thrift binary protocol, 'Map'). Own choice: the codes of an empty map aren't looked at.
    #[tactic(auto, unfolding(crate::specs::Reading::binary_pairs))]
    fn pairs<'a>(rest: Input<'a>) -> Result<(Tag, Tag, usize, Input<'a>), WireFault> {
        let (key, rest) = u8_in(rest)?;
        let (value, rest) = u8_in(rest)?;
        let (size, rest) = size_in(rest)?;
        if size == 0 {
            return Ok((Tag::Bool, Tag::Bool, size, rest));
        }
        let (key_tag, rest) = tag_coded(key, rest)?;
        let (value_tag, rest) = tag_coded(value, rest)?;
        Ok((key_tag, value_tag, size, rest))
    }

    fn flags() -> bool {
        false
    }

    #[inline(always)]
    fn put_header(_last: i16, header: Header, into: &mut Vec<u8>) -> Result<(), AllocError> {
        match header {
            Header::Stop => put_u8(into, 0),
            Header::Field(id, tag) => {
                let [high, low] = id.to_be_bytes();
                into.extend_from_slice(&[code_of(tag), high, low])
            }
            Header::Flag(_, _) => Ok(()),
        }
    }

    #[inline(always)]
    fn put_scalar(value: &Value, into: &mut Vec<u8>) -> Result<(), AllocError> {
        match value {
            Value::Bool(true) => put_u8(into, 1),
            Value::Bool(false) => put_u8(into, 0),
            Value::I8(number) => into.extend_from_slice(&number.to_be_bytes()),
            Value::I16(number) => put_i16(into, *number),
            Value::I32(number) => put_i32(into, *number),
            Value::I64(number) => put_i64(into, *number),
            Value::Double(bits) => put_be64(into, *bits),
            Value::Uuid(uuid) => put_be128(into, uuid.number()),
            _ => Ok(()),
        }
    }

    fn put_span(text: &[u8], into: &mut Vec<u8>) -> Result<(), AllocError> {
        put_i32(into, text.len() as i32)?;
        into.extend_from_slice(text)
    }

    fn put_items(tag: Tag, count: usize, into: &mut Vec<u8>) -> Result<(), AllocError> {
        let [a, b, c, d] = (count as i32).to_be_bytes();
        into.extend_from_slice(&[code_of(tag), a, b, c, d])
    }

    fn put_pairs(key: Tag, value: Tag, count: usize, into: &mut Vec<u8>) -> Result<(), AllocError> {
        let [a, b, c, d] = (count as i32).to_be_bytes();
        into.extend_from_slice(&[code_of(key), code_of(value), a, b, c, d])
    }
}
