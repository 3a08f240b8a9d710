//! How the binary protocol is read at places of bytes.

use crate::protocol::Binary;
use thrift_value::{Tag, Value, WireFault};
use wire_model::{FieldHead, Wire};
use wire_walk::{field_at, items_at, pairs_at, scalar_at, skip_at, span_at};

/// The protocol as a reader at places.
pub type BinaryWire = Binary;

impl Wire for Binary {
    fn field(bytes: &[u8], at: usize, last: i16) -> Result<(FieldHead, usize), WireFault> {
        field_at::<Binary>(bytes, at, last)
    }

    fn scalar(bytes: &[u8], at: usize, tag: Tag) -> Result<(Value, usize), WireFault> {
        scalar_at::<Binary>(bytes, at, tag)
    }

    fn span(bytes: &[u8], at: usize) -> Result<(usize, usize), WireFault> {
        span_at::<Binary>(bytes, at)
    }

    fn items(bytes: &[u8], at: usize) -> Result<(Tag, u32, usize), WireFault> {
        items_at::<Binary>(bytes, at)
    }

    fn pairs(bytes: &[u8], at: usize) -> Result<(Tag, Tag, u32, usize), WireFault> {
        pairs_at::<Binary>(bytes, at)
    }

    fn skip(
        bytes: &[u8],
        at: usize,
        tag: Tag,
        level: u32,
        count: &mut u64,
    ) -> Result<usize, WireFault> {
        skip_at::<Binary>(bytes, at, tag, level, count)
    }
}
