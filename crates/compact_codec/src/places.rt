//! How the compact protocol is read at places of bytes.

use crate::protocol::Compact;
use thrift_value::{Tag, Value, WireFault};
use wire_model::{FieldHead, Wire};
use wire_walk::{field_at, items_at, pairs_at, scalar_at, skip_at, span_at};

/// The protocol as a reader at places.
pub type CompactWire = Compact;

impl Wire for Compact {
    fn field(bytes: &[u8], at: usize, last: i16) -> Result<(FieldHead, usize), WireFault> {
        field_at::<Compact>(bytes, at, last)
    }

    fn scalar(bytes: &[u8], at: usize, tag: Tag) -> Result<(Value, usize), WireFault> {
        scalar_at::<Compact>(bytes, at, tag)
    }

    fn span(bytes: &[u8], at: usize) -> Result<(usize, usize), WireFault> {
        span_at::<Compact>(bytes, at)
    }

    fn items(bytes: &[u8], at: usize) -> Result<(Tag, u32, usize), WireFault> {
        items_at::<Compact>(bytes, at)
    }

    fn pairs(bytes: &[u8], at: usize) -> Result<(Tag, Tag, u32, usize), WireFault> {
        pairs_at::<Compact>(bytes, at)
    }

    fn skip(
        bytes: &[u8],
        at: usize,
        tag: Tag,
        level: u32,
        count: &mut u64,
    ) -> Result<usize, WireFault> {
        skip_at::<Compact>(bytes, at, tag, level, count)
    }
}
