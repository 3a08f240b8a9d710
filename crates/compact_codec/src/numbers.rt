//! Numbers in front of what is left, none of them a value of its own (Thrift compact protocol, 'Integer encoding', 'Double
//! encoding').

ghost use Rattle.std.specs.Prelude.{◌≡◌};
ghost use Rattle.wire_model.specs.Answering.{AnswersExactly};
ghost use Rattle.wire_model.specs.Pieces.{byte, within_room};
ghost use Rattle.compact_codec.specs.Numbers.{low_16};
ghost use Rattle.compact_codec.specs.Reading.{compact_i16, compact_unsigned, compact_size};

use crate::varints::next_varint32;
use thrift_value::WireFault;
use wire_num::{decode_u8, unzigzag32};
use wire_walk::Input;

/// A byte.
#[inline(always)]
pub(crate) fn u8_in(input: Input<'_>) -> Result<(u8, Input<'_>), WireFault>
    ensures { AnswersExactly (λ r. (r.0, r.1)) result (byte input.entry) }
{
    let (number, behind) = decode_u8(input.bytes())?;
    Ok((number, input.with_bytes(behind)))
}

/// Reads a number of 32 bits, and keeps the lowest sixteen.
#[inline(always)]
pub(crate) fn i16_in(input: Input<'_>) -> Result<(i16, Input<'_>), WireFault>
    ensures { AnswersExactly (λ r. (r.0, r.1)) result (compact_i16 input.entry) }
{
    let (number, behind) = next_varint32(input.bytes())?;
    Ok((low_16(unzigzag32(number)), input.with_bytes(behind)))
}

/// The lowest 16 bits of a number.
#[inline(always)]
fn low_16(number: i32) -> i16
    ensures { result ≡ low_16 number }
{
    let [_, _, high, low] = number.to_be_bytes();
    i16::from_be_bytes([high, low])
}

/// Reads thirty-two bits, unsigned.
#[inline(always)]
fn u32_in(input: Input<'_>) -> Result<(u32, Input<'_>), WireFault>
    ensures { AnswersExactly (λ r. (r.0, r.1)) result (compact_unsigned input.entry) }
{
    let (number, behind) = next_varint32(input.bytes())?;
    Ok((number, input.with_bytes(behind)))
}

/// A length or size: below 2^31, and no more than the bytes that are left behind it.
#[tactic(auto, unfolding(crate::specs::Reading::compact_size))]
#[inline(always)]
pub(crate) fn size_in(input: Input<'_>) -> Result<(usize, Input<'_>), WireFault>
    ensures { AnswersExactly (λ r. (r.0, r.1)) result (compact_size input.entry) }
{
    let (number, input) = u32_in(input)?;
    if number >= 1 << 31 {
        return Err(WireFault::BadSize);
    }
    room_in(number as usize, input)
}

/// A size that is no more than the bytes that are left.
#[inline(always)]
pub(crate) fn room_in(size: usize, input: Input<'_>) -> Result<(usize, Input<'_>), WireFault>
    ensures { AnswersExactly (λ r. (r.0, r.1)) result (within_room size input.entry) }
{
    if input.bytes().len() < size {
        return Err(WireFault::Short);
    }
    Ok((size, input))
}
