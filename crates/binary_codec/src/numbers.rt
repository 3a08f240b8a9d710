//! Numbers in front of what is left, none of them a value of its own (Thrift binary protocol, 'Integer encoding').

ghost use Rattle.std.specs.Int.{w16, w32};
ghost use Rattle.wire_model.specs.Answering.{AnswersExactly};
ghost use Rattle.wire_model.specs.Pieces.{byte};
ghost use Rattle.binary_codec.specs.Reading.{signed, binary_size};

use thrift_value::WireFault;
use wire_num::{decode_i16, decode_i32, decode_u8};
use wire_walk::Input;

/// A byte.
pub(crate) fn u8_in(input: Input<'_>) -> Result<(u8, Input<'_>), WireFault>
    ensures { AnswersExactly (λ r. (r.0, r.1)) result (byte input.entry) }
{
    let (number, behind) = decode_u8(input.bytes())?;
    Ok((number, input.with_bytes(behind)))
}

/// Reads sixteen bits.
pub(crate) fn i16_in(input: Input<'_>) -> Result<(i16, Input<'_>), WireFault>
    ensures { AnswersExactly (λ r. (r.0, r.1)) result (signed w16 input.entry) }
{
    let (number, behind) = decode_i16(input.bytes())?;
    Ok((number, input.with_bytes(behind)))
}

/// Reads thirty-two bits.
pub(crate) fn i32_in(input: Input<'_>) -> Result<(i32, Input<'_>), WireFault>
    ensures { AnswersExactly (λ r. (r.0, r.1)) result (signed w32 input.entry) }
{
    let (number, behind) = decode_i32(input.bytes())?;
    Ok((number, input.with_bytes(behind)))
}

/// A length or size: not negative, and no more than the bytes that are left behind it.
#[tactic(auto, unfolding(crate::specs::Reading::binary_size))]
pub(crate) fn size_in(input: Input<'_>) -> Result<(usize, Input<'_>), WireFault>
    ensures { AnswersExactly (λ r. (r.0, r.1)) result (binary_size input.entry) }
{
    let (number, input) = i32_in(input)?;
    if number < 0 {
        return Err(WireFault::BadSize);
    }
    let size = number as usize;
    if input.bytes().len() < size {
        return Err(WireFault::Short);
    }
    Ok((size, input))
}
