//! Numbers and bools in front of what is left, as values (Thrift binary protocol, 'Integer encoding', 'Double encoding', 'Boolean
//! encoding').

ghost use Rattle.thrift_value.specs.declared.tag.Tag.TheVariants as tags;
ghost use Rattle.thrift_value.specs.TreeOf.{tree_of};
ghost use Rattle.wire_model.specs.Answering.{AnswersExactly};
ghost use Rattle.binary_codec.specs.Reading.{binary_scalar};

use crate::numbers::{i16_in, i32_in, u8_in};
use thrift_value::{Uuid, Value, WireFault};
use wire_num::{decode_be64, decode_be128, decode_i8, decode_i64};
use wire_walk::Input;

/// A bool, in a byte: every byte but 1 is false.
#[tactic(auto, unfolding(crate::specs::Reading::binary_scalar))]
#[inline(always)]
pub(crate) fn bool_value(input: Input<'_>) -> Result<(Value, Input<'_>), WireFault>
    ensures { AnswersExactly (λ r. (tree_of r.0, r.1)) result (binary_scalar tags.Bool input.entry) }
{
    let (byte, behind) = u8_in(input)?;
    Ok((Value::Bool(byte == 1), behind))
}

/// A number of eight bits.
#[tactic(auto, unfolding(crate::specs::Reading::binary_scalar))]
#[inline(always)]
pub(crate) fn i8_value(input: Input<'_>) -> Result<(Value, Input<'_>), WireFault>
    ensures { AnswersExactly (λ r. (tree_of r.0, r.1)) result (binary_scalar tags.I8 input.entry) }
{
    let (number, behind) = decode_i8(input.bytes())?;
    Ok((Value::I8(number), input.with_bytes(behind)))
}

/// A number of sixteen bits.
#[tactic(auto, unfolding(crate::specs::Reading::binary_scalar))]
#[inline(always)]
pub(crate) fn i16_value(input: Input<'_>) -> Result<(Value, Input<'_>), WireFault>
    ensures { AnswersExactly (λ r. (tree_of r.0, r.1)) result (binary_scalar tags.I16 input.entry) }
{
    let (number, behind) = i16_in(input)?;
    Ok((Value::I16(number), behind))
}

/// A number of thirty-two bits.
#[tactic(auto, unfolding(crate::specs::Reading::binary_scalar))]
#[inline(always)]
pub(crate) fn i32_value(input: Input<'_>) -> Result<(Value, Input<'_>), WireFault>
    ensures { AnswersExactly (λ r. (tree_of r.0, r.1)) result (binary_scalar tags.I32 input.entry) }
{
    let (number, behind) = i32_in(input)?;
    Ok((Value::I32(number), behind))
}

/// A number of sixty-four bits.
#[tactic(auto, unfolding(crate::specs::Reading::binary_scalar))]
#[inline(always)]
pub(crate) fn i64_value(input: Input<'_>) -> Result<(Value, Input<'_>), WireFault>
    ensures { AnswersExactly (λ r. (tree_of r.0, r.1)) result (binary_scalar tags.I64 input.entry) }
{
    let (number, behind) = decode_i64(input.bytes())?;
    Ok((Value::I64(number), input.with_bytes(behind)))
}

/// The sixty-four bits of a double.
#[tactic(auto, unfolding(crate::specs::Reading::binary_scalar))]
#[inline(always)]
pub(crate) fn double_value(input: Input<'_>) -> Result<(Value, Input<'_>), WireFault>
    ensures { AnswersExactly (λ r. (tree_of r.0, r.1)) result (binary_scalar tags.Double input.entry) }
{
    let (bits, behind) = decode_be64(input.bytes())?;
    Ok((Value::Double(bits), input.with_bytes(behind)))
}

/// The sixteen bytes of a uuid, the highest first.
#[tactic(auto, unfolding(crate::specs::Reading::binary_scalar))]
#[inline(always)]
pub(crate) fn uuid_value(input: Input<'_>) -> Result<(Value, Input<'_>), WireFault>
    ensures { AnswersExactly (λ r. (tree_of r.0, r.1)) result (binary_scalar tags.Uuid input.entry) }
{
    let (number, behind) = decode_be128(input.bytes())?;
    Ok((Value::Uuid(Uuid::new(number)), input.with_bytes(behind)))
}
