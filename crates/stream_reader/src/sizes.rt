//! Sizes and types in the items of a message.

ghost use Rattle.std.specs.Prelude.{◌≡◌, ◌≤◌, ◌+◌, ℕ, pos, List, length, MatchOption, MatchResult};
ghost use Rattle.std.specs.Int.{w32};
ghost use Rattle.wire_num.specs.Fixed.{signed_of};
ghost use Rattle.thrift_value.specs.declared.tag.Tag.{Tag};
ghost use Rattle.stream_model.specs.Plan.{Plan, faulty, size_plan, coded, items_coded_plan, pairs_coded_plan};
ghost use Rattle.stream_model.specs.declared.outcome.MessageProgress.TheVariants.{Refused};
ghost use Rattle.stream_model.specs.Progress.{progress};
ghost use Rattle.stream_reader.specs.Stages.{IsNegative};

use binary_codec::tag_of_code;
use stream_model::StreamFault;
use thrift_value::{Tag, WireFault};

/// The number in an item of four bytes.
pub(crate) fn number_in(bytes: &[u8]) -> i32
    requires { length bytes.now ≡ 4 }
    ensures { result ≡ signed_of w32 bytes.now }
{
    i32::from_be_bytes([bytes[0], bytes[1], bytes[2], bytes[3]])
}

/// The number as a size, if it isn't negative.
pub(crate) fn size_of(number: i32) -> Option<u32>
    ensures { MatchOption result (IsNegative number) (λ size. number ≡ pos size) }
{
    if number < 0 {
        return None;
    }
    Some(number as u32)
}

/// A size that isn't negative and stays within the message; else its fault.
#[tactic(auto, using(crate::proofs::Steps::negative_size, crate::proofs::Steps::too_large))]
pub(crate) fn size_within(number: i32, most: u32, at: u32) -> Result<u32, StreamFault>
    requires { at ≤ most }
    ensures { MatchResult result (λ size. (number ≡ pos size) × (at + size ≤ most))
        (λ fault. (next : ℕ → Plan) (bytes : List ℕ) → progress most at (size_plan next number) bytes ≡ Refused at fault) }
{
    let Some(size) = size_of(number) else {
        return Err(StreamFault::Body(WireFault::BadSize));
    };
    if most - at < size {
        return Err(StreamFault::TooLong);
    }
    Ok(size)
}

/// The tag of a code; else the fault that it has none.
#[tactic(auto, unfolding(binary_codec::specs::Codes::tag_of_code))]
pub(crate) fn tag_in(code: u8) -> Result<Tag, StreamFault>
    ensures { MatchResult result (λ tag. (next : Tag → Plan) → coded code next ≡ next tag) (λ fault. (next : Tag → Plan) → coded code next ≡ faulty fault) }
{
    match tag_of_code(code) {
        Some(tag) => Ok(tag),
        None => Err(StreamFault::Body(WireFault::BadType(code))),
    }
}

/// The tag of the code of a list's or set's items, which an empty one needn't have; else the fault that it has none.
pub(crate) fn items_tag(code: u8, size: u32) -> Result<Tag, StreamFault>
    ensures { MatchResult result (λ tag. (next : Tag → ℕ → Plan) → items_coded_plan code size next ≡ next tag size)
        (λ fault. (next : Tag → ℕ → Plan) → items_coded_plan code size next ≡ faulty fault) }
{
    if size == 0 {
        return Ok(Tag::Bool);
    }
    tag_in(code)
}

/// The tags of the codes of a map's keys and values; else the fault of the first that has none.
pub(crate) fn pair_tags(key: u8, value: u8, size: u32) -> Result<(Tag, Tag), StreamFault>
    ensures { MatchResult result (λ r. (next : Tag → Tag → ℕ → Plan) → pairs_coded_plan key value size next ≡ next r.0 r.1 size)
        (λ fault. (next : Tag → Tag → ℕ → Plan) → pairs_coded_plan key value size next ≡ faulty fault) }
{
    if size == 0 {
        return Ok((Tag::Bool, Tag::Bool));
    }
    let key_tag = tag_in(key)?;
    let value_tag = tag_in(value)?;
    Ok((key_tag, value_tag))
}
