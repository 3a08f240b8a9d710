//! The codes of the kinds of values, each half a byte (Thrift compact protocol, 'Struct', 'List and Set'). Own choice: that of a
//! uuid is 13.

ghost use Rattle.std.specs.Prelude.{◌≡◌, ◌<◌};
ghost use Rattle.wire_model.specs.Answering.{AnswersExactly};
ghost use Rattle.compact_codec.specs.Codes.{flag_code, compact_code, compact_tag};
ghost use Rattle.compact_codec.specs.Reading.{tag_in_half};

use thrift_value::{Tag, WireFault};
use wire_walk::Input;

/// The code of a bool field with this value.
#[inline(always)]
pub(crate) fn code_of_flag(flag: bool) -> u8
    ensures code { result ≡ flag_code flag }
    ensures half { result < 16 }
{
    if flag { 1 } else { 2 }
}

/// The code that is written for a tag.
#[inline(always)]
pub(crate) fn code_of(tag: Tag) -> u8
    ensures code { result ≡ compact_code tag }
    ensures half { result < 16 }
{
    match tag {
        Tag::Bool => 1,
        Tag::I8 => 3,
        Tag::I16 => 4,
        Tag::I32 => 5,
        Tag::I64 => 6,
        Tag::Double => 7,
        Tag::Bytes => 8,
        Tag::List => 9,
        Tag::Set => 10,
        Tag::Map => 11,
        Tag::Struct => 12,
        Tag::Uuid => 13,
    }
}

/// The tag of a code: that of a bool field that is false is a bool's too.
#[tactic(auto, unfolding(crate::specs::Codes::compact_tag))]
#[inline(always)]
fn tag_of_code(code: u8) -> Option<Tag>
    ensures { result ≡ compact_tag code }
{
    match code {
        1 => Some(Tag::Bool),
        2 => Some(Tag::Bool),
        3 => Some(Tag::I8),
        4 => Some(Tag::I16),
        5 => Some(Tag::I32),
        6 => Some(Tag::I64),
        7 => Some(Tag::Double),
        8 => Some(Tag::Bytes),
        9 => Some(Tag::List),
        10 => Some(Tag::Set),
        11 => Some(Tag::Map),
        12 => Some(Tag::Struct),
        13 => Some(Tag::Uuid),
        _ => None,
    }
}

/// The tag of a code, or BadType; nothing is read.
#[tactic(auto, unfolding(crate::specs::Reading::tag_in_half))]
#[inline(always)]
pub(crate) fn tag_coded(code: u8, rest: Input<'_>) -> Result<(Tag, Input<'_>), WireFault>
    ensures { AnswersExactly (λ r. (r.0, r.1)) result (tag_in_half code rest.entry) }
{
    match tag_of_code(code) {
        Some(tag) => Ok((tag, rest)),
        None => Err(WireFault::BadType(code)),
    }
}
