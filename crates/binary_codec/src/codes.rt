//! The codes of the kinds of values (Thrift binary protocol, 'Struct'). Own choice: that of a uuid is 16.

ghost use Rattle.std.specs.Prelude.{◌≡◌};
ghost use Rattle.wire_model.specs.Answering.{AnswersExactly};
ghost use Rattle.binary_codec.specs.Codes.{code_of, tag_of_code};
ghost use Rattle.binary_codec.specs.Reading.{tag_coded};

use thrift_value::{Tag, WireFault};
use wire_walk::Input;

/// The code of a tag.
pub(crate) fn code_of(tag: Tag) -> u8
    ensures { result ≡ code_of tag }
{
    match tag {
        Tag::Bool => 2,
        Tag::I8 => 3,
        Tag::Double => 4,
        Tag::I16 => 6,
        Tag::I32 => 8,
        Tag::I64 => 10,
        Tag::Bytes => 11,
        Tag::Struct => 12,
        Tag::Map => 13,
        Tag::Set => 14,
        Tag::List => 15,
        Tag::Uuid => 16,
    }
}

/// The tag of a code, if it has one.
#[tactic(auto, unfolding(crate::specs::Codes::tag_of_code))]
pub fn tag_of_code(code: u8) -> Option<Tag>
    ensures { result ≡ tag_of_code code }
{
    match code {
        2 => Some(Tag::Bool),
        3 => Some(Tag::I8),
        4 => Some(Tag::Double),
        6 => Some(Tag::I16),
        8 => Some(Tag::I32),
        10 => Some(Tag::I64),
        11 => Some(Tag::Bytes),
        12 => Some(Tag::Struct),
        13 => Some(Tag::Map),
        14 => Some(Tag::Set),
        15 => Some(Tag::List),
        16 => Some(Tag::Uuid),
        _ => None,
    }
}

/// The tag of a code, or BadType; nothing is read.
#[tactic(auto, unfolding(crate::specs::Reading::tag_coded))]
pub(crate) fn tag_coded(code: u8, rest: Input<'_>) -> Result<(Tag, Input<'_>), WireFault>
    ensures { AnswersExactly (λ r. (r.0, r.1)) result (tag_coded code rest.entry) }
{
    match tag_of_code(code) {
        Some(tag) => Ok((tag, rest)),
        None => Err(WireFault::BadType(code)),
    }
}
