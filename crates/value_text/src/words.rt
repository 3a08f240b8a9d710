//! The words of tags.
ghost use Rattle.std.specs.Prelude.{◌≡◌};
ghost use Rattle.value_text.specs.ValueText.{tag_word};

use thrift_value::Tag;

/// The word of a tag.
pub(crate) fn word_of(tag: Tag) -> &'static str
    ensures { result.now ≡ tag_word tag }
{
    match tag {
        Tag::Bool => "bool",
        Tag::I8 => "i8",
        Tag::I16 => "i16",
        Tag::I32 => "i32",
        Tag::I64 => "i64",
        Tag::Double => "double",
        Tag::Bytes => "bytes",
        Tag::Struct => "struct",
        Tag::Map => "map",
        Tag::Set => "set",
        Tag::List => "list",
        Tag::Uuid => "uuid",
    }
}
