//! The tag and the parts of a type.
ghost use Rattle.std.specs.Prelude.{◌≡◌};
ghost use Rattle.std.specs.Option.{option_copied, option_map};
ghost use Rattle.schema.specs.PlainKind.{kind_of};
ghost use Rattle.known_parts.specs.Parts.{tag_of_kind, are_same_tags, struct_of_kind, map_of_kind, set_of_kind, list_of_kind};

use schema::TypeDesc;
use thrift_value::Tag;

/// The tag of the values of a type.
pub fn tag_of_kind(kind: &TypeDesc) -> Tag
    ensures { result ≡ tag_of_kind (kind_of kind.now) }
{
    match kind {
        TypeDesc::Bool => Tag::Bool,
        TypeDesc::I8 => Tag::I8,
        TypeDesc::I16 => Tag::I16,
        TypeDesc::I32 => Tag::I32,
        TypeDesc::I64 => Tag::I64,
        TypeDesc::Double => Tag::Double,
        TypeDesc::Text => Tag::Bytes,
        TypeDesc::Binary => Tag::Bytes,
        TypeDesc::Uuid => Tag::Uuid,
        TypeDesc::Enum(_) => Tag::I32,
        TypeDesc::Struct(_) => Tag::Struct,
        TypeDesc::Map(_, _) => Tag::Map,
        TypeDesc::Set(_) => Tag::Set,
        TypeDesc::List(_) => Tag::List,
    }
}

/// The number of a struct's type.
pub fn struct_of_kind(kind: &TypeDesc) -> Option<u32>
    ensures { result ≡ struct_of_kind (kind_of kind.now) }
{
    match kind {
        TypeDesc::Struct(which) => Some(*which),
        TypeDesc::Bool
        | TypeDesc::I8
        | TypeDesc::I16
        | TypeDesc::I32
        | TypeDesc::I64
        | TypeDesc::Double
        | TypeDesc::Text
        | TypeDesc::Binary
        | TypeDesc::Uuid
        | TypeDesc::Enum(_)
        | TypeDesc::Map(_, _)
        | TypeDesc::Set(_)
        | TypeDesc::List(_) => None,
    }
}

/// The types of a map's keys and values.
pub fn map_of_kind(kind: &TypeDesc) -> Option<(&TypeDesc, &TypeDesc)>
    ensures { option_map (λ p. (kind_of p.0.now, kind_of p.1.now)) result ≡ map_of_kind (kind_of kind.now) }
{
    match kind {
        TypeDesc::Map(key, value) => Some((key, value)),
        TypeDesc::Bool
        | TypeDesc::I8
        | TypeDesc::I16
        | TypeDesc::I32
        | TypeDesc::I64
        | TypeDesc::Double
        | TypeDesc::Text
        | TypeDesc::Binary
        | TypeDesc::Uuid
        | TypeDesc::Enum(_)
        | TypeDesc::Struct(_)
        | TypeDesc::Set(_)
        | TypeDesc::List(_) => None,
    }
}

/// The type of a set's members.
pub fn set_of_kind(kind: &TypeDesc) -> Option<&TypeDesc>
    ensures { option_map kind_of (option_copied result) ≡ set_of_kind (kind_of kind.now) }
{
    match kind {
        TypeDesc::Set(member) => Some(member),
        TypeDesc::Bool
        | TypeDesc::I8
        | TypeDesc::I16
        | TypeDesc::I32
        | TypeDesc::I64
        | TypeDesc::Double
        | TypeDesc::Text
        | TypeDesc::Binary
        | TypeDesc::Uuid
        | TypeDesc::Enum(_)
        | TypeDesc::Struct(_)
        | TypeDesc::Map(_, _)
        | TypeDesc::List(_) => None,
    }
}

/// The type of a list's elements.
pub fn list_of_kind(kind: &TypeDesc) -> Option<&TypeDesc>
    ensures { option_map kind_of (option_copied result) ≡ list_of_kind (kind_of kind.now) }
{
    match kind {
        TypeDesc::List(element) => Some(element),
        TypeDesc::Bool
        | TypeDesc::I8
        | TypeDesc::I16
        | TypeDesc::I32
        | TypeDesc::I64
        | TypeDesc::Double
        | TypeDesc::Text
        | TypeDesc::Binary
        | TypeDesc::Uuid
        | TypeDesc::Enum(_)
        | TypeDesc::Struct(_)
        | TypeDesc::Map(_, _)
        | TypeDesc::Set(_) => None,
    }
}

/// Whether two tags are the same.
pub fn are_same_tags(one: Tag, other: Tag) -> bool
    ensures { result ≡ are_same_tags one other }
{
    one as u8 == other as u8
}
