//! Where the reading of a message stands.

ghost use Rattle.std.specs.Prelude.{◌≡◌};
ghost use Rattle.binary_codec.specs.Faults.{scalar_len};
ghost use Rattle.stream_reader.specs.Stages.{head_len, body_len, stage_len, message_stage, name_stage, old_name_stage, field_stage, first_stage, opens_level, is_used_up};

use stream_model::StreamFault;
use thrift_value::Tag;

/// The item of a head that is under way (Thrift binary protocol, 'Message').
#[derive(Clone, Copy)]
pub(crate) enum HeadItem {
    /// The first four bytes: of a strict head its version and its type, of an old one the length of its name.
    First,
    /// The length of the name of a strict head of this type.
    NameSize(u8),
    /// The name, of this length, of a strict head of this type.
    Name(u8, u32),
    /// The sequence id of a head of this type.
    SequenceId(u8),
    /// The name, of this length, of an old head.
    OldName(u32),
    /// The type of an old head.
    OldType,
}

/// The item of a struct that is under way (Thrift binary protocol, 'Struct', 'List and Set', 'Map').
#[derive(Clone, Copy)]
pub(crate) enum BodyItem {
    /// The type of a field, or the stop of a struct, which may have so many headers behind it.
    FieldType(u32),
    /// The id of a field of this tag.
    FieldId(Tag),
    /// A number, bool or uuid of this tag.
    Number(Tag),
    /// The length of a text.
    TextSize,
    /// A text of this length.
    Text(u32),
    /// The element type of a list or set.
    ItemsType,
    /// Its size, where its elements have this code.
    ItemsSize(u8),
    /// The key type of a map.
    KeyType,
    /// The value type of a map whose keys have this code.
    ValueType(u8),
    /// Its size, where keys and values have these codes.
    PairsSize(u8, u8),
}

/// What is read next of a message.
#[derive(Clone, Copy)]
pub(crate) enum ReadStage {
    /// An item of its head.
    Head(HeadItem),
    /// An item of its struct.
    Body(BodyItem),
    /// Nothing: it is whole.
    Whole,
    /// Nothing: it has this fault.
    Refused(StreamFault),
}

/// What goes on behind a value of an open struct or container.
#[derive(Clone, Copy)]
pub(crate) enum Level {
    /// Fields of a struct, with at most so many headers.
    Fields(u32),
    /// So many items of this tag.
    Items(Tag, u32),
    /// So many pairs of a map with keys and values of these tags.
    Keys(Tag, Tag, u32),
    /// The value of a pair, and so many pairs behind it.
    Values(Tag, Tag, u32),
}

/// Whether a value of this tag opens a level.
pub(crate) fn opens_level(tag: Tag) -> bool
    ensures { result ≡ opens_level tag }
{
    match tag {
        Tag::Bool => false,
        Tag::I8 => false,
        Tag::Double => false,
        Tag::I16 => false,
        Tag::I32 => false,
        Tag::I64 => false,
        Tag::Bytes => false,
        Tag::Uuid => false,
        Tag::Struct => true,
        Tag::Map => true,
        Tag::Set => true,
        Tag::List => true,
    }
}

/// What is read first of a value of this tag, in a message of at most so many bytes.
pub(crate) fn first_stage(tag: Tag, most: u32) -> ReadStage
    ensures { result ≡ first_stage most tag }
{
    match tag {
        Tag::Bool => ReadStage::Body(BodyItem::Number(tag)),
        Tag::I8 => ReadStage::Body(BodyItem::Number(tag)),
        Tag::Double => ReadStage::Body(BodyItem::Number(tag)),
        Tag::I16 => ReadStage::Body(BodyItem::Number(tag)),
        Tag::I32 => ReadStage::Body(BodyItem::Number(tag)),
        Tag::I64 => ReadStage::Body(BodyItem::Number(tag)),
        Tag::Uuid => ReadStage::Body(BodyItem::Number(tag)),
        Tag::Bytes => ReadStage::Body(BodyItem::TextSize),
        Tag::Struct => field_stage(most),
        Tag::Map => ReadStage::Body(BodyItem::KeyType),
        Tag::Set => ReadStage::Body(BodyItem::ItemsType),
        Tag::List => ReadStage::Body(BodyItem::ItemsType),
    }
}

/// What is read of a struct in which at most so many headers may come.
pub(crate) fn field_stage(heads: u32) -> ReadStage
    ensures { result ≡ field_stage heads }
{
    if heads == 0 {
        return ReadStage::Refused(StreamFault::TooLong);
    }
    ReadStage::Body(BodyItem::FieldType(heads - 1))
}

/// Whether nothing more comes of a list, set or map.
pub(crate) fn is_used_up(level: Level) -> bool
    ensures { result ≡ is_used_up level }
{
    match level {
        Level::Fields(_) => false,
        Level::Items(_, left) => left == 0,
        Level::Keys(_, _, left) => left == 0,
        Level::Values(_, _, _) => false,
    }
}

/// How many bytes a number, bool or uuid of this tag has (Thrift binary protocol, 'Integer encoding', 'Double
/// encoding').
fn scalar_len(tag: Tag) -> u32
    ensures { result ≡ scalar_len tag }
{
    match tag {
        Tag::Bool => 1,
        Tag::I8 => 1,
        Tag::Double => 8,
        Tag::I16 => 2,
        Tag::I32 => 4,
        Tag::I64 => 8,
        Tag::Uuid => 16,
        Tag::Bytes => 1,
        Tag::Struct => 1,
        Tag::Map => 1,
        Tag::Set => 1,
        Tag::List => 1,
    }
}

/// How many bytes an item of a head has.
fn head_len(item: HeadItem) -> u32
    ensures { result ≡ head_len item }
{
    match item {
        HeadItem::First => 4,
        HeadItem::NameSize(_) => 4,
        HeadItem::Name(_, size) => size,
        HeadItem::SequenceId(_) => 4,
        HeadItem::OldName(size) => size,
        HeadItem::OldType => 1,
    }
}

/// How many bytes an item of a struct has.
fn body_len(item: BodyItem) -> u32
    ensures { result ≡ body_len item }
{
    match item {
        BodyItem::FieldType(_) => 1,
        BodyItem::FieldId(_) => 2,
        BodyItem::Number(tag) => scalar_len(tag),
        BodyItem::TextSize => 4,
        BodyItem::Text(size) => size,
        BodyItem::ItemsType => 1,
        BodyItem::ItemsSize(_) => 4,
        BodyItem::KeyType => 1,
        BodyItem::ValueType(_) => 1,
        BodyItem::PairsSize(_, _) => 4,
    }
}

/// How many bytes are read next.
pub(crate) fn stage_len(stage: ReadStage) -> u32
    ensures { result ≡ stage_len stage }
{
    match stage {
        ReadStage::Head(item) => head_len(item),
        ReadStage::Body(item) => body_len(item),
        ReadStage::Whole => 0,
        ReadStage::Refused(_) => 0,
    }
}

/// What is read first of a message of at most so many bytes.
pub(crate) fn message_stage(most: u32) -> ReadStage
    ensures { result ≡ message_stage most }
{
    if most < 4 {
        return ReadStage::Refused(StreamFault::TooLong);
    }
    ReadStage::Head(HeadItem::First)
}

/// What is read behind the length of the name of a strict head: an empty name is no item.
pub(crate) fn name_stage(kind: u8, size: u32) -> ReadStage
    ensures { result ≡ name_stage kind size }
{
    if size == 0 {
        return ReadStage::Head(HeadItem::SequenceId(kind));
    }
    ReadStage::Head(HeadItem::Name(kind, size))
}

/// The same of an old head.
pub(crate) fn old_name_stage(size: u32) -> ReadStage
    ensures { result ≡ old_name_stage size }
{
    if size == 0 {
        return ReadStage::Head(HeadItem::OldType);
    }
    ReadStage::Head(HeadItem::OldName(size))
}
