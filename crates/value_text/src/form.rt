//! What the first byte of a value's text tells.
ghost use Rattle.std.specs.Prelude.{◌≡◌, Some, None, if◌then◌else◌};
ghost use Rattle.thrift_value.specs.Tags.{rank};
ghost use Rattle.value_text.specs.Answering.{Gives};
ghost use Rattle.value_text.specs.Fronts.{is_digit};
ghost use Rattle.value_text.specs.Reading.{container_tag, form_at, form_of, greatest, has_level, is_form_wanted, is_leaf_tag, is_leaf_wanted, is_number_wanted, is_wanted};

use crate::fronts::is_digit;
use crate::stop::TextStop;
use thrift_value::Tag;

/// A value that holds no others.
#[derive(Clone, Copy)]
pub(crate) enum Leaf {
    /// True.
    Yes,
    /// False.
    No,
    /// An integer of any type.
    Number,
    /// A double.
    Double,
    /// A uuid.
    Uuid,
    /// Bytes between quotation marks.
    Quoted,
}

/// A value that holds others.
#[derive(Clone, Copy)]
pub(crate) enum Container {
    /// A struct.
    Struct,
    /// A map.
    Map,
    /// A set.
    Set,
    /// A list.
    List,
}

/// What a value is, as far as its first byte tells.
#[derive(Clone, Copy)]
pub(crate) enum Form {
    /// A value that holds no others.
    Alone(Leaf),
    /// A value that holds others.
    Holding(Container),
}

/// The form that a value's first byte tells.
fn form_of(byte: u8) -> Option<Form>
    ensures { result ≡ form_of byte }
{
    match byte {
        b't' => Some(Form::Alone(Leaf::Yes)),
        b'f' => Some(Form::Alone(Leaf::No)),
        b'd' => Some(Form::Alone(Leaf::Double)),
        b'u' => Some(Form::Alone(Leaf::Uuid)),
        b'"' => Some(Form::Alone(Leaf::Quoted)),
        b'{' => Some(Form::Holding(Container::Struct)),
        b'm' => Some(Form::Holding(Container::Map)),
        b's' => Some(Form::Holding(Container::Set)),
        b'l' => Some(Form::Holding(Container::List)),
        b'-' => Some(Form::Alone(Leaf::Number)),
        _ => number_form(byte),
    }
}

/// A number's form, where the byte is a digit.
fn number_form(byte: u8) -> Option<Form>
    ensures { result ≡ (if is_digit byte then Some (Form.Alone Leaf.Number) else None) }
{
    if is_digit(byte) {
        return Some(Form::Alone(Leaf::Number));
    }
    None
}

/// Where a tag stands among the tags.
fn rank_of(tag: Tag) -> u8
    ensures { result ≡ rank tag }
{
    match tag {
        Tag::Bool => 0,
        Tag::I8 => 1,
        Tag::I16 => 2,
        Tag::I32 => 3,
        Tag::I64 => 4,
        Tag::Double => 5,
        Tag::Bytes => 6,
        Tag::Struct => 7,
        Tag::Map => 8,
        Tag::Set => 9,
        Tag::List => 10,
        Tag::Uuid => 11,
    }
}

/// Whether a tag may stand where this one is wanted, or any.
pub(crate) fn is_wanted(wanted: Option<Tag>, tag: Tag) -> bool
    ensures { result ≡ is_wanted wanted tag }
{
    match wanted {
        None => true,
        Some(only) => rank_of(only) == rank_of(tag),
    }
}

/// Whether an integer may stand there.
fn is_number_wanted(wanted: Option<Tag>) -> bool
    ensures { result ≡ is_number_wanted wanted }
{
    match wanted {
        None => true,
        Some(only) => is_number(only),
    }
}

/// Whether a tag is an integer's.
fn is_number(tag: Tag) -> bool
    ensures { result ≡ is_number_wanted (Some tag) }
{
    match tag {
        Tag::I8 => true,
        Tag::I16 => true,
        Tag::I32 => true,
        Tag::I64 => true,
        Tag::Bool => false,
        Tag::Double => false,
        Tag::Bytes => false,
        Tag::Struct => false,
        Tag::Map => false,
        Tag::Set => false,
        Tag::List => false,
        Tag::Uuid => false,
    }
}

/// Whether a value that holds no others may stand there.
fn is_leaf_wanted(wanted: Option<Tag>, leaf: Leaf) -> bool
    ensures { result ≡ is_leaf_wanted wanted leaf }
{
    match leaf {
        Leaf::Yes => is_wanted(wanted, Tag::Bool),
        Leaf::No => is_wanted(wanted, Tag::Bool),
        Leaf::Number => is_number_wanted(wanted),
        Leaf::Double => is_wanted(wanted, Tag::Double),
        Leaf::Uuid => is_wanted(wanted, Tag::Uuid),
        Leaf::Quoted => is_wanted(wanted, Tag::Bytes),
    }
}

/// The tag of values that hold others.
fn container_tag(container: Container) -> Tag
    ensures { result ≡ container_tag container }
{
    match container {
        Container::Struct => Tag::Struct,
        Container::Map => Tag::Map,
        Container::Set => Tag::Set,
        Container::List => Tag::List,
    }
}

/// Whether a value of a form may stand there.
fn is_form_wanted(wanted: Option<Tag>, form: Form) -> bool
    ensures { result ≡ is_form_wanted wanted form }
{
    match form {
        Form::Alone(leaf) => is_leaf_wanted(wanted, leaf),
        Form::Holding(container) => is_wanted(wanted, container_tag(container)),
    }
}

/// The form of the value in front.
#[tactic(auto, unfolding(crate::specs::Reading::form_at))]
pub(crate) fn form_at(wanted: Option<Tag>, text: &[u8]) -> Result<Form, TextStop>
    ensures { Gives (λ form. form) result (form_at wanted text.now) }
{
    let [byte, ..] = text else {
        return Err(TextStop::Left(0));
    };
    let Some(form) = form_of(*byte) else {
        return Err(TextStop::Left(text.len()));
    };
    if is_form_wanted(wanted, form) {
        return Ok(form);
    }
    Err(TextStop::Left(text.len()))
}

/// The greatest integer that may stand there.
pub(crate) fn greatest(wanted: Option<Tag>) -> u64
    ensures { result ≡ greatest wanted }
{
    match wanted {
        None => 0x7fff_ffff_ffff_ffff,
        Some(only) => greatest_of(only),
    }
}

/// The greatest integer of a tag.
fn greatest_of(tag: Tag) -> u64
    ensures { result ≡ greatest (Some tag) }
{
    match tag {
        Tag::I8 => 0x7f,
        Tag::I16 => 0x7fff,
        Tag::I32 => 0x7fff_ffff,
        Tag::Bool => 0x7fff_ffff_ffff_ffff,
        Tag::I64 => 0x7fff_ffff_ffff_ffff,
        Tag::Double => 0x7fff_ffff_ffff_ffff,
        Tag::Bytes => 0x7fff_ffff_ffff_ffff,
        Tag::Struct => 0x7fff_ffff_ffff_ffff,
        Tag::Map => 0x7fff_ffff_ffff_ffff,
        Tag::Set => 0x7fff_ffff_ffff_ffff,
        Tag::List => 0x7fff_ffff_ffff_ffff,
        Tag::Uuid => 0x7fff_ffff_ffff_ffff,
    }
}

/// Whether values of a tag hold no others.
fn is_leaf_tag(tag: Tag) -> bool
    ensures { result ≡ is_leaf_tag tag }
{
    match tag {
        Tag::Struct => false,
        Tag::Map => false,
        Tag::Set => false,
        Tag::List => false,
        Tag::Bool => true,
        Tag::I8 => true,
        Tag::I16 => true,
        Tag::I32 => true,
        Tag::I64 => true,
        Tag::Double => true,
        Tag::Bytes => true,
        Tag::Uuid => true,
    }
}

/// Whether a value of a tag may stand where so many levels may be opened.
pub(crate) fn has_level(levels: u32, tag: Tag) -> bool
    ensures { result ≡ has_level levels tag }
{
    if levels == 0 {
        return is_leaf_tag(tag);
    }
    true
}
