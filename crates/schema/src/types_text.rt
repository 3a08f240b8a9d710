//! The text of types and of names with their file.
ghost use Rattle.std.specs.Prelude.{◌≡◌, ◌++◌, ◌<◌, codes, length, OnOk};
ghost use Rattle.std.specs.List.{slice_get};
ghost use Rattle.std.specs.Option.{option_copied};
ghost use Rattle.schema.specs.Inner.{inner_of, name_front, shown_inner, tags_front};
ghost use Rattle.schema.specs.LookUp.{base_at, dotted};
ghost use Rattle.schema.specs.PlainKind.{kind_of};
ghost use Rattle.schema.specs.SchemaOf.{schema_of, plain_enum, plain_struct, plain_service};
ghost use Rattle.schema.specs.SchemaText.{text_at, enum_name, struct_name, service_name, kind_name};

use crate::types::{Schema, TypeDesc};
use std::alloc::AllocError;

/// The item at a place.
pub(crate) fn item<T>(items: &[T], place: usize) -> Option<&T>
    ensures { option_copied result ≡ slice_get items.now place }
{
    items.get(place)
}

/// The item at a number.
pub(crate) fn at<T>(items: &[T], number: u32) -> Option<&T>
    ensures { option_copied result ≡ slice_get items.now number }
{
    item(items, number as usize)
}

/// Appends the base name of a file, a dot and a name.
fn put_dotted(into: &mut Vec<u8>, schema: &Schema, file: u32, name: &[u8]) -> Result<(), AllocError>
    ensures { OnOk result (into.new.items ≡ into.old.items ++ dotted (base_at (schema_of schema.now) file) name.now) }
{
    put_base(into, schema, file)?;
    into.extend_from_slice(b".")?;
    into.extend_from_slice(name)
}

/// Appends the base name of a file.
fn put_base(into: &mut Vec<u8>, schema: &Schema, file: u32) -> Result<(), AllocError>
    ensures { OnOk result (into.new.items ≡ into.old.items ++ base_at (schema_of schema.now) file) }
{
    match at(schema.files.as_slice(), file) {
        Some(file) => into.extend_from_slice(file.base.as_slice()),
        None => Ok(()),
    }
}

/// Appends the name of an enum.
fn put_enum_name(into: &mut Vec<u8>, schema: &Schema, which: u32) -> Result<(), AllocError>
    ensures { OnOk result (into.new.items ≡ into.old.items
        ++ text_at (enum_name (schema_of schema.now)) (schema_of schema.now).enums which) }
{
    match at(schema.enums.as_slice(), which) {
        Some(found) => put_dotted(into, schema, found.file, found.name.as_slice()),
        None => Ok(()),
    }
}

/// Appends the name of a struct, a union or an exception.
fn put_struct_name(into: &mut Vec<u8>, schema: &Schema, which: u32) -> Result<(), AllocError>
    ensures { OnOk result (into.new.items ≡ into.old.items
        ++ text_at (struct_name (schema_of schema.now)) (schema_of schema.now).structs which) }
{
    match at(schema.structs.as_slice(), which) {
        Some(found) => put_dotted(into, schema, found.file, found.name.as_slice()),
        None => Ok(()),
    }
}

/// Appends the name of a service.
pub(crate) fn put_service_name(
    into: &mut Vec<u8>,
    schema: &Schema,
    which: u32,
) -> Result<(), AllocError>
    ensures { OnOk result (into.new.items ≡ into.old.items
        ++ text_at (service_name (schema_of schema.now)) (schema_of schema.now).services which) }
{
    match at(schema.services.as_slice(), which) {
        Some(found) => put_dotted(into, schema, found.file, found.name.as_slice()),
        None => Ok(()),
    }
}

/// The types inside a container: its members' or elements' alone, or its keys' and its values'.
pub(crate) fn inner(kind: &TypeDesc) -> Option<(&TypeDesc, Option<&TypeDesc>)>
    ensures { shown_inner result ≡ inner_of (kind_of kind.now) }
{
    match kind {
        TypeDesc::Map(key, value) => Some((&**key, Some(&**value))),
        TypeDesc::Set(member) => Some((&**member, None)),
        TypeDesc::List(element) => Some((&**element, None)),
        _ => None,
    }
}

/// The word in front in a type's tags: all of them where the type is no container.
pub(crate) fn tag_word(kind: &TypeDesc) -> &'static str
    ensures { result.now ≡ tags_front (kind_of kind.now) }
{
    match kind {
        TypeDesc::Bool => "bool",
        TypeDesc::I8 => "i8",
        TypeDesc::I16 => "i16",
        TypeDesc::I32 => "i32",
        TypeDesc::I64 => "i64",
        TypeDesc::Double => "double",
        TypeDesc::Text => "bytes",
        TypeDesc::Binary => "bytes",
        TypeDesc::Uuid => "uuid",
        TypeDesc::Enum(_) => "i32",
        TypeDesc::Struct(_) => "struct",
        TypeDesc::Map(_, _) => "map<",
        TypeDesc::Set(_) => "set<",
        TypeDesc::List(_) => "list<",
    }
}

/// Appends what stands in front in a type's name: all of it where the type is no container.
fn put_front(into: &mut Vec<u8>, schema: &Schema, kind: &TypeDesc) -> Result<(), AllocError>
    ensures { OnOk result (into.new.items ≡ into.old.items ++ name_front (schema_of schema.now) (kind_of kind.now)) }
{
    match kind {
        TypeDesc::Text => into.extend_from_slice(b"string"),
        TypeDesc::Binary => into.extend_from_slice(b"binary"),
        TypeDesc::Enum(which) => put_enum_name(into, schema, *which),
        TypeDesc::Struct(which) => put_struct_name(into, schema, *which),
        _ => into.extend_from_slice(tag_word(kind).as_bytes()),
    }
}

/// Appends a type of at most so many levels, of which what stands in the innermost container is one. It recurses once a level.
#[cycle(types_text)]
pub(crate) fn put_kind(
    into: &mut Vec<u8>,
    schema: &Schema,
    kind: &TypeDesc,
    levels: u32,
) -> Result<(), AllocError>
    ensures { OnOk result (into.new.items ≡ into.old.items ++ kind_name (schema_of schema.now) (kind_of kind.now)) }
{
    if levels == 0 {
        return Err(AllocError);
    }
    put_front(into, schema, kind)?;
    let Some((first, value)) = inner(kind) else {
        return Ok(());
    };
    put_kind(into, schema, first, levels - 1)?;
    if let Some(value) = value {
        into.extend_from_slice(b",")?;
        put_kind(into, schema, value, levels - 1)?;
    }
    into.extend_from_slice(b">")
}
