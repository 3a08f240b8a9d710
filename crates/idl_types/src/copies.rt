//! Copies of types, and containers of types.

ghost use Rattle.std.specs.Prelude.{◌≡◌, IfOk};
ghost use Rattle.schema.specs.PlainKind.{kind_of, kind_map, kind_set, kind_list};

use limits::MOST_TYPE_LEVELS;
use schema::TypeDesc;
use std::alloc::{AllocError, Global};

/// The most types that are made for one program, each with all that stand in it.
pub const MOST_TYPES: u32 = 4_000_000;

/// Takes one level, and one of the types that may still be made; want of memory where none is left of either.
pub(crate) fn enter(levels: u32, room: &mut u32) -> Result<u32, AllocError> {
    let Some(below) = levels.checked_sub(1) else {
        return Err(AllocError);
    };
    let Some(left) = room.checked_sub(1) else {
        return Err(AllocError);
    };
    *room = left;
    Ok(below)
}

/// A map of two types.
pub(crate) fn map_of(alloc: Global, key: TypeDesc, value: TypeDesc) -> Result<TypeDesc, AllocError>
    ensures { IfOk result (λ kind. kind_of kind ≡ kind_map (kind_of key) (kind_of value)) }
{
    let key = Box::new(alloc, key)?;
    let value = Box::new(alloc, value)?;
    Ok(TypeDesc::Map(key, value))
}

/// A set of a type.
pub(crate) fn set_of(alloc: Global, member: TypeDesc) -> Result<TypeDesc, AllocError>
    ensures { IfOk result (λ kind. kind_of kind ≡ kind_set (kind_of member)) }
{
    Ok(TypeDesc::Set(Box::new(alloc, member)?))
}

/// A list of a type.
pub(crate) fn list_of(alloc: Global, element: TypeDesc) -> Result<TypeDesc, AllocError>
    ensures { IfOk result (λ kind. kind_of kind ≡ kind_list (kind_of element)) }
{
    Ok(TypeDesc::List(Box::new(alloc, element)?))
}

/// A copy of a type of at most so many levels; it recurses once a level.
pub(crate) fn copied(
    alloc: Global,
    kind: &TypeDesc,
    levels: u32,
    room: &mut u32,
) -> Result<TypeDesc, AllocError>
    ensures { IfOk result (λ copy. kind_of copy ≡ kind_of kind.now) }
{
    let below = enter(levels, room)?;
    match kind {
        TypeDesc::Bool => Ok(TypeDesc::Bool),
        TypeDesc::I8 => Ok(TypeDesc::I8),
        TypeDesc::I16 => Ok(TypeDesc::I16),
        TypeDesc::I32 => Ok(TypeDesc::I32),
        TypeDesc::I64 => Ok(TypeDesc::I64),
        TypeDesc::Double => Ok(TypeDesc::Double),
        TypeDesc::Text => Ok(TypeDesc::Text),
        TypeDesc::Binary => Ok(TypeDesc::Binary),
        TypeDesc::Uuid => Ok(TypeDesc::Uuid),
        TypeDesc::Enum(which) => Ok(TypeDesc::Enum(*which)),
        TypeDesc::Struct(which) => Ok(TypeDesc::Struct(*which)),
        TypeDesc::Map(key, value) => {
            let key = copied(alloc, key, below, room)?;
            let value = copied(alloc, value, below, room)?;
            map_of(alloc, key, value)
        }
        TypeDesc::Set(member) => {
            let member = copied(alloc, member, below, room)?;
            set_of(alloc, member)
        }
        TypeDesc::List(element) => {
            let element = copied(alloc, element, below, room)?;
            list_of(alloc, element)
        }
    }
}

/// A copy of a type, where `room` is how many types may still be made. A type of more than 1,000 containers in one another is want
/// of memory, as is one with more types in it than there is room for.
pub fn copy_type(alloc: Global, kind: &TypeDesc, room: &mut u32) -> Result<TypeDesc, AllocError>
    ensures { IfOk result (λ copy. kind_of copy ≡ kind_of kind.now) }
{
    copied(alloc, kind, MOST_TYPE_LEVELS, room)
}
