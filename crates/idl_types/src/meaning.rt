//! What types mean that are written in a file.

ghost use Rattle.std.specs.Prelude.{◌≡◌, Some, IfOk};
ghost use Rattle.std.specs.Option.{option_and_then};
ghost use Rattle.idl_include.specs.DeclaredIn.{type_in};
ghost use Rattle.idl_include.specs.Names.{type_named};
ghost use Rattle.idl_include.specs.SourcesOf.{program_in};
ghost use Rattle.schema.specs.PlainKind.{kind_of};
ghost use Rattle.check_model.specs.Resolved.{base_kind, named_kind, kind_by, TypeMeans};
ghost use Rattle.idl_types.specs.Known.{known_kind, AreAliasTypes};

use crate::copies::{copied, enter, list_of, map_of, set_of};
use idl_names::{NameTables, TypeName};
use idl_parser::{Base, TypeTree};
use limits::MOST_TYPE_LEVELS;
use schema::TypeDesc;
use std::alloc::{AllocError, Global};

/// What the types of a program are made from: its names, and the types of its typedefs by number, as far as they are made.
#[derive(Drop)]
pub struct TypeTables<'t, 'a> {
    /// What names stand for.
    pub names: &'t NameTables<'a>,
    /// The types of typedefs.
    pub aliases: &'t [Option<TypeDesc>],
}

/// A base type.
fn base_type(base: Base) -> TypeDesc
    ensures { kind_of result ≡ base_kind base }
{
    match base {
        Base::Bool => TypeDesc::Bool,
        Base::Byte | Base::I8 => TypeDesc::I8,
        Base::I16 => TypeDesc::I16,
        Base::I32 => TypeDesc::I32,
        Base::I64 => TypeDesc::I64,
        Base::Double => TypeDesc::Double,
        Base::String => TypeDesc::Text,
        Base::Binary => TypeDesc::Binary,
        Base::Uuid => TypeDesc::Uuid,
    }
}

/// A base type, where there is room for it.
fn made_base(base: Base, levels: u32, room: &mut u32) -> Result<TypeDesc, AllocError>
    ensures { IfOk result (λ kind. kind_of kind ≡ base_kind base) }
{
    enter(levels, room)?;
    Ok(base_type(base))
}

/// The type of a typedef, where it is made.
fn alias_type(
    alloc: Global,
    aliases: &[Option<TypeDesc>],
    number: u32,
    levels: u32,
    room: &mut u32,
) -> Result<TypeDesc, AllocError>
    ensures { IfOk result (λ kind. known_kind aliases.now number ≡ Some (kind_of kind)) }
{
    match aliases.get(number as usize) {
        Some(Some(kind)) => copied(alloc, kind, levels, room),
        _ => Err(AllocError),
    }
}

/// The type that a name in a file stands for.
fn named_type(
    alloc: Global,
    tables: &TypeTables<'_, '_>,
    file: u32,
    name: &[u8],
    levels: u32,
    room: &mut u32,
) -> Result<TypeDesc, AllocError>
    ensures { IfOk result (λ kind. option_and_then (named_kind (known_kind tables.now.aliases.now)) (type_named (program_in tables.now.names.now) file name.now) ≡ Some (kind_of kind)) }
{
    match tables.names.type_named(file, name) {
        Some(TypeName::Alias(number)) => alias_type(alloc, tables.aliases, number, levels, room),
        Some(TypeName::Enum(number)) => Ok(TypeDesc::Enum(number)),
        Some(TypeName::Struct(number)) => Ok(TypeDesc::Struct(number)),
        None => Err(AllocError),
    }
}

/// The type of at most so many levels that is written in a file, where typedefs mean what is made of them.
fn type_by(
    alloc: Global,
    tables: &TypeTables<'_, '_>,
    file: u32,
    tree: &TypeTree,
    levels: u32,
    room: &mut u32,
) -> Result<TypeDesc, AllocError>
    ensures { IfOk result (λ kind. kind_by (known_kind tables.now.aliases.now) (program_in tables.now.names.now) file (type_in tree.now) ≡ Some (kind_of kind)) }
{
    match tree {
        TypeTree::Base(_, base) => made_base(*base, levels, room),
        TypeTree::Named(name) => {
            named_type(alloc, tables, file, name.text.as_slice(), levels, room)
        }
        TypeTree::Map(_, key, value) => {
            let below = enter(levels, room)?;
            let key = type_by(alloc, tables, file, key, below, room)?;
            let value = type_by(alloc, tables, file, value, below, room)?;
            map_of(alloc, key, value)
        }
        TypeTree::Set(_, member) => {
            let below = enter(levels, room)?;
            let member = type_by(alloc, tables, file, member, below, room)?;
            set_of(alloc, member)
        }
        TypeTree::List(_, element) => {
            let below = enter(levels, room)?;
            let element = type_by(alloc, tables, file, element, below, room)?;
            list_of(alloc, element)
        }
    }
}

/// What a type means that is written in a file, where `room` is how many types may still be made. Want of memory is also the answer
/// where a name stands for nothing, where a typedef leads to itself, and where typedefs make more than 1,000 containers in one another.
pub fn type_meant(
    alloc: Global,
    tables: &TypeTables<'_, '_>,
    file: u32,
    tree: &TypeTree,
    room: &mut u32,
) -> Result<TypeDesc, AllocError>
    requires { AreAliasTypes (program_in tables.now.names.now) tables.now.aliases.now }
    ensures { IfOk result (λ kind. TypeMeans (program_in tables.now.names.now) file (type_in tree.now) (kind_of kind)) }
{
    type_by(alloc, tables, file, tree, MOST_TYPE_LEVELS, room)
}
