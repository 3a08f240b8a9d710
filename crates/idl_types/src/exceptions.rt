//! Types that mean exceptions.

ghost use Rattle.std.specs.Prelude.{◌≡◌, ◌↔◌, IsTrue, IfOk};
ghost use Rattle.idl_include.specs.DeclaredIn.{type_in};
ghost use Rattle.idl_include.specs.Numbering.{structs_of};
ghost use Rattle.idl_include.specs.SourcesOf.{program_in};
ghost use Rattle.idl_names.specs.FiledIn.{filed_structs};
ghost use Rattle.schema.specs.PlainKind.{kind_of};
ghost use Rattle.check_model.specs.Passes.{MeansException};
ghost use Rattle.idl_types.specs.Exceptions.{is_exception_word, is_exception_at, is_exception_kind};
ghost use Rattle.idl_types.specs.Known.{AreAliasTypes};

use crate::meaning::{TypeTables, type_meant};
use idl_names::InFile;
use idl_parser::{Struct, StructKind, TypeTree};
use schema::TypeDesc;
use std::alloc::{AllocError, Global};

/// Whether a struct's word makes an exception.
fn is_exception_word(kind: StructKind) -> bool
    ensures { result ≡ is_exception_word kind }
{
    match kind {
        StructKind::Struct | StructKind::Union => false,
        StructKind::Exception => true,
    }
}

/// Whether the struct of a number is an exception.
fn is_exception_at(structs: &[InFile<'_, Struct>], number: u32) -> bool
    ensures { result ≡ is_exception_at (filed_structs structs.now) number }
{
    match structs.get(number as usize) {
        Some(given) => is_exception_word(given.item.kind),
        None => false,
    }
}

/// Whether a type is an exception.
fn is_exception_kind(structs: &[InFile<'_, Struct>], kind: &TypeDesc) -> bool
    ensures { result ≡ is_exception_kind (filed_structs structs.now) (kind_of kind.now) }
{
    match kind {
        TypeDesc::Struct(number) => is_exception_at(structs, *number),
        TypeDesc::Bool
        | TypeDesc::I8
        | TypeDesc::I16
        | TypeDesc::I32
        | TypeDesc::I64
        | TypeDesc::Double
        | TypeDesc::Text
        | TypeDesc::Binary
        | TypeDesc::Uuid
        | TypeDesc::Enum(_)
        | TypeDesc::Map(_, _)
        | TypeDesc::Set(_)
        | TypeDesc::List(_) => false,
    }
}

/// Whether a type that is written in a file means an exception, also by a typedef.
pub fn means_exception(
    alloc: Global,
    tables: &TypeTables<'_, '_>,
    structs: &[InFile<'_, Struct>],
    file: u32,
    tree: &TypeTree,
    room: &mut u32,
) -> Result<bool, AllocError>
    requires aliases { AreAliasTypes (program_in tables.now.names.now) tables.now.aliases.now }
    requires structs { filed_structs structs.now ≡ structs_of (program_in tables.now.names.now) }
    ensures { IfOk result (λ means. IsTrue means ↔ MeansException (program_in tables.now.names.now) file (type_in tree.now)) }
{
    let kind = type_meant(alloc, tables, file, tree, room)?;
    Ok(is_exception_kind(structs, &kind))
}
