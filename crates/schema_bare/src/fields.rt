//! The fields of a list, as a schema has them.

ghost use Rattle.std.specs.Prelude.{◌≡◌, map, IfOk};
ghost use Rattle.std.specs.List.{AllZip};
ghost use Rattle.idl_include.specs.DeclaredIn.{field_in};
ghost use Rattle.idl_include.specs.SourcesOf.{program_in};
ghost use Rattle.schema.specs.SchemaOf.{plain_field};
ghost use Rattle.check_model.specs.FieldLists.{need_in, need_said};
ghost use Rattle.check_model.specs.SchemaParts.{NoDefault, IsFieldOf, AreFieldsOf};
ghost use Rattle.schema_bare.specs.ById.{numbered_in};
ghost use Rattle.idl_types.specs.Known.{AreAliasTypes};

use crate::sorted::{FieldById, fields_sorted};
use idl_parser::{Field, Need};
use idl_types::{TypeTables, type_meant};
use schema::{FieldDesc, FieldList, Listed, Need as FieldNeed, StructKind as FieldsKind};
use std::alloc::{AllocError, Global};

/// What is said of a field's presence.
fn need_said(need: Need) -> FieldNeed
    ensures { result ≡ need_said need }
{
    match need {
        Need::Default => FieldNeed::Default,
        Need::Required => FieldNeed::Required,
        Need::Optional => FieldNeed::Optional,
    }
}

/// What is said of a field's presence in a list of some kind.
fn need_in(list: FieldsKind, need: Need) -> FieldNeed
    ensures { result ≡ need_in list need }
{
    match list {
        FieldsKind::Union => FieldNeed::Optional,
        FieldsKind::Struct | FieldsKind::Exception | FieldsKind::Args => need_said(need),
    }
}

/// A field of a list of some kind, without its default.
#[tactic(auto, unfolding(idl_include::specs::DeclaredIn::field_in))]
fn field_desc(
    alloc: Global,
    tables: &TypeTables<'_, '_>,
    file: u32,
    list: FieldsKind,
    by_id: &FieldById<'_>,
    room: &mut u32,
) -> Result<FieldDesc, AllocError>
    requires { AreAliasTypes (program_in tables.now.names.now) tables.now.aliases.now }
    ensures { IfOk result (λ field. IsFieldOf NoDefault (program_in tables.now.names.now) file list (numbered_in by_id.now) (plain_field field)) }
{
    let name = by_id.field.name.text.try_clone(alloc)?;
    let kind = type_meant(alloc, tables, file, &by_id.field.kind, room)?;
    Ok(FieldDesc {
        id: by_id.id,
        need: need_in(list, by_id.field.need),
        kind,
        name,
        default: None,
    })
}

/// Fields of a list of some kind, in this order, without their defaults.
fn fields_made(
    alloc: Global,
    tables: &TypeTables<'_, '_>,
    file: u32,
    list: FieldsKind,
    sorted: &[FieldById<'_>],
    room: &mut u32,
) -> Result<Vec<FieldDesc>, AllocError>
    requires { AreAliasTypes (program_in tables.now.names.now) tables.now.aliases.now }
    ensures { IfOk result (λ made. AllZip (IsFieldOf NoDefault (program_in tables.now.names.now) file list) (map numbered_in sorted.now) (map plain_field made.items)) }
{
    let mut made = Vec::with_capacity(alloc, sorted.len())?;
    for by_id in sorted {
        let field = field_desc(alloc, tables, file, list, by_id, room)?;
        made.push(field)?;
    }
    Ok(made)
}

/// The fields of a list of some kind, by rising id, without their defaults.
pub(crate) fn field_list(
    alloc: Global,
    tables: &TypeTables<'_, '_>,
    file: u32,
    list: FieldsKind,
    fields: &[Field],
    room: &mut u32,
) -> Result<FieldList, AllocError>
    requires { AreAliasTypes (program_in tables.now.names.now) tables.now.aliases.now }
    ensures { IfOk result (λ made. AreFieldsOf NoDefault (program_in tables.now.names.now) file list (map field_in fields.now) (map plain_field made)) }
{
    let sorted = fields_sorted(alloc, fields)?;
    let made = fields_made(alloc, tables, file, list, sorted.as_slice(), room)?;
    Ok(Listed::new(made))
}
