//! The typedefs of a schema.

ghost use Rattle.std.specs.Prelude.{map, IfOk};
ghost use Rattle.std.specs.List.{AllZip};
ghost use Rattle.idl_include.specs.SourcesOf.{program_in};
ghost use Rattle.idl_names.specs.FiledIn.{filed_by, filed_typedefs, typedef_declared};
ghost use Rattle.schema.specs.SchemaOf.{plain_alias};
ghost use Rattle.check_model.specs.SchemaParts.{IsAliasOf};
ghost use Rattle.idl_types.specs.Known.{AreAliasTypes};

use idl_names::InFile;
use idl_parser::Typedef;
use idl_types::{TypeTables, type_meant};
use schema::AliasDesc;
use std::alloc::{AllocError, Global};

/// A typedef.
fn alias_desc(
    alloc: Global,
    tables: &TypeTables<'_, '_>,
    given: &InFile<'_, Typedef>,
    room: &mut u32,
) -> Result<AliasDesc, AllocError>
    requires { AreAliasTypes (program_in tables.now.names.now) tables.now.aliases.now }
    ensures { IfOk result (λ made. IsAliasOf (program_in tables.now.names.now) (filed_by typedef_declared given.now) (plain_alias made)) }
{
    let name = given.item.name.text.try_clone(alloc)?;
    let kind = type_meant(alloc, tables, given.file, &given.item.kind, room)?;
    Ok(AliasDesc {
        file: given.file,
        name,
        kind,
    })
}

/// The typedefs of a program by number.
pub(crate) fn all_aliases(
    alloc: Global,
    tables: &TypeTables<'_, '_>,
    given: &[InFile<'_, Typedef>],
    room: &mut u32,
) -> Result<Vec<AliasDesc>, AllocError>
    requires { AreAliasTypes (program_in tables.now.names.now) tables.now.aliases.now }
    ensures { IfOk result (λ made. AllZip (IsAliasOf (program_in tables.now.names.now)) (filed_typedefs given.now) (map plain_alias made.items)) }
{
    let mut made = Vec::with_capacity(alloc, given.len())?;
    for one in given {
        let desc = alias_desc(alloc, tables, one, room)?;
        made.push(desc)?;
    }
    Ok(made)
}
