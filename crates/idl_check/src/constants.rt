//! The constants of a schema.

ghost use Rattle.std.specs.Prelude.{map, IfOk};
ghost use Rattle.std.specs.List.{AllZip};
ghost use Rattle.idl_include.specs.SourcesOf.{program_in};
ghost use Rattle.idl_names.specs.FiledIn.{filed_by, filed_consts, const_declared};
ghost use Rattle.schema.specs.SchemaOf.{plain_constant};
ghost use Rattle.idl_types.specs.Known.{AreAliasTypes};
ghost use Rattle.idl_check.specs.Taking.{AreWorths};
ghost use Rattle.idl_check.specs.Filling.{IsConstantTaken};

use crate::worths::Worths;
use idl_names::InFile;
use idl_parser::Const;
use idl_types::{MOST_TYPES, TypeTables, type_meant};
use schema::ConstDesc;
use std::alloc::{AllocError, Global};

/// A constant with its value.
fn constant_desc(
    alloc: Global,
    tables: &TypeTables<'_, '_>,
    worths: &mut Worths<'_>,
    given: &InFile<'_, Const>,
    room: &mut u32,
) -> Result<ConstDesc, AllocError>
    requires aliases { AreAliasTypes (program_in tables.now.names.now) tables.now.aliases.now }
    requires worths { AreWorths (program_in tables.now.names.now) worths.old }
    ensures { IfOk result (λ made. IsConstantTaken (program_in tables.now.names.now) (filed_by const_declared given.now) (plain_constant made) × AreWorths (program_in tables.now.names.now) worths.new) }
{
    let name = given.item.name.text.try_clone(alloc)?;
    let kind = type_meant(alloc, tables, given.file, &given.item.kind, room)?;
    match worths.take(given.file, given.item.name.at) {
        Ok(value) => Ok(ConstDesc {
            file: given.file,
            name,
            kind,
            value,
        }),
        Err(fault) => Err(fault),
    }
}

/// The constants of a program with their values.
pub(crate) fn all_constants(
    alloc: Global,
    tables: &TypeTables<'_, '_>,
    worths: &mut Worths<'_>,
    given: &[InFile<'_, Const>],
) -> Result<Vec<ConstDesc>, AllocError>
    requires aliases { AreAliasTypes (program_in tables.now.names.now) tables.now.aliases.now }
    requires worths { AreWorths (program_in tables.now.names.now) worths.old }
    ensures { IfOk result (λ made. AllZip (IsConstantTaken (program_in tables.now.names.now)) (filed_consts given.now) (map plain_constant made.items)) }
{
    let mut room = MOST_TYPES;
    let mut made = Vec::with_capacity(alloc, given.len())?;
    for one in given {
        let constant = constant_desc(alloc, tables, worths, one, &mut room)?;
        made.push(constant)?;
    }
    Ok(made)
}
