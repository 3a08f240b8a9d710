//! The schema of a program without its defaults and constants.

ghost use Rattle.std.specs.Prelude.{◌≡◌, All, IfOk};
ghost use Rattle.idl_include.specs.SourcesOf.{program_in};
ghost use Rattle.idl_names.specs.Bases.{HasOwnBase};
ghost use Rattle.idl_names.specs.Listing.{listing_in, listing_of};
ghost use Rattle.schema.specs.SchemaOf.{schema_of};
ghost use Rattle.check_model.specs.SchemaParts.{IsPartialSchema};
ghost use Rattle.idl_types.specs.Known.{AreAliasTypes};

use crate::enums::all_enums;
use crate::files::all_files;
use crate::services::all_services;
use crate::structs::all_structs;
use crate::typedefs::all_aliases;
use idl_include::IdlFile;
use idl_names::Definitions;
use idl_types::{MOST_TYPES, TypeTables};
use schema::{Listed, Schema};
use std::alloc::{AllocError, Global};

/// The schema of a program without its defaults and constants. Want of memory is also the answer where a check finds a fault before:
/// a name that stands for nothing, a typedef that leads to itself, two fields with one id, an id of more than 16 bits or a number
/// of an enum of more than 32; and where typedefs make more than 1,000 containers in one another, or the schema has more than 4,000,000 types.
pub fn partial_schema(
    alloc: Global,
    files: &[IdlFile],
    definitions: &Definitions<'_>,
    tables: &TypeTables<'_, '_>,
) -> Result<Schema, AllocError>
    requires bases { All HasOwnBase files.now }
    requires names { files.now ≡ tables.now.names.now }
    requires definitions { listing_in definitions.now ≡ listing_of (program_in tables.now.names.now) }
    requires aliases { AreAliasTypes (program_in tables.now.names.now) tables.now.aliases.now }
    ensures { IfOk result (λ schema. IsPartialSchema (program_in tables.now.names.now) (schema_of schema)) }
{
    let mut room = MOST_TYPES;
    let structs = definitions.structs.as_slice();
    let Ok(first) = u32::try_from(structs.len()) else {
        return Err(AllocError);
    };
    let given = definitions.services.as_slice();
    let structs = all_structs(alloc, tables, structs, given, &mut room)?;
    let services = all_services(alloc, tables, first, given, &mut room)?;
    let aliases = all_aliases(alloc, tables, definitions.typedefs.as_slice(), &mut room)?;
    let enums = all_enums(alloc, definitions.enums.as_slice())?;
    let files = all_files(alloc, files)?;
    Ok(Schema {
        files: Listed::new(files),
        structs: Listed::new(structs),
        enums: Listed::new(enums),
        services: Listed::new(services),
        aliases: Listed::new(aliases),
        constants: Listed::new(Vec::new(alloc)),
    })
}
