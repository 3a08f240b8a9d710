//! The schema of a program with its defaults and constants.

ghost use Rattle.std.specs.Prelude.{◌≡◌, IfOk, OnOk};
ghost use Rattle.idl_include.specs.SourcesOf.{program_in};
ghost use Rattle.idl_names.specs.Listing.{listing_in, listing_of};
ghost use Rattle.schema.specs.SchemaOf.{schema_of};
ghost use Rattle.check_model.specs.SchemaParts.{IsPartialSchema};
ghost use Rattle.const_evaluator.specs.Places.{ArePlaces};
ghost use Rattle.check_passes.specs.Given.{AreWorth};
ghost use Rattle.idl_types.specs.Known.{AreAliasTypes};
ghost use Rattle.idl_check.specs.Filling.{IsWholeSchema};
ghost use Rattle.idl_check.specs.Taking.{AreWorths};

use crate::constants::all_constants;
use crate::services::fill_services;
use crate::structs::fill_structs;
use crate::worths::Worths;
use const_evaluator::ValuePlaces;
use idl_names::Definitions;
use idl_types::TypeTables;
use schema::{Listed, Schema};
use std::alloc::{AllocError, Global};
use thrift_value::Value;

/// The schema of a program with its defaults and constants, from the one without them, the places of the values that the program gives,
/// and what these are worth, in order by number.
pub fn whole_schema(
    alloc: Global,
    definitions: &Definitions<'_>,
    tables: &TypeTables<'_, '_>,
    places: &ValuePlaces,
    mut partial: Schema,
    values: Vec<Value>,
) -> Result<Schema, AllocError>
    requires definitions { listing_in definitions.now ≡ listing_of (program_in tables.now.names.now) }
    requires aliases { AreAliasTypes (program_in tables.now.names.now) tables.now.aliases.now }
    requires places { ArePlaces (program_in tables.now.names.now) places.now }
    requires made { IsPartialSchema (program_in tables.now.names.now) (schema_of partial) }
    requires worth { AreWorth (program_in tables.now.names.now) values.items }
    ensures { IfOk result (λ schema. IsWholeSchema (program_in tables.now.names.now) (schema_of partial) (schema_of schema)) }
{
    let mut worths = Worths::new(alloc, places, values)?;
    match fill_schema(alloc, definitions, tables, &mut worths, &mut partial) {
        Ok(()) => Ok(partial),
        Err(fault) => Err(fault),
    }
}

/// A schema gets its defaults and constants.
fn fill_schema(
    alloc: Global,
    definitions: &Definitions<'_>,
    tables: &TypeTables<'_, '_>,
    worths: &mut Worths<'_>,
    schema: &mut Schema,
) -> Result<(), AllocError>
    requires definitions { listing_in definitions.now ≡ listing_of (program_in tables.now.names.now) }
    requires aliases { AreAliasTypes (program_in tables.now.names.now) tables.now.aliases.now }
    requires made { IsPartialSchema (program_in tables.now.names.now) (schema_of schema.old) }
    requires worths { AreWorths (program_in tables.now.names.now) worths.old }
    ensures { OnOk result (IsWholeSchema (program_in tables.now.names.now) (schema_of schema.old) (schema_of schema.new)) }
{
    let structs = definitions.structs.as_slice();
    let services = definitions.services.as_slice();
    fill_structs(alloc, worths, structs, services, &mut schema.structs)?;
    fill_services(alloc, worths, services, &mut schema.services)?;
    let constants = all_constants(alloc, tables, worths, definitions.constants.as_slice())?;
    schema.constants = Listed::new(constants);
    Ok(())
}
