//! The last stage of a check: the values that a program gives, and its schema with them.

ghost use Rattle.std.specs.Prelude.{◌≡◌, MatchResult};
ghost use Rattle.idl_include.specs.Spots.{spots_of};
ghost use Rattle.idl_include.specs.SourcesOf.{program_in};
ghost use Rattle.idl_names.specs.Listing.{listing_in, listing_of};
ghost use Rattle.idl_names.specs.SpotsIn.{spots_in};
ghost use Rattle.schema.specs.SchemaOf.{schema_of};
ghost use Rattle.check_model.specs.Passes.{bad_constant};
ghost use Rattle.check_model.specs.FirstFlaw.{IsFirstOf};
ghost use Rattle.check_model.specs.SchemaParts.{IsPartialSchema};
ghost use Rattle.const_evaluator.specs.Places.{ArePlaces};
ghost use Rattle.idl_types.specs.Known.{AreAliasTypes};
ghost use Rattle.check_passes.specs.Faults.{TellsFlaw};
ghost use Rattle.check_passes.specs.Given.{AreGivenValues, AreWorth};
ghost use Rattle.check_passes.specs.Typed.{IsTyped};
ghost use Rattle.idl_check.specs.Behind.{IsValued};

use crate::whole_schema;
use check_passes::{CheckFault, TypedProgram, evaluate_all};
use const_evaluator::{
    ConstNames, ValuePlaces, const_names, program_evaluator, program_ground, value_places,
};
use idl_names::{Definitions, GivenTree, NameTables, SpotIn, values_at};
use idl_types::TypeTables;
use schema::Schema;
use std::alloc::Global;
use thrift_value::Value;

/// The schema of a program of types without fault, or the first fault of its values.
pub(crate) fn with_values<'a>(
    alloc: Global,
    definitions: &Definitions<'a>,
    names: &NameTables<'a>,
    typed: TypedProgram,
    spots: &[SpotIn<'a>],
) -> Result<Schema, CheckFault>
    requires definitions { listing_in definitions.now ≡ listing_of (program_in names.now) }
    requires typed { IsTyped (program_in names.now) typed }
    requires spots { spots_in spots.now ≡ spots_of (program_in names.now) }
    ensures { IsValued (program_in names.now) result }
{
    let TypedProgram { aliases, partial } = typed;
    let tables = TypeTables {
        names,
        aliases: aliases.as_slice(),
    };
    with_given(alloc, definitions, &tables, partial, spots)
}

/// The same by what types mean, from the schema without defaults and constants.
fn with_given<'n, 'a>(
    alloc: Global,
    definitions: &Definitions<'a>,
    tables: &TypeTables<'n, 'a>,
    partial: Schema,
    spots: &[SpotIn<'a>],
) -> Result<Schema, CheckFault>
    requires definitions { listing_in definitions.now ≡ listing_of (program_in tables.now.names.now) }
    requires aliases { AreAliasTypes (program_in tables.now.names.now) tables.now.aliases.now }
    requires partial { IsPartialSchema (program_in tables.now.names.now) (schema_of partial) }
    requires spots { spots_in spots.now ≡ spots_of (program_in tables.now.names.now) }
    ensures { IsValued (program_in tables.now.names.now) result }
{
    let values = values_at(alloc, spots)?;
    with_placed(alloc, definitions, tables, partial, values.as_slice())
}

/// The same by the values that are given.
fn with_placed<'n, 'a>(
    alloc: Global,
    definitions: &Definitions<'a>,
    tables: &TypeTables<'n, 'a>,
    partial: Schema,
    values: &[GivenTree<'a>],
) -> Result<Schema, CheckFault>
    requires definitions { listing_in definitions.now ≡ listing_of (program_in tables.now.names.now) }
    requires aliases { AreAliasTypes (program_in tables.now.names.now) tables.now.aliases.now }
    requires partial { IsPartialSchema (program_in tables.now.names.now) (schema_of partial) }
    requires values { AreGivenValues (program_in tables.now.names.now) values.now }
    ensures { IsValued (program_in tables.now.names.now) result }
{
    let places = value_places(alloc, values)?;
    match worths_over(alloc, definitions, tables, &places, &partial, values) {
        Ok(made) => Ok(whole_schema(alloc, definitions, tables, &places, partial, made)?),
        Err(fault) => Err(fault),
    }
}

/// What the values of a program are worth, in order, or the first fault.
fn worths_over<'n, 'a>(
    alloc: Global,
    definitions: &Definitions<'a>,
    tables: &TypeTables<'n, 'a>,
    places: &ValuePlaces,
    partial: &Schema,
    values: &[GivenTree<'a>],
) -> Result<Vec<Value>, CheckFault>
    requires definitions { listing_in definitions.now ≡ listing_of (program_in tables.now.names.now) }
    requires aliases { AreAliasTypes (program_in tables.now.names.now) tables.now.aliases.now }
    requires places { ArePlaces (program_in tables.now.names.now) places.now }
    requires partial { IsPartialSchema (program_in tables.now.names.now) (schema_of partial.now) }
    requires values { AreGivenValues (program_in tables.now.names.now) values.now }
    ensures { MatchResult result (λ made. AreWorth (program_in tables.now.names.now) made.items)
        (TellsFlaw (IsFirstOf (program_in tables.now.names.now) bad_constant)) }
{
    let constants = const_names(alloc, tables.names, definitions, places)?;
    worths_by(
        alloc,
        &constants,
        definitions,
        tables,
        places,
        partial,
        values,
    )
}

/// The same by what names in values stand for.
fn worths_by<'n, 'a>(
    alloc: Global,
    constants: &ConstNames<'n, 'a>,
    definitions: &Definitions<'a>,
    tables: &TypeTables<'n, 'a>,
    places: &ValuePlaces,
    partial: &Schema,
    values: &[GivenTree<'a>],
) -> Result<Vec<Value>, CheckFault>
    requires constants { constants.now ≡ tables.now.names.now }
    requires definitions { listing_in definitions.now ≡ listing_of (program_in tables.now.names.now) }
    requires aliases { AreAliasTypes (program_in tables.now.names.now) tables.now.aliases.now }
    requires places { ArePlaces (program_in tables.now.names.now) places.now }
    requires partial { IsPartialSchema (program_in tables.now.names.now) (schema_of partial.now) }
    requires values { AreGivenValues (program_in tables.now.names.now) values.now }
    ensures { MatchResult result (λ made. AreWorth (program_in tables.now.names.now) made.items)
        (TellsFlaw (IsFirstOf (program_in tables.now.names.now) bad_constant)) }
{
    let ground = program_ground(alloc, constants, definitions, places, values, partial)?;
    let mut evaluator = program_evaluator(alloc, &ground, tables)?;
    evaluate_all(alloc, &mut evaluator, values)
}
