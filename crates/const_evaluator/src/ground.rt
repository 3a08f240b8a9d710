//! What evaluating asks of a program, answered from tables.

ghost use Rattle.std.specs.Prelude.{◌≡◌, map, slice_get, IfOk};
ghost use Rattle.std.specs.Option.{option_copied};
ghost use Rattle.idl_include.specs.Spots.{values_of};
ghost use Rattle.idl_include.specs.SourcesOf.{program_in};
ghost use Rattle.idl_names.specs.Listing.{listing_in, listing_of};
ghost use Rattle.idl_names.specs.SpotsIn.{filed_value};
ghost use Rattle.schema.specs.SchemaOf.{schema_of};
ghost use Rattle.check_model.specs.SchemaParts.{IsPartialSchema};
ghost use Rattle.const_evaluator.specs.Places.{ArePlaces};
ghost use Rattle.const_evaluator.specs.ProgramGrounds.{ground_program, ground_schema, ground_setting, IsProgramGround};

use crate::chain_ends::{chain_ends, end_in};
use crate::given_fields::given_fields;
use crate::struct_tables::{StructTable, struct_tables};
use crate::{ConstNames, ValuePlaces};
use idl_const::{ChainEnd, FieldEntry, Ground, field_of_name, field_row};
use idl_names::{ConstName, Definitions, GivenTree};
use idl_parser::ConstTree;
use schema::{FieldDesc, Schema, StructKind};
use std::alloc::{AllocError, Global};
use std::collections::VecDeque;
use thrift_value::Value;

/// A program in which constants are evaluated, by its tables.
#[derive(Drop)]
pub struct ProgramGround<'n, 'a> {
    // What names in constant values stand for.
    constants: &'n ConstNames<'n, 'a>,
    // The values that the program gives.
    values: &'n [GivenTree<'a>],
    // Its schema without defaults and constants.
    schema: &'n Schema,
    // The table of each struct of the schema.
    structs: Vec<StructTable<'n>>,
    // Where the chain of mere names ends that begins with each given value.
    ends: Vec<Option<ChainEnd>>,
}

/// A program by its tables: what its names stand for, its definitions, the values that it gives with their places, and its schema
/// without defaults and constants. Want of memory is also the answer where the ids of a struct's fields don't rise.
pub fn program_ground<'n, 'a>(
    alloc: Global,
    constants: &'n ConstNames<'n, 'a>,
    definitions: &Definitions<'a>,
    places: &ValuePlaces,
    values: &'n [GivenTree<'a>],
    schema: &'n Schema,
) -> Result<ProgramGround<'n, 'a>, AllocError>
    requires definitions { listing_in definitions.now ≡ listing_of (program_in constants.now) }
    requires places { ArePlaces (program_in constants.now) places.now }
    requires values { map filed_value values.now ≡ values_of (program_in constants.now) }
    requires schema { IsPartialSchema (program_in constants.now) (schema_of schema.now) }
    ensures program { IfOk result (λ made. ground_program made ≡ program_in constants.now) }
    ensures schema { IfOk result (λ made. ground_schema made ≡ schema_of schema.now) }
    ensures right { IfOk result (λ made. IsProgramGround made) }
{
    let ends = chain_ends(alloc, constants, values)?;
    let structs = definitions.structs.as_slice();
    let lists = given_fields(alloc, structs, definitions.services.as_slice())?;
    match struct_tables(alloc, places, lists.as_slice(), schema.structs.as_slice()) {
        Ok(structs) => Ok(ProgramGround {
            constants,
            values,
            schema,
            structs,
            ends,
        }),
        Err(fault) => Err(fault),
    }
}

impl<'n, 'a> ProgramGround<'n, 'a> {
    /// The table of the struct of some number.
    fn table(&self, which: u32) -> Option<&StructTable<'n>>
        ensures { option_copied result ≡ slice_get self.now.structs.items which }
    {
        self.structs.as_slice().get(which as usize)
    }
}

impl<'n, 'a> Ground for ProgramGround<'n, 'a> {
    ghost use Rattle.const_evaluator.specs.ProgramGrounds.{ground_setting, IsProgramGround};

    ghost setting = { λ g. ground_setting g };

    ghost right = { λ g. IsProgramGround g };

    fn meaning(&self, file: u32, name: &[u8]) -> Option<ConstName> {
        self.constants.const_named(file, name)
    }

    fn given_count(&self) -> usize {
        self.values.len()
    }

    fn given(&self, which: u32) -> Option<(u32, &ConstTree)> {
        match self.values.get(which as usize) {
            Some(value) => Some((value.file, value.tree)),
            None => None,
        }
    }

    fn chain_end(&self, which: u32) -> Option<ChainEnd> {
        end_in(self.ends.as_slice(), which)
    }

    fn fields_kind(&self, which: u32) -> StructKind {
        match self.table(which) {
            Some(table) => table.desc.kind,
            None => StructKind::Struct,
        }
    }

    fn field_named(&self, which: u32, name: &[u8]) -> Option<&FieldDesc> {
        match self.table(which) {
            Some(table) => field_of_name(table.desc.fields.as_slice(), &table.places, name),
            None => None,
        }
    }

    fn entries(
        &self,
        alloc: Global,
        which: u32,
        given: Vec<(i16, Value)>,
    ) -> Result<VecDeque<FieldEntry<'_>>, AllocError> {
        match self.table(which) {
            Some(table) => field_row(alloc, table.owed.as_slice(), given),
            None => Ok(VecDeque::new(alloc)),
        }
    }
}
