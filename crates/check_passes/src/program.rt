//! All passes over the spots of a program in their order. What a pass looks at is made where those before found nothing.

ghost use Rattle.std.specs.Prelude.{◌≡◌, All, IfOk, MatchResult, Result};
ghost use Rattle.graph_cycles.specs.Walks.{OnCycle, IsLowest};
ghost use Rattle.idl_include.specs.Cycles.{alias_graph, parent_graph};
ghost use Rattle.idl_include.specs.Program.{Program};
ghost use Rattle.idl_include.specs.Spots.{spots_of};
ghost use Rattle.idl_include.specs.SourcesOf.{program_in};
ghost use Rattle.idl_names.specs.Bases.{HasOwnBase};
ghost use Rattle.idl_names.specs.Listing.{listing_in, listing_of};
ghost use Rattle.idl_names.specs.SpotsIn.{spots_in};
ghost use Rattle.idl_types.specs.Rows.{parents_of};
ghost use Rattle.idl_types.specs.Known.{AreAliasTypes};
ghost use Rattle.schema.specs.SchemaOf.{schema_of};
ghost use Rattle.check_model.specs.SchemaParts.{IsPartialSchema};
ghost use Rattle.check_passes.specs.Right.{TellFinite};
ghost use Rattle.check_passes.specs.Typed.{IsTyped};
ghost use Rattle.check_passes.specs.Passed.{ArePassed, struct_passes, passes_behind_lists, passes_behind_names, spot_passes};

use crate::faults::CheckFault;
use crate::passes::{function_fault, list_fault, name_fault, struct_fault};
use graph_cycles::first_on_cycle;
use idl_include::IdlFile;
use idl_names::{Definitions, NameTables, SpotIn};
use idl_types::{
    TypeTables, alias_types, inherited_names, parent_rows, service_parents, typedef_rows,
};
use schema::{Schema, TypeDesc};
use schema_bare::{finite_structs, partial_schema};
use std::alloc::{AllocError, Global};

/// The types of a program, and its schema without defaults and constants.
#[derive(Drop)]
pub struct TypedProgram {
    /// The types of its typedefs by number.
    pub aliases: Vec<Option<TypeDesc>>,
    /// The schema.
    pub partial: Schema,
}

/// The types of a program, or its first fault, as far as no constant and no default has one; by its files, its definitions, what its names
/// stand for, and its spots.
pub fn typed_program(
    alloc: Global,
    files: &[IdlFile],
    definitions: &Definitions<'_>,
    names: &NameTables<'_>,
    spots: &[SpotIn<'_>],
) -> Result<TypedProgram, CheckFault>
    requires bases { All HasOwnBase files.now }
    requires names { files.now ≡ names.now }
    requires definitions { listing_in definitions.now ≡ listing_of (program_in names.now) }
    requires spots { spots_in spots.now ≡ spots_of (program_in names.now) }
    ensures passed { ArePassed (program_in names.now) spot_passes result }
    ensures typed { IfOk result (IsTyped (program_in names.now)) }
{
    match name_fault(names, spots) {
        Ok(()) => first_behind_names(alloc, files, definitions, names, spots),
        Err(fault) => Err(fault),
    }
}

/// The first fault at these spots after those of names.
fn first_behind_names(
    alloc: Global,
    files: &[IdlFile],
    definitions: &Definitions<'_>,
    names: &NameTables<'_>,
    spots: &[SpotIn<'_>],
) -> Result<TypedProgram, CheckFault>
    requires bases { All HasOwnBase files.now }
    requires names { files.now ≡ names.now }
    requires definitions { listing_in definitions.now ≡ listing_of (program_in names.now) }
    requires spots { spots_in spots.now ≡ spots_of (program_in names.now) }
    ensures passed { ArePassed (program_in names.now) passes_behind_names result }
    ensures typed { IfOk result (IsTyped (program_in names.now)) }
{
    let parents = service_parents(alloc, names, definitions.services.as_slice())?;
    let typedef = typedef_on_cycle(alloc, names, definitions)?;
    let service = service_on_cycle(alloc, parents.as_slice())?;
    match list_fault(typedef, service, spots) {
        Ok(()) => first_behind_lists(alloc, files, definitions, names, parents.as_slice(), spots),
        Err(fault) => Err(fault),
    }
}

/// The least number of a typedef that leads to itself.
fn typedef_on_cycle(
    alloc: Global,
    names: &NameTables<'_>,
    definitions: &Definitions<'_>,
) -> Result<Option<u32>, AllocError>
    requires { listing_in definitions.now ≡ listing_of (program_in names.now) }
    ensures { IfOk result (IsLowest (OnCycle (alias_graph (program_in names.now)))) }
{
    let rows = typedef_rows(alloc, names, definitions.typedefs.as_slice())?;
    let first = first_on_cycle(alloc, rows.as_slice())?;
    Ok(first)
}

/// The least number of a service that extends itself, by the parents of services.
fn service_on_cycle(alloc: Global, parents: &[Option<u32>]) -> Result<Option<u32>, AllocError>
    ensures { (program : Program) → parents.now ≡ parents_of program → IfOk result (IsLowest (OnCycle (parent_graph program))) }
{
    let rows = parent_rows(alloc, parents)?;
    let first = first_on_cycle(alloc, rows.as_slice())?;
    Ok(first)
}

/// The first fault at these spots after those of typedefs, fields, enums and services.
fn first_behind_lists(
    alloc: Global,
    files: &[IdlFile],
    definitions: &Definitions<'_>,
    names: &NameTables<'_>,
    parents: &[Option<u32>],
    spots: &[SpotIn<'_>],
) -> Result<TypedProgram, CheckFault>
    requires bases { All HasOwnBase files.now }
    requires names { files.now ≡ names.now }
    requires definitions { listing_in definitions.now ≡ listing_of (program_in names.now) }
    requires parents { parents.now ≡ parents_of (program_in names.now) }
    requires spots { spots_in spots.now ≡ spots_of (program_in names.now) }
    ensures passed { ArePassed (program_in names.now) passes_behind_lists result }
    ensures typed { IfOk result (IsTyped (program_in names.now)) }
{
    let lineage = inherited_names(alloc, parents, definitions.services.as_slice())?;
    match function_fault(&lineage, spots) {
        Ok(()) => first_of_types(alloc, files, definitions, names, spots),
        Err(fault) => Err(fault),
    }
}

/// The types of a program, made once its functions are checked.
fn first_of_types(
    alloc: Global,
    files: &[IdlFile],
    definitions: &Definitions<'_>,
    names: &NameTables<'_>,
    spots: &[SpotIn<'_>],
) -> Result<TypedProgram, CheckFault>
    requires bases { All HasOwnBase files.now }
    requires names { files.now ≡ names.now }
    requires definitions { listing_in definitions.now ≡ listing_of (program_in names.now) }
    requires spots { spots_in spots.now ≡ spots_of (program_in names.now) }
    ensures passed { ArePassed (program_in names.now) struct_passes result }
    ensures typed { IfOk result (IsTyped (program_in names.now)) }
{
    let typed = parts_of(alloc, files, definitions, names)?;
    let found = types_fault(alloc, definitions, names, &typed, spots);
    passed(typed, found)
}

/// The types of a program, where no fault was found in them.
fn passed(typed: TypedProgram, found: Result<(), CheckFault>) -> Result<TypedProgram, CheckFault>
    ensures { MatchResult found (λ _. result ≡ Result.Ok typed) (λ fault. result ≡ Result.Err fault) }
{
    match found {
        Ok(()) => Ok(typed),
        Err(fault) => Err(fault),
    }
}

/// The types of a program, with its schema.
fn parts_of(
    alloc: Global,
    files: &[IdlFile],
    definitions: &Definitions<'_>,
    names: &NameTables<'_>,
) -> Result<TypedProgram, AllocError>
    requires bases { All HasOwnBase files.now }
    requires names { files.now ≡ names.now }
    requires definitions { listing_in definitions.now ≡ listing_of (program_in names.now) }
    ensures { IfOk result (IsTyped (program_in names.now)) }
{
    let aliases = alias_types(alloc, names, definitions.typedefs.as_slice())?;
    let partial = untold_schema(alloc, files, definitions, names, aliases.as_slice());
    joined(aliases, partial)
}

/// The types of typedefs, and the schema where there is one.
fn joined(
    aliases: Vec<Option<TypeDesc>>,
    partial: Result<Schema, AllocError>,
) -> Result<TypedProgram, AllocError>
    ensures { (program : Program) → AreAliasTypes program aliases.items → IfOk partial (λ schema. IsPartialSchema program (schema_of schema)) → IfOk result (IsTyped program) }
{
    match partial {
        Ok(partial) => Ok(TypedProgram { aliases, partial }),
        Err(error) => Err(error),
    }
}

/// The schema of a program without defaults and constants, by the types of its typedefs.
fn untold_schema(
    alloc: Global,
    files: &[IdlFile],
    definitions: &Definitions<'_>,
    names: &NameTables<'_>,
    aliases: &[Option<TypeDesc>],
) -> Result<Schema, AllocError>
    requires bases { All HasOwnBase files.now }
    requires names { files.now ≡ names.now }
    requires definitions { listing_in definitions.now ≡ listing_of (program_in names.now) }
    requires aliases { AreAliasTypes (program_in names.now) aliases.now }
    ensures { IfOk result (λ partial. IsPartialSchema (program_in names.now) (schema_of partial)) }
{
    let tables = TypeTables { names, aliases };
    partial_schema(alloc, files, definitions, &tables)
}

/// The first fault of types at these spots.
fn types_fault(
    alloc: Global,
    definitions: &Definitions<'_>,
    names: &NameTables<'_>,
    typed: &TypedProgram,
    spots: &[SpotIn<'_>],
) -> Result<(), CheckFault>
    requires definitions { listing_in definitions.now ≡ listing_of (program_in names.now) }
    requires typed { IsTyped (program_in names.now) typed.now }
    requires spots { spots_in spots.now ≡ spots_of (program_in names.now) }
    ensures { ArePassed (program_in names.now) struct_passes result }
{
    let finite = finite_marks(alloc, &typed.partial)?;
    let structs = definitions.structs.as_slice();
    struct_fault(
        names,
        structs,
        typed.aliases.as_slice(),
        finite.as_slice(),
        spots,
    )
}

/// Which structs have a finite value, by number.
fn finite_marks(alloc: Global, partial: &Schema) -> Result<Vec<bool>, AllocError>
    ensures { (program : Program) → IsPartialSchema program (schema_of partial.now) → IfOk result (λ finite. TellFinite program finite.items) }
{
    let finite = finite_structs(alloc, partial)?;
    Ok(finite)
}
