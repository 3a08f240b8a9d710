//! The spots of definitions, files and a program.

ghost use Rattle.std.specs.Prelude.{◌≡◌, ◌++◌, ◌<◌, [], false, map, take, length, slice_index_or, IfOk, OnOk};
ghost use Rattle.idl_include.specs.Declarations.{declared_name, of_const, of_typedef, of_enum, of_struct_decl, of_service};
ghost use Rattle.idl_include.specs.DeclaredIn.{name_in, definition_in};
ghost use Rattle.idl_include.specs.Numbering.{Counts, all_counted};
ghost use Rattle.idl_include.specs.Spots.{in_file, parent_spots, spots_in_declaration, spots_in_declarations, spots_of};
ghost use Rattle.idl_include.specs.SourcesOf.{program_in};
ghost use Rattle.idl_names.specs.Before.{name_marks, names_before};
ghost use Rattle.idl_names.specs.FiledIn.{const_declared, typedef_declared, enum_declared, struct_declared, service_declared};
ghost use Rattle.idl_names.specs.SpotsIn.{spots_in, counts_in};

use crate::before::GivenBefore;
use crate::counts::{DefinitionCounts, no_counts, with_definition};
use crate::enums::put_values;
use crate::fields::{flag_at, put_fields};
use crate::functions::put_functions;
use crate::marks::repeated_names;
use crate::spot::{GivenName, GivenTree, ShownIn, SpotIn};
use crate::type_uses::{put_spot, put_type_uses};
use idl_include::IdlFile;
use idl_parser::{Const, Definition, Enum, Name, Service, Struct, Typedef};
use std::alloc::{AllocError, Global};

/// The spots of a program, in reading order.
pub fn program_spots<'a>(alloc: Global, files: &'a [IdlFile]) -> Result<Vec<SpotIn<'a>>, AllocError>
    ensures { IfOk result (λ spots. spots_in spots.items ≡ spots_of (program_in files.now)) }
{
    let mut spots = Vec::new(alloc);
    let mut counts = no_counts();
    for (number, file) in files.iter().enumerate() {
        let Ok(number) = u32::try_from(number) else {
            return Err(AllocError);
        };
        counts = put_file(
            alloc,
            &mut spots,
            number,
            counts,
            file.document.definitions.as_slice(),
        )?;
    }
    Ok(spots)
}

/// Puts the spots of the definitions of a file, and tells how many definitions there are with them.
fn put_file<'a>(
    alloc: Global,
    spots: &mut Vec<SpotIn<'a>>,
    file: u32,
    counts: DefinitionCounts,
    definitions: &'a [Definition],
) -> Result<DefinitionCounts, AllocError>
    ensures spots { OnOk result (spots_in spots.new.items ≡ spots_in spots.old.items ++ in_file file (spots_in_declarations [] (counts_in counts) (map definition_in definitions.now))) }
    ensures counts { IfOk result (λ next. counts_in next ≡ all_counted (counts_in counts) (map definition_in definitions.now)) }
{
    let marks = repeated_names(alloc, definitions)?;
    let mut met = counts;
    for place in 0..definitions.len() {
        let given = given_at(definitions, place, flag_at(marks.as_slice(), place));
        let definition = &definitions[place];
        put_definition(alloc, spots, file, met, given, definition)?;
        met = with_definition(met, definition)?;
    }
    Ok(met)
}

/// The name that a definition gives.
#[tactic(auto, unfolding(idl_include::specs::DeclaredIn::definition_in))]
fn name_of(definition: &Definition) -> &Name
    ensures { name_in result.now ≡ declared_name (definition_in definition.now) }
{
    match definition {
        Definition::Const(item) => &item.name,
        Definition::Typedef(item) => &item.name,
        Definition::Enum(item) => &item.name,
        Definition::Struct(item) => &item.name,
        Definition::Service(item) => &item.name,
    }
}

/// The name that the definition at a place gives, behind others.
fn given_at(definitions: &[Definition], place: usize, repeated: bool) -> GivenName<'_>
    requires place { place < length definitions.now }
    requires marked { repeated ≡ slice_index_or (name_marks [] (map (λ (d : Definition). (declared_name (definition_in d)).text) definitions.now)) place false }
    ensures before { names_before result.before ≡ map (λ (d : Definition). declared_name (definition_in d)) (take place definitions.now) }
    ensures name { (d : Definition) → name_in result.name.now ≡ declared_name (definition_in (slice_index_or definitions.now place d)) }
{
    GivenName {
        before: GivenBefore::Definitions(definitions.split_at(place).0),
        name: name_of(&definitions[place]),
        repeated,
    }
}

/// A definition that gives a name behind others, and behind so many definitions.
#[tactic(auto, unfolding(idl_include::specs::DeclaredIn::definition_in))]
fn put_definition<'a>(
    alloc: Global,
    spots: &mut Vec<SpotIn<'a>>,
    file: u32,
    counts: DefinitionCounts,
    given: GivenName<'a>,
    definition: &'a Definition,
) -> Result<(), AllocError>
    requires { name_in given.name.now ≡ declared_name (definition_in definition.now) }
    ensures { OnOk result (spots_in spots.new.items ≡ spots_in spots.old.items
        ++ in_file file (spots_in_declaration (names_before given.entry.before) (counts_in counts) (definition_in definition.now))) }
{
    match definition {
        Definition::Const(item) => put_const(spots, file, given, item),
        Definition::Typedef(item) => put_typedef(spots, file, counts.aliases, given, item),
        Definition::Enum(item) => put_enum(alloc, spots, file, given, item),
        Definition::Struct(item) => put_struct(alloc, spots, file, counts.structs, given, item),
        Definition::Service(item) => put_service(alloc, spots, file, counts.services, given, item),
    }
}

/// A constant.
#[tactic(auto, unfolding(idl_include::specs::Spots::spots_in_declaration))]
fn put_const<'a>(
    spots: &mut Vec<SpotIn<'a>>,
    file: u32,
    given: GivenName<'a>,
    item: &'a Const,
) -> Result<(), AllocError>
    requires { name_in given.name.now ≡ name_in item.now.name }
    ensures { (n : Counts) → OnOk result (spots_in spots.new.items ≡ spots_in spots.old.items
        ++ in_file file (spots_in_declaration (names_before given.entry.before) n (of_const (const_declared item.now)))) }
{
    put_type_uses(spots, file, &item.kind)?;
    put_spot(spots, file, ShownIn::Given(given))?;
    put_spot(
        spots,
        file,
        ShownIn::Value(GivenTree {
            file,
            owner: item.name.at,
            kind: &item.kind,
            tree: &item.value,
        }),
    )
}

/// A typedef of some number.
#[tactic(auto, unfolding(idl_include::specs::Spots::spots_in_declaration))]
fn put_typedef<'a>(
    spots: &mut Vec<SpotIn<'a>>,
    file: u32,
    number: u32,
    given: GivenName<'a>,
    item: &'a Typedef,
) -> Result<(), AllocError>
    requires { name_in given.name.now ≡ name_in item.now.name }
    ensures { (n : Counts) → n.aliases ≡ number → OnOk result (spots_in spots.new.items ≡ spots_in spots.old.items
        ++ in_file file (spots_in_declaration (names_before given.entry.before) n (of_typedef (typedef_declared item.now)))) }
{
    put_type_uses(spots, file, &item.kind)?;
    put_spot(spots, file, ShownIn::Given(given))?;
    put_spot(spots, file, ShownIn::Typedef(number, &item.name))
}

/// An enum.
#[tactic(auto, unfolding(idl_include::specs::Spots::spots_in_declaration))]
fn put_enum<'a>(
    alloc: Global,
    spots: &mut Vec<SpotIn<'a>>,
    file: u32,
    given: GivenName<'a>,
    item: &'a Enum,
) -> Result<(), AllocError>
    requires { name_in given.name.now ≡ name_in item.now.name }
    ensures { (n : Counts) → OnOk result (spots_in spots.new.items ≡ spots_in spots.old.items
        ++ in_file file (spots_in_declaration (names_before given.entry.before) n (of_enum (enum_declared item.now)))) }
{
    put_spot(spots, file, ShownIn::Given(given))?;
    put_values(alloc, spots, file, item.values.as_slice())
}

/// A struct, a union or an exception of some number.
#[tactic(auto, unfolding(idl_include::specs::Spots::spots_in_declaration))]
fn put_struct<'a>(
    alloc: Global,
    spots: &mut Vec<SpotIn<'a>>,
    file: u32,
    number: u32,
    given: GivenName<'a>,
    item: &'a Struct,
) -> Result<(), AllocError>
    requires { name_in given.name.now ≡ name_in item.now.name }
    ensures { (n : Counts) → n.structs ≡ number → OnOk result (spots_in spots.new.items ≡ spots_in spots.old.items
        ++ in_file file (spots_in_declaration (names_before given.entry.before) n (of_struct_decl (struct_declared item.now)))) }
{
    put_spot(spots, file, ShownIn::Given(given))?;
    put_spot(spots, file, ShownIn::Struct(number, item))?;
    put_fields(alloc, spots, file, item.fields.as_slice())
}

/// A service of some number.
#[tactic(auto, unfolding(idl_include::specs::Spots::spots_in_declaration))]
fn put_service<'a>(
    alloc: Global,
    spots: &mut Vec<SpotIn<'a>>,
    file: u32,
    number: u32,
    given: GivenName<'a>,
    item: &'a Service,
) -> Result<(), AllocError>
    requires { name_in given.name.now ≡ name_in item.now.name }
    ensures { (n : Counts) → n.services ≡ number → OnOk result (spots_in spots.new.items ≡ spots_in spots.old.items
        ++ in_file file (spots_in_declaration (names_before given.entry.before) n (of_service (service_declared item.now)))) }
{
    put_spot(spots, file, ShownIn::Given(given))?;
    put_spot(spots, file, ShownIn::Service(number, &item.name))?;
    put_parent(spots, file, item)?;
    put_functions(alloc, spots, file, number, item.functions.as_slice())
}

/// The parent of a service, if it has one.
fn put_parent<'a>(
    spots: &mut Vec<SpotIn<'a>>,
    file: u32,
    item: &'a Service,
) -> Result<(), AllocError>
    ensures { OnOk result (spots_in spots.new.items ≡ spots_in spots.old.items ++ in_file file (parent_spots (service_declared item.now).parent)) }
{
    match &item.parent {
        Some(name) => put_spot(spots, file, ShownIn::ParentUse(name)),
        None => Ok(()),
    }
}
