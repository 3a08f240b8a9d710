//! The passes over a program in their order, as far as they look at spots.

ghost use Rattle.std.specs.Prelude.{◌≡◌};
ghost use Rattle.graph_cycles.specs.Walks.{OnCycle, IsLowest};
ghost use Rattle.idl_include.specs.Cycles.{alias_graph, parent_graph};
ghost use Rattle.idl_include.specs.Program.{Program};
ghost use Rattle.idl_include.specs.Spots.{spots_of};
ghost use Rattle.idl_names.specs.SpotsIn.{spots_in};
ghost use Rattle.check_passes.specs.Right.{AreFilesOf, AreStructsOf, AreMeanings, TellFinite};
ghost use Rattle.check_passes.specs.Passed.{ArePassed, name_passes, list_passes, function_passes, struct_passes};

use crate::cycle_tests::{ServiceCycles, TypedefCycles};
use crate::faults::CheckFault;
use crate::function_tests::{Lineage, RepeatedFunctions};
use crate::name_tests::UnknownNames;
use crate::pass::first_fault;
use crate::spot_tests::{
    BadFieldIds, DottedNames, OnewayExceptions, OnewayResults, RepeatedIds, RepeatedNames,
    WideEnumNumbers,
};
use crate::struct_tests::EndlessStructs;
use crate::thrown_tests::ThrownOthers;
use idl_names::{InFile, NameTables, SpotIn};
use idl_parser::Struct;
use schema::TypeDesc;

/// The first fault of names: a dot, a name that is given twice, a name that stands for nothing.
pub fn name_fault(names: &NameTables<'_>, spots: &[SpotIn<'_>]) -> Result<(), CheckFault>
    ensures { (program : Program) → AreFilesOf program names.now → spots_in spots.now ≡ spots_of program → ArePassed program name_passes result }
{
    first_fault(&DottedNames, spots)?;
    first_fault(&RepeatedNames, spots)?;
    first_fault(&UnknownNames { names }, spots)
}

/// The first fault of typedefs, fields, enums and services, where these are the least numbers of a typedef and of a service that lead
/// to themselves: a cycle of typedefs, a bad id, an id that is given twice, a number out of range, a cycle of services.
pub fn list_fault(
    typedef: Option<u32>,
    service: Option<u32>,
    spots: &[SpotIn<'_>],
) -> Result<(), CheckFault>
    ensures { (program : Program) → IsLowest (OnCycle (alias_graph program)) typedef → IsLowest (OnCycle (parent_graph program)) service
        → spots_in spots.now ≡ spots_of program → ArePassed program list_passes result }
{
    first_fault(&TypedefCycles { first: typedef }, spots)?;
    first_fault(&BadFieldIds, spots)?;
    first_fault(&RepeatedIds, spots)?;
    first_fault(&WideEnumNumbers, spots)?;
    first_fault(&ServiceCycles { first: service }, spots)
}

/// The first fault of functions: a name that is given twice, a result or exceptions of a oneway function.
pub fn function_fault<L: Lineage>(lineage: &L, spots: &[SpotIn<'_>]) -> Result<(), CheckFault>
    ensures { (program : Program) → L.right lineage.now program → spots_in spots.now ≡ spots_of program → ArePassed program function_passes result }
{
    first_fault(&RepeatedFunctions { lineage }, spots)?;
    first_fault(&OnewayResults, spots)?;
    first_fault(&OnewayExceptions, spots)
}

/// The first fault of types, where this is known of what typedefs mean, with marks of the structs that have a finite value: what is thrown
/// and is no exception, a struct without a finite value.
pub fn struct_fault(
    names: &NameTables<'_>,
    structs: &[InFile<'_, Struct>],
    aliases: &[Option<TypeDesc>],
    finite: &[bool],
    spots: &[SpotIn<'_>],
) -> Result<(), CheckFault>
    ensures { (program : Program) → AreFilesOf program names.now → AreStructsOf program structs.now → AreMeanings program aliases.now
        → TellFinite program finite.now → spots_in spots.now ≡ spots_of program → ArePassed program struct_passes result }
{
    let thrown = ThrownOthers {
        names,
        structs,
        aliases,
    };
    first_fault(&thrown, spots)?;
    first_fault(&EndlessStructs { finite }, spots)
}
