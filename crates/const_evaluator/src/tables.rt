//! The tables of a program: what names in constant values stand for.

ghost use Rattle.std.specs.Prelude.{◌≡◌, None, map, slice_index_or, IfOk};
ghost use Rattle.std.specs.Option.{option_map, option_and_then};
ghost use Rattle.idl_parser.specs.declared.tree.Const.{Const};
ghost use Rattle.idl_include.specs.Names.{sought};
ghost use Rattle.idl_include.specs.ConstNames.{given_value, const_meaning, constant_at, enum_value_named, enum_value_at, value_of_enum};
ghost use Rattle.idl_include.specs.SourcesOf.{program_in};
ghost use Rattle.idl_names.specs.declared.filed.InFile.{InFile};
ghost use Rattle.idl_names.specs.Listing.{listing_in, listing_of};
ghost use Rattle.idl_names.specs.Meanings.{const_meant};
ghost use Rattle.const_evaluator.specs.Places.{number_at_place, ArePlaces};

use crate::enum_tables::{EnumTable, enum_tables, number_in_tables};
use crate::places::ValuePlaces;
use idl_names::{ConstName, Definitions, InFile, NameTables, is_dotted, split_last_dot};
use idl_parser::Const;
use std::alloc::{AllocError, Global};
use std::marker::Model;

/// What names in constant values stand for in a program, by tables that are made once.
#[derive(Drop)]
pub struct ConstNames<'n, 'a> {
    // What names of definitions stand for.
    names: &'n NameTables<'a>,
    // The values of each enum by name.
    enums: Vec<EnumTable<'a>>,
    // The number of the value that each constant gives.
    constants: Vec<Option<u32>>,
}

impl<'n, 'a> Model for ConstNames<'n, 'a> {
    ghost use Rattle.std.specs.Prelude.{List};
    ghost use Rattle.idl_include.specs.declared.sources.IdlFile.{IdlFile};
    ghost use Rattle.idl_include.specs.SourcesOf.{program_in};
    ghost use Rattle.const_evaluator.specs.Tables.{AreConstTables};
    ghost use Rattle.std.specs.Coded.{codes};
    ghost use Rattle.idl_parser.specs.contracts.tree.TypeTree as type_tree;
    ghost use Rattle.idl_parser.specs.contracts.tree.ConstTree as const_tree;

    ghost Value = { List IdlFile };

    ghost coded = { Prim.hlevel (codes, type_tree.the_row.coded, const_tree.the_row.coded) };

    ghost view = { λ c. c.names.now };

    ghost invariant = { λ c. AreConstTables (program_in c.names.now) c.enums.items c.constants.items };
}

/// The tables of a program, by its definitions and the places of the values that it gives.
pub fn const_names<'n, 'a>(
    alloc: Global,
    names: &'n NameTables<'a>,
    definitions: &Definitions<'a>,
    places: &ValuePlaces,
) -> Result<ConstNames<'n, 'a>, AllocError>
    requires definitions { listing_in definitions.now ≡ listing_of (program_in names.now) }
    requires places { ArePlaces (program_in names.now) places.now }
    ensures { IfOk result (λ constants. constants ≡ names.now) }
{
    let enums = enum_tables(alloc, definitions.enums.as_slice())?;
    match constant_values(alloc, definitions.constants.as_slice(), places) {
        Ok(constants) => Ok(ConstNames {
            names,
            enums,
            constants,
        }),
        Err(fault) => Err(fault),
    }
}

/// The number of the value that each constant gives.
fn constant_values(
    alloc: Global,
    constants: &[InFile<'_, Const>],
    places: &ValuePlaces,
) -> Result<Vec<Option<u32>>, AllocError>
    ensures { IfOk result (λ numbers. numbers.items ≡ map (λ (c : InFile Const). number_at_place places.now c.file c.item.now.name.at) constants.now) }
{
    let mut numbers = Vec::new(alloc);
    for constant in constants {
        numbers.push(places.number(constant.file, constant.item.name.at))?;
    }
    Ok(numbers)
}

/// What stands at a place, if there is one, and if something stands there.
fn number_at(numbers: &[Option<u32>], place: Option<u32>) -> Option<u32>
    ensures { result ≡ option_and_then (λ k. slice_index_or numbers.now k None) place }
{
    match place {
        Some(place) => numbers.get(place as usize).copied().flatten(),
        None => None,
    }
}

impl<'n, 'a> ConstNames<'n, 'a> {
    /// What a name in a constant value that stands in a file stands for.
    #[tactic(auto, unfolding(idl_include::specs::ConstNames::const_meaning))]
    pub fn const_named(&self, file: u32, name: &[u8]) -> Option<ConstName>
        ensures { option_map const_meant result ≡ const_meaning (program_in self.now) file name.now }
    {
        if let Some(found) = self.enum_value_named(file, name) {
            return Some(found);
        }
        match self.constant_named(file, name) {
            Some(which) => Some(ConstName::Value(which)),
            None => None,
        }
    }

    /// A name as that of an enum's value.
    fn enum_value_named(&self, file: u32, name: &[u8]) -> Option<ConstName>
        ensures { option_map const_meant result ≡ enum_value_named (program_in self.now) file name.now }
    {
        if !is_dotted(name) {
            return None;
        }
        let (owner, bare) = split_last_dot(name);
        match self.names.sought(file, owner) {
            Some((other, enum_name)) => self.enum_value_at(other, enum_name, bare),
            None => None,
        }
    }

    /// The value of a name of the enum that is defined in a file.
    fn enum_value_at(&self, file: u32, enum_name: &[u8], name: &[u8]) -> Option<ConstName>
        ensures { option_map const_meant result ≡ enum_value_at (program_in self.now) name.now (record { file = file; name = enum_name.now }) }
    {
        match self.names.enum_defined(file, enum_name) {
            Some(which) => self.value_of_enum(which, name),
            None => None,
        }
    }

    /// The value of a name of the enum of some number.
    fn value_of_enum(&self, which: u32, name: &[u8]) -> Option<ConstName>
        ensures { option_map const_meant result ≡ value_of_enum (program_in self.now) name.now which }
    {
        match number_in_tables(self.enums.as_slice(), which, name) {
            Some(number) => Some(ConstName::Number(which, number)),
            None => None,
        }
    }

    /// The number of the value of the constant of a name.
    fn constant_named(&self, file: u32, name: &[u8]) -> Option<u32>
        ensures { option_map given_value result ≡ option_and_then (constant_at (program_in self.now)) (sought (program_in self.now) file name.now) }
    {
        match self.names.sought(file, name) {
            Some((other, bare)) => self.constant_at(other, bare),
            None => None,
        }
    }

    /// The number of the value of the constant that is defined in a file.
    fn constant_at(&self, file: u32, name: &[u8]) -> Option<u32>
        ensures { option_map given_value result ≡ constant_at (program_in self.now) (record { file = file; name = name.now }) }
    {
        let constant = self.names.constant_defined(file, name);
        number_at(self.constants.as_slice(), constant)
    }
}
