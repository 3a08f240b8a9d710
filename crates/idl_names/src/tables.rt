//! The tables of a program: what names stand for.

ghost use Rattle.std.specs.Prelude.{◌≡◌, IfOk, All};
ghost use Rattle.std.specs.Option.{option_map, option_or};
ghost use Rattle.idl_include.specs.Declarations.{ConstDecl, EnumDecl};
ghost use Rattle.idl_include.specs.Names.{an_alias, an_enum, a_struct, sought, type_defined, type_named, service_for_name};
ghost use Rattle.idl_include.specs.Numbering.{number_named, constants_of, enums_of};
ghost use Rattle.idl_include.specs.SourcesOf.{program_in};
ghost use Rattle.idl_names.specs.Bases.{HasOwnBase};
ghost use Rattle.idl_names.specs.Listing.{listing_in, listing_of};
ghost use Rattle.idl_names.specs.Meanings.{type_meant, sought_meant};

use crate::bases::base_maps;
use crate::definitions::Definitions;
use crate::dots::{is_dotted, split_last_dot};
use crate::name_maps::{NameMap, name_maps, number_in_file};
use idl_include::IdlFile;
use std::alloc::{AllocError, Global};
use std::marker::Model;

/// What names stand for in a program, by tables that are made once.
pub struct NameTables<'a> {
    // The files.
    files: &'a [IdlFile],
    // The included files of each by base name.
    bases: Vec<NameMap<'a>>,
    // The numbers of definitions of each kind, by file and name.
    constants: Vec<NameMap<'a>>,
    typedefs: Vec<NameMap<'a>>,
    enums: Vec<NameMap<'a>>,
    structs: Vec<NameMap<'a>>,
    services: Vec<NameMap<'a>>,
}

impl<'a> Model for NameTables<'a> {
    ghost use Rattle.std.specs.Prelude.{List};
    ghost use Rattle.idl_include.specs.declared.sources.IdlFile.{IdlFile};
    ghost use Rattle.idl_include.specs.SourcesOf.{program_in};
    ghost use Rattle.idl_names.specs.Tables.{AreTables};
    ghost use Rattle.std.specs.Coded.{codes};
    ghost use Rattle.idl_parser.specs.contracts.tree.TypeTree as type_tree;
    ghost use Rattle.idl_parser.specs.contracts.tree.ConstTree as const_tree;

    ghost Value = { List IdlFile };

    ghost coded = { Prim.hlevel (codes, type_tree.the_row.coded, const_tree.the_row.coded) };

    ghost view = { λ n. n.files.now };

    ghost invariant = { λ n. AreTables (program_in n.files.now) n.bases.items n.constants.items n.typedefs.items n.enums.items n.structs.items n.services.items };
}

// Written out, so that crates above needn't prove it again.
impl<'a> Drop for NameTables<'a> {
    fn drop(self) {
        let NameTables {
            files: _,
            bases,
            constants,
            typedefs,
            enums,
            structs,
            services,
        } = self;
        drop(bases);
        drop(constants);
        drop(typedefs);
        drop(enums);
        drop(structs);
        drop(services);
    }
}

/// What a type's name stands for, by number.
#[derive(Clone, Copy, PartialEq, Eq)]
pub enum TypeName {
    /// A typedef.
    Alias(u32),
    /// An enum.
    Enum(u32),
    /// A struct, a union or an exception.
    Struct(u32),
}

/// What a name in a constant value stands for, by number.
#[derive(Clone, Copy, PartialEq, Eq)]
pub enum ConstName {
    /// The number of a value of the enum of some number.
    Number(u32, i64),
    /// The given value of some number.
    Value(u32),
}

/// The tables of files.
pub fn name_tables<'a>(
    alloc: Global,
    files: &'a [IdlFile],
    definitions: &Definitions<'a>,
) -> Result<NameTables<'a>, AllocError>
    requires bases { All HasOwnBase files.now }
    requires definitions { listing_in definitions.now ≡ listing_of (program_in files.now) }
    ensures { IfOk result (λ names. names ≡ files.now) }
{
    let bases = base_maps(alloc, files)?;
    let constants = name_maps(alloc, definitions.constants.as_slice())?;
    let typedefs = name_maps(alloc, definitions.typedefs.as_slice())?;
    let enums = name_maps(alloc, definitions.enums.as_slice())?;
    let structs = name_maps(alloc, definitions.structs.as_slice())?;
    let services = name_maps(alloc, definitions.services.as_slice())?;
    Ok(NameTables {
        files,
        bases,
        constants,
        typedefs,
        enums,
        structs,
        services,
    })
}

impl<'a> NameTables<'a> {
    /// The file and the bare name that a name in a file stands for, if it is that of an included file or has no dot.
    #[tactic(auto, unfolding(idl_include::specs::Names::sought))]
    pub fn sought<'n>(&self, file: u32, name: &'n [u8]) -> Option<(u32, &'n [u8])>
        ensures { sought_meant result ≡ sought (program_in self.now) file name.now }
    {
        if !is_dotted(name) {
            return Some((file, name));
        }
        let (base, bare) = split_last_dot(name);
        match number_in_file(self.bases.as_slice(), file, base) {
            Some(other) => Some((other, bare)),
            None => None,
        }
    }

    /// The type that a name in a file stands for.
    #[tactic(auto, unfolding(idl_include::specs::Names::type_named))]
    pub fn type_named(&self, file: u32, name: &[u8]) -> Option<TypeName>
        ensures { option_map type_meant result ≡ type_named (program_in self.now) file name.now }
    {
        match self.sought(file, name) {
            Some((other, bare)) => self.type_defined(other, bare),
            None => None,
        }
    }

    /// The type of a name that is defined in a file.
    fn type_defined(&self, file: u32, name: &[u8]) -> Option<TypeName>
        ensures { option_map type_meant result ≡ type_defined (program_in self.now) (record { file = file; name = name.now }) }
    {
        let alias = number_in_file(self.typedefs.as_slice(), file, name);
        let number = number_in_file(self.enums.as_slice(), file, name);
        let structure = number_in_file(self.structs.as_slice(), file, name);
        first_type(alias, number, structure)
    }

    /// The constant of a name that is defined in a file.
    pub fn constant_defined(&self, file: u32, name: &[u8]) -> Option<u32>
        ensures { result ≡ number_named (λ (c : ConstDecl). c.name) (constants_of (program_in self.now)) file name.now }
    {
        number_in_file(self.constants.as_slice(), file, name)
    }

    /// The enum of a name that is defined in a file.
    pub fn enum_defined(&self, file: u32, name: &[u8]) -> Option<u32>
        ensures { result ≡ number_named (λ (e : EnumDecl). e.name) (enums_of (program_in self.now)) file name.now }
    {
        number_in_file(self.enums.as_slice(), file, name)
    }

    /// The service that a name in a file stands for.
    #[tactic(auto, unfolding(idl_include::specs::Names::service_for_name))]
    pub fn service_named(&self, file: u32, name: &[u8]) -> Option<u32>
        ensures { result ≡ service_for_name (program_in self.now) file name.now }
    {
        match self.sought(file, name) {
            Some((other, bare)) => number_in_file(self.services.as_slice(), other, bare),
            None => None,
        }
    }
}

/// The first that is there.
fn first_type(alias: Option<u32>, number: Option<u32>, structure: Option<u32>) -> Option<TypeName>
    ensures { option_map type_meant result ≡ option_or (option_map an_alias alias) (option_or (option_map an_enum number) (option_map a_struct structure)) }
{
    if let Some(found) = alias {
        return Some(TypeName::Alias(found));
    }
    if let Some(found) = number {
        return Some(TypeName::Enum(found));
    }
    match structure {
        Some(found) => Some(TypeName::Struct(found)),
        None => None,
    }
}
