//! The definitions of a program by number: a list for each kind, by file, and in a file in order.

ghost use Rattle.std.specs.Prelude.{◌≡◌, map, OnOk, IfOk};
ghost use Rattle.idl_include.specs.DeclaredIn.{definition_in};
ghost use Rattle.idl_include.specs.SourcesOf.{program_in};
ghost use Rattle.idl_names.specs.Listing.{listing_in, listing_of, with_definitions};

use crate::adding::put;
use crate::filed::InFile;
use idl_include::IdlFile;
use idl_parser::{Const, Definition, Enum, Service, Struct, Typedef};
use std::alloc::{AllocError, Global};

/// Definitions, in a list for each kind.
pub struct Definitions<'a> {
    /// The constants.
    pub constants: Vec<InFile<'a, Const>>,
    /// The typedefs.
    pub typedefs: Vec<InFile<'a, Typedef>>,
    /// The enums.
    pub enums: Vec<InFile<'a, Enum>>,
    /// The structs, unions and exceptions.
    pub structs: Vec<InFile<'a, Struct>>,
    /// The services.
    pub services: Vec<InFile<'a, Service>>,
}

// Written out, so that crates above needn't prove it again.
impl<'a> Drop for Definitions<'a> {
    fn drop(self) {
        let Definitions {
            constants,
            typedefs,
            enums,
            structs,
            services,
        } = self;
        drop(constants);
        drop(typedefs);
        drop(enums);
        drop(structs);
        drop(services);
    }
}

impl<'a> Definitions<'a> {
    ghost use Rattle.idl_names.specs.Listing.{listing_in, nothing_listed, with_definition, with_definitions};

    /// Holds no definition.
    fn new(alloc: Global) -> Self
        ensures { listing_in result ≡ nothing_listed }
    {
        Definitions {
            constants: Vec::new(alloc),
            typedefs: Vec::new(alloc),
            enums: Vec::new(alloc),
            structs: Vec::new(alloc),
            services: Vec::new(alloc),
        }
    }

    /// One definition more.
    #[tactic(auto, unfolding(crate::specs::Listing::with_definition, idl_include::specs::DeclaredIn::definition_in))]
    fn add(&mut self, file: u32, definition: &'a Definition) -> Result<(), AllocError>
        ensures { OnOk result (listing_in self.new ≡ with_definition file (definition_in definition.now) (listing_in self.old)) }
    {
        match definition {
            Definition::Const(item) => put(&mut self.constants, InFile { file, item }),
            Definition::Typedef(item) => put(&mut self.typedefs, InFile { file, item }),
            Definition::Enum(item) => put(&mut self.enums, InFile { file, item }),
            Definition::Struct(item) => put(&mut self.structs, InFile { file, item }),
            Definition::Service(item) => put(&mut self.services, InFile { file, item }),
        }
    }

    /// The definitions of a file more.
    fn add_all(&mut self, file: u32, definitions: &'a [Definition]) -> Result<(), AllocError>
        ensures { OnOk result (listing_in self.new ≡ with_definitions file (map definition_in definitions.now) (listing_in self.old)) }
    {
        for definition in definitions {
            self.add(file, definition)?;
        }
        Ok(())
    }
}

/// The definitions of files.
pub fn all_definitions<'a>(
    alloc: Global,
    files: &'a [IdlFile],
) -> Result<Definitions<'a>, AllocError>
    ensures { IfOk result (λ d. listing_in d ≡ listing_of (program_in files.now)) }
{
    let mut all = Definitions::new(alloc);
    for (number, file) in files.iter().enumerate() {
        let Ok(number) = u32::try_from(number) else {
            return Err(AllocError);
        };
        all.add_all(number, file.document.definitions.as_slice())?;
    }
    Ok(all)
}
