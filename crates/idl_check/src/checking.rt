//! A program's schema, or its first fault.

ghost use Rattle.std.specs.Prelude.{◌≡◌, All};
ghost use Rattle.idl_include.specs.SourcesOf.{AreFiles, program_in, sources_in};
ghost use Rattle.idl_names.specs.Bases.{HasOwnBase};
ghost use Rattle.idl_names.specs.Listing.{listing_in, listing_of};
ghost use Rattle.idl_check.specs.Behind.{IsCheckOf};

use crate::sound_laws::the_schema_of_loaded_files_is_sound;
use crate::values::with_values;
use check_passes::{CheckFault, typed_program};
use idl_include::{IdlFile, Sources};
use idl_names::laws::files_of_a_program_have_their_own_bases;
use idl_names::{Definitions, NameTables, all_definitions, name_tables, program_spots};
use schema::Schema;
use std::alloc::Global;

/// The schema of a program, or the first fault that its passes find, by pass and then in reading order.
pub fn check(alloc: Global, sources: &Sources) -> Result<Schema, CheckFault>
    requires { AreFiles (sources_in sources.now) }
    ensures { IsCheckOf (program_in (sources_in sources.now)) result }
{
    files_of_a_program_have_their_own_bases();
    let files = sources.files();
    let definitions = all_definitions(alloc, files)?;
    let names = name_tables(alloc, files, &definitions)?;
    checked_by(alloc, files, &definitions, &names)
}

/// The same by what is defined in the files, and what names stand for.
fn checked_by<'a>(
    alloc: Global,
    files: &'a [IdlFile],
    definitions: &Definitions<'a>,
    names: &NameTables<'a>,
) -> Result<Schema, CheckFault>
    requires files { AreFiles names.now }
    requires bases { All HasOwnBase files.now }
    requires names { files.now ≡ names.now }
    requires definitions { listing_in definitions.now ≡ listing_of (program_in names.now) }
    ensures { IsCheckOf (program_in names.now) result }
{
    the_schema_of_loaded_files_is_sound();
    let spots = program_spots(alloc, files)?;
    let spots = spots.as_slice();
    match typed_program(alloc, files, definitions, names, spots) {
        Ok(typed) => with_values(alloc, definitions, names, typed, spots),
        Err(fault) => Err(fault),
    }
}
