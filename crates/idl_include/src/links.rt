//! What files that were begun include: numbers of other files, which come one by one.

ghost use Rattle.std.specs.Prelude.{◌≡◌, ◌<◌, ◌++◌, ◌∷◌, [], length, is_ok, OnOk, if◌then◌else◌};
ghost use Rattle.idl_include.specs.Loading.{linked};
ghost use Rattle.idl_include.specs.SourcesOf.{AreBegun, program_in};
ghost use Rattle.idl_include.specs.Begun.{HasInclude, KeepsFiles};

use crate::sources::IdlFile;
use std::alloc::AllocError;

/// The file of number `of` includes that of `number`.
pub(crate) fn link(begun: &mut Vec<IdlFile>, of: usize, number: usize) -> Result<(), AllocError>
    requires begun { AreBegun begun.old.items }
    requires of { of < length begun.old.items }
    requires number { number < length begun.old.items }
    ensures keeps { KeepsFiles begun.old.items begun.new.items }
    ensures linked { OnOk result (program_in begun.new.items ≡ linked of number (program_in begun.old.items)) }
{
    add_include(&mut begun[of], number as u32)
}

/// The file includes one file more.
fn add_include(file: &mut IdlFile, number: u32) -> Result<(), AllocError>
    ensures { HasInclude (is_ok result) number file.old file.new }
{
    file.includes.push(number)?;
    Ok(())
}
