//! The files that a file includes, by base name.

ghost use Rattle.std.specs.Prelude.{◌≡◌, ℕ, List, All, IfOk, OnOk};
ghost use Rattle.std.specs.List.{AllZip, find};
ghost use Rattle.idl_include.specs.FileNames.{base_name};
ghost use Rattle.idl_include.specs.Names.{has_base, included_with};
ghost use Rattle.idl_include.specs.declared.sources.IdlFile.{IdlFile};
ghost use Rattle.idl_include.specs.SourcesOf.{program_in};
ghost use Rattle.idl_names.specs.NameMaps.{number_of_name, number_in_file};
ghost use Rattle.idl_names.specs.Bases.{HasOwnBase, NotesInclude};

use crate::adding::put;
use crate::name_maps::{NameMap, note};
use idl_include::IdlFile;
use indexmap::IndexMap;
use std::alloc::{AllocError, Global};

/// The numbers of included files by their base names.
fn base_map<'a>(
    alloc: Global,
    files: &'a [IdlFile],
    includes: &[u32],
) -> Result<NameMap<'a>, AllocError>
    requires { All HasOwnBase files.now }
    ensures { IfOk result (λ map. (base : List ℕ) → number_of_name map base ≡ find (has_base (program_in files.now) base) includes.now) }
{
    let mut map = IndexMap::new(alloc);
    for number in includes {
        note_base(&mut map, files, *number)?;
    }
    Ok(map)
}

/// Adds an included file, unless another has its base name.
fn note_base<'a>(map: &mut NameMap<'a>, files: &'a [IdlFile], number: u32) -> Result<(), AllocError>
    requires { All HasOwnBase files.now }
    ensures { OnOk result (NotesInclude (program_in files.now) number map.old map.new) }
{
    match files.get(number as usize) {
        Some(file) => note(map, file.base.as_slice(), number),
        None => Ok(()),
    }
}

/// The included files by base name, of each file.
pub(crate) fn base_maps<'a>(
    alloc: Global,
    files: &'a [IdlFile],
) -> Result<Vec<NameMap<'a>>, AllocError>
    requires { All HasOwnBase files.now }
    ensures { IfOk result (λ maps. (file : ℕ) (base : List ℕ) → number_in_file maps.items file base ≡ included_with (program_in files.now) file base) }
{
    let mut maps = Vec::new(alloc);
    for file in files {
        let map = base_map(alloc, files, file.includes.as_slice())?;
        put(&mut maps, map)?;
    }
    Ok(maps)
}
