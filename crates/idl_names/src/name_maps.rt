//! Names with their numbers, by file.

ghost use Rattle.std.specs.Prelude.{◌≡◌, ◌==◌, ◌&&◌, ◌<◌, ℕ, List, OnOk, IfOk, length};
ghost use Rattle.std.specs.List.{position_from};
ghost use Rattle.std.specs.Str.{bytes_eq};
ghost use Rattle.idl_names.specs.NameMaps.{number_of_name, number_in_file, HasOneMore, HasOneMoreIn};

use crate::filed::{InFile, Named};
use indexmap::IndexMap;
use std::alloc::{AllocError, Global};

/// Names of a file with their numbers.
pub type NameMap<'a> = IndexMap<&'a [u8], u32>;

/// The number of a name.
pub fn number_of_name(map: &NameMap<'_>, name: &[u8]) -> Option<u32>
    ensures { result ≡ number_of_name map.now name.now }
{
    map.get(name).copied()
}

/// The number of a name in a file.
pub(crate) fn number_in_file(maps: &[NameMap<'_>], file: u32, name: &[u8]) -> Option<u32>
    ensures { result ≡ number_in_file maps.now file name.now }
{
    match maps.get(file as usize) {
        Some(map) => number_of_name(map, name),
        None => None,
    }
}

/// Adds a name, unless it is there.
pub fn note<'a>(map: &mut NameMap<'a>, name: &'a [u8], number: u32) -> Result<(), AllocError>
    ensures { OnOk result (HasOneMore name.now number map.old map.new) }
{
    if map.contains_key(name) {
        return Ok(());
    }
    map.insert(name, number)?;
    Ok(())
}

/// Makes a map for the file of this number, empty where there was none.
fn reach(alloc: Global, maps: &mut Vec<NameMap<'_>>, file: usize) -> Result<(), AllocError>
    ensures same { (f : ℕ) (other : List ℕ) → number_in_file maps.new.items f other ≡ number_in_file maps.old.items f other }
    ensures reached { OnOk result (file < length maps.new.items) }
{
    while maps.len() <= file {
        maps.push(IndexMap::new(alloc))?;
    }
    Ok(())
}

/// Adds a name in a file, unless it is there.
fn note_in<'a>(
    alloc: Global,
    maps: &mut Vec<NameMap<'a>>,
    file: u32,
    name: &'a [u8],
    number: u32,
) -> Result<(), AllocError>
    ensures { OnOk result (HasOneMoreIn file name.now number maps.old.items maps.new.items) }
{
    reach(alloc, maps, file as usize)?;
    note(&mut maps[file as usize], name, number)
}

/// The first number of each name, by file.
pub(crate) fn name_maps<'a, D: Named>(
    alloc: Global,
    items: &[InFile<'a, D>],
) -> Result<Vec<NameMap<'a>>, AllocError>
    ensures { IfOk result (λ maps. (file : ℕ) (name : List ℕ) → number_in_file maps.items file name
        ≡ position_from (λ x. (x.file == file) && bytes_eq (D.text x.item.now) name) 0 items.now) }
{
    let mut maps = Vec::new(alloc);
    for (number, item) in items.iter().enumerate() {
        let Ok(number) = u32::try_from(number) else {
            return Err(AllocError);
        };
        note_in(alloc, &mut maps, item.file, item.item.name_bytes(), number)?;
    }
    Ok(maps)
}
