//! The fields of a struct by name.

ghost use Rattle.std.specs.Prelude.{◌≡◌, ℕ, List, map, IfOk};
ghost use Rattle.std.specs.List.{find, position_from};
ghost use Rattle.std.specs.Option.{option_map, option_copied};
ghost use Rattle.std.specs.Str.{bytes_eq};
ghost use Rattle.schema.specs.PlainSchema.{PlainField};
ghost use Rattle.schema.specs.SchemaOf.{plain_field};
ghost use Rattle.idl_names.specs.NameMaps.{number_of_name};

use idl_names::{NameMap, note, number_of_name};
use indexmap::IndexMap;
use schema::FieldDesc;
use std::alloc::{AllocError, Global};

/// The place of the first field of each name.
pub fn field_places<'a>(alloc: Global, fields: &'a [FieldDesc]) -> Result<NameMap<'a>, AllocError>
    ensures { IfOk result (λ places. (name : List ℕ) → number_of_name places name ≡ position_from (λ (f : PlainField). bytes_eq f.name name) 0 (map plain_field fields.now)) }
{
    let mut places = IndexMap::new(alloc);
    for (place, field) in fields.iter().enumerate() {
        let Ok(number) = u32::try_from(place) else {
            return Err(AllocError);
        };
        note(&mut places, field.name.as_slice(), number)?;
    }
    Ok(places)
}

/// The first field of a name.
pub fn field_of_name<'a>(
    fields: &'a [FieldDesc],
    places: &NameMap<'_>,
    name: &[u8],
) -> Option<&'a FieldDesc>
    requires { (other : List ℕ) → number_of_name places.now other ≡ position_from (λ (f : PlainField). bytes_eq f.name other) 0 (map plain_field fields.now) }
    ensures { option_map plain_field (option_copied result) ≡ find (λ (f : PlainField). bytes_eq f.name name.now) (map plain_field fields.now) }
{
    match number_of_name(places, name) {
        Some(place) => fields.get(place as usize),
        None => None,
    }
}
