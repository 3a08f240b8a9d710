//! The values that a program gives, by the places of what they are given for.

ghost use Rattle.std.specs.Prelude.{◌≡◌, map, IfOk, OnOk};
ghost use Rattle.idl_include.specs.Program.{Program};
ghost use Rattle.idl_include.specs.Spots.{values_of};
ghost use Rattle.idl_names.specs.SpotsIn.{filed_value};
ghost use Rattle.const_evaluator.specs.Places.{number_of_place, number_at_place, HasNewPlace, ArePlaces};

use idl_names::GivenTree;
use idl_token::Place;
use indexmap::IndexMap;
use std::alloc::{AllocError, Global};

/// Numbers by file, line and column.
pub(crate) type PlaceMap = IndexMap<(u32, u32, u32), u32>;

/// The values that a program gives, by the places of the names of constants, and of fields.
#[derive(Drop)]
pub struct ValuePlaces {
    // The number of the value that is given for each.
    numbers: PlaceMap,
}

impl ValuePlaces {
    /// The number of the value that is given for the constant, or the field, at a place in a file.
    pub fn number(&self, file: u32, owner: Place) -> Option<u32>
        ensures { result ≡ number_at_place self.now file owner }
    {
        let key = (file, owner.line, owner.column);
        self.numbers.get(&key).copied()
    }
}

/// Given values by place, in order by number. A second value at one place is want of memory.
pub fn value_places(alloc: Global, values: &[GivenTree<'_>]) -> Result<ValuePlaces, AllocError>
    ensures { IfOk result (λ places. (program : Program) → map filed_value values.now ≡ values_of program → ArePlaces program places) }
{
    let mut numbers = IndexMap::new(alloc);
    for (number, value) in values.iter().enumerate() {
        put_place(&mut numbers, value.file, value.owner, number)?;
    }
    Ok(ValuePlaces { numbers })
}

/// The number of one place more, which isn't there yet.
fn put_place(
    numbers: &mut PlaceMap,
    file: u32,
    owner: Place,
    number: usize,
) -> Result<(), AllocError>
    ensures { OnOk result (HasNewPlace file owner number numbers.old numbers.new) }
{
    let Ok(number) = u32::try_from(number) else {
        return Err(AllocError);
    };
    let key = (file, owner.line, owner.column);
    if numbers.contains_key(&key) {
        return Err(AllocError);
    }
    numbers.insert(key, number)?;
    Ok(())
}
