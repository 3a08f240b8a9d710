//! What the values of a program are worth, by number and by place, until they are taken.

ghost use Rattle.std.specs.Prelude.{◌≡◌, ℕ, Some, None, slice_index_or, map, IfOk};
ghost use Rattle.thrift_value.specs.TreeOf.{tree_of};
ghost use Rattle.idl_include.specs.Program.{Program};
ghost use Rattle.const_evaluator.specs.Places.{ArePlaces};
ghost use Rattle.check_passes.specs.Given.{AreWorth};
ghost use Rattle.idl_check.specs.Taking.{AreWorths, IsWorthAt};

use const_evaluator::ValuePlaces;
use idl_token::Place;
use std::alloc::{AllocError, Global};
use std::mem;
use thrift_value::Value;

/// What the values of a program are worth.
#[derive(Drop)]
pub(crate) struct Worths<'p> {
    /// Their numbers by place.
    pub(crate) places: &'p ValuePlaces,
    /// By number, until they are taken.
    pub(crate) values: Vec<Option<Value>>,
}

/// All values are there.
fn all_there(alloc: Global, values: Vec<Value>) -> Result<Vec<Option<Value>>, AllocError>
    ensures { IfOk result (λ made. made.items ≡ map Some values.items) }
{
    let mut made = Vec::with_capacity(alloc, values.len())?;
    for value in values {
        made.push(Some(value))?;
    }
    Ok(made)
}

/// Takes the value of a number.
fn take_numbered(values: &mut Vec<Option<Value>>, which: u32) -> Result<Value, AllocError>
    ensures taken { IfOk result (λ value. slice_index_or values.old.items which None ≡ Some value) }
    ensures kept { (k : ℕ) (value : Value) → slice_index_or values.new.items k None ≡ Some value → slice_index_or values.old.items k None ≡ Some value }
{
    let place = which as usize;
    if place >= values.len() {
        return Err(AllocError);
    }
    match mem::replace(&mut values[place], None) {
        Some(value) => Ok(value),
        None => Err(AllocError),
    }
}

impl<'p> Worths<'p> {
    /// Values in order by number, each with its place.
    pub(crate) fn new(
        alloc: Global,
        places: &'p ValuePlaces,
        values: Vec<Value>,
    ) -> Result<Self, AllocError>
        ensures { (program : Program) → ArePlaces program places.now → AreWorth program values.items → IfOk result (AreWorths program) }
    {
        let values = all_there(alloc, values)?;
        Ok(Worths { places, values })
    }

    /// Takes what is given for what stands at a place in a file.
    pub(crate) fn take(&mut self, file: u32, owner: Place) -> Result<Value, AllocError>
        ensures { (program : Program) → AreWorths program self.old
            → IfOk result (λ value. IsWorthAt program file owner (tree_of value) × AreWorths program self.new) }
    {
        let Some(which) = self.places.number(file, owner) else {
            return Err(AllocError);
        };
        take_numbered(&mut self.values, which)
    }
}
