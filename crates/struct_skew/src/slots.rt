//! Items that are taken out of a vector, and put back where they stood.
ghost use Rattle.std.specs.Prelude.{◌≡◌, ◌<◌, length, slice_index_or, slice_set};
ghost use Rattle.std.specs.Option.{option_map};
ghost use Rattle.struct_skew.specs.Answering.{PutsAt};
ghost use Rattle.struct_skew.specs.TakenOut.{named_field, without_named};

use crate::fault::SkewFault;
use std::mem;
use thrift_value::Value;

/// Takes out the item at a place, where another stands from then on.
pub(crate) fn take_item<T>(items: &mut Vec<T>, place: usize, instead: T) -> T
    requires { place < length items.old.items }
    ensures taken { (d : _) → result ≡ slice_index_or items.old.items place d }
    ensures left { items.new.items ≡ slice_set items.old.items place instead }
{
    mem::replace(&mut items[place], instead)
}

/// Puts an item at a place, where it was found.
pub(crate) fn put_item<T: Drop>(
    items: &mut Vec<T>,
    place: usize,
    found: Result<T, SkewFault>,
) -> Result<(), SkewFault>
    requires { place < length items.old.items }
    ensures { PutsAt place found result items.old.items items.new.items }
{
    match found {
        Ok(item) => {
            items[place] = item;
            Ok(())
        }
        Err(fault) => Err(fault),
    }
}

/// Takes out the value of the raw field that a choice names, if there is one.
pub(crate) fn take_named(sent: &mut Vec<(i16, Value)>, named: Option<usize>) -> Option<Value>
    ensures taken { result ≡ option_map (λ field. field.1) (named_field sent.old.items named) }
    ensures left { sent.new.items ≡ without_named sent.old.items named }
{
    let Some(place) = named else {
        return None;
    };
    if place >= sent.as_slice().len() {
        return None;
    }
    let (_, value) = take_item(sent, place, (0, Value::Bool(false)));
    Some(value)
}
