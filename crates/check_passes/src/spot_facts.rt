//! What is wrong with a field or a function by itself.

ghost use Rattle.std.specs.Prelude.{◌≡◌, ◌↔◌, true, false, map, is_some, IsTrue};
ghost use Rattle.idl_include.specs.DeclaredIn.{field_in, function_in};
ghost use Rattle.check_model.specs.Passes.{is_bad_id};
ghost use Rattle.check_model.specs.FiniteValues.{has_no_items};

use idl_names::FieldSpot;
use idl_parser::Function;

/// Whether a field's number isn't 1 to 32767, or it has none and stands behind 32768 of them.
#[tactic(auto, unfolding(idl_include::specs::DeclaredIn::field_in))]
pub(crate) fn is_bad_field_id(spot: &FieldSpot<'_>) -> bool
    ensures { result ≡ is_bad_id (map field_in spot.now.before.now) (field_in spot.now.field.now).id }
{
    match &spot.field.id {
        Some(id) => id.value < 1 || id.value > 32767,
        None => spot.id < -32768,
    }
}

/// Whether a oneway function has a result.
#[tactic(auto, unfolding(idl_include::specs::DeclaredIn::function_in))]
pub(crate) fn has_oneway_result(function: &Function) -> bool
    ensures { IsTrue result ↔ ((function_in function.now).oneway ≡ true) × (is_some (function_in function.now).result ≡ true) }
{
    function.oneway && function.result.is_some()
}

/// Whether a oneway function throws exceptions.
#[tactic(auto, unfolding(idl_include::specs::DeclaredIn::function_in))]
pub(crate) fn has_oneway_throws(function: &Function) -> bool
    ensures { IsTrue result ↔ ((function_in function.now).oneway ≡ true) × (has_no_items (function_in function.now).throws ≡ false) }
{
    if !function.oneway {
        return false;
    }
    match &function.throws {
        Some(fields) => !fields.is_empty(),
        None => false,
    }
}
