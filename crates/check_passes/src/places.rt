//! The places of spots.

ghost use Rattle.std.specs.Prelude.{◌≡◌};
ghost use Rattle.check_model.specs.Passes.{place_shown};
ghost use Rattle.idl_names.specs.SpotsIn.{shown_in};

use idl_names::{ShownIn, SpotIn};
use idl_token::Place;

/// The place of what is shown at a spot.
#[tactic(auto, unfolding(idl_include::specs::DeclaredIn::field_in, idl_include::specs::DeclaredIn::function_in))]
pub(crate) fn place_of(spot: &SpotIn<'_>) -> Place
    ensures { result ≡ place_shown (shown_in spot.now.shown) }
{
    match spot.shown {
        ShownIn::Given(given) => given.name.at,
        ShownIn::TypeUse(name) | ShownIn::ParentUse(name) => name.at,
        ShownIn::Typedef(_, name) | ShownIn::Service(_, name) => name.at,
        ShownIn::Field(field) => field.field.at,
        ShownIn::Thrown(field) => field.at,
        ShownIn::EnumValue(value) => value.value.name.at,
        ShownIn::Struct(_, item) => item.name.at,
        ShownIn::Function(function) => function.function.at,
        ShownIn::Value(given) => given.owner,
    }
}
