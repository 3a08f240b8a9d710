//! The declared field with an id, where fields are looked up one behind another.
ghost use Rattle.std.specs.Prelude.{◌≡◌, ◌<ℤ◌, map, AllPairs};
ghost use Rattle.std.specs.Option.{option_map};
ghost use Rattle.std.specs.Ordering.{int_eq};
ghost use Rattle.schema.specs.PlainSchema.{PlainField};
ghost use Rattle.schema.specs.SchemaOf.{plain_field};
ghost use Rattle.schema.specs.WrittenAs.{field_with_id};

use crate::needs::item;
use schema::FieldDesc;

/// Whether a declared field has an id.
#[inline(always)]
fn has_id(field: &FieldDesc, id: i16) -> bool
    ensures { result ≡ int_eq (plain_field field.now).id id }
{
    field.id == id
}

/// The declared field with an id, by halving, and its place.
#[inline(never)]
fn searched_field(declared: &[FieldDesc], id: i16) -> Option<(&FieldDesc, usize)>
    requires { AllPairs (λ (f g : PlainField). f.id <ℤ g.id) (map plain_field declared.now) }
    ensures { option_map (λ r. plain_field r.0.now) result ≡ field_with_id id (map plain_field declared.now) }
{
    match declared.binary_search_by_key(&id, |field| field.id) {
        Ok(place) => {
            let field = item(declared, place)?;
            Some((field, place))
        }
        Err(_) => None,
    }
}

/// The declared field with an id, and its place, which is first looked for at a place: where it is the one behind the last that was
/// found, it mostly stands there.
#[inline(always)]
pub(crate) fn field_near(
    declared: &[FieldDesc],
    place: usize,
    id: i16,
) -> Option<(&FieldDesc, usize)>
    requires { AllPairs (λ (f g : PlainField). f.id <ℤ g.id) (map plain_field declared.now) }
    ensures { option_map (λ r. plain_field r.0.now) result ≡ field_with_id id (map plain_field declared.now) }
{
    if let Some(field) = item(declared, place) {
        if has_id(field, id) {
            return Some((field, place));
        }
    }
    searched_field(declared, id)
}
