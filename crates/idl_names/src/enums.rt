//! The spots of the values of an enum.

ghost use Rattle.std.specs.Prelude.{◌≡◌, ◌++◌, ◌∷◌, ◌<◌, [], pos, false, map, take, length, slice_index_or, OnOk};
ghost use Rattle.idl_include.specs.Declarations.{EnumValueDecl};
ghost use Rattle.idl_include.specs.DeclaredIn.{enum_value_in};
ghost use Rattle.idl_include.specs.Spots.{in_file, enum_value_spot, given_name, spots_in_enum};
ghost use Rattle.idl_names.specs.Before.{name_marks};
ghost use Rattle.idl_names.specs.EnumRange.{fit_marks};
ghost use Rattle.idl_names.specs.SpotsIn.{spots_in, shown_in};

use crate::before::GivenBefore;
use crate::fields::flag_at;
use crate::ids::enum_fits;
use crate::marks::repeated_names;
use crate::spot::{EnumValueSpot, GivenName, ShownIn, SpotIn};
use crate::type_uses::put_spot;
use idl_parser::EnumValue;
use std::alloc::{AllocError, Global};

/// The values of an enum.
pub(crate) fn put_values<'a>(
    alloc: Global,
    spots: &mut Vec<SpotIn<'a>>,
    file: u32,
    values: &'a [EnumValue],
) -> Result<(), AllocError>
    ensures { OnOk result (spots_in spots.new.items ≡ spots_in spots.old.items ++ in_file file (spots_in_enum [] (map enum_value_in values.now))) }
{
    let names = repeated_names(alloc, values)?;
    let fits = enum_fits(alloc, values)?;
    for place in 0..values.len() {
        let shown = value_shown(values, place, flag_at(fits.as_slice(), place));
        put_spot(spots, file, shown)?;
        let given = value_name_shown(values, place, flag_at(names.as_slice(), place));
        put_spot(spots, file, given)?;
    }
    Ok(())
}

/// A value behind others, as it is shown.
fn value_shown(values: &[EnumValue], place: usize, fits: bool) -> ShownIn<'_>
    requires place { place < length values.now }
    requires marked { fits ≡ slice_index_or (fit_marks (pos 0) (map enum_value_in values.now)) place false }
    ensures { (v : EnumValue) → shown_in result ≡ enum_value_spot (map enum_value_in (take place values.now)) (enum_value_in (slice_index_or values.now place v)) }
{
    ShownIn::EnumValue(EnumValueSpot {
        before: values.split_at(place).0,
        value: &values[place],
        fits,
    })
}

/// The name of a value behind others, as it is shown.
fn value_name_shown(values: &[EnumValue], place: usize, repeated: bool) -> ShownIn<'_>
    requires place { place < length values.now }
    requires marked { repeated ≡ slice_index_or (name_marks [] (map (λ (v : EnumValue). v.name.text) values.now)) place false }
    ensures { (v : EnumValue) → shown_in result ≡ given_name (map (λ (e : EnumValueDecl). e.name) (map enum_value_in (take place values.now))) (enum_value_in (slice_index_or values.now place v)).name }
{
    ShownIn::Given(GivenName {
        before: GivenBefore::Values(values.split_at(place).0),
        name: &values[place].name,
        repeated,
    })
}
