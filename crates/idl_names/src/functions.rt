//! The spots of functions.

ghost use Rattle.std.specs.Prelude.{◌≡◌, ◌++◌, ◌<◌, [], false, map, take, length, slice_index_or, OnOk};
ghost use Rattle.idl_include.specs.DeclaredIn.{function_in};
ghost use Rattle.idl_names.specs.Before.{name_marks};
ghost use Rattle.idl_include.specs.Spots.{in_file, function_spot, result_spots, spots_in_throws, spots_in_functions};
ghost use Rattle.idl_names.specs.Functions.{inside_function};
ghost use Rattle.idl_names.specs.SpotsIn.{spots_in, shown_in};

use crate::before::GivenBefore;
use crate::fields::{flag_at, put_fields, put_throws};
use crate::marks::repeated_names;
use crate::spot::{FunctionSpot, GivenName, ShownIn, SpotIn};
use crate::type_uses::{put_spot, put_type_uses};
use idl_parser::Function;
use std::alloc::{AllocError, Global};

/// The functions of the service of some number.
pub(crate) fn put_functions<'a>(
    alloc: Global,
    spots: &mut Vec<SpotIn<'a>>,
    file: u32,
    service: u32,
    functions: &'a [Function],
) -> Result<(), AllocError>
    ensures { OnOk result (spots_in spots.new.items ≡ spots_in spots.old.items ++ in_file file (spots_in_functions service [] (map function_in functions.now))) }
{
    let marks = repeated_names(alloc, functions)?;
    for place in 0..functions.len() {
        let repeated = flag_at(marks.as_slice(), place);
        let shown = function_shown(service, functions, place, repeated);
        put_spot(spots, file, shown)?;
        put_inside(alloc, spots, file, &functions[place])?;
    }
    Ok(())
}

/// What stands in a function.
#[tactic(auto, unfolding(idl_include::specs::DeclaredIn::function_in))]
fn put_inside<'a>(
    alloc: Global,
    spots: &mut Vec<SpotIn<'a>>,
    file: u32,
    function: &'a Function,
) -> Result<(), AllocError>
    ensures { OnOk result (spots_in spots.new.items ≡ spots_in spots.old.items ++ in_file file (inside_function (function_in function.now))) }
{
    put_result(spots, file, function)?;
    put_spot(
        spots,
        file,
        ShownIn::Given(GivenName {
            before: GivenBefore::Nothing,
            name: &function.name,
            repeated: false,
        }),
    )?;
    put_fields(alloc, spots, file, function.arguments.as_slice())?;
    put_exceptions(alloc, spots, file, function)
}

/// A function behind others, as it is shown.
fn function_shown<'a>(
    service: u32,
    functions: &'a [Function],
    place: usize,
    repeated: bool,
) -> ShownIn<'a>
    requires place { place < length functions.now }
    requires marked { repeated ≡ slice_index_or (name_marks [] (map (λ (f : Function). f.name.text) functions.now)) place false }
    ensures { (f : Function) → shown_in result ≡ function_spot service (map function_in (take place functions.now)) (function_in (slice_index_or functions.now place f)) }
{
    ShownIn::Function(FunctionSpot {
        service,
        before: functions.split_at(place).0,
        function: &functions[place],
        repeated,
    })
}

/// The result of a function, if it has one.
#[tactic(auto, unfolding(idl_include::specs::DeclaredIn::function_in))]
fn put_result<'a>(
    spots: &mut Vec<SpotIn<'a>>,
    file: u32,
    function: &'a Function,
) -> Result<(), AllocError>
    ensures { OnOk result (spots_in spots.new.items ≡ spots_in spots.old.items ++ in_file file (result_spots (function_in function.now).result)) }
{
    match &function.result {
        Some(tree) => put_type_uses(spots, file, tree),
        None => Ok(()),
    }
}

/// The exceptions that a function throws.
#[tactic(auto, unfolding(idl_include::specs::DeclaredIn::function_in))]
fn put_exceptions<'a>(
    alloc: Global,
    spots: &mut Vec<SpotIn<'a>>,
    file: u32,
    function: &'a Function,
) -> Result<(), AllocError>
    ensures { OnOk result (spots_in spots.new.items ≡ spots_in spots.old.items ++ in_file file (spots_in_throws [] (function_in function.now).throws)) }
{
    match &function.throws {
        Some(fields) => put_throws(alloc, spots, file, fields.as_slice()),
        None => Ok(()),
    }
}
