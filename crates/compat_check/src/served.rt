//! The breaks of functions.
ghost use Rattle.std.specs.Prelude.{◌≡◌, All, map, find};
ghost use Rattle.std.specs.Option.{option_copied, option_map};
ghost use Rattle.schema.specs.SchemaOf.{schema_of, plain_field, plain_function};
ghost use Rattle.schema.specs.Shapes.{shown_function};
ghost use Rattle.schema.specs.Sound.{IsSound};
ghost use Rattle.schema.specs.WrittenAs.{field_with_id};
ghost use Rattle.compat_model.specs.Breaks.{break_of_functions, is_unknown_exception};
ghost use Rattle.compat_model.specs.InOrder.{first_answer};
ghost use Rattle.compat_check.specs.Plain.{change_of, plain_found_break};
ghost use Rattle.compat_check.specs.Tables.{StandByRisingId, ThrowsRising, break_looked_up, tabled_function};

use crate::change::Change;
use crate::faults::{holds_for_one_alone, struct_fault};
use crate::functions::{FunctionTable, item, tabled_function};
use crate::likeness::{are_like, are_like_results};
use crate::pairs::{FoundBreak, named};
use compat_model::BreakKind;
use schema::{FieldDesc, FnDesc};

/// The field with an id, among fields by rising id.
pub(crate) fn field_with_id(fields: &[FieldDesc], id: i16) -> Option<&FieldDesc>
    requires { StandByRisingId (map plain_field fields.now) }
    ensures { option_map plain_field (option_copied result) ≡ field_with_id id (map plain_field fields.now) }
{
    match fields.binary_search_by_key(&id, |field| field.id) {
        Ok(place) => item(fields, place),
        Err(_) => None,
    }
}

/// Whether callers don't know what is thrown under an id.
fn is_unknown_exception(known: &[FieldDesc], thrown: &FieldDesc) -> bool
    requires { StandByRisingId (map plain_field known.now) }
    ensures { result ≡ is_unknown_exception (map plain_field known.now) (plain_field thrown.now) }
{
    match field_with_id(known, thrown.id) {
        Some(before) => !are_like(&thrown.kind, &before.kind),
        None => true,
    }
}

/// The first exception that callers don't know.
fn first_unknown_exception<'a>(
    known: &[FieldDesc],
    thrown: &'a [FieldDesc],
) -> Option<&'a FieldDesc>
    requires { StandByRisingId (map plain_field known.now) }
    ensures { option_map plain_field (option_copied result) ≡ find (is_unknown_exception (map plain_field known.now)) (map plain_field thrown.now) }
{
    for field in thrown {
        if is_unknown_exception(known, field) {
            return Some(field);
        }
    }
    None
}

/// The break of a function and of the one of its name.
fn break_of_functions<'a>(
    change: &Change<'a>,
    old: &'a FnDesc,
    new: &FnDesc,
) -> Option<FoundBreak<'a>>
    requires old { IsSound (change_of change.now).old }
    requires new { IsSound (change_of change.now).new }
    requires rising { ThrowsRising (plain_function old.now) }
    ensures { option_map plain_found_break result ≡ break_of_functions (change_of change.now) (plain_function old.now) (plain_function new.now) }
{
    let name = old.name.as_slice();
    if holds_for_one_alone(old.oneway, new.oneway) {
        return Some(FoundBreak {
            name,
            id: 0,
            kind: BreakKind::Oneway,
        });
    }
    if let Some(fault) = struct_fault(change.old, old.args, change.new, new.args) {
        return Some(named(name, fault));
    }
    if !are_like_results(new.result.as_ref(), old.result.as_ref()) {
        return Some(FoundBreak {
            name,
            id: 0,
            kind: BreakKind::Result,
        });
    }
    match first_unknown_exception(old.throws.as_slice(), new.throws.as_slice()) {
        Some(thrown) => Some(FoundBreak {
            name,
            id: thrown.id,
            kind: BreakKind::Throws,
        }),
        None => None,
    }
}

/// The break of a function, which may have gone.
fn break_of_function<'a>(
    change: &Change<'a>,
    table: &FunctionTable<'_>,
    old: &'a FnDesc,
) -> Option<FoundBreak<'a>>
    requires old { IsSound (change_of change.now).old }
    requires new { IsSound (change_of change.now).new }
    requires rising { ThrowsRising (plain_function old.now) }
    ensures { option_map plain_found_break result ≡ break_looked_up (change_of change.now) (tabled_function table.now) (plain_function old.now) }
{
    let name = old.name.as_slice();
    match tabled_function(table, name) {
        Some(new) => break_of_functions(change, old, new),
        None => Some(FoundBreak {
            name,
            id: 0,
            kind: BreakKind::Gone,
        }),
    }
}

/// The first break of some functions.
pub(crate) fn first_break_of_functions<'a>(
    change: &Change<'a>,
    table: &FunctionTable<'_>,
    functions: &[&'a FnDesc],
) -> Option<FoundBreak<'a>>
    requires old { IsSound (change_of change.now).old }
    requires new { IsSound (change_of change.now).new }
    requires rising { All ThrowsRising (map shown_function functions.now) }
    ensures { option_map plain_found_break result ≡ first_answer (break_looked_up (change_of change.now) (tabled_function table.now)) (map shown_function functions.now) }
{
    for function in functions {
        if let Some(found) = break_of_function(change, table, function) {
            return Some(found);
        }
    }
    None
}
