//! The breaks of services, and the pairs that their functions give.
ghost use Rattle.std.specs.Prelude.{◌≡◌, ◌++◌, true, All, OnOk, IfOk, flat_map, map};
ghost use Rattle.std.specs.Option.{option_map};
ghost use Rattle.schema.specs.PlainSchema.{PlainField};
ghost use Rattle.schema.specs.SchemaOf.{plain_field, plain_function, plain_service};
ghost use Rattle.schema.specs.Shapes.{shown_function};
ghost use Rattle.schema.specs.Sound.{IsSound};
ghost use Rattle.schema.specs.WrittenAs.{field_with_id};
ghost use Rattle.compat_model.specs.Breaks.{break_of_service};
ghost use Rattle.compat_model.specs.StructPairs.{answer_pairs, argument_pairs, field_places, pairs_at, pairs_of_service};
ghost use Rattle.compat_check.specs.Plain.{change_of, plain_found_break, plain_pair};
ghost use Rattle.compat_check.specs.Tables.{StandByRisingId, HasServices, ThrowsRising, tabled_function, pairs_looked_up};

use crate::change::Change;
use crate::functions::{FunctionTable, function_table, functions_of, tabled_function};
use crate::likeness::{push_pair, push_result_places};
use crate::names::main_service_named;
use crate::pair::Pair;
use crate::pairs::{FoundBreak, push_field_places};
use crate::served::{field_with_id, first_break_of_functions};
use crate::steps::spend_on_functions;
use compat_model::BreakKind;
use schema::{FieldDesc, FnDesc, ServiceDesc};
use std::alloc::{AllocError, Global};

/// The break of a service at its number.
pub(crate) fn break_of_service<'a>(
    alloc: Global,
    left: &mut u32,
    change: &Change<'a>,
    which: u32,
    service: &'a ServiceDesc,
) -> Result<Option<FoundBreak<'a>>, AllocError>
    requires old { IsSound (change_of change.now).old }
    requires new { IsSound (change_of change.now).new }
    requires services { HasServices change.now }
    ensures { IfOk result (λ found. option_map plain_found_break found ≡ break_of_service (change_of change.now) which (plain_service service.now)) }
{
    if service.file != 0 {
        return Ok(None);
    }
    let name = service.name.as_slice();
    let Some(other) = main_service_named(change, name) else {
        return Ok(Some(FoundBreak {
            name,
            id: 0,
            kind: BreakKind::Gone,
        }));
    };
    let functions = functions_of(alloc, left, change.old, which)?;
    let table = function_table(alloc, left, change.new, other)?;
    spend_on_functions(left, change.old, functions.as_slice())?;
    spend_on_functions(left, change.new, table.functions.as_slice())?;
    Ok(first_break_of_functions(change, &table, functions.as_slice()))
}

/// Appends the pairs of a function's exceptions.
fn push_thrown(
    into: &mut Vec<Pair>,
    thrown: &[FieldDesc],
    known: &[FieldDesc],
) -> Result<(), AllocError>
    requires { StandByRisingId (map plain_field known.now) }
    ensures { OnOk result (map plain_pair into.new.items ≡ map plain_pair into.old.items
        ++ flat_map (λ (t : PlainField). pairs_at true (field_places t (field_with_id t.id (map plain_field known.now)))) (map plain_field thrown.now)) }
{
    for field in thrown {
        push_field_places(into, true, field, field_with_id(known, field.id))?;
    }
    Ok(())
}

/// Appends the pairs of a function's result and exceptions.
fn push_answers(into: &mut Vec<Pair>, old: &FnDesc, new: &FnDesc) -> Result<(), AllocError>
    requires { ThrowsRising (plain_function old.now) }
    ensures { OnOk result (map plain_pair into.new.items ≡ map plain_pair into.old.items ++ answer_pairs (plain_function old.now) (plain_function new.now)) }
{
    push_result_places(into, true, new.result.as_ref(), old.result.as_ref())?;
    push_thrown(into, new.throws.as_slice(), old.throws.as_slice())
}

/// Appends the pair of a function's arguments, where there is one of its name.
fn push_arguments_by(
    into: &mut Vec<Pair>,
    table: &FunctionTable<'_>,
    old: &FnDesc,
) -> Result<(), AllocError>
    ensures { OnOk result (map plain_pair into.new.items ≡ map plain_pair into.old.items ++ pairs_looked_up argument_pairs (tabled_function table.now) (plain_function old.now)) }
{
    match tabled_function(table, old.name.as_slice()) {
        Some(new) => push_pair(
            into,
            Pair {
                backward: false,
                from: old.args,
                to: new.args,
            },
        ),
        None => Ok(()),
    }
}

/// Appends the pairs of a function's result and exceptions, where there is one of its name.
fn push_answers_by(
    into: &mut Vec<Pair>,
    table: &FunctionTable<'_>,
    old: &FnDesc,
) -> Result<(), AllocError>
    requires { ThrowsRising (plain_function old.now) }
    ensures { OnOk result (map plain_pair into.new.items ≡ map plain_pair into.old.items ++ pairs_looked_up answer_pairs (tabled_function table.now) (plain_function old.now)) }
{
    match tabled_function(table, old.name.as_slice()) {
        Some(new) => push_answers(into, old, new),
        None => Ok(()),
    }
}

/// Appends the pairs of some functions' arguments.
fn push_all_arguments(
    into: &mut Vec<Pair>,
    table: &FunctionTable<'_>,
    functions: &[&FnDesc],
) -> Result<(), AllocError>
    ensures { OnOk result (map plain_pair into.new.items ≡ map plain_pair into.old.items
        ++ flat_map (pairs_looked_up argument_pairs (tabled_function table.now)) (map shown_function functions.now)) }
{
    for function in functions {
        push_arguments_by(into, table, function)?;
    }
    Ok(())
}

/// Appends the pairs of some functions' results and exceptions.
fn push_all_answers(
    into: &mut Vec<Pair>,
    table: &FunctionTable<'_>,
    functions: &[&FnDesc],
) -> Result<(), AllocError>
    requires { All ThrowsRising (map shown_function functions.now) }
    ensures { OnOk result (map plain_pair into.new.items ≡ map plain_pair into.old.items
        ++ flat_map (pairs_looked_up answer_pairs (tabled_function table.now)) (map shown_function functions.now)) }
{
    for function in functions {
        push_answers_by(into, table, function)?;
    }
    Ok(())
}

/// Appends the pairs of the arguments of a service's functions.
pub(crate) fn push_service_arguments(
    alloc: Global,
    left: &mut u32,
    into: &mut Vec<Pair>,
    change: &Change<'_>,
    which: u32,
    service: &ServiceDesc,
) -> Result<(), AllocError>
    requires services { HasServices change.now }
    ensures { OnOk result (map plain_pair into.new.items ≡ map plain_pair into.old.items
        ++ pairs_of_service (change_of change.now) argument_pairs which (plain_service service.now)) }
{
    if service.file != 0 {
        return Ok(());
    }
    let Some(other) = main_service_named(change, service.name.as_slice()) else {
        return Ok(());
    };
    let functions = functions_of(alloc, left, change.old, which)?;
    let table = function_table(alloc, left, change.new, other)?;
    push_all_arguments(into, &table, functions.as_slice())?;
    Ok(())
}

/// Appends the pairs of the results and exceptions of a service's functions.
pub(crate) fn push_service_answers(
    alloc: Global,
    left: &mut u32,
    into: &mut Vec<Pair>,
    change: &Change<'_>,
    which: u32,
    service: &ServiceDesc,
) -> Result<(), AllocError>
    requires old { IsSound (change_of change.now).old }
    requires services { HasServices change.now }
    ensures { OnOk result (map plain_pair into.new.items ≡ map plain_pair into.old.items
        ++ pairs_of_service (change_of change.now) answer_pairs which (plain_service service.now)) }
{
    if service.file != 0 {
        return Ok(());
    }
    let Some(other) = main_service_named(change, service.name.as_slice()) else {
        return Ok(());
    };
    let functions = functions_of(alloc, left, change.old, which)?;
    let table = function_table(alloc, left, change.new, other)?;
    push_all_answers(into, &table, functions.as_slice())?;
    Ok(())
}
