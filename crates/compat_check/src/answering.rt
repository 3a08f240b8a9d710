//! Whether a new schema reads what an old one wrote.
ghost use Rattle.std.specs.Prelude.{◌≡◌, ◌++◌, [], pos, OnOk, IfOk, MatchResult, map};
ghost use Rattle.std.specs.Option.{option_map};
ghost use Rattle.schema.specs.SchemaOf.{schema_of, plain_service, plain_struct};
ghost use Rattle.schema.specs.Sound.{IsSound};
ghost use Rattle.compat_model.specs.Breaks.{IsCompatible, break_of_service, break_of_struct, first_named_break};
ghost use Rattle.compat_model.specs.InOrder.{first_answer_from, gathered_from};
ghost use Rattle.compat_model.specs.StructPairs.{answer_pairs, argument_pairs, named_pairs, pairs_of_service, pairs_of_struct};
ghost use Rattle.compat_check.specs.Plain.{change_of, plain_found_break, plain_pair};
ghost use Rattle.compat_check.specs.Answered.{IsBreakOrNoMemory, IsFirstOrNone, IsOwnBreak};
ghost use Rattle.compat_check.specs.Tables.{HasServices, HasStructs};
ghost use Rattle.compat_model.specs.declared.break_kind.BreakKind.TheVariants as breaks;

use crate::change::Change;
use crate::faults::struct_fault;
use crate::likeness::push_pair;
use crate::names::{change_between, is_main_struct, main_struct_named};
use crate::pair::Pair;
use crate::pairs::{FoundBreak, named};
use crate::rounds::first_in_rounds;
use crate::services::{break_of_service, push_service_answers, push_service_arguments};
use crate::steps::{MAX_STEPS, spend_on_structs};
use compat_model::BreakKind;
use schema::{Schema, ServiceDesc, StructDesc};
use std::alloc::{AllocError, Global};
use thrift_value::ByteText;

/// A break of a change.
#[derive(Drop)]
pub struct Break {
    /// Whose it is.
    pub name: ByteText,
    /// The id of the field or the exception, and else 0.
    pub id: i16,
    /// What it is.
    pub kind: BreakKind,
}

/// The break of a struct of the old main file, at its number.
fn break_of_struct<'a>(
    change: &Change<'a>,
    which: u32,
    old: &'a StructDesc,
) -> Option<FoundBreak<'a>>
    requires old { IsSound (change_of change.now).old }
    requires new { IsSound (change_of change.now).new }
    requires names { HasStructs change.now }
    ensures { option_map plain_found_break result ≡ break_of_struct (change_of change.now) which (plain_struct old.now) }
{
    if !is_main_struct(old) {
        return None;
    }
    let name = old.name.as_slice();
    let Some(other) = main_struct_named(change, name) else {
        return Some(FoundBreak {
            name,
            id: 0,
            kind: BreakKind::Gone,
        });
    };
    match struct_fault(change.old, which, change.new, other) {
        Some(fault) => Some(named(name, fault)),
        None => None,
    }
}

/// The first break of the old main file's structs.
fn first_break_of_structs<'a>(
    change: &Change<'a>,
    structs: &'a [StructDesc],
) -> Result<Option<FoundBreak<'a>>, AllocError>
    requires old { IsSound (change_of change.now).old }
    requires new { IsSound (change_of change.now).new }
    requires names { HasStructs change.now }
    ensures { IfOk result (λ found. option_map plain_found_break found ≡ first_answer_from (break_of_struct (change_of change.now)) 0 (map plain_struct structs.now)) }
{
    for (place, old) in structs.iter().enumerate() {
        let Ok(which) = u32::try_from(place) else {
            return Err(AllocError);
        };
        if let Some(found) = break_of_struct(change, which, old) {
            return Ok(Some(found));
        }
    }
    Ok(None)
}

/// The first break of the old main file's services.
fn first_break_of_services<'a>(
    alloc: Global,
    left: &mut u32,
    change: &Change<'a>,
    services: &'a [ServiceDesc],
) -> Result<Option<FoundBreak<'a>>, AllocError>
    requires old { IsSound (change_of change.now).old }
    requires new { IsSound (change_of change.now).new }
    requires names { HasServices change.now }
    ensures { IfOk result (λ found. option_map plain_found_break found ≡ first_answer_from (break_of_service (change_of change.now)) 0 (map plain_service services.now)) }
{
    for (place, old) in services.iter().enumerate() {
        let Ok(which) = u32::try_from(place) else {
            return Err(AllocError);
        };
        if let Some(found) = break_of_service(alloc, left, change, which, old)? {
            return Ok(Some(found));
        }
    }
    Ok(None)
}

/// The first break of what is named.
fn first_named_break<'a>(
    alloc: Global,
    left: &mut u32,
    change: &Change<'a>,
) -> Result<Option<FoundBreak<'a>>, AllocError>
    requires old { IsSound (change_of change.now).old }
    requires new { IsSound (change_of change.now).new }
    requires structs { HasStructs change.now }
    requires services { HasServices change.now }
    ensures { IfOk result (λ found. option_map plain_found_break found ≡ first_named_break (change_of change.now)) }
{
    spend_on_structs(left, change.old.structs.as_slice())?;
    spend_on_structs(left, change.new.structs.as_slice())?;
    if let Some(found) = first_break_of_structs(change, change.old.structs.as_slice())? {
        return Ok(Some(found));
    }
    first_break_of_services(alloc, left, change, change.old.services.as_slice())
}

/// Appends the pair of a struct of the old main file.
fn push_struct(
    into: &mut Vec<Pair>,
    change: &Change<'_>,
    which: u32,
    old: &StructDesc,
) -> Result<(), AllocError>
    requires names { HasStructs change.now }
    ensures { OnOk result (map plain_pair into.new.items ≡ map plain_pair into.old.items ++ pairs_of_struct (change_of change.now) which (plain_struct old.now)) }
{
    if !is_main_struct(old) {
        return Ok(());
    }
    match main_struct_named(change, old.name.as_slice()) {
        Some(other) => push_pair(
            into,
            Pair {
                backward: false,
                from: which,
                to: other,
            },
        ),
        None => Ok(()),
    }
}

/// Appends the pairs of the old main file's structs.
fn push_structs(
    into: &mut Vec<Pair>,
    change: &Change<'_>,
    structs: &[StructDesc],
) -> Result<(), AllocError>
    requires names { HasStructs change.now }
    ensures { OnOk result (map plain_pair into.new.items ≡ map plain_pair into.old.items
        ++ gathered_from (pairs_of_struct (change_of change.now)) 0 (map plain_struct structs.now)) }
{
    for (place, old) in structs.iter().enumerate() {
        let Ok(which) = u32::try_from(place) else {
            return Err(AllocError);
        };
        push_struct(into, change, which, old)?;
    }
    Ok(())
}

/// Appends the pairs of the arguments of all functions.
fn push_arguments(
    alloc: Global,
    left: &mut u32,
    into: &mut Vec<Pair>,
    change: &Change<'_>,
    services: &[ServiceDesc],
) -> Result<(), AllocError>
    requires names { HasServices change.now }
    ensures { OnOk result (map plain_pair into.new.items ≡ map plain_pair into.old.items
        ++ gathered_from (pairs_of_service (change_of change.now) argument_pairs) 0 (map plain_service services.now)) }
{
    for (place, old) in services.iter().enumerate() {
        let Ok(which) = u32::try_from(place) else {
            return Err(AllocError);
        };
        push_service_arguments(alloc, left, into, change, which, old)?;
    }
    Ok(())
}

/// Appends the pairs of the results and exceptions of all functions.
fn push_answers(
    alloc: Global,
    left: &mut u32,
    into: &mut Vec<Pair>,
    change: &Change<'_>,
    services: &[ServiceDesc],
) -> Result<(), AllocError>
    requires old { IsSound (change_of change.now).old }
    requires names { HasServices change.now }
    ensures { OnOk result (map plain_pair into.new.items ≡ map plain_pair into.old.items
        ++ gathered_from (pairs_of_service (change_of change.now) answer_pairs) 0 (map plain_service services.now)) }
{
    for (place, old) in services.iter().enumerate() {
        let Ok(which) = u32::try_from(place) else {
            return Err(AllocError);
        };
        push_service_answers(alloc, left, into, change, which, old)?;
    }
    Ok(())
}

/// The pairs of what is named.
fn named_pairs(alloc: Global, left: &mut u32, change: &Change<'_>) -> Result<Vec<Pair>, AllocError>
    requires old { IsSound (change_of change.now).old }
    requires structs { HasStructs change.now }
    requires services { HasServices change.now }
    ensures { IfOk result (λ all. map plain_pair all.items ≡ named_pairs (change_of change.now)) }
{
    let mut all = Vec::new(alloc);
    let services = change.old.services.as_slice();
    push_structs(&mut all, change, change.old.structs.as_slice())?;
    push_arguments(alloc, left, &mut all, change, services)?;
    push_answers(alloc, left, &mut all, change, services)?;
    Ok(all)
}

/// The first break of a change.
#[tactic(auto, using(crate::proofs::Joined::named_first, crate::proofs::Joined::of_rounds))]
fn first_break<'a>(alloc: Global, change: &Change<'a>) -> Result<Option<FoundBreak<'a>>, AllocError>
    requires old { IsSound (change_of change.now).old }
    requires new { IsSound (change_of change.now).new }
    requires structs { HasStructs change.now }
    requires services { HasServices change.now }
    ensures { IfOk result (λ found. IsFirstOrNone (change_of change.now) (option_map plain_found_break found)) }
{
    let mut left = MAX_STEPS;
    if let Some(found) = first_named_break(alloc, &mut left, change)? {
        return Ok(Some(found));
    }
    let named = named_pairs(alloc, &mut left, change)?;
    first_in_rounds(alloc, &mut left, change, named.as_slice())
}

/// The first break from a schema to the one that comes after it.
fn break_between<'a>(
    alloc: Global,
    old: &'a Schema,
    new: &'a Schema,
) -> Result<Option<FoundBreak<'a>>, AllocError>
    requires old { IsSound (schema_of old.now) }
    requires new { IsSound (schema_of new.now) }
    ensures { IfOk result (λ found. IsFirstOrNone (record { old = schema_of old.now; new = schema_of new.now }) (option_map plain_found_break found)) }
{
    let change = change_between(alloc, old, new)?;
    first_break(alloc, &change)
}

/// A break of its own, from one that borrows its name.
fn own_break(alloc: Global, found: FoundBreak<'_>) -> Break
    ensures { IsOwnBreak (plain_found_break found.entry) result }
{
    let mut name = Vec::new(alloc);
    match name.extend_from_slice(found.name) {
        Ok(()) => Break {
            name: ByteText::new(name),
            id: found.id,
            kind: found.kind,
        },
        Err(_) => no_memory(alloc),
    }
}

/// The answer where there is no memory.
fn no_memory(alloc: Global) -> Break
    ensures name { result.name ≡ [] }
    ensures id { result.id ≡ pos 0 }
    ensures kind { result.kind ≡ breaks.NoMemory }
{
    Break {
        name: ByteText::new(Vec::new(alloc)),
        id: 0,
        kind: BreakKind::NoMemory,
    }
}

/// Whether the values and calls of an old schema survive a new one: yes, or the first break. Where there is no memory, or more than
/// 4,000,000 pairs of structs or 64,000,000 steps over types would be looked at, the break's kind is `NoMemory`, its name is empty
/// and its id is 0.
pub fn compat(alloc: Global, old: &Schema, new: &Schema) -> Result<(), Break>
    requires old { IsSound (schema_of old.now) }
    requires new { IsSound (schema_of new.now) }
    ensures { MatchResult result (λ _. IsCompatible (record { old = schema_of old.now; new = schema_of new.now }))
        (IsBreakOrNoMemory (record { old = schema_of old.now; new = schema_of new.now })) }
{
    match break_between(alloc, old, new) {
        Ok(None) => Ok(()),
        Ok(Some(found)) => Err(own_break(alloc, found)),
        Err(_) => Err(no_memory(alloc)),
    }
}
