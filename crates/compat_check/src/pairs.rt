//! Pairs that are reached, and the breaks of pairs.
ghost use Rattle.std.specs.Prelude.{◌≡◌, ◌++◌, OnOk, IfOk, flat_map, map, unwrap_or};
ghost use Rattle.std.specs.Option.{option_copied, option_map};
ghost use Rattle.schema.specs.LookUp.{field_at};
ghost use Rattle.schema.specs.PlainSchema.{PlainField};
ghost use Rattle.schema.specs.SchemaOf.{schema_of, plain_field};
ghost use Rattle.schema.specs.Sound.{IsSound};
ghost use Rattle.compat_model.specs.Breaks.{break_under, pair_break, written_struct_name};
ghost use Rattle.compat_model.specs.InOrder.{first_answer};
ghost use Rattle.compat_model.specs.StructPairs.{field_places, pairs_at, pairs_within};
ghost use Rattle.compat_check.specs.Plain.{change_of, plain_fault, plain_found_break, plain_pair};

use crate::change::{Change, reader, writer};
use crate::faults::{Fault, fields_of, struct_fault, struct_of};
use crate::likeness::push_places;
use crate::pair::Pair;
use compat_model::BreakKind;
use schema::{FieldDesc, Schema};
use std::alloc::{AllocError, Global};

/// A break, with the name of whose it is.
#[derive(Drop)]
pub struct FoundBreak<'a> {
    pub(crate) name: &'a [u8],
    pub(crate) id: i16,
    pub(crate) kind: BreakKind,
}

/// A fault under a name.
pub(crate) fn named(name: &[u8], fault: Fault) -> FoundBreak<'_>
    ensures { plain_found_break result ≡ break_under name.now (plain_fault fault) }
{
    FoundBreak {
        name,
        id: fault.id,
        kind: fault.kind,
    }
}

/// The name of the struct at a number.
fn name_of(schema: &Schema, which: u32) -> &[u8]
    ensures { result.now ≡ written_struct_name (schema_of schema.now) which }
{
    match struct_of(schema, which) {
        Some(found) => found.name.as_slice(),
        None => b"".as_slice(),
    }
}

/// The break of a pair.
fn pair_break<'a>(change: &Change<'a>, pair: &Pair) -> Option<FoundBreak<'a>>
    requires old { IsSound (change_of change.now).old }
    requires new { IsSound (change_of change.now).new }
    ensures { option_map plain_found_break result ≡ pair_break (change_of change.now) (plain_pair pair.now) }
{
    let writer = writer(change, pair.backward);
    let reader = reader(change, pair.backward);
    match struct_fault(writer, pair.from, reader, pair.to) {
        Some(fault) => Some(named(name_of(writer, pair.from), fault)),
        None => None,
    }
}

/// The first break of some pairs.
pub fn first_break<'a>(change: &Change<'a>, pairs: &[Pair]) -> Option<FoundBreak<'a>>
    requires old { IsSound (change_of change.now).old }
    requires new { IsSound (change_of change.now).new }
    ensures { option_map plain_found_break result ≡ first_answer (pair_break (change_of change.now)) (map plain_pair pairs.now) }
{
    for pair in pairs {
        if let Some(found) = pair_break(change, pair) {
            return Some(found);
        }
    }
    None
}

/// Appends the pairs at like places of a field and of the one that it is read as.
pub(crate) fn push_field_places(
    into: &mut Vec<Pair>,
    backward: bool,
    field: &FieldDesc,
    other: Option<&FieldDesc>,
) -> Result<(), AllocError>
    ensures { OnOk result (map plain_pair into.new.items ≡ map plain_pair into.old.items
        ++ pairs_at backward (field_places (plain_field field.now) (option_map plain_field (option_copied other.entry)))) }
{
    match other {
        Some(other) => push_places(into, backward, &field.kind, &other.kind),
        None => Ok(()),
    }
}

/// Appends the pairs that some fields hold.
fn push_fields_within(
    into: &mut Vec<Pair>,
    backward: bool,
    fields: &[FieldDesc],
    reader: &Schema,
    read: u32,
) -> Result<(), AllocError>
    requires { IsSound (schema_of reader.now) }
    ensures { OnOk result (map plain_pair into.new.items ≡ map plain_pair into.old.items
        ++ flat_map (λ (f : PlainField). pairs_at backward (field_places f (field_at (schema_of reader.now) read f.id))) (map plain_field fields.now)) }
{
    for field in fields {
        push_field_places(into, backward, field, reader.field(read, field.id))?;
    }
    Ok(())
}

/// The pairs that a pair's fields hold.
pub(crate) fn held_by(
    alloc: Global,
    change: &Change<'_>,
    pair: &Pair,
) -> Result<Vec<Pair>, AllocError>
    requires old { IsSound (change_of change.now).old }
    requires new { IsSound (change_of change.now).new }
    ensures { IfOk result (λ all. map plain_pair all.items ≡ pairs_within (change_of change.now) (plain_pair pair.now)) }
{
    let writer = writer(change, pair.backward);
    let reader = reader(change, pair.backward);
    let mut all = Vec::new(alloc);
    push_fields_within(
        &mut all,
        pair.backward,
        fields_of(writer, pair.from),
        reader,
        pair.to,
    )?;
    Ok(all)
}
