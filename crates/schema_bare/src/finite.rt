//! Which structs have a finite value.

ghost use Rattle.std.specs.Prelude.{◌≡◌, ◌↔◌, ◌||◌, ℕ, false, nat_lt, map, slice_get, slice_index_or, Some, IsTrue, IfOk};
ghost use Rattle.std.specs.List.{list_all, list_any};
ghost use Rattle.schema.specs.PlainKind.{kind_of};
ghost use Rattle.schema.specs.SchemaOf.{schema_of, plain_field, plain_struct};
ghost use Rattle.schema.specs.PlainSchema.{PlainField, PlainStruct};
ghost use Rattle.check_model.specs.FiniteValues.{kind_has, field_allows, has_no_items, fields_have, HasFiniteValue};
ghost use Rattle.schema_bare.specs.Ranks.{unranked, rank_of, is_below, AreRanks};

use crate::ranks::{UNRANKED, struct_ranks};
use schema::{
    FieldDesc, Need as FieldNeed, Schema, StructDesc, StructKind as FieldsKind, TypeDesc,
};
use std::alloc::{AllocError, Global};

/// The rank of a struct.
fn rank_of(ranks: &[u32], number: u32) -> u32
    ensures { result ≡ rank_of ranks.now number }
{
    match ranks.get(number as usize) {
        Some(rank) => *rank,
        None => UNRANKED,
    }
}

/// The rank of the struct at a place.
fn rank_at(ranks: &[u32], place: usize) -> u32
    ensures { result ≡ rank_of ranks.now place }
{
    match ranks.get(place) {
        Some(rank) => *rank,
        None => UNRANKED,
    }
}

/// Whether a type is no struct, or one with a rank below this one.
fn kind_below(ranks: &[u32], bound: u32, kind: &TypeDesc) -> bool
    ensures { result ≡ kind_has (is_below ranks.now bound) (kind_of kind.now) }
{
    match kind {
        TypeDesc::Struct(number) => rank_of(ranks, *number) < bound,
        TypeDesc::Bool
        | TypeDesc::I8
        | TypeDesc::I16
        | TypeDesc::I32
        | TypeDesc::I64
        | TypeDesc::Double
        | TypeDesc::Text
        | TypeDesc::Binary
        | TypeDesc::Uuid
        | TypeDesc::Enum(_)
        | TypeDesc::Map(_, _)
        | TypeDesc::Set(_)
        | TypeDesc::List(_) => true,
    }
}

/// Whether a field isn't required, or is of such a type.
fn field_below(ranks: &[u32], bound: u32, field: &FieldDesc) -> bool
    ensures { result ≡ field_allows (is_below ranks.now bound) field.now.need (kind_of field.now.kind) }
{
    match field.need {
        FieldNeed::Required => kind_below(ranks, bound, &field.kind),
        FieldNeed::Default | FieldNeed::Optional => true,
    }
}

/// Whether some field is of such a type.
fn any_below(ranks: &[u32], bound: u32, fields: &[FieldDesc]) -> bool
    ensures { result ≡ list_any (λ (f : FieldDesc). kind_has (is_below ranks.now bound) (kind_of f.kind)) fields.now }
{
    fields
        .iter()
        .any(|field| kind_below(ranks, bound, &field.kind))
}

/// Whether a union has a value: it has no field, or some field is of such a type.
fn some_below(ranks: &[u32], bound: u32, fields: &[FieldDesc]) -> bool
    ensures { result ≡ (has_no_items fields.now || list_any (λ (f : FieldDesc). kind_has (is_below ranks.now bound) (kind_of f.kind)) fields.now) }
{
    if fields.is_empty() {
        return true;
    }
    any_below(ranks, bound, fields)
}

/// Whether no field stands in the way of a struct's value.
fn all_below(ranks: &[u32], bound: u32, fields: &[FieldDesc]) -> bool
    ensures { result ≡ list_all (λ (f : FieldDesc). field_allows (is_below ranks.now bound) f.need (kind_of f.kind)) fields.now }
{
    fields.iter().all(|field| field_below(ranks, bound, field))
}

/// Whether a struct has a value, if those with a rank below this one have one.
fn has_value(ranks: &[u32], bound: u32, one: &StructDesc) -> bool
    ensures { result ≡ fields_have (is_below ranks.now bound) one.now.kind (map plain_field one.now.fields) }
{
    match one.kind {
        FieldsKind::Union => some_below(ranks, bound, one.fields.as_slice()),
        FieldsKind::Struct | FieldsKind::Exception | FieldsKind::Args => {
            all_below(ranks, bound, one.fields.as_slice())
        }
    }
}

/// Whether exactly the structs with a rank have a value, if those with a lower rank have one.
fn are_told(structs: &[StructDesc], ranks: &[u32]) -> bool
    ensures { IsTrue result → (number : ℕ) (s : PlainStruct) → slice_get (map plain_struct structs.now) number ≡ Some s
        → fields_have (is_below ranks.now (rank_of ranks.now number)) s.kind s.fields ≡ is_below ranks.now unranked number }
{
    for place in 0..structs.len() {
        let rank = rank_at(ranks, place);
        let is_ranked = rank < UNRANKED;
        if has_value(ranks, rank, &structs[place]) != is_ranked {
            return false;
        }
    }
    true
}

/// Whether ranks are such, and no more than structs.
fn are_ranks(structs: &[StructDesc], ranks: &[u32]) -> bool
    ensures { IsTrue result → AreRanks (map plain_struct structs.now) ranks.now }
{
    if ranks.len() > structs.len() {
        return false;
    }
    are_told(structs, ranks)
}

/// For each rank whether it is one.
fn marks(alloc: Global, ranks: &[u32]) -> Result<Vec<bool>, AllocError>
    ensures { IfOk result (λ marks. marks.items ≡ map (λ rank. nat_lt rank unranked) ranks.now) }
{
    ranks.iter().map(|rank| *rank < UNRANKED).collect(alloc)
}

/// Which structs have a finite value, by number.
pub fn finite_structs(alloc: Global, schema: &Schema) -> Result<Vec<bool>, AllocError>
    ensures { IfOk result (λ finite. (number : ℕ) → IsTrue (slice_index_or finite.items number false) ↔ HasFiniteValue (schema_of schema.now) number) }
{
    let structs = schema.structs.as_slice();
    let ranks = struct_ranks(alloc, structs)?;
    if !are_ranks(structs, ranks.as_slice()) {
        return Err(AllocError);
    }
    marks(alloc, ranks.as_slice())
}
