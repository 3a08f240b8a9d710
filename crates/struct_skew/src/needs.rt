//! The declared fields that need a look even where nothing is sent for them.
ghost use Rattle.std.specs.Prelude.{◌≡◌, [], ◌∷◌, ◌++◌, map, IfOk, OnOk};
ghost use Rattle.std.specs.List.{slice_get};
ghost use Rattle.std.specs.Option.{option_copied, option_map};
ghost use Rattle.schema.specs.SchemaOf.{schema_of, plain_field, plain_struct};
ghost use Rattle.struct_skew.specs.Needs.{places_from, is_required_field, is_defaulted_field, needs_of, plain_needs};
ghost use Rattle.struct_skew.specs.Projection.{is_required, is_union};

use known_parts::put;
use schema::{FieldDesc, Need, Schema, StructDesc, StructKind};
use std::alloc::{AllocError, Global};
use std::marker::Model;

/// The places of a struct's fields that have to be there, and of those with a default that counts.
#[derive(Drop)]
pub struct StructNeeds {
    pub(crate) required: Vec<usize>,
    pub(crate) defaulted: Vec<usize>,
}

/// What each struct of a schema needs. With it, a projection looks at no declared field for which nothing is sent and of which
/// nothing comes.
#[derive(Drop)]
pub struct NeededFields {
    // One a struct, by its number.
    pub(crate) rows: Vec<StructNeeds>,
}

impl Model for NeededFields {
    ghost use Rattle.std.specs.Prelude.{List, map};
    ghost use Rattle.struct_skew.specs.Needs.{PlainNeeds, plain_needs};

    ghost Value = { List PlainNeeds };

    ghost view = { λ needed. map plain_needs needed.rows.items };
}

impl NeededFields {
    /// What the struct at a number needs.
    pub(crate) fn row(&self, which: u32) -> Option<&StructNeeds>
        ensures { option_map plain_needs (option_copied result) ≡ slice_get self.now which }
    {
        item(self.rows.as_slice(), which as usize)
    }
}

/// The item at a place.
pub(crate) fn item<T>(items: &[T], place: usize) -> Option<&T>
    ensures { option_copied result ≡ slice_get items.now place }
{
    items.get(place)
}

/// Whether a field has to be there.
pub(crate) fn is_required(need: Need) -> bool
    ensures { result ≡ is_required need }
{
    match need {
        Need::Required => true,
        Need::Default => false,
        Need::Optional => false,
    }
}

/// Whether exactly one field has to be there.
pub(crate) fn is_union(kind: StructKind) -> bool
    ensures { result ≡ is_union kind }
{
    match kind {
        StructKind::Union => true,
        StructKind::Struct => false,
        StructKind::Exception => false,
        StructKind::Args => false,
    }
}

/// Whether a field may be unsent, and has a default then.
fn is_defaulted(kind: StructKind, field: &FieldDesc) -> bool
    ensures { result ≡ is_defaulted_field kind (plain_field field.now) }
{
    if is_required(field.need) {
        return false;
    }
    if is_union(kind) {
        return false;
    }
    field.default.is_some()
}

/// The places of the fields that have to be there.
fn required_places(alloc: Global, fields: &[FieldDesc]) -> Result<Vec<usize>, AllocError>
    ensures { IfOk result (λ places. places.items ≡ places_from is_required_field 0 (map plain_field fields.now)) }
{
    let mut places = Vec::new(alloc);
    for (place, field) in fields.iter().enumerate() {
        if is_required(field.need) {
            put(&mut places, place)?;
        }
    }
    Ok(places)
}

/// The places of the fields with a default that counts.
fn defaulted_places(
    alloc: Global,
    kind: StructKind,
    fields: &[FieldDesc],
) -> Result<Vec<usize>, AllocError>
    ensures { IfOk result (λ places. places.items ≡ places_from (is_defaulted_field kind) 0 (map plain_field fields.now)) }
{
    let mut places = Vec::new(alloc);
    for (place, field) in fields.iter().enumerate() {
        if is_defaulted(kind, field) {
            put(&mut places, place)?;
        }
    }
    Ok(places)
}

/// What a struct needs.
fn needs_of(alloc: Global, desc: &StructDesc) -> Result<StructNeeds, AllocError>
    ensures { IfOk result (λ needs. plain_needs needs ≡ needs_of (plain_struct desc.now)) }
{
    let required = required_places(alloc, desc.fields.as_slice())?;
    let defaulted = defaulted_places(alloc, desc.kind, desc.fields.as_slice())?;
    Ok(StructNeeds {
        required,
        defaulted,
    })
}

/// Appends what a struct needs.
fn put_needs(
    alloc: Global,
    rows: &mut Vec<StructNeeds>,
    desc: &StructDesc,
) -> Result<(), AllocError>
    ensures { OnOk result (map plain_needs rows.new.items ≡ map plain_needs rows.old.items ++ needs_of (plain_struct desc.now) ∷ []) }
{
    let needs = needs_of(alloc, desc)?;
    put(rows, needs)
}

/// What each struct of a schema needs. It walks over all declared fields once.
pub fn needed_fields(alloc: Global, schema: &Schema) -> Result<NeededFields, AllocError>
    ensures { IfOk result (λ needed. needed ≡ map needs_of (schema_of schema.now).structs) }
{
    let mut rows = Vec::with_capacity(alloc, schema.structs.as_slice().len())?;
    for desc in schema.structs.as_slice() {
        put_needs(alloc, &mut rows, desc)?;
    }
    Ok(NeededFields { rows })
}
