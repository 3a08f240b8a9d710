//! A raw value settled in its own tree: what it means under a declared type, so that no value stands in memory twice.
ghost use Rattle.std.specs.Prelude.{◌≡◌, ◌≤◌, ℤ, IfSome, map};
ghost use Rattle.std.specs.List.{slice_get};
ghost use Rattle.std.specs.Option.{option_map};
ghost use Rattle.thrift_value.specs.Measures.{depth_of, fields_depth, items_depth, pairs_depth};
ghost use Rattle.thrift_value.specs.Tree.{of_struct, of_map, of_set, of_list};
ghost use Rattle.thrift_value.specs.TreeOf.{tree_of, field_tree, field_trees, fields_tree, item_trees, items_tree, pair_tree, pair_trees, pairs_tree};
ghost use Rattle.schema.specs.PlainKind.{kind_of};
ghost use Rattle.schema.specs.SchemaOf.{schema_of, plain_field, plain_struct};
ghost use Rattle.schema.specs.Sound.{IsSound};
ghost use Rattle.struct_skew.specs.Answering.{ProjectsOrNoMemory};
ghost use Rattle.struct_skew.specs.Needs.{needs_of};
ghost use Rattle.struct_skew.specs.Orders.{pair_meaning};
ghost use Rattle.struct_skew.specs.Plan.{planned_fields};
ghost use Rattle.struct_skew.specs.Projection.{item_meanings, meaning_of, offers_of, pair_meanings, struct_value};
ghost use Rattle.struct_skew.specs.TakenOut.{AreApart, field_if_sent, value_if_sent};

use crate::fault::SkewFault;
use crate::needs::{NeededFields, item};
use crate::plan::{Choice, plan_of};
use crate::slots::{put_item, take_item, take_named};
use crate::structs::struct_at;
use crate::values::{
    as_field, both_of, checked_struct, empty_struct, list_of, map_of, put_any, set_of, some_of,
    unsent_value,
};
use known_parts::{list_of_kind, map_of_kind, set_of_kind, struct_of_kind};
use schema::{FieldDesc, Schema, StructDesc, StructKind, TypeDesc};
use std::alloc::Global;
use thrift_value::{Fields, Items, Pairs, Tag, Value};

/// What a raw value means under a type that it fits. A number, a bool and a text are handed on as they are, and the elements of a
/// container stay in its own memory. It takes a level of recursion for each level of the value.
#[cycle(in_place)]
pub(crate) fn settle_value(
    raw: Value,
    levels: u32,
    alloc: Global,
    schema: &Schema,
    needed: &NeededFields,
    kind: &TypeDesc,
    room: &mut u64,
) -> Result<Value, SkewFault>
    requires sound { IsSound (schema_of schema.now) }
    requires needed { needed.now ≡ map needs_of (schema_of schema.now).structs }
    requires deep { depth_of (tree_of raw) ≤ levels }
    ensures { ProjectsOrNoMemory tree_of result (meaning_of (schema_of schema.now).structs (tree_of raw) (kind_of kind.now)) }
{
    let below = levels.saturating_sub(1);
    match raw {
        Value::Struct(fields) => settle_fields(fields, below, alloc, schema, needed, kind, room),
        Value::Map(k, v, pairs) => settle_map(
            k, v, pairs, below, alloc, schema, needed, kind, room,
        ),
        Value::Set(tag, items) => settle_set(tag, items, below, alloc, schema, needed, kind, room),
        Value::List(tag, items) => settle_list(
            tag, items, below, alloc, schema, needed, kind, room,
        ),
        Value::Bool(flag) => Ok(Value::Bool(flag)),
        Value::I8(number) => Ok(Value::I8(number)),
        Value::I16(number) => Ok(Value::I16(number)),
        Value::I32(number) => Ok(Value::I32(number)),
        Value::I64(number) => Ok(Value::I64(number)),
        Value::Double(bits) => Ok(Value::Double(bits)),
        Value::Uuid(uuid) => Ok(Value::Uuid(uuid)),
        Value::Bytes(text) => Ok(Value::Bytes(text)),
    }
}

/// What a list means.
#[cycle(in_place)]
fn settle_list(
    tag: Tag,
    items: Items,
    levels: u32,
    alloc: Global,
    schema: &Schema,
    needed: &NeededFields,
    kind: &TypeDesc,
    room: &mut u64,
) -> Result<Value, SkewFault>
    requires sound { IsSound (schema_of schema.now) }
    requires needed { needed.now ≡ map needs_of (schema_of schema.now).structs }
    requires deep { items_depth (items_tree items) ≤ levels }
    ensures { ProjectsOrNoMemory tree_of result (meaning_of (schema_of schema.now).structs (of_list tag (items_tree items)) (kind_of kind.now)) }
{
    match list_of_kind(kind) {
        Some(element) => {
            let found = settle_items(
                items.into_vec(),
                levels,
                alloc,
                schema,
                needed,
                element,
                room,
            );
            list_of(element, found)
        }
        None => Ok(Value::List(tag, items)),
    }
}

/// What a set means.
#[cycle(in_place)]
fn settle_set(
    tag: Tag,
    items: Items,
    levels: u32,
    alloc: Global,
    schema: &Schema,
    needed: &NeededFields,
    kind: &TypeDesc,
    room: &mut u64,
) -> Result<Value, SkewFault>
    requires sound { IsSound (schema_of schema.now) }
    requires needed { needed.now ≡ map needs_of (schema_of schema.now).structs }
    requires deep { items_depth (items_tree items) ≤ levels }
    ensures { ProjectsOrNoMemory tree_of result (meaning_of (schema_of schema.now).structs (of_set tag (items_tree items)) (kind_of kind.now)) }
{
    match set_of_kind(kind) {
        Some(member) => {
            let found = settle_items(
                items.into_vec(),
                levels,
                alloc,
                schema,
                needed,
                member,
                room,
            );
            set_of(alloc, member, found)
        }
        None => Ok(Value::Set(tag, items)),
    }
}

/// What a map means.
#[cycle(in_place)]
fn settle_map(
    key_tag: Tag,
    value_tag: Tag,
    pairs: Pairs,
    levels: u32,
    alloc: Global,
    schema: &Schema,
    needed: &NeededFields,
    kind: &TypeDesc,
    room: &mut u64,
) -> Result<Value, SkewFault>
    requires sound { IsSound (schema_of schema.now) }
    requires needed { needed.now ≡ map needs_of (schema_of schema.now).structs }
    requires deep { pairs_depth (pairs_tree pairs) ≤ levels }
    ensures { ProjectsOrNoMemory tree_of result (meaning_of (schema_of schema.now).structs (of_map key_tag value_tag (pairs_tree pairs)) (kind_of kind.now)) }
{
    match map_of_kind(kind) {
        Some((key, value)) => {
            let found = settle_pairs(
                pairs.into_vec(),
                levels,
                alloc,
                schema,
                needed,
                key,
                value,
                room,
            );
            map_of(alloc, key, value, found)
        }
        None => Ok(Value::Map(key_tag, value_tag, pairs)),
    }
}

/// What the fields of a struct mean.
#[cycle(in_place)]
fn settle_fields(
    fields: Fields,
    levels: u32,
    alloc: Global,
    schema: &Schema,
    needed: &NeededFields,
    kind: &TypeDesc,
    room: &mut u64,
) -> Result<Value, SkewFault>
    requires sound { IsSound (schema_of schema.now) }
    requires needed { needed.now ≡ map needs_of (schema_of schema.now).structs }
    requires deep { fields_depth (fields_tree fields) ≤ levels }
    ensures { ProjectsOrNoMemory tree_of result (meaning_of (schema_of schema.now).structs (of_struct (fields_tree fields)) (kind_of kind.now)) }
{
    match struct_of_kind(kind) {
        Some(which) => settle_struct(
            fields.into_vec(),
            levels,
            alloc,
            schema,
            needed,
            which,
            room,
        ),
        None => Ok(Value::Struct(fields)),
    }
}

/// What elements mean, each in its own place.
#[cycle(in_place)]
fn settle_items(
    items: Vec<Value>,
    levels: u32,
    alloc: Global,
    schema: &Schema,
    needed: &NeededFields,
    kind: &TypeDesc,
    room: &mut u64,
) -> Result<Vec<Value>, SkewFault>
    requires sound { IsSound (schema_of schema.now) }
    requires needed { needed.now ≡ map needs_of (schema_of schema.now).structs }
    requires deep { items_depth (item_trees (map tree_of items.items)) ≤ levels }
    ensures { ProjectsOrNoMemory (λ v. map tree_of v.items) result
        (item_meanings (schema_of schema.now).structs (item_trees (map tree_of items.items)) (kind_of kind.now)) }
{
    let mut items = items;
    for place in 0..items.as_slice().len() {
        let raw = take_item(&mut items, place, Value::Bool(false));
        let found = settle_value(raw, levels, alloc, schema, needed, kind, room);
        put_item(&mut items, place, found)?;
    }
    Ok(items)
}

/// What a key and its value mean.
#[cycle(in_place)]
fn settle_pair(
    pair: (Value, Value),
    levels: u32,
    alloc: Global,
    schema: &Schema,
    needed: &NeededFields,
    key_kind: &TypeDesc,
    value_kind: &TypeDesc,
    room: &mut u64,
) -> Result<(Value, Value), SkewFault>
    requires sound { IsSound (schema_of schema.now) }
    requires needed { needed.now ≡ map needs_of (schema_of schema.now).structs }
    requires deep_key { depth_of (tree_of pair.0) ≤ levels }
    requires deep_value { depth_of (tree_of pair.1) ≤ levels }
    ensures { ProjectsOrNoMemory pair_tree result (pair_meaning (schema_of schema.now).structs (kind_of key_kind.now) (kind_of value_kind.now) pair) }
{
    let (key, value) = pair;
    let key = settle_value(key, levels, alloc, schema, needed, key_kind, room);
    let value = settle_value(value, levels, alloc, schema, needed, value_kind, room);
    both_of(key, value)
}

/// What pairs mean, each in its own place.
#[cycle(in_place)]
fn settle_pairs(
    pairs: Vec<(Value, Value)>,
    levels: u32,
    alloc: Global,
    schema: &Schema,
    needed: &NeededFields,
    key_kind: &TypeDesc,
    value_kind: &TypeDesc,
    room: &mut u64,
) -> Result<Vec<(Value, Value)>, SkewFault>
    requires sound { IsSound (schema_of schema.now) }
    requires needed { needed.now ≡ map needs_of (schema_of schema.now).structs }
    requires deep { pairs_depth (pair_trees (map pair_tree pairs.items)) ≤ levels }
    ensures { ProjectsOrNoMemory (λ v. map pair_tree v.items) result
        (pair_meanings (schema_of schema.now).structs (pair_trees (map pair_tree pairs.items)) (kind_of key_kind.now) (kind_of value_kind.now)) }
{
    let mut pairs = pairs;
    for place in 0..pairs.as_slice().len() {
        let pair = take_item(&mut pairs, place, (Value::Bool(false), Value::Bool(false)));
        let found = settle_pair(
            pair, levels, alloc, schema, needed, key_kind, value_kind, room,
        );
        put_item(&mut pairs, place, found)?;
    }
    Ok(pairs)
}

/// What a declared field has: what the value that was sent for it means, or what stands where nothing is sent.
#[cycle(in_place)]
fn settle_sent(
    sent: Option<Value>,
    levels: u32,
    alloc: Global,
    schema: &Schema,
    needed: &NeededFields,
    which: u32,
    kind: StructKind,
    field: &FieldDesc,
    room: &mut u64,
) -> Result<Option<Value>, SkewFault>
    requires sound { IsSound (schema_of schema.now) }
    requires needed { needed.now ≡ map needs_of (schema_of schema.now).structs }
    requires deep { IfSome sent (λ raw. depth_of (tree_of raw) ≤ levels) }
    ensures { ProjectsOrNoMemory (option_map tree_of) result (value_if_sent (schema_of schema.now).structs which kind (plain_field field.now) (option_map tree_of sent)) }
{
    match sent {
        Some(raw) => some_of(settle_value(raw, levels, alloc, schema, needed, &field.kind, room)),
        None => unsent_value(alloc, which, kind, field, room),
    }
}

/// What a choice gives, for which this was sent.
#[cycle(in_place)]
fn settle_choice(
    sent: Option<Value>,
    levels: u32,
    alloc: Global,
    schema: &Schema,
    needed: &NeededFields,
    which: u32,
    desc: &StructDesc,
    place: usize,
    room: &mut u64,
) -> Result<Option<(i16, Value)>, SkewFault>
    requires sound { IsSound (schema_of schema.now) }
    requires needed { needed.now ≡ map needs_of (schema_of schema.now).structs }
    requires deep { IfSome sent (λ raw. depth_of (tree_of raw) ≤ levels) }
    ensures { ProjectsOrNoMemory (option_map field_tree) result (field_if_sent (schema_of schema.now).structs which desc.now.kind
        (slice_get (plain_struct desc.now).fields place) (option_map tree_of sent)) }
{
    let Some(field) = item(desc.fields.as_slice(), place) else {
        return Ok(None);
    };
    let value = settle_sent(
        sent, levels, alloc, schema, needed, which, desc.kind, field, room,
    );
    as_field(&field.id, value)
}

/// The fields that a plan gives. The raw field that a choice names is taken out when its turn comes.
#[cycle(in_place)]
fn settle_planned(
    sent: Vec<(i16, Value)>,
    levels: u32,
    alloc: Global,
    schema: &Schema,
    needed: &NeededFields,
    which: u32,
    desc: &StructDesc,
    plan: &[Choice],
    room: &mut u64,
) -> Result<Vec<(i16, Value)>, SkewFault>
    requires sound { IsSound (schema_of schema.now) }
    requires needed { needed.now ≡ map needs_of (schema_of schema.now).structs }
    requires deep { fields_depth (field_trees (map field_tree sent.items)) ≤ levels }
    requires apart { AreApart plan.now }
    ensures { ProjectsOrNoMemory (λ v. map field_tree v.items) result (planned_fields which desc.now.kind (plain_struct desc.now).fields
        (offers_of (schema_of schema.now).structs (field_trees (map field_tree sent.items))) plan.now) }
{
    let mut sent = sent;
    let mut found = Vec::with_capacity(alloc, plan.len())?;
    for choice in plan {
        let raw = take_named(&mut sent, choice.sent);
        let field = settle_choice(
            raw,
            levels,
            alloc,
            schema,
            needed,
            which,
            desc,
            choice.place,
            room,
        );
        put_any(&mut found, field)?;
    }
    Ok(found)
}

/// What the fields of a raw struct mean under the struct at a number.
#[cycle(in_place)]
fn settle_struct(
    sent: Vec<(i16, Value)>,
    levels: u32,
    alloc: Global,
    schema: &Schema,
    needed: &NeededFields,
    which: u32,
    room: &mut u64,
) -> Result<Value, SkewFault>
    requires sound { IsSound (schema_of schema.now) }
    requires needed { needed.now ≡ map needs_of (schema_of schema.now).structs }
    requires deep { fields_depth (field_trees (map field_tree sent.items)) ≤ levels }
    ensures { ProjectsOrNoMemory tree_of result (struct_value which (slice_get (schema_of schema.now).structs which)
        (offers_of (schema_of schema.now).structs (field_trees (map field_tree sent.items)))) }
{
    let Some((desc, needs)) = struct_at(schema, needed, which) else {
        return Ok(empty_struct(alloc));
    };
    let plan = plan_of(
        alloc,
        needs.required.as_slice(),
        needs.defaulted.as_slice(),
        desc.fields.as_slice(),
        sent.as_slice(),
    )?;
    let found = settle_planned(
        sent,
        levels,
        alloc,
        schema,
        needed,
        which,
        desc,
        plan.as_slice(),
        room,
    );
    checked_struct(which, desc.kind, found)
}
