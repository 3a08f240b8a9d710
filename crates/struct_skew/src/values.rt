//! Values as parts of a projection: copies, containers, defaults, and the bounds of the whole.
ghost use Rattle.std.specs.Prelude.{◌≡◌, ℤ, not, ◌&&◌, ◌==◌, map, IfErr, Result, Ok, Some, List, Option as OptionOf};
ghost use Rattle.std.specs.Option.{option_map};
ghost use Rattle.thrift_value.specs.Tree.{Tree, of_struct, no_fields};
ghost use Rattle.thrift_value.specs.TreeOf.{tree_of, field_tree, pair_tree};
ghost use Rattle.schema.specs.PlainKind.{kind_of};
ghost use Rattle.schema.specs.SchemaOf.{plain_field};
ghost use Rattle.struct_skew.specs.Answering.{ProjectsOrNoMemory, PutsSome};
ghost use Rattle.struct_skew.specs.Projection.{is_union, unsent_value, map_meaning, set_meaning, list_meaning, bounded};
ghost use Rattle.struct_skew.specs.Results.{with_value, and_if_ok, both_values, as_field};
ghost use Rattle.struct_skew.specs.Unions.{one_of_union};
ghost use Rattle.struct_skew.specs.declared.fault.SkewFault.{SkewFault as Skew};
ghost use Rattle.struct_skew.specs.declared.fault.SkewFault.TheVariants.{NoMemory};

use crate::fault::SkewFault;
use crate::needs::{is_required, is_union};
use crate::order::{Keyed, in_order};
use known_parts::tag_of_kind;
use limits::{MOST_LEVELS, MOST_VALUES};
use schema::{FieldDesc, StructKind, TypeDesc};
use std::alloc::Global;
use std::cmp::Ordering;
use thrift_value::{Fields, Items, Pairs, Value};

impl Keyed for Value {
    ghost use Rattle.std.proofs.lemmas.Cmp.{on_total};
    ghost use Rattle.thrift_value.proofs.TotalOrder.{tree_cmp_total};
    ghost use Rattle.struct_skew.specs.Orders.{value_cmp};

    ghost key_order = { value_cmp };

    fn compare_keys(&self, other: &Self) -> Ordering {
        self.compare(other)
    }

    ghost total = { on_total tree_of tree_cmp_total };
}

impl Keyed for (Value, Value) {
    ghost use Rattle.std.proofs.lemmas.Cmp.{on_total};
    ghost use Rattle.thrift_value.proofs.TotalOrder.{tree_cmp_total};
    ghost use Rattle.struct_skew.specs.Orders.{pair_cmp};

    ghost key_order = { pair_cmp };

    fn compare_keys(&self, other: &Self) -> Ordering {
        self.0.compare(&other.0)
    }

    ghost total = { on_total (λ p. tree_of p.0) tree_cmp_total };
}

/// A copy of a value.
pub(crate) fn copy_of(alloc: Global, value: &Value) -> Result<Value, SkewFault>
    ensures { ProjectsOrNoMemory tree_of result (Ok (tree_of value.now)) }
{
    let copy = value.try_clone(alloc)?;
    Ok(copy)
}

/// Appends a value, where there is one.
pub(crate) fn put_any<T: Drop>(
    into: &mut Vec<T>,
    found: Result<Option<T>, SkewFault>,
) -> Result<(), SkewFault>
    ensures { PutsSome found result into.old.items into.new.items }
{
    match found {
        Ok(Some(value)) => {
            into.push(value)?;
            Ok(())
        }
        Ok(None) => Ok(()),
        Err(fault) => Err(fault),
    }
}

/// A key and its value.
pub(crate) fn both_of(
    key: Result<Value, SkewFault>,
    value: Result<Value, SkewFault>,
) -> Result<(Value, Value), SkewFault>
    ensures { (k v : Result Tree Skew) → ProjectsOrNoMemory tree_of key k → ProjectsOrNoMemory tree_of value v → ProjectsOrNoMemory pair_tree result (both_values k v) }
{
    match key {
        Ok(key) => match value {
            Ok(value) => Ok((key, value)),
            Err(fault) => Err(fault),
        },
        Err(fault) => Err(fault),
    }
}

/// A list of elements.
pub(crate) fn list_of(
    element: &TypeDesc,
    items: Result<Vec<Value>, SkewFault>,
) -> Result<Value, SkewFault>
    ensures { (meant : Result (List Tree) Skew) → ProjectsOrNoMemory (λ v. map tree_of v.items) items meant
        → ProjectsOrNoMemory tree_of result (with_value (list_meaning (kind_of element.now)) meant) }
{
    match items {
        Ok(items) => Ok(Value::List(tag_of_kind(element), Items::new(items))),
        Err(fault) => Err(fault),
    }
}

/// A set of members, each once and in order.
pub(crate) fn set_of(
    alloc: Global,
    member: &TypeDesc,
    items: Result<Vec<Value>, SkewFault>,
) -> Result<Value, SkewFault>
    ensures { (meant : Result (List Tree) Skew) → ProjectsOrNoMemory (λ v. map tree_of v.items) items meant
        → ProjectsOrNoMemory tree_of result (with_value (set_meaning (kind_of member.now)) meant) }
{
    match items {
        Ok(items) => {
            let items = in_order(alloc, items)?;
            Ok(Value::Set(tag_of_kind(member), Items::new(items)))
        }
        Err(fault) => Err(fault),
    }
}

/// A map of pairs, each key once and in order.
pub(crate) fn map_of(
    alloc: Global,
    key: &TypeDesc,
    value: &TypeDesc,
    pairs: Result<Vec<(Value, Value)>, SkewFault>,
) -> Result<Value, SkewFault>
    ensures { (meant : Result (List (Tree × Tree)) Skew) → ProjectsOrNoMemory (λ v. map pair_tree v.items) pairs meant
        → ProjectsOrNoMemory tree_of result (with_value (map_meaning (kind_of key.now) (kind_of value.now)) meant) }
{
    match pairs {
        Ok(pairs) => {
            let pairs = in_order(alloc, pairs)?;
            let tag = tag_of_kind(key);
            Ok(Value::Map(tag, tag_of_kind(value), Pairs::new(pairs)))
        }
        Err(fault) => Err(fault),
    }
}

/// How much room a value takes, in bytes: about 40 a value, and its texts.
#[cycle(weighing)]
fn weight(value: &Value) -> u64 {
    match value {
        Value::Bytes(text) => 40u64.saturating_add(text.as_slice().len() as u64),
        Value::Struct(fields) => {
            let mut sum: u64 = 40;
            for (_, value) in fields.as_slice() {
                sum = sum.saturating_add(weight(value));
            }
            sum
        }
        Value::Map(_, _, pairs) => {
            let mut sum: u64 = 40;
            for (key, value) in pairs.as_slice() {
                sum = sum
                    .saturating_add(weight(key))
                    .saturating_add(weight(value));
            }
            sum
        }
        Value::Set(_, items) => weight_of_items(items.as_slice()),
        Value::List(_, items) => weight_of_items(items.as_slice()),
        _ => 40,
    }
}

#[cycle(weighing)]
fn weight_of_items(items: &[Value]) -> u64 {
    let mut sum: u64 = 40;
    for value in items {
        sum = sum.saturating_add(weight(value));
    }
    sum
}

/// Takes room for a default; where there is too little it is answered as want of memory.
fn take_room(value: &Value, room: &mut u64) -> Result<(), SkewFault>
    ensures { IfErr result (λ fault. fault ≡ NoMemory) }
{
    let size = weight(value);
    if *room < size {
        return Err(SkewFault::NoMemory);
    }
    *room -= size;
    Ok(())
}

/// The value of a declared field for which nothing that fits was sent.
pub(crate) fn unsent_value(
    alloc: Global,
    which: u32,
    kind: StructKind,
    field: &FieldDesc,
    room: &mut u64,
) -> Result<Option<Value>, SkewFault>
    ensures { ProjectsOrNoMemory (option_map tree_of) result (unsent_value which kind (plain_field field.now)) }
{
    if is_required(field.need) {
        return Err(SkewFault::Missing(which, field.id));
    }
    if is_union(kind) {
        return Ok(None);
    }
    let Some(default) = &field.default else {
        return Ok(None);
    };
    take_room(default, room)?;
    let copy = copy_of(alloc, default)?;
    Ok(Some(copy))
}

/// A value as a field with this id.
pub(crate) fn as_field(
    id: &i16,
    value: Result<Option<Value>, SkewFault>,
) -> Result<Option<(i16, Value)>, SkewFault>
    ensures { (meant : Result (OptionOf Tree) Skew) → ProjectsOrNoMemory (option_map tree_of) value meant → ProjectsOrNoMemory (option_map field_tree) result (as_field id.now meant) }
{
    match value {
        Ok(Some(value)) => Ok(Some((*id, value))),
        Ok(None) => Ok(None),
        Err(fault) => Err(fault),
    }
}

/// The value, where it has at most 64 levels and 4,000,000 values.
pub(crate) fn bounded(value: Value) -> Result<Value, SkewFault>
    ensures { ProjectsOrNoMemory tree_of result (bounded (tree_of value)) }
{
    if value.depth() > MOST_LEVELS {
        return Err(SkewFault::TooDeep);
    }
    if value.count() > MOST_VALUES as u64 {
        return Err(SkewFault::TooMany);
    }
    Ok(value)
}

/// A value that is there.
pub(crate) fn some_of(value: Result<Value, SkewFault>) -> Result<Option<Value>, SkewFault>
    ensures { (meant : Result Tree Skew) → ProjectsOrNoMemory tree_of value meant → ProjectsOrNoMemory (option_map tree_of) result (with_value Some meant) }
{
    match value {
        Ok(value) => Ok(Some(value)),
        Err(fault) => Err(fault),
    }
}

/// The struct without fields.
pub(crate) fn empty_struct(alloc: Global) -> Value
    ensures { tree_of result ≡ of_struct no_fields }
{
    Value::Struct(Fields::new(Vec::new(alloc)))
}

/// Whether a union has another number of fields than one.
fn is_wrong_number(kind: StructKind, count: usize) -> bool
    ensures { result ≡ (is_union kind && not (count == 1)) }
{
    if !is_union(kind) {
        return false;
    }
    count != 1
}

/// A struct of these fields; of a union there has to be exactly one.
pub(crate) fn checked_struct(
    which: u32,
    kind: StructKind,
    fields: Result<Vec<(i16, Value)>, SkewFault>,
) -> Result<Value, SkewFault>
    ensures { (meant : Result (List (ℤ × Tree)) Skew) → ProjectsOrNoMemory (λ v. map field_tree v.items) fields meant
        → ProjectsOrNoMemory tree_of result (and_if_ok meant (one_of_union which kind)) }
{
    match fields {
        Ok(fields) => {
            if is_wrong_number(kind, fields.as_slice().len()) {
                return Err(SkewFault::UnionFields(which));
            }
            Ok(Value::Struct(Fields::new(fields)))
        }
        Err(fault) => Err(fault),
    }
}

/// What was found, where it has at most 64 levels and 4,000,000 values.
pub(crate) fn bounded_of(found: Result<Value, SkewFault>) -> Result<Value, SkewFault>
    ensures { (meant : Result Tree Skew) → ProjectsOrNoMemory tree_of found meant → ProjectsOrNoMemory tree_of result (and_if_ok meant bounded) }
{
    match found {
        Ok(value) => bounded(value),
        Err(fault) => Err(fault),
    }
}
