//! Containers: which types take which forms, and what is made of what stands in them.

ghost use Rattle.std.specs.Prelude.{◌≡◌, map, IfOk};
ghost use Rattle.schema.specs.PlainKind.{kind_of, kind_set};
ghost use Rattle.thrift_value.specs.Tree.{of_map};
ghost use Rattle.thrift_value.specs.TreeOf.{tree_of, pair_tree, item_trees, pair_trees};
ghost use Rattle.check_model.specs.Evaluation.{kind_tag, takes_brackets, takes_braces, element_kind, row_tree};
ghost use Rattle.check_model.specs.TidyRows.{tidy_pairs};

use crate::tidy::{tidy_members, tidy_pairs};
use schema::TypeDesc;
use std::alloc::{AllocError, Global};
use thrift_value::{Items, Pairs, Tag, Value};

/// The tag of a type's values.
#[tactic(auto, using(crate::proofs::KindsOf::kind_equations))]
fn kind_tag(kind: &TypeDesc) -> Tag
    ensures { result ≡ kind_tag (kind_of kind.now) }
{
    match kind {
        TypeDesc::Bool => Tag::Bool,
        TypeDesc::I8 => Tag::I8,
        TypeDesc::I16 => Tag::I16,
        TypeDesc::I32 | TypeDesc::Enum(_) => Tag::I32,
        TypeDesc::I64 => Tag::I64,
        TypeDesc::Double => Tag::Double,
        TypeDesc::Text | TypeDesc::Binary => Tag::Bytes,
        TypeDesc::Uuid => Tag::Uuid,
        TypeDesc::Struct(_) => Tag::Struct,
        TypeDesc::Map(_, _) => Tag::Map,
        TypeDesc::Set(_) => Tag::Set,
        TypeDesc::List(_) => Tag::List,
    }
}

/// Whether a type takes a list in brackets.
#[tactic(auto, using(crate::proofs::KindsOf::kind_equations))]
pub(crate) fn takes_brackets(kind: &TypeDesc) -> bool
    ensures { result ≡ takes_brackets (kind_of kind.now) }
{
    match kind {
        TypeDesc::Set(_) | TypeDesc::List(_) => true,
        TypeDesc::Bool
        | TypeDesc::I8
        | TypeDesc::I16
        | TypeDesc::I32
        | TypeDesc::I64
        | TypeDesc::Double
        | TypeDesc::Text
        | TypeDesc::Binary
        | TypeDesc::Uuid
        | TypeDesc::Enum(_)
        | TypeDesc::Struct(_)
        | TypeDesc::Map(_, _) => false,
    }
}

/// Whether a type takes keys and values in braces.
#[tactic(auto, using(crate::proofs::KindsOf::kind_equations))]
pub(crate) fn takes_braces(kind: &TypeDesc) -> bool
    ensures { result ≡ takes_braces (kind_of kind.now) }
{
    match kind {
        TypeDesc::Struct(_) | TypeDesc::Map(_, _) => true,
        TypeDesc::Bool
        | TypeDesc::I8
        | TypeDesc::I16
        | TypeDesc::I32
        | TypeDesc::I64
        | TypeDesc::Double
        | TypeDesc::Text
        | TypeDesc::Binary
        | TypeDesc::Uuid
        | TypeDesc::Enum(_)
        | TypeDesc::Set(_)
        | TypeDesc::List(_) => false,
    }
}

/// The type of what stands in brackets.
#[tactic(auto, using(crate::proofs::KindsOf::kind_equations))]
pub(crate) fn element_kind(kind: &TypeDesc) -> &TypeDesc
    ensures { kind_of result.now ≡ element_kind (kind_of kind.now) }
{
    match kind {
        TypeDesc::Set(member) => member,
        TypeDesc::List(element) => element,
        TypeDesc::Bool
        | TypeDesc::I8
        | TypeDesc::I16
        | TypeDesc::I32
        | TypeDesc::I64
        | TypeDesc::Double
        | TypeDesc::Text
        | TypeDesc::Binary
        | TypeDesc::Uuid
        | TypeDesc::Enum(_)
        | TypeDesc::Struct(_)
        | TypeDesc::Map(_, _) => kind,
    }
}

/// A set of members by rising order.
#[tactic(auto, using(thrift_value::proofs::Trees::tree_equations))]
fn set_value(alloc: Global, member: &TypeDesc, items: Vec<Value>) -> Result<Value, AllocError>
    ensures { IfOk result (λ value. tree_of value ≡ row_tree (kind_set (kind_of member.now)) (item_trees (map tree_of items.items))) }
{
    let members = tidy_members(alloc, items)?;
    Ok(Value::Set(kind_tag(member), Items::new(members)))
}

/// A list, or a set of the members by rising order.
#[tactic(auto, using(thrift_value::proofs::Trees::tree_equations, crate::proofs::KindsOf::kind_equations))]
pub(crate) fn row_value(
    alloc: Global,
    kind: &TypeDesc,
    items: Vec<Value>,
) -> Result<Value, AllocError>
    ensures { IfOk result (λ value. tree_of value ≡ row_tree (kind_of kind.now) (item_trees (map tree_of items.items))) }
{
    match kind {
        TypeDesc::Set(member) => set_value(alloc, member, items),
        TypeDesc::List(element) => Ok(Value::List(kind_tag(element), Items::new(items))),
        TypeDesc::Bool
        | TypeDesc::I8
        | TypeDesc::I16
        | TypeDesc::I32
        | TypeDesc::I64
        | TypeDesc::Double
        | TypeDesc::Text
        | TypeDesc::Binary
        | TypeDesc::Uuid
        | TypeDesc::Enum(_)
        | TypeDesc::Struct(_)
        | TypeDesc::Map(_, _) => Ok(Value::List(kind_tag(kind), Items::new(items))),
    }
}

/// A map of pairs by rising order of their keys.
#[tactic(auto, using(thrift_value::proofs::Trees::tree_equations))]
pub(crate) fn map_value(
    alloc: Global,
    key: &TypeDesc,
    value: &TypeDesc,
    pairs: Vec<(Value, Value)>,
) -> Result<Value, AllocError>
    ensures { IfOk result (λ made. tree_of made ≡ of_map (kind_tag (kind_of key.now)) (kind_tag (kind_of value.now)) (tidy_pairs (pair_trees (map pair_tree pairs.items)))) }
{
    let pairs = tidy_pairs(alloc, pairs)?;
    Ok(Value::Map(kind_tag(key), kind_tag(value), Pairs::new(pairs)))
}
