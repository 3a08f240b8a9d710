//! Whether a raw value fits a type.
ghost use Rattle.std.specs.Prelude.{◌≡◌, map};
ghost use Rattle.thrift_value.specs.TreeOf.{tree_of, item_trees, pair_tree, pair_trees};
ghost use Rattle.schema.specs.PlainKind.{kind_of};
ghost use Rattle.struct_skew.specs.Fits.{each_item, each_pair, fits_kind};

use known_parts::{are_same_tags, list_of_kind, map_of_kind, set_of_kind, tag_of_kind};
use schema::TypeDesc;
use thrift_value::{Raw, Value};

/// Whether a raw value counts under a type: the tags agree, and each element of a container fits its declared type. It recurses once a
/// level that both have.
#[cycle(fitting)]
pub fn fits_kind(raw: &Raw, kind: &TypeDesc) -> bool
    ensures { result ≡ fits_kind (kind_of kind.now) (tree_of raw.now) }
{
    match raw {
        Value::Map(_, _, pairs) => match map_of_kind(kind) {
            Some((key, value)) => pairs_fit(pairs.as_slice(), key, value),
            None => false,
        },
        Value::Set(_, items) => match set_of_kind(kind) {
            Some(member) => items_fit(items.as_slice(), member),
            None => false,
        },
        Value::List(_, items) => match list_of_kind(kind) {
            Some(element) => items_fit(items.as_slice(), element),
            None => false,
        },
        // It is no container.
        _ => are_same_tags(tag_of_kind(kind), raw.tag()),
    }
}

/// Whether each element fits a type.
#[cycle(fitting)]
fn items_fit(items: &[Value], kind: &TypeDesc) -> bool
    ensures { result ≡ each_item (fits_kind (kind_of kind.now)) (item_trees (map tree_of items.now)) }
{
    for value in items {
        if !fits_kind(value, kind) {
            return false;
        }
    }
    true
}

/// Whether each key fits a type, and each value another.
#[cycle(fitting)]
fn pairs_fit(pairs: &[(Value, Value)], key_kind: &TypeDesc, value_kind: &TypeDesc) -> bool
    ensures { result ≡ each_pair (fits_kind (kind_of key_kind.now)) (fits_kind (kind_of value_kind.now)) (pair_trees (map pair_tree pairs.now)) }
{
    for (key, value) in pairs {
        if !fits_kind(key, key_kind) {
            return false;
        }
        if !fits_kind(value, value_kind) {
            return false;
        }
    }
    true
}
