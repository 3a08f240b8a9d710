//! Whether ids, members and keys rise.
ghost use Rattle.std.specs.Prelude.{◌≡◌, map};
ghost use Rattle.thrift_value.specs.TreeOf.{tree_of, field_tree, field_trees, item_trees, pair_tree, pair_trees};
ghost use Rattle.struct_skew.specs.TidyTests.{are_rising_fields, are_rising_items, are_rising_pairs};

use crate::order::{Keyed, is_rising};
use std::cmp::Ordering;
use thrift_value::Value;

impl Keyed for (i16, Value) {
    ghost use Rattle.std.proofs.lemmas.Cmp.{on_total, int_cmp_total};
    ghost use Rattle.struct_skew.specs.Orders.{id_cmp};

    ghost key_order = { id_cmp };

    fn compare_keys(&self, other: &Self) -> Ordering {
        self.0.cmp(&other.0)
    }

    ghost total = { on_total (λ f. f.0) int_cmp_total };
}

/// Whether the ids rise.
pub(crate) fn ids_rise(fields: &[(i16, Value)]) -> bool
    ensures { result ≡ are_rising_fields (field_trees (map field_tree fields.now)) }
{
    is_rising(fields)
}

/// Whether the members of a set rise.
pub(crate) fn items_rise(items: &[Value]) -> bool
    ensures { result ≡ are_rising_items (item_trees (map tree_of items.now)) }
{
    is_rising(items)
}

/// Whether the keys of a map rise.
pub(crate) fn keys_rise(pairs: &[(Value, Value)]) -> bool
    ensures { result ≡ are_rising_pairs (pair_trees (map pair_tree pairs.now)) }
{
    is_rising(pairs)
}
