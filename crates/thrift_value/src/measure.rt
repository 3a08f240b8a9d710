//! How large and how deep a value is.
ghost use Rattle.std.specs.Prelude.{◌≡◌, ◌-◌, ◌^◌, min};
ghost use Rattle.thrift_value.specs.Measures.{count_of, fields_count, items_count, pairs_count, depth_of, fields_depth, items_depth, pairs_depth};
ghost use Rattle.thrift_value.specs.TreeOf.{tree_of, fields_tree, items_tree, pairs_tree};

use crate::value::{Fields, Items, Pairs, Value};

#[tactic(auto, using(crate::proofs::Trees::tree_equations))]
impl Value {
    /// How many values there are, itself, keys and all below them included; `u64::MAX` where there
    /// are more.
    #[cycle(count)]
    #[inline(always)]
    pub fn count(&self) -> u64
        ensures { result ≡ min (count_of (tree_of self.now)) (2 ^ 64 - 1) }
    {
        match self {
            Value::Bool(_)
            | Value::I8(_)
            | Value::I16(_)
            | Value::I32(_)
            | Value::I64(_)
            | Value::Double(_)
            | Value::Uuid(_)
            | Value::Bytes(_) => 1,
            Value::Struct(fields) => fields.count().saturating_add(1),
            Value::Map(_, _, pairs) => pairs.count().saturating_add(1),
            Value::Set(_, items) => items.count().saturating_add(1),
            Value::List(_, items) => items.count().saturating_add(1),
        }
    }

    /// How many structs and containers stand in one another, 0 where the value is none of them;
    /// `u32::MAX` where there are more.
    #[cycle(depth)]
    #[inline(always)]
    pub fn depth(&self) -> u32
        ensures { result ≡ min (depth_of (tree_of self.now)) (2 ^ 32 - 1) }
    {
        match self {
            Value::Bool(_)
            | Value::I8(_)
            | Value::I16(_)
            | Value::I32(_)
            | Value::I64(_)
            | Value::Double(_)
            | Value::Uuid(_)
            | Value::Bytes(_) => 0,
            Value::Struct(fields) => fields.depth().saturating_add(1),
            Value::Map(_, _, pairs) => pairs.depth().saturating_add(1),
            Value::Set(_, items) => items.depth().saturating_add(1),
            Value::List(_, items) => items.depth().saturating_add(1),
        }
    }
}

impl Fields {
    /// How many values there are in the fields; `u64::MAX` where there are more.
    #[cycle(count)]
    #[inline(never)]
    pub(crate) fn count(&self) -> u64
        ensures { result ≡ min (fields_count (fields_tree self.now)) (2 ^ 64 - 1) }
    {
        let mut count: u64 = 0;
        for (_, value) in &self.list {
            count = count.saturating_add(value.count());
        }
        count
    }

    /// The depth of the deepest value in the fields, 0 where there is none; `u32::MAX` where it is
    /// more.
    #[cycle(depth)]
    #[inline(never)]
    pub(crate) fn depth(&self) -> u32
        ensures { result ≡ min (fields_depth (fields_tree self.now)) (2 ^ 32 - 1) }
    {
        let mut depth = 0;
        for (_, value) in &self.list {
            depth = value.depth().max(depth);
        }
        depth
    }
}

impl Items {
    /// How many values there are in the items; `u64::MAX` where there are more.
    #[cycle(count)]
    #[inline(never)]
    pub(crate) fn count(&self) -> u64
        ensures { result ≡ min (items_count (items_tree self.now)) (2 ^ 64 - 1) }
    {
        let mut count: u64 = 0;
        for value in &self.list {
            count = count.saturating_add(value.count());
        }
        count
    }

    /// The depth of the deepest item, 0 where there is none; `u32::MAX` where it is more.
    #[cycle(depth)]
    #[inline(never)]
    pub(crate) fn depth(&self) -> u32
        ensures { result ≡ min (items_depth (items_tree self.now)) (2 ^ 32 - 1) }
    {
        let mut depth = 0;
        for value in &self.list {
            depth = value.depth().max(depth);
        }
        depth
    }
}

impl Pairs {
    /// How many values there are in the pairs, keys included; `u64::MAX` where there are more.
    #[cycle(count)]
    #[inline(never)]
    pub(crate) fn count(&self) -> u64
        ensures { result ≡ min (pairs_count (pairs_tree self.now)) (2 ^ 64 - 1) }
    {
        let mut count: u64 = 0;
        for (key, value) in &self.list {
            count = count
                .saturating_add(key.count())
                .saturating_add(value.count());
        }
        count
    }

    /// The depth of the deepest key or value, 0 where there is none; `u32::MAX` where it is more.
    #[cycle(depth)]
    #[inline(never)]
    pub(crate) fn depth(&self) -> u32
        ensures { result ≡ min (pairs_depth (pairs_tree self.now)) (2 ^ 32 - 1) }
    {
        let mut depth = 0;
        for (key, value) in &self.list {
            depth = key.depth().max(value.depth()).max(depth);
        }
        depth
    }
}
