//! Whether a value is tidy.
ghost use Rattle.std.specs.Prelude.{◌↔◌, IsTrue};
ghost use Rattle.thrift_value.specs.Tidy.{IsTidy, AreRisingFields, AreRisingItems, AreRisingPairs, AreTidyFields, AreTidyItems, AreTidyPairs};
ghost use Rattle.thrift_value.specs.TreeOf.{tree_of, fields_tree, items_tree, pairs_tree};

use crate::tag::Tag;
use crate::value::{Fields, Items, Pairs, Value};

#[tactic(auto, using(crate::proofs::Trees::tree_equations))]
impl Value {
    /// Whether the value is tidy: ids, keys and the members of sets rise, none stands twice, and
    /// each element has the tag that its container names.
    #[cycle(tidy)]
    #[inline(always)]
    pub fn is_tidy(&self) -> bool
        ensures { IsTrue result ↔ IsTidy (tree_of self.now) }
    {
        match self {
            Value::Bool(_)
            | Value::I8(_)
            | Value::I16(_)
            | Value::I32(_)
            | Value::I64(_)
            | Value::Double(_)
            | Value::Uuid(_)
            | Value::Bytes(_) => true,
            Value::Struct(fields) => {
                if !fields.rise() {
                    return false;
                }
                fields.are_tidy()
            }
            Value::Map(key, value, pairs) => {
                if !pairs.rise() {
                    return false;
                }
                pairs.are_tidy(*key, *value)
            }
            Value::Set(element, items) => {
                if !items.rise() {
                    return false;
                }
                items.are_tidy(*element)
            }
            Value::List(element, items) => items.are_tidy(*element),
        }
    }
}

impl Fields {
    /// Whether the ids rise, so that none stands twice.
    pub(crate) fn rise(&self) -> bool
        ensures { IsTrue result ↔ AreRisingFields (fields_tree self.now) }
    {
        for i in 1..self.list.len() {
            if self.list[i - 1].0 >= self.list[i].0 {
                return false;
            }
        }
        true
    }

    /// Whether the value of each field is tidy.
    #[cycle(tidy)]
    #[inline(never)]
    pub(crate) fn are_tidy(&self) -> bool
        ensures { IsTrue result ↔ AreTidyFields (fields_tree self.now) }
    {
        for (_, value) in &self.list {
            if !value.is_tidy() {
                return false;
            }
        }
        true
    }
}

impl Items {
    /// Whether the items rise, so that none stands twice.
    pub(crate) fn rise(&self) -> bool
        ensures { IsTrue result ↔ AreRisingItems (items_tree self.now) }
    {
        for i in 1..self.list.len() {
            if self.list[i - 1].compare(&self.list[i]).is_ge() {
                return false;
            }
        }
        true
    }

    /// Whether each item is tidy and has this tag.
    #[cycle(tidy)]
    #[inline(never)]
    pub(crate) fn are_tidy(&self, element: Tag) -> bool
        ensures { IsTrue result ↔ AreTidyItems element (items_tree self.now) }
    {
        for value in &self.list {
            if value.tag() != element {
                return false;
            }
            if !value.is_tidy() {
                return false;
            }
        }
        true
    }
}

impl Pairs {
    /// Whether the keys rise, so that none stands twice.
    pub(crate) fn rise(&self) -> bool
        ensures { IsTrue result ↔ AreRisingPairs (pairs_tree self.now) }
    {
        for i in 1..self.list.len() {
            if self.list[i - 1].0.compare(&self.list[i].0).is_ge() {
                return false;
            }
        }
        true
    }

    /// Whether each key and each value is tidy and has its tag.
    #[cycle(tidy)]
    #[inline(never)]
    pub(crate) fn are_tidy(&self, key: Tag, value: Tag) -> bool
        ensures { IsTrue result ↔ AreTidyPairs key value (pairs_tree self.now) }
    {
        for (k, v) in &self.list {
            if k.tag() != key {
                return false;
            }
            if v.tag() != value {
                return false;
            }
            if !k.is_tidy() {
                return false;
            }
            if !v.is_tidy() {
                return false;
            }
        }
        true
    }
}
