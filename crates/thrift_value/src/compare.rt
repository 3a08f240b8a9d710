//! The order of values.
ghost use Rattle.std.specs.Prelude.{◌≡◌};
ghost use Rattle.thrift_value.specs.Order.{tree_cmp, fields_cmp, items_cmp, pairs_cmp};
ghost use Rattle.thrift_value.specs.TreeOf.{tree_of, fields_tree, items_tree, pairs_tree};

use crate::value::{Fields, Items, Pairs, Value};
use std::cmp::Ordering;

#[tactic(auto, using(crate::proofs::Trees::tree_equations))]
impl Value {
    /// How the value stands to another: by tag, and where the tags are alike by what they hold.
    #[cycle(compare)]
    pub fn compare(&self, other: &Value) -> Ordering
        ensures { result ≡ tree_cmp (tree_of self.now) (tree_of other.now) }
    {
        match (self, other) {
            (Value::Bool(a), Value::Bool(b)) => a.cmp(b),
            (Value::I8(a), Value::I8(b)) => a.cmp(b),
            (Value::I16(a), Value::I16(b)) => a.cmp(b),
            (Value::I32(a), Value::I32(b)) => a.cmp(b),
            (Value::I64(a), Value::I64(b)) => a.cmp(b),
            (Value::Double(a), Value::Double(b)) => a.cmp(b),
            (Value::Bytes(a), Value::Bytes(b)) => a.as_slice().cmp(b.as_slice()),
            (Value::Struct(a), Value::Struct(b)) => a.compare(b),
            (Value::Map(_, _, a), Value::Map(_, _, b)) => a.compare(b),
            (Value::Set(_, a), Value::Set(_, b)) => a.compare(b),
            (Value::List(_, a), Value::List(_, b)) => a.compare(b),
            (Value::Uuid(a), Value::Uuid(b)) => a.number().cmp(&b.number()),
            _ => self.tag().cmp(&other.tag()),
        }
    }
}

impl Fields {
    /// Compares field by field, the id before the value; a prefix comes first.
    #[cycle(compare)]
    pub(crate) fn compare(&self, other: &Fields) -> Ordering
        ensures { result ≡ fields_cmp (fields_tree self.now) (fields_tree other.now) }
    {
        let (fields, others) = (self.list.len(), other.list.len());
        let shared = fields.min(others);
        for i in 0..shared {
            let (id, value) = &self.list[i];
            let (other_id, other_value) = &other.list[i];
            let order = id.cmp(other_id).then(value.compare(other_value));
            if order.is_ne() {
                return order;
            }
        }
        fields.cmp(&others)
    }
}

impl Items {
    /// Compares item by item; a prefix comes first.
    #[cycle(compare)]
    pub(crate) fn compare(&self, other: &Items) -> Ordering
        ensures { result ≡ items_cmp (items_tree self.now) (items_tree other.now) }
    {
        let (items, others) = (self.list.len(), other.list.len());
        let shared = items.min(others);
        for i in 0..shared {
            let order = self.list[i].compare(&other.list[i]);
            if order.is_ne() {
                return order;
            }
        }
        items.cmp(&others)
    }
}

impl Pairs {
    /// Compares pair by pair, the key before its value; a prefix comes first.
    #[cycle(compare)]
    pub(crate) fn compare(&self, other: &Pairs) -> Ordering
        ensures { result ≡ pairs_cmp (pairs_tree self.now) (pairs_tree other.now) }
    {
        let (pairs, others) = (self.list.len(), other.list.len());
        let shared = pairs.min(others);
        for i in 0..shared {
            let (key, value) = &self.list[i];
            let (other_key, other_value) = &other.list[i];
            let order = key.compare(other_key).then(value.compare(other_value));
            if order.is_ne() {
                return order;
            }
        }
        pairs.cmp(&others)
    }
}
