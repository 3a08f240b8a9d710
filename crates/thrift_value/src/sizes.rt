//! Whether the lengths and sizes in a value have an encoding.
ghost use Rattle.std.specs.Prelude.{◌↔◌, ◌<◌, ◌^◌, IsTrue};
ghost use Rattle.thrift_value.specs.Sizes.{items_len, pairs_len, HasSmallSizes, HaveFieldsSmallSizes, HaveItemsSmallSizes, HavePairsSmallSizes};
ghost use Rattle.thrift_value.specs.TreeOf.{tree_of, fields_tree, items_tree, pairs_tree};

use crate::value::{Fields, Items, Pairs, Value};

/// The greatest length and the greatest number of elements that have an encoding (Thrift binary
/// protocol, 'List and Set').
const MAX_SIZE: usize = 0x7fff_ffff;

#[tactic(auto, using(crate::proofs::Trees::tree_equations))]
impl Value {
    /// Whether no text has more bytes, and no container more elements, than a length or size can
    /// say.
    #[cycle(sizes)]
    #[inline(always)]
    pub fn has_small_sizes(&self) -> bool
        ensures { IsTrue result ↔ HasSmallSizes (tree_of self.now) }
    {
        match self {
            Value::Bool(_)
            | Value::I8(_)
            | Value::I16(_)
            | Value::I32(_)
            | Value::I64(_)
            | Value::Double(_)
            | Value::Uuid(_) => true,
            Value::Bytes(text) => text.as_slice().len() <= MAX_SIZE,
            Value::Struct(fields) => fields.have_small_sizes(),
            Value::Map(_, _, pairs) => {
                if !pairs.is_short() {
                    return false;
                }
                pairs.have_small_sizes()
            }
            Value::Set(_, items) => {
                if !items.is_short() {
                    return false;
                }
                items.have_small_sizes()
            }
            Value::List(_, items) => {
                if !items.is_short() {
                    return false;
                }
                items.have_small_sizes()
            }
        }
    }
}

impl Fields {
    /// Whether the value of each field has small sizes.
    #[cycle(sizes)]
    #[inline(never)]
    pub(crate) fn have_small_sizes(&self) -> bool
        ensures { IsTrue result ↔ HaveFieldsSmallSizes (fields_tree self.now) }
    {
        for (_, value) in &self.list {
            if !value.has_small_sizes() {
                return false;
            }
        }
        true
    }
}

impl Items {
    /// Whether a size can say how many items there are.
    #[tactic(auto, using(crate::proofs::Lengths::tree_lengths))]
    fn is_short(&self) -> bool
        ensures { IsTrue result ↔ (items_len (items_tree self.now) < 2 ^ 31) }
    {
        self.list.len() <= MAX_SIZE
    }

    /// Whether each item has small sizes.
    #[cycle(sizes)]
    #[inline(never)]
    pub(crate) fn have_small_sizes(&self) -> bool
        ensures { IsTrue result ↔ HaveItemsSmallSizes (items_tree self.now) }
    {
        for value in &self.list {
            if !value.has_small_sizes() {
                return false;
            }
        }
        true
    }
}

impl Pairs {
    /// Whether a size can say how many pairs there are.
    #[tactic(auto, using(crate::proofs::Lengths::tree_lengths))]
    fn is_short(&self) -> bool
        ensures { IsTrue result ↔ (pairs_len (pairs_tree self.now) < 2 ^ 31) }
    {
        self.list.len() <= MAX_SIZE
    }

    /// Whether each key and each value has small sizes.
    #[cycle(sizes)]
    #[inline(never)]
    pub(crate) fn have_small_sizes(&self) -> bool
        ensures { IsTrue result ↔ HavePairsSmallSizes (pairs_tree self.now) }
    {
        for (key, value) in &self.list {
            if !key.has_small_sizes() {
                return false;
            }
            if !value.has_small_sizes() {
                return false;
            }
        }
        true
    }
}
