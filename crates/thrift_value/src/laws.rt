//! What holds of all values.
ghost use Rattle.std.specs.Cmp.{IsTotalOrder};
ghost use Rattle.std.specs.declared.cmp.Ordering.TheVariants.{Equal};
ghost use Rattle.std.specs.Prelude.{◌≡◌, ◌≤◌, ◌↔◌};
ghost use Rattle.thrift_value.specs.Codes.{tree_code};
ghost use Rattle.thrift_value.specs.Measures.{count_of};
ghost use Rattle.thrift_value.specs.Order.{tree_cmp};
ghost use Rattle.thrift_value.specs.Plain.{plain, HasMeasuresOf};
ghost use Rattle.thrift_value.specs.Ranges.{IsInRange};
ghost use Rattle.thrift_value.specs.Tidy.{IsTidy, IsWellTagged};
ghost use Rattle.thrift_value.specs.Tree.{Tree, of_bool, of_i8, of_i16, of_i32, of_i64, of_double, of_bytes, of_struct, of_map, of_set, of_list, of_uuid};
ghost use Rattle.thrift_value.specs.TreeOf.{tree_of, fields_tree, items_tree, pairs_tree};

use crate::tag::Tag;
use crate::value::{Fields, Items, Pairs, Value};

/// The tree of each kind of value.
pub fn trees_of_values()
    ensures bool { (b : _) → tree_of (Value.Bool b) ≡ of_bool b }
    ensures i8 { (n : _) → tree_of (Value.I8 n) ≡ of_i8 n }
    ensures i16 { (n : _) → tree_of (Value.I16 n) ≡ of_i16 n }
    ensures i32 { (n : _) → tree_of (Value.I32 n) ≡ of_i32 n }
    ensures i64 { (n : _) → tree_of (Value.I64 n) ≡ of_i64 n }
    ensures double { (n : _) → tree_of (Value.Double n) ≡ of_double n }
    ensures bytes { (text : _) → tree_of (Value.Bytes text) ≡ of_bytes text }
    ensures struct_ { (fields : _) → tree_of (Value.Struct fields) ≡ of_struct (fields_tree fields) }
    ensures map { (k v : _) (pairs : _) → tree_of (Value.Map k v pairs) ≡ of_map k v (pairs_tree pairs) }
    ensures set { (t : _) (items : _) → tree_of (Value.Set t items) ≡ of_set t (items_tree items) }
    ensures list { (t : _) (items : _) → tree_of (Value.List t items) ≡ of_list t (items_tree items) }
    ensures uuid { (n : _) → tree_of (Value.Uuid n) ≡ of_uuid n }
{}

/// What a copy has in common with its value.
pub fn copies_measure_alike()
    ensures { (value copy : Value) → tree_of copy ≡ tree_of value
        → HasMeasuresOf (tree_of value) (tree_of copy) }
{}

/// The order of values is a total order: of two values one comes first or they are alike, what
/// comes before another comes before all that follow it, and values that are alike stand alike to
/// every other.
pub fn order_is_total()
    ensures { IsTotalOrder tree_cmp }
{}

/// Well tagged values are alike in order exactly where they are the same but for the tags of empty
/// containers.
pub fn alike_values_are_the_same()
    ensures { (x y : Tree) → IsWellTagged x → IsWellTagged y
        → (tree_cmp x y ≡ Equal) ↔ (plain x ≡ plain y) }
{}

/// The plain form of a value is alike to it in order, and keeps its tag, depth and count, and that
/// it is tidy and in range.
pub fn plain_value_is_alike()
    ensures alike { (x y : Tree) → tree_cmp (plain x) y ≡ tree_cmp x y }
    ensures measures { (x : Tree) → HasMeasuresOf x (plain x) }
    ensures tidy { (x : Tree) → IsTidy x → IsTidy (plain x) }
    ensures in_range { (x : Tree) → IsInRange x → IsInRange (plain x) }
{}

/// A tidy value is well tagged, as a raw one is.
pub fn tidy_value_is_well_tagged()
    ensures { (x : Tree) → IsTidy x → IsWellTagged x }
{}

/// Each value counts.
pub fn count_is_one_or_more()
    ensures { (x : Tree) → 1 ≤ count_of x }
{}

/// Trees with one code are the same. So a struct whose model denotes a tree may stand as the type argument of a law: its
/// `ghost coded` is made with this code.
pub fn code_tells_the_tree()
    ensures { (one other : Tree) → tree_code.code one ≡ tree_code.code other → one ≡ other }
{}
