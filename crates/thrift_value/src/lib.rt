//! Thrift values, apart from how any protocol spells them.
//!
//! A [`Value`] is a tree in memory: numbers, bytes, structs and containers. What it means is the
//! plain tree of `specs/Tree.antt`, and each contract here speaks of that tree. Build one from its
//! parts (`Value::Struct(Fields::new(fields))`), take it apart by `match` and `as_slice`, and ask
//! it for its order, size, depth and tidiness.
//!
//! ```
//! let numbers = Items::new(vec![in alloc; Value::I8(1), Value::I8(2)]?);
//! let value = Value::Struct(Fields::new(vec![in alloc; (1i16, Value::List(Tag::I8, numbers))]?));
//! assert!(rt; value.is_tidy() && value.has_small_sizes());
//! assert_eq!(rt; (value.count(), value.depth()), (4, 2));
//! let copy = value.try_clone(alloc)?;
//! assert!(rt; value.compare(&copy).is_eq());
//! ```
//!
//! Not here: bytes on a wire, types of an IDL, and texts of values. Each call recurses once for
//! each level of its value, and loops over what stands beside one another. What is read from
//! outside has at most 64 levels; who builds deeper values by hand answers for the stack, also
//! when they are dropped.
#![tactic(auto)]

mod compare;
mod copy;
mod fn_shapes;
mod laws;
mod measure;
mod sizes;
mod tag;
mod tidiness;
mod uuid;
mod value;
mod wire_fault;

pub use fn_shapes::FnShapes;
pub use laws::{
    alike_values_are_the_same, code_tells_the_tree, copies_measure_alike, count_is_one_or_more,
    order_is_total, plain_value_is_alike, tidy_value_is_well_tagged, trees_of_values,
};
pub use lists::ByteText;
pub use tag::Tag;
pub use uuid::Uuid;
pub use value::{Fields, Items, Pairs, Raw, Value};
pub use wire_fault::WireFault;
