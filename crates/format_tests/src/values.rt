//! The largest value that the codecs read, which is counted, copied, compared and let go on a small stack.

use std::alloc::{AllocError, Global};
use std::cmp::Ordering;
use std::test::Fail;
use thrift_value::{Fields, Items, Tag, Value};

// A list of so many numbers.
fn sevens(alloc: Global, count: usize) -> Result<Value, AllocError> {
    let mut items = Vec::new(alloc);
    for _ in 0..count {
        items.push(Value::I32(7))?;
    }
    Ok(Value::List(Tag::I32, Items::new(items)))
}

// 64 levels and 4,000,000 values, in structs in one another, each with a list of numbers.
fn largest(alloc: Global) -> Result<Value, AllocError> {
    let mut value = sevens(alloc, 3)?;
    for _ in 0..63 {
        let beside = sevens(alloc, 63_490)?;
        value = Value::Struct(Fields::new(vec![in alloc; (1i16, beside), (2i16, value)]?));
    }
    Ok(value)
}

// Whether a value is as its copy.
fn is_as_its_copy(alloc: Global, value: &Value) -> Result<bool, AllocError> {
    let copy = value.try_clone(alloc)?;
    Ok(value.compare(&copy) == Ordering::Equal)
}

#[test]
fn the_largest_value_is_as_its_copy(rt: HostRuntime) -> Result<(), Fail> {
    let value = largest(rt.alloc())?;
    assert!(rt; value.depth() == 64 && value.count() == 4_000_000 && value.is_tidy());
    assert!(rt; is_as_its_copy(rt.alloc(), &value)?);
    Ok(())
}
