//! The structs that are answered.

ghost use Rattle.std.specs.Prelude.{◌≡◌, pos, IfOk};
ghost use Rattle.text_out.specs.Decimal.{decimal_of};
ghost use Rattle.thrift_value.specs.Tree.{of_i32, of_bytes, of_struct, no_fields, field};
ghost use Rattle.thrift_value.specs.TreeOf.{tree_of};

use std::alloc::{AllocError, Global};
use text_out::decimal;
use thrift_value::{ByteText, Fields, Value};

/// A struct of a number, which is field 1, and a text, which is field 2.
#[tactic(auto, using(thrift_value::proofs::Trees::tree_equations))]
pub(crate) fn numbered_text(alloc: Global, number: i32, text: ByteText) -> Result<Value, AllocError>
    ensures { IfOk result (λ value. tree_of value
        ≡ of_struct (field (pos 1) (of_i32 number) (field (pos 2) (of_bytes text) no_fields))) }
{
    let mut fields = Vec::with_capacity(alloc, 2)?;
    fields.push((1i16, Value::I32(number)))?;
    fields.push((2i16, Value::Bytes(text)))?;
    Ok(Value::Struct(Fields::new(fields)))
}

/// The decimal text of a value.
pub(crate) fn value_text(alloc: Global, value: i32) -> Result<ByteText, AllocError>
    ensures { IfOk result (λ text. text ≡ decimal_of value) }
{
    let mut text = Vec::new(alloc);
    decimal(&mut text, i128::from(value))?;
    Ok(ByteText::new(text))
}
