//! Appends the texts of values to vectors.
ghost use Rattle.std.specs.Prelude.{◌≡◌, ◌++◌, OnErr, OnOk};
ghost use Rattle.thrift_value.specs.TreeOf.{tree_of};
ghost use Rattle.value_text.specs.ValueText.{tree_text};

use crate::spelling::spell_value;
use crate::vec_sink::VecSink;
use std::alloc::AllocError;
use thrift_value::Value;

/// Appends the text of a value. Where memory runs out, the bytes are as before.
pub fn put_value(into: &mut Vec<u8>, value: &Value) -> Result<(), AllocError>
    ensures ok { OnOk result (into.new.items ≡ into.old.items ++ tree_text (tree_of value.now)) }
    ensures err { OnErr result (into.new.items ≡ into.old.items) }
{
    let start = into.as_slice().len();
    let mut out = VecSink::take_from(into);
    let spelled = spell_value(&mut out, value);
    out.give_back(into, start, spelled)
}
