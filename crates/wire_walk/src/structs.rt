//! Whole structs: read at a place of the bytes, and appended.

ghost use Rattle.std.specs.Prelude.{◌≡◌, ◌≤◌, ◌+◌, ◌++◌, ℕ, List, length, IfOk, OnOk, OnErr};
ghost use Rattle.thrift_value.specs.declared.tag.Tag.TheVariants as tags;
ghost use Rattle.thrift_value.specs.Measures.{count_of, depth_of};
ghost use Rattle.thrift_value.specs.Plain.{plain};
ghost use Rattle.thrift_value.specs.Ranges.{IsInRange};
ghost use Rattle.thrift_value.specs.Sizes.{HasSmallSizes};
ghost use Rattle.thrift_value.specs.Tags.{tag_of};
ghost use Rattle.thrift_value.specs.Tidy.{IsTidy, IsWellTagged};
ghost use Rattle.thrift_value.specs.Tree.{Tree};
ghost use Rattle.thrift_value.specs.TreeOf.{tree_of};
ghost use Rattle.wire_model.specs.Answering.{AnswersOrNoMemory};
ghost use Rattle.wire_model.specs.Encoder.{text};
ghost use Rattle.wire_model.specs.Format.{Spells};
ghost use Rattle.wire_model.specs.Place.{found_struct, most_levels, most_values, struct_at, IsWithinBounds, IsEncodedAt};

use crate::codec::Codec;
use crate::input::Input;
use crate::reading::read;
use crate::writing::put;
use limits::{MOST_LEVELS, MOST_VALUES};
use std::alloc::{AllocError, Global};
use thrift_value::{Raw, Tag, Value, WireFault};
use wire_model::laws::{
    spelled_value_is_raw, struct_read_is_spelled, struct_spelled_is_read, value_read_is_spelled,
    written_is_read, written_is_spelled,
};

/// The struct at `at` as it came, and the place behind it; or the fault that comes first. Own choice: it has at most 64
/// levels and 4,000,000 values. It has no more values than bytes were read for it.
pub fn read_struct<C: Codec>(
    alloc: Global,
    bytes: &[u8],
    at: usize,
) -> Result<(Raw, usize), WireFault>
    requires { at ≤ length bytes.now }
    // Which struct or which fault it is; want of memory alone is free.
    ensures exact { AnswersOrNoMemory (λ x. (tree_of x.0, x.1)) result (struct_at C.wire bytes.now at) }
    // What is read is spelled there, within the bounds.
    ensures found { IfOk result (λ x. IsEncodedAt C.format bytes.now at (tree_of x.0) x.1) }
    ensures bounds { IfOk result (λ x. IsWithinBounds (tree_of x.0)) }
    ensures tagged { IfOk result (λ x. IsWellTagged (tree_of x.0)) }
    ensures sizes { IfOk result (λ x. HasSmallSizes (tree_of x.0)) }
    ensures place { IfOk result (λ x. x.1 ≤ length bytes.now) }
    ensures count { IfOk result (λ x. at + count_of (tree_of x.0) ≤ x.1) }
    // What is spelled there, within the bounds, is read.
    ensures only { (x : Tree) (behind : ℕ) → IsEncodedAt C.format bytes.now at x behind → IsWithinBounds x
        → AnswersOrNoMemory (λ y. (tree_of y.0, y.1)) result (found_struct x behind) }
{
    struct_read_is_spelled::<C>();
    struct_spelled_is_read::<C>();
    spelled_value_is_raw::<C>();
    struct_in::<C>(alloc, bytes, at)
}

/// The same, by its reading alone.
fn struct_in<C: Codec>(alloc: Global, bytes: &[u8], at: usize) -> Result<(Raw, usize), WireFault>
    requires { at ≤ length bytes.now }
    ensures { AnswersOrNoMemory (λ x. (tree_of x.0, x.1)) result (struct_at C.wire bytes.now at) }
{
    value_read_is_spelled::<C>();
    let (_, behind) = bytes.split_at(at);
    let input = Input::new(behind, MOST_VALUES);
    let (value, rest) = read::<C>(alloc, input, MOST_LEVELS, Tag::Struct)?;
    Ok((value, bytes.len() - rest.bytes().len()))
}

/// Appends a tidy struct. Own choice: it has no more levels than may be read. Where memory runs out, nothing was appended.
pub fn write_struct<C: Codec>(value: &Value, into: &mut Vec<u8>) -> Result<(), AllocError>
    requires is_struct { tag_of (tree_of value.now) ≡ tags.Struct }
    requires tidy { IsTidy (tree_of value.now) }
    requires depth { depth_of (tree_of value.now) ≤ most_levels }
    requires sizes { HasSmallSizes (tree_of value.now) }
    ensures ok { OnOk result (into.new.items ≡ into.old.items ++ text C.encoder (tree_of value.now)) }
    ensures err { OnErr result (into.new.items ≡ into.old.items) }
    // What it appends is a spelling of the value's plain form, and is read as that, whatever follows.
    ensures spelled { OnOk result (Spells C.format (plain (tree_of value.now)) (text C.encoder (tree_of value.now))) }
    ensures read_back { OnOk result (count_of (tree_of value.now) ≤ most_values → (more : List ℕ)
        → struct_at C.wire (into.new.items ++ more) (length into.old.items)
        ≡ found_struct (plain (tree_of value.now)) (length into.new.items)) }
{
    written_is_spelled::<C>();
    written_is_read::<C>();
    append::<C>(value, into)
}

/// The same, by what it appends alone.
fn append<C: Codec>(value: &Value, into: &mut Vec<u8>) -> Result<(), AllocError>
    requires { HasSmallSizes (tree_of value.now) }
    ensures ok { OnOk result (into.new.items ≡ into.old.items ++ text C.encoder (tree_of value.now)) }
    ensures in_range { OnOk result (IsInRange (tree_of value.now)) }
    ensures err { OnErr result (into.new.items ≡ into.old.items) }
{
    let start = into.len();
    let done = put::<C>(value, into);
    if done.is_err() {
        into.truncate(start);
    }
    done
}
