//! Whole structs.

ghost use Rattle.std.specs.Prelude.{◌≡◌, ◌≤◌, ◌+◌, ◌++◌, ℕ, List, length, IfOk, OnOk, OnErr};
ghost use Rattle.thrift_value.specs.declared.tag.Tag.TheVariants as tags;
ghost use Rattle.thrift_value.specs.Measures.{count_of, depth_of};
ghost use Rattle.thrift_value.specs.Plain.{plain};
ghost use Rattle.thrift_value.specs.Sizes.{HasSmallSizes};
ghost use Rattle.thrift_value.specs.Tags.{tag_of};
ghost use Rattle.thrift_value.specs.Tidy.{IsTidy, IsWellTagged};
ghost use Rattle.thrift_value.specs.Tree.{Tree};
ghost use Rattle.thrift_value.specs.TreeOf.{tree_of};
ghost use Rattle.wire_model.specs.Answering.{AnswersOrNoMemory};
ghost use Rattle.wire_model.specs.Encoder.{text};
ghost use Rattle.wire_model.specs.Format.{Spells};
ghost use Rattle.wire_model.specs.Place.{found_struct, most_levels, most_values, struct_at, IsWithinBounds, IsEncodedAt};
ghost use Rattle.compact_codec.specs.Reading.{compact};
ghost use Rattle.compact_codec.specs.Spelling.{compact_format};
ghost use Rattle.compact_codec.specs.Written.{compact_encoder};

use crate::protocol::Compact;
use std::alloc::{AllocError, Global};
use thrift_value::{Raw, Value, WireFault};

/// The struct at `at` as it came, and the place behind it; or the fault that comes first (Thrift compact protocol,
/// 'Struct'). Own choice: it has at most 64 levels and 4,000,000 values. It has no more values than bytes were read for it.
pub fn read_struct(alloc: Global, bytes: &[u8], at: usize) -> Result<(Raw, usize), WireFault>
    requires { at ≤ length bytes.now }
    // Which struct or which fault it is; want of memory alone is free.
    ensures exact { AnswersOrNoMemory (λ x. (tree_of x.0, x.1)) result (struct_at compact bytes.now at) }
    // What is read is spelled there, within the bounds.
    ensures found { IfOk result (λ x. IsEncodedAt compact_format bytes.now at (tree_of x.0) x.1) }
    ensures bounds { IfOk result (λ x. IsWithinBounds (tree_of x.0)) }
    ensures tagged { IfOk result (λ x. IsWellTagged (tree_of x.0)) }
    ensures sizes { IfOk result (λ x. HasSmallSizes (tree_of x.0)) }
    ensures place { IfOk result (λ x. x.1 ≤ length bytes.now) }
    ensures count { IfOk result (λ x. at + count_of (tree_of x.0) ≤ x.1) }
    // What is spelled there, within the bounds, is read.
    ensures only { (x : Tree) (behind : ℕ) → IsEncodedAt compact_format bytes.now at x behind → IsWithinBounds x
        → AnswersOrNoMemory (λ y. (tree_of y.0, y.1)) result (found_struct x behind) }
{
    wire_walk::read_struct::<Compact>(alloc, bytes, at)
}

/// Appends a tidy struct (Thrift compact protocol, 'Struct'): each header and number in its shortest form, and the codes of the tags that
/// the containers name. Own choice: it has no more levels than may be read. Where memory runs out, nothing was appended.
pub fn write_struct(value: &Value, into: &mut Vec<u8>) -> Result<(), AllocError>
    requires is_struct { tag_of (tree_of value.now) ≡ tags.Struct }
    requires tidy { IsTidy (tree_of value.now) }
    requires depth { depth_of (tree_of value.now) ≤ most_levels }
    requires sizes { HasSmallSizes (tree_of value.now) }
    ensures ok { OnOk result (into.new.items ≡ into.old.items ++ text compact_encoder (tree_of value.now)) }
    ensures err { OnErr result (into.new.items ≡ into.old.items) }
    // What it appends is a spelling of the value's plain form, and is read as that, whatever follows.
    ensures spelled { OnOk result (Spells compact_format (plain (tree_of value.now)) (text compact_encoder (tree_of value.now))) }
    ensures read_back { OnOk result (count_of (tree_of value.now) ≤ most_values → (more : List ℕ)
        → struct_at compact (into.new.items ++ more) (length into.old.items)
        ≡ found_struct (plain (tree_of value.now)) (length into.new.items)) }
{
    wire_walk::write_struct::<Compact>(value, into)
}
