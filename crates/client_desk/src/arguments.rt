//! Which arguments may go out, and how they are written.

ghost use Rattle.std.specs.Prelude.{◌≡◌, ◌++◌, map, is_ok, IfOk, OnOk};
ghost use Rattle.schema.specs.PlainKind.{kind_struct};
ghost use Rattle.schema.specs.SchemaOf.{schema_of};
ghost use Rattle.schema.specs.Sound.{IsSound, IsPlaceIn};
ghost use Rattle.struct_skew.specs.Needs.{needs_of};
ghost use Rattle.struct_skew.specs.Projection.{projection};
ghost use Rattle.struct_skew.specs.TidyTests.{is_tidy};
ghost use Rattle.struct_skew.specs.WrittenTests.{may_be_written};
ghost use Rattle.thrift_value.specs.declared.tag.Tag.TheVariants as tags;
ghost use Rattle.thrift_value.specs.Tags.{tag_of};
ghost use Rattle.thrift_value.specs.TreeOf.{tree_of};
ghost use Rattle.wire_model.specs.Encoder.{text};
ghost use Rattle.call_model.specs.Replies.{encoder_of};
ghost use Rattle.client_desk.specs.Asking.{is_small, may_go_out, GoesOut};

use envelope::Protocol;
use limits::{MOST_LEVELS, MOST_VALUES};
use schema::{Schema, TypeDesc};
use std::alloc::{AllocError, Global};
use struct_skew::{NeededFields, SkewFault, fits_with, needed_fields, project_with};
use thrift_value::Value;

/// Whether a value is tidy.
fn is_tidy(value: &Value) -> bool
    ensures { result ≡ is_tidy (tree_of value.now) }
{
    value.is_tidy()
}

/// Whether a value is within the bounds of what is read.
fn is_small(value: &Value) -> bool
    ensures { result ≡ is_small (tree_of value.now) }
{
    value.depth() <= MOST_LEVELS && value.count() <= u64::from(MOST_VALUES)
}

/// Whether a struct has a projection on the struct at a number.
fn is_projected(
    alloc: Global,
    schema: &Schema,
    needed: &NeededFields,
    which: u32,
    args: &Value,
) -> Result<bool, AllocError>
    requires sound { IsSound (schema_of schema.now) }
    requires needed { needed.now ≡ map needs_of (schema_of schema.now).structs }
    requires place { IsPlaceIn (schema_of schema.now).structs which }
    requires is_struct { tag_of (tree_of args.now) ≡ tags.Struct }
    ensures { IfOk result (λ is. is ≡ is_ok (projection (schema_of schema.now) which (tree_of args.now))) }
{
    match project_with(alloc, schema, needed, which, args) {
        Ok(_) => Ok(true),
        Err(SkewFault::NoMemory) => Err(AllocError),
        Err(_) => Ok(false),
    }
}

/// Whether a value may be written as the struct at a number.
fn is_written(schema: &Schema, needed: &NeededFields, which: u32, args: &Value) -> bool
    requires sound { IsSound (schema_of schema.now) }
    requires needed { needed.now ≡ map needs_of (schema_of schema.now).structs }
    ensures { result ≡ may_be_written (schema_of schema.now).structs (kind_struct which) (tree_of args.now) }
{
    let kind = TypeDesc::Struct(which);
    fits_with(schema, needed, &kind, args)
}

/// Whether arguments may go out as the struct at a number.
#[tactic(auto, unfolding(crate::specs::Asking::may_go_out))]
pub(crate) fn may_go_out(
    alloc: Global,
    schema: &Schema,
    which: u32,
    args: &Value,
) -> Result<bool, AllocError>
    requires sound { IsSound (schema_of schema.now) }
    requires place { IsPlaceIn (schema_of schema.now).structs which }
    ensures { IfOk result (λ may. may ≡ may_go_out (schema_of schema.now) which (tree_of args.now)) }
{
    if !is_tidy(args) {
        return Ok(false);
    }
    if !is_small(args) {
        return Ok(false);
    }
    let needed = needed_fields(alloc, schema)?;
    if !is_written(schema, &needed, which, args) {
        return Ok(false);
    }
    is_projected(alloc, schema, &needed, which, args)
}

/// Appends arguments as a protocol writes them.
pub(crate) fn put_args(
    protocol: Protocol,
    args: &Value,
    into: &mut Vec<u8>,
) -> Result<(), AllocError>
    requires { GoesOut (tree_of args.now) }
    ensures { OnOk result (into.new.items ≡ into.old.items ++ text (encoder_of protocol) (tree_of args.now)) }
{
    match protocol {
        Protocol::Binary => binary_codec::write_struct(args, into),
        Protocol::Compact => compact_codec::write_struct(args, into),
    }
}
