//! The arguments of a call, read by what the function declares.

ghost use Rattle.std.specs.Prelude.{◌≡◌, ◌≤◌, length, map, IfOk};
ghost use Rattle.thrift_value.specs.TreeOf.{tree_of};
ghost use Rattle.schema.specs.SchemaOf.{schema_of};
ghost use Rattle.schema.specs.Sound.{IsSound, IsPlaceIn};
ghost use Rattle.struct_skew.specs.Needs.{needs_of};
ghost use Rattle.struct_skew.specs.ReadAs.{ArgsOrNoMemory, read_then_projected};
ghost use Rattle.call_model.specs.Arguments.{wire_of, arguments_at};
ghost use Rattle.processor.specs.Seen.{arguments_seen};

use binary_codec::BinaryWire;
use compact_codec::CompactWire;
use envelope::Protocol;
use schema::Schema;
use std::alloc::{AllocError, Global};
use struct_skew::{ArgFault, NeededFields, SkewFault, read_as_with};
use thrift_value::{Value, WireFault};

/// Why there are no arguments.
#[derive(Clone, Copy)]
pub(crate) enum ArgumentFault {
    /// They can't be read.
    Wire(WireFault),
    /// They aren't what the function declares.
    Skew(SkewFault),
}

/// The struct at a place of a payload, as the struct at a number declares it.
fn read_by(
    alloc: Global,
    schema: &Schema,
    needed: &NeededFields,
    protocol: Protocol,
    which: u32,
    payload: &[u8],
    at: usize,
) -> Result<(Value, usize), ArgFault>
    requires sound { IsSound (schema_of schema.now) }
    requires needed { needed.now ≡ map needs_of (schema_of schema.now).structs }
    requires place { IsPlaceIn (schema_of schema.now).structs which }
    requires within { at ≤ length payload.now }
    ensures { ArgsOrNoMemory (λ r. (tree_of r.0, r.1)) result (read_then_projected (wire_of protocol) (schema_of schema.now) which payload.now at) }
{
    match protocol {
        Protocol::Binary => {
            read_as_with::<BinaryWire>(alloc, schema, needed, which, payload, at)
        }
        Protocol::Compact => {
            read_as_with::<CompactWire>(alloc, schema, needed, which, payload, at)
        }
    }
}

/// The arguments at a place of a payload, or their fault.
pub(crate) fn arguments_at(
    alloc: Global,
    schema: &Schema,
    needed: &NeededFields,
    protocol: Protocol,
    which: u32,
    payload: &[u8],
    at: usize,
) -> Result<Result<Value, ArgumentFault>, AllocError>
    requires sound { IsSound (schema_of schema.now) }
    requires needed { needed.now ≡ map needs_of (schema_of schema.now).structs }
    requires place { IsPlaceIn (schema_of schema.now).structs which }
    requires within { at ≤ length payload.now }
    ensures { IfOk result (λ args. arguments_seen (schema_of schema.now) args
        ≡ arguments_at (schema_of schema.now) protocol which payload.now at) }
{
    match read_by(alloc, schema, needed, protocol, which, payload, at) {
        Ok((value, _behind)) => Ok(Ok(value)),
        Err(ArgFault::Wire(fault)) => Ok(Err(ArgumentFault::Wire(fault))),
        Err(ArgFault::Skew(fault)) => Ok(Err(ArgumentFault::Skew(fault))),
        Err(ArgFault::NoMemory) => Err(AllocError),
    }
}
