//! Arguments read by what a schema declares of them.
ghost use Rattle.std.specs.Prelude.{◌≤◌, ◌≡◌, length, map};
ghost use Rattle.limits.specs.Limits.{most_levels};
ghost use Rattle.thrift_value.specs.Measures.{depth_of};
ghost use Rattle.thrift_value.specs.TreeOf.{tree_of};
ghost use Rattle.schema.specs.PlainKind.{kind_struct};
ghost use Rattle.schema.specs.SchemaOf.{schema_of};
ghost use Rattle.schema.specs.Sound.{IsPlaceIn, IsSound};
ghost use Rattle.wire_model.specs.Place.{IsWithinBounds};
ghost use Rattle.struct_skew.specs.Answering.{ProjectsOrNoMemory};
ghost use Rattle.struct_skew.specs.FilledTests.{is_settled};
ghost use Rattle.struct_skew.specs.Needs.{needs_of};
ghost use Rattle.struct_skew.specs.Projection.{projection};
ghost use Rattle.struct_skew.specs.ReadAs.{placed_projection, read_then_projected, ArgsOrNoMemory};

use crate::arg_fault::{ArgFault, arg_of_skew, arg_of_wire};
use crate::fault::SkewFault;
use crate::in_place::settle_value;
use crate::laws::{settled_values_mean_themselves, what_is_known_decides};
use crate::needs::{NeededFields, needed_fields};
use crate::public::DEFAULTS_ROOM;
use crate::settled::is_settled;
use crate::settled_reading::settled_in;
use crate::values::bounded_of;
use known_parts::read_known;
use limits::MOST_LEVELS;
use schema::{Schema, TypeDesc};
use std::alloc::Global;
use thrift_value::Value;
use wire_model::Wire;

/// Whether a struct of this number means itself.
fn is_settled_struct(value: &Value, schema: &Schema, needed: &NeededFields, which: u32) -> bool
    requires sound { IsSound (schema_of schema.now) }
    requires needed { needed.now ≡ map needs_of (schema_of schema.now).structs }
    ensures { result ≡ is_settled (schema_of schema.now).structs (kind_struct which) (tree_of value.now) }
{
    let kind = TypeDesc::Struct(which);
    is_settled(value, schema, needed, &kind)
}

/// The projection of a struct that was read, made in its own tree.
fn settled_struct(
    alloc: Global,
    schema: &Schema,
    needed: &NeededFields,
    which: u32,
    known: Value,
) -> Result<Value, SkewFault>
    requires sound { IsSound (schema_of schema.now) }
    requires needed { needed.now ≡ map needs_of (schema_of schema.now).structs }
    requires deep { depth_of (tree_of known) ≤ most_levels }
    ensures { ProjectsOrNoMemory tree_of result (projection (schema_of schema.now) which (tree_of known)) }
{
    let kind = TypeDesc::Struct(which);
    let mut room = DEFAULTS_ROOM;
    let found = settle_value(known, MOST_LEVELS, alloc, schema, needed, &kind, &mut room);
    bounded_of(found)
}

/// The projection of what was read, with the place behind it.
fn settled_at(
    alloc: Global,
    schema: &Schema,
    needed: &NeededFields,
    which: u32,
    known: Value,
    behind: usize,
) -> Result<(Value, usize), ArgFault>
    requires sound { IsSound (schema_of schema.now) }
    requires needed { needed.now ≡ map needs_of (schema_of schema.now).structs }
    requires deep { depth_of (tree_of known) ≤ most_levels }
    ensures { ArgsOrNoMemory (λ r. (tree_of r.0, r.1)) result (placed_projection behind (projection (schema_of schema.now) which (tree_of known))) }
{
    match settled_struct(alloc, schema, needed, which, known) {
        Ok(value) => Ok((value, behind)),
        Err(fault) => Err(arg_of_skew(fault)),
    }
}

/// What was read, where it means itself; else its projection.
fn projected_with(
    alloc: Global,
    schema: &Schema,
    needed: &NeededFields,
    which: u32,
    known: Value,
    behind: usize,
) -> Result<(Value, usize), ArgFault>
    requires sound { IsSound (schema_of schema.now) }
    requires needed { needed.now ≡ map needs_of (schema_of schema.now).structs }
    requires bounds { IsWithinBounds (tree_of known) }
    ensures { ArgsOrNoMemory (λ r. (tree_of r.0, r.1)) result (placed_projection behind (projection (schema_of schema.now) which (tree_of known))) }
{
    settled_values_mean_themselves();
    if is_settled_struct(&known, schema, needed, which) {
        return Ok((known, behind));
    }
    settled_at(alloc, schema, needed, which, known, behind)
}

/// The projection of the struct at a place on the struct at a number, and the place behind that struct, by what the schema's structs
/// need; or the fault that comes first, one of the bytes before one of the projection. What isn't declared or doesn't fit is passed
/// over. A struct in which nothing is out of order is read by its type alone; any other is read from the start by what is known of it,
/// and handed on as it was read, or settled in its own tree.
pub fn read_as_with<W: Wire>(
    alloc: Global,
    schema: &Schema,
    needed: &NeededFields,
    which: u32,
    bytes: &[u8],
    at: usize,
) -> Result<(Value, usize), ArgFault>
    requires sound { IsSound (schema_of schema.now) }
    requires needed { needed.now ≡ map needs_of (schema_of schema.now).structs }
    requires place { IsPlaceIn (schema_of schema.now).structs which }
    requires within { at ≤ length bytes.now }
    ensures { ArgsOrNoMemory (λ r. (tree_of r.0, r.1)) result (read_then_projected W.wire (schema_of schema.now) which bytes.now at) }
{
    if let Some(found) = settled_in::<W>(alloc, schema, needed, which, bytes, at) {
        return Ok(found);
    }
    what_is_known_decides();
    match read_known::<W>(alloc, schema, which, bytes, at) {
        Ok((known, behind)) => projected_with(alloc, schema, needed, which, known, behind),
        Err(fault) => Err(arg_of_wire(fault)),
    }
}

/// The same. It walks over all that the schema declares once: who reads more than once keeps `needed_fields` and calls
/// `read_as_with`.
pub fn read_as<W: Wire>(
    alloc: Global,
    schema: &Schema,
    which: u32,
    bytes: &[u8],
    at: usize,
) -> Result<(Value, usize), ArgFault>
    requires sound { IsSound (schema_of schema.now) }
    requires place { IsPlaceIn (schema_of schema.now).structs which }
    requires within { at ≤ length bytes.now }
    ensures { ArgsOrNoMemory (λ r. (tree_of r.0, r.1)) result (read_then_projected W.wire (schema_of schema.now) which bytes.now at) }
{
    match needed_fields(alloc, schema) {
        Ok(needed) => read_as_with::<W>(alloc, schema, &needed, which, bytes, at),
        Err(_) => Err(ArgFault::NoMemory),
    }
}
