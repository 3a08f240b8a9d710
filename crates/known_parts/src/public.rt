//! The known part of a struct, as others call it.
ghost use Rattle.std.specs.Prelude.{◌≡◌, ◌≤◌, length, IfOk};
ghost use Rattle.limits.specs.Limits.{most_levels};
ghost use Rattle.thrift_value.specs.declared.tag.Tag.TheVariants.{Struct as StructTag};
ghost use Rattle.thrift_value.specs.TreeOf.{tree_of};
ghost use Rattle.schema.specs.SchemaOf.{schema_of};
ghost use Rattle.schema.specs.Sound.{IsSound};
ghost use Rattle.wire_model.specs.Answering.{AnswersOrNoMemory};
ghost use Rattle.wire_model.specs.Place.{IsWithinBounds};
ghost use Rattle.wire_model.specs.Reading.{value};
ghost use Rattle.known_parts.specs.KnownAt.{known_at, known_struct, read_seen};

use crate::laws::known_parts_are_smaller;
use crate::rest::Rest;
use crate::walk::known_fields;
use limits::MOST_LEVELS;
use schema::Schema;
use std::alloc::Global;
use thrift_value::{Value, WireFault};
use wire_model::Wire;
use wire_model::laws::{struct_read_is_spelled, value_read_is_spelled};

/// The known part of the struct in front.
fn known_in_front<'a, W: Wire>(
    alloc: Global,
    rest: Rest<'a>,
    schema: &Schema,
    which: u32,
) -> Result<(Value, Rest<'a>), WireFault>
    requires { IsSound (schema_of schema.now) }
    ensures { AnswersOrNoMemory (λ r. (tree_of r.0, r.1)) result (read_seen (known_struct (schema_of schema.now) which) (value W.wire most_levels StructTag rest.entry)) }
{
    let rest = rest.count_value()?;
    let (fields, rest) = known_fields::<W>(alloc, rest, MOST_LEVELS - 1, schema, which)?;
    Ok((Value::Struct(fields), rest))
}

/// The known part of the struct at a place, by its reading alone.
fn known_in<W: Wire>(
    alloc: Global,
    schema: &Schema,
    which: u32,
    bytes: &[u8],
    at: usize,
) -> Result<(Value, usize), WireFault>
    requires sound { IsSound (schema_of schema.now) }
    requires within { at ≤ length bytes.now }
    ensures { AnswersOrNoMemory (λ r. (tree_of r.0, r.1)) result (known_at W.wire (schema_of schema.now) which bytes.now at) }
{
    value_read_is_spelled::<W>();
    let (_, behind) = bytes.split_at(at);
    let (value, rest) = known_in_front::<W>(alloc, Rest::new(behind), schema, which)?;
    Ok((value, bytes.len() - rest.bytes().len()))
}

/// What the struct at a number knows of the struct at a place, and the place behind it; or the fault that comes first in the whole
/// struct. What isn't declared or doesn't fit is passed over, without memory.
pub fn read_known<W: Wire>(
    alloc: Global,
    schema: &Schema,
    which: u32,
    bytes: &[u8],
    at: usize,
) -> Result<(Value, usize), WireFault>
    requires sound { IsSound (schema_of schema.now) }
    requires within { at ≤ length bytes.now }
    ensures known { AnswersOrNoMemory (λ r. (tree_of r.0, r.1)) result (known_at W.wire (schema_of schema.now) which bytes.now at) }
    ensures bounds { IfOk result (λ r. IsWithinBounds (tree_of r.0)) }
{
    struct_read_is_spelled::<W>();
    known_parts_are_smaller();
    known_in::<W>(alloc, schema, which, bytes, at)
}
