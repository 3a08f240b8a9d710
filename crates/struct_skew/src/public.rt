//! The projection, as others call it.
ghost use Rattle.std.specs.Prelude.{◌≡◌, map};
ghost use Rattle.thrift_value.specs.declared.tag.Tag.TheVariants.{Struct as StructTag};
ghost use Rattle.thrift_value.specs.Tags.{tag_of};
ghost use Rattle.thrift_value.specs.TreeOf.{tree_of};
ghost use Rattle.schema.specs.SchemaOf.{schema_of};
ghost use Rattle.schema.specs.Sound.{IsSound, IsPlaceIn};
ghost use Rattle.struct_skew.specs.Answering.{ProjectsOrNoMemory};
ghost use Rattle.struct_skew.specs.Needs.{needs_of};
ghost use Rattle.struct_skew.specs.Projection.{meaning_of, meaning_within_bounds, projection};
ghost use Rattle.schema.specs.PlainKind.{kind_of};

use crate::fault::SkewFault;
use crate::in_place::settle_value;
use crate::needs::{NeededFields, needed_fields};
use crate::values::{bounded_of, copy_of};
use schema::{Schema, TypeDesc};
use std::alloc::Global;
use thrift_value::{Raw, Value};

/// The room that the defaults of one projection may take, in bytes: twice what 4,000,000 values take. Past it the answer is want
/// of memory.
pub(crate) const DEFAULTS_ROOM: u64 = 320_000_000;

/// What a raw value means under a type: a copy of it is settled. A value of more levels than a number tells is want of memory.
fn meaning(
    alloc: Global,
    schema: &Schema,
    needed: &NeededFields,
    kind: &TypeDesc,
    raw: &Raw,
) -> Result<Value, SkewFault>
    requires sound { IsSound (schema_of schema.now) }
    requires needed { needed.now ≡ map needs_of (schema_of schema.now).structs }
    ensures { ProjectsOrNoMemory tree_of result (meaning_of (schema_of schema.now).structs (tree_of raw.now) (kind_of kind.now)) }
{
    let levels = raw.depth();
    if levels == u32::MAX {
        return Err(SkewFault::NoMemory);
    }
    let copy = copy_of(alloc, raw)?;
    let mut room = DEFAULTS_ROOM;
    settle_value(copy, levels, alloc, schema, needed, kind, &mut room)
}

/// What a raw value means under a type, by what the schema's structs need: each struct in it is projected.
pub fn project_value(
    alloc: Global,
    schema: &Schema,
    needed: &NeededFields,
    kind: &TypeDesc,
    raw: &Raw,
) -> Result<Value, SkewFault>
    requires sound { IsSound (schema_of schema.now) }
    requires needed { needed.now ≡ map needs_of (schema_of schema.now).structs }
    ensures { ProjectsOrNoMemory tree_of result (meaning_within_bounds (schema_of schema.now) (kind_of kind.now) (tree_of raw.now)) }
{
    let found = meaning(alloc, schema, needed, kind, raw);
    bounded_of(found)
}

/// The projection of a raw struct on the struct at a number, by what the schema's structs need. It takes time for the raw struct
/// and the result, however many fields are declared.
pub fn project_with(
    alloc: Global,
    schema: &Schema,
    needed: &NeededFields,
    which: u32,
    raw: &Raw,
) -> Result<Value, SkewFault>
    requires sound { IsSound (schema_of schema.now) }
    requires needed { needed.now ≡ map needs_of (schema_of schema.now).structs }
    requires place { IsPlaceIn (schema_of schema.now).structs which }
    requires raw_struct { tag_of (tree_of raw.now) ≡ StructTag }
    ensures { ProjectsOrNoMemory tree_of result (projection (schema_of schema.now) which (tree_of raw.now)) }
{
    let kind = TypeDesc::Struct(which);
    project_value(alloc, schema, needed, &kind, raw)
}

/// The projection of a raw struct on the struct at a number. It walks over all that the schema declares once: who projects more
/// than once keeps `needed_fields` and calls `project_with`.
pub fn project(alloc: Global, schema: &Schema, which: u32, raw: &Raw) -> Result<Value, SkewFault>
    requires sound { IsSound (schema_of schema.now) }
    requires place { IsPlaceIn (schema_of schema.now).structs which }
    requires raw_struct { tag_of (tree_of raw.now) ≡ StructTag }
    ensures { ProjectsOrNoMemory tree_of result (projection (schema_of schema.now) which (tree_of raw.now)) }
{
    let needed = needed_fields(alloc, schema)?;
    project_with(alloc, schema, &needed, which, raw)
}
