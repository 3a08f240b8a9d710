//! What is declared of a struct.
ghost use Rattle.std.specs.Prelude.{◌≡◌, None, map, MatchOption};
ghost use Rattle.std.specs.List.{slice_get};
ghost use Rattle.schema.specs.SchemaOf.{schema_of};
ghost use Rattle.schema.specs.Sound.{IsSound};
ghost use Rattle.struct_skew.specs.Needs.{needs_of};
ghost use Rattle.struct_skew.specs.Structs.{IsStructAt};

use crate::needs::{NeededFields, StructNeeds, item};
use schema::{Schema, StructDesc};

/// The struct at a number, with what it needs.
pub(crate) fn struct_at<'a>(
    schema: &'a Schema,
    needed: &'a NeededFields,
    which: u32,
) -> Option<(&'a StructDesc, &'a StructNeeds)>
    requires sound { IsSound (schema_of schema.now) }
    requires needed { needed.now ≡ map needs_of (schema_of schema.now).structs }
    ensures { MatchOption result (slice_get (schema_of schema.now).structs which ≡ None)
        (λ r. IsStructAt (schema_of schema.now).structs which r.0.now r.1.now) }
{
    let desc = item(schema.structs.as_slice(), which as usize)?;
    let needs = needed.row(which)?;
    Some((desc, needs))
}
