//! A change: a schema and the one that comes after it.
ghost use Rattle.std.specs.Prelude.{◌≡◌};
ghost use Rattle.schema.specs.SchemaOf.{schema_of};
ghost use Rattle.schema.specs.Sound.{IsSound};
ghost use Rattle.compat_model.specs.StructPairs.{reading_schema, writing_schema};
ghost use Rattle.compat_check.specs.Plain.{change_of};

use idl_names::NameMap;
use schema::Schema;

/// A schema and the one that comes after it, with the names that the main file of the second defines.
#[derive(Drop)]
pub struct Change<'a> {
    pub(crate) old: &'a Schema,
    pub(crate) new: &'a Schema,
    /// The numbers of the new main file's structs, unions and exceptions.
    pub(crate) structs: NameMap<'a>,
    /// The numbers of its services.
    pub(crate) services: NameMap<'a>,
}

/// The schema that writes.
pub(crate) fn writer<'a>(change: &Change<'a>, backward: bool) -> &'a Schema
    requires old { IsSound (change_of change.now).old }
    requires new { IsSound (change_of change.now).new }
    ensures writes { schema_of result.now ≡ writing_schema (change_of change.now) backward }
    ensures sound { IsSound (schema_of result.now) }
{
    if backward { change.new } else { change.old }
}

/// The schema that reads.
pub(crate) fn reader<'a>(change: &Change<'a>, backward: bool) -> &'a Schema
    requires old { IsSound (change_of change.now).old }
    requires new { IsSound (change_of change.now).new }
    ensures reads { schema_of result.now ≡ reading_schema (change_of change.now) backward }
    ensures sound { IsSound (schema_of result.now) }
{
    if backward { change.old } else { change.new }
}
