//! Which services are bound.

ghost use Rattle.std.specs.Prelude.{◌≡◌, ◌<◌, length, map, true, Some, None, IfOk};
ghost use Rattle.schema.specs.SchemaOf.{schema_of};
ghost use Rattle.struct_skew.specs.Needs.{needs_of};
ghost use Rattle.processor.specs.Bound.{bound_names, default_bound, needs_in, tables_in};
ghost use Rattle.processor.specs.Tables.{are_tables};

use crate::tabling::function_tables;
use schema::{Listed, NumberList, Schema};
use std::alloc::{AllocError, Global};
use struct_skew::{NeededFields, needed_fields};
use thrift_value::ByteText;

/// Services, each a name and its number in the schema; the places are their slots.
pub type BoundNames = Listed<(ByteText, u32)>;

/// Services that are bound, with what the structs of their schema need, and tables of its functions by name, so that no message walks
/// over all that is declared.
#[derive(Drop)]
pub struct Bindings {
    pub(crate) names: BoundNames,
    // The slot of the service that calls without a service's name ask for, if there is one.
    pub(crate) default_slot: Option<u32>,
    pub(crate) needed: NeededFields,
    // For each service of the schema the places of its own functions, in the order of their names.
    pub(crate) tables: Listed<NumberList>,
}

impl Bindings {
    /// Binds these services of a schema, none of them as the default. It walks over all declared fields and functions once, and sorts the
    /// functions of each service.
    pub fn new(alloc: Global, schema: &Schema, names: BoundNames) -> Result<Self, AllocError>
        ensures names { IfOk result (λ made. bound_names made ≡ names) }
        ensures default_slot { IfOk result (λ made. default_bound made ≡ None) }
        ensures needed { IfOk result (λ made. needs_in made ≡ map needs_of (schema_of schema.now).structs) }
        ensures tabled { IfOk result (λ made. are_tables (schema_of schema.now).services (tables_in made) ≡ true) }
    {
        let needed = needed_fields(alloc, schema)?;
        let tables = function_tables(alloc, schema)?;
        Ok(Bindings {
            names,
            default_slot: None,
            needed,
            tables,
        })
    }

    /// The same services, with the one at a slot as the default, which a name without a service asks for (TMultiplexedProcessor:
    /// registerDefault).
    pub fn with_default(self, slot: u32) -> Self
        requires { slot < length (bound_names self) }
        ensures names { bound_names result ≡ bound_names self }
        ensures default_slot { default_bound result ≡ Some slot }
        ensures needed { needs_in result ≡ needs_in self }
        ensures tabled { tables_in result ≡ tables_in self }
    {
        Bindings {
            names: self.names,
            default_slot: Some(slot),
            needed: self.needed,
            tables: self.tables,
        }
    }
}
