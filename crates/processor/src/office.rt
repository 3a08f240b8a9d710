//! What an office holds.

ghost use Rattle.std.specs.Prelude.{◌≡◌, map, true};
ghost use Rattle.schema.specs.SchemaOf.{schema_of};
ghost use Rattle.struct_skew.specs.Needs.{needs_of};
ghost use Rattle.call_model.specs.Offices.{IsSoundOffice};
ghost use Rattle.processor.specs.Bound.{bound_names, default_bound, needs_in, tables_in};
ghost use Rattle.processor.specs.Tables.{are_tables};

use crate::bindings::Bindings;
use call_rules::{Answer, Decision, Desk};
use envelope::Protocol;
use schema::Schema;
use std::alloc::{AllocError, Global};

/// The services of a schema that are bound, in one protocol: what decides on their messages and makes their replies (Thrift: a
/// processor, and with several services a TMultiplexedProcessor).
#[derive(Drop)]
pub struct Office {
    pub(crate) schema: Schema,
    pub(crate) bindings: Bindings,
    pub(crate) protocol: Protocol,
    // The longest payload that may come in, and that a reply may have.
    pub(crate) max_frame: u32,
    ghost sound: { ∥ IsSoundOffice (record { schema = schema_of schema; bindings = bound_names bindings; default_slot = default_bound bindings; protocol = protocol; max_frame = max_frame }) ∥₁ },
    ghost needed: { needs_in bindings ≡ map needs_of (schema_of schema).structs },
    ghost tabled: { are_tables (schema_of schema).services (tables_in bindings) ≡ true },
}

impl Office {
    ghost use Rattle.std.specs.Prelude.{◌≡◌, map, true};
    ghost use Rattle.schema.specs.SchemaOf.{schema_of};
    ghost use Rattle.struct_skew.specs.Needs.{needs_of};
    ghost use Rattle.processor.specs.Bound.{bound_names, default_bound, needs_in, tables_in};
    ghost use Rattle.processor.specs.Tables.{are_tables};
    ghost use Rattle.processor.specs.Offices.{plain_office};

    /// Makes the office of these services, which are bound by this schema; takes no memory.
    pub fn new(schema: Schema, bindings: Bindings, protocol: Protocol, max_frame: u32) -> Self
        requires sound { IsSoundOffice (record { schema = schema_of schema; bindings = bound_names bindings; default_slot = default_bound bindings; protocol = protocol; max_frame = max_frame }) }
        requires needed { needs_in bindings ≡ map needs_of (schema_of schema).structs }
        requires tabled { are_tables (schema_of schema).services (tables_in bindings) ≡ true }
        ensures { plain_office result ≡ record { schema = schema_of schema; bindings = bound_names bindings; default_slot = default_bound bindings; protocol = protocol; max_frame = max_frame } }
    {
        Office {
            schema,
            bindings,
            protocol,
            max_frame,
        }
    }
}

impl Desk for Office {
    ghost use Rattle.call_model.specs.Desk.{desk_of};
    ghost use Rattle.processor.specs.Offices.{plain_office};
    ghost use Rattle.processor.specs.Holding.{office_holds};

    ghost meaning = { λ office. desk_of (plain_office office) };

    fn decide(&self, alloc: Global, payload: &[u8]) -> Result<Decision, AllocError> {
        self.decided(alloc, payload)
    }

    fn reply(&self, alloc: Global, payload: &[u8], answer: &Answer) -> Result<Vec<u8>, AllocError> {
        self.replied(alloc, payload, answer)
    }

    ghost holds = { office_holds };
}
