//! The bindings of an office.

ghost use Rattle.std.specs.Prelude.{◌≡◌, ◌≤◌, ◌<◌, length, map, option_map, true, None, Ok, IfOk, IfErr, IfSome};
ghost use Rattle.service_binding.specs.Binding.{AreBound};
ghost use Rattle.service_binding.specs.Defaults.{slot_for_default};
ghost use Rattle.service_binding.specs.FirstRefusal.{IsRefusedFirst, OnRefusal};
ghost use Rattle.processor.specs.Bound.{bound_names, default_bound, needs_in, tables_in};
ghost use Rattle.processor.specs.Tables.{are_tables};
ghost use Rattle.schema.specs.SchemaOf.{schema_of};
ghost use Rattle.schema.specs.Sound.{IsSound};
ghost use Rattle.thrift_host.specs.MayBeServed.{MayBeServed};
ghost use Rattle.struct_skew.specs.Needs.{needs_of};

use call_rules::Handler;
use processor::{Bindings, BoundNames};
use schema::Schema;
use service_binding::{BindFault, BindWords, bind_pairs, slot_for_default};
use std::alloc::Global;

/// Bindings with the service at a slot as the default, or with none.
fn with_default(bindings: Bindings, slot: Option<u32>) -> Bindings
    requires none { default_bound bindings ≡ None }
    requires within { IfSome slot (λ place. place < length (bound_names bindings)) }
    ensures names { bound_names result ≡ bound_names bindings }
    ensures default_slot { default_bound result ≡ slot }
    ensures needed { needs_in result ≡ needs_in bindings }
    ensures tabled { tables_in result ≡ tables_in bindings }
{
    match slot {
        Some(slot) => bindings.with_default(slot),
        None => bindings,
    }
}

/// Binds each pair's name to its service and to a handler of its kind, and gives the handlers in the order of the pairs. The other
/// handlers are dropped, and with a fault all are. The default is the name of the pair whose service a name without a service asks for;
/// without one, that is the only service, if one alone is bound.
pub fn bind<H: Handler>(
    alloc: Global,
    schema: &Schema,
    pairs: &BindWords,
    handlers: Vec<H>,
    default_service: Option<&[u8]>,
) -> Result<(Bindings, Vec<H>), BindFault>
    requires sound { IsSound (schema_of schema.now) }
    requires some { 1 ≤ length pairs.now }
    requires few { length pairs.now ≤ 16 }
    // What is bound is determined, and so is what is refused.
    ensures bound { IfOk result (λ made. AreBound (schema_of schema.now) (map H.service handlers.items) pairs.now (bound_names made.0) (map H.service made.1.items)) }
    ensures by_default { IfOk result (λ made. slot_for_default (bound_names made.0) (option_map (λ name. name.now) default_service.entry) ≡ Ok (default_bound made.0)) }
    ensures refused { IfErr result (λ fault. OnRefusal fault
        (IsRefusedFirst (schema_of schema.now) (map H.service handlers.items) pairs.now (option_map (λ name. name.now) default_service.entry))) }
    // An office may be made of the bindings, and its slots are the handlers.
    ensures served { IfOk result (λ made. MayBeServed (schema_of schema.now) (bound_names made.0) (default_bound made.0)) }
    ensures needed { IfOk result (λ made. needs_in made.0 ≡ map needs_of (schema_of schema.now).structs) }
    ensures tabled { IfOk result (λ made. are_tables (schema_of schema.now).services (tables_in made.0) ≡ true) }
    ensures slots { IfOk result (λ made. length made.1.items ≡ length (bound_names made.0)) }
{
    let (names, bound) = bind_pairs(alloc, schema, pairs, handlers)?;
    let slot = match slot_for_default(&names, default_service) {
        Ok(slot) => slot,
        Err(kind) => return Err(BindFault::Refused(names.len() as u32, kind)),
    };
    let bindings = Bindings::new(alloc, schema, BoundNames::new(names))?;
    Ok((with_default(bindings, slot), bound))
}
