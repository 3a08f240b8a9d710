//! The names of functions that services inherit.

ghost use Rattle.std.specs.Prelude.{◌≡◌, IfOk, OnOk};
ghost use Rattle.idl_include.specs.Program.{Program};
ghost use Rattle.idl_include.specs.Numbering.{services_of};
ghost use Rattle.idl_names.specs.FiledIn.{filed_services};
ghost use Rattle.idl_types.specs.Rows.{parents_of};
ghost use Rattle.idl_types.specs.Inherited.{is_told, AreOffered, AreInherited, KeepsOffered, TellsInherited};

use crate::offer_order::parents_first;
use crate::offers::{Offered, base_of, entry_at, is_in_set, kept, nothing_offered, offer};
use idl_names::{InFile, NameSet};
use idl_parser::Service;
use std::alloc::{AllocError, Global};

/// The names of functions that services inherit.
#[derive(Drop)]
pub struct InheritedNames<'a> {
    // Sets of names: of a service's functions, and of those that it inherits.
    sets: Vec<NameSet<'a>>,
    // The set of each service's parent, by the service's number.
    inherited: Vec<Option<u32>>,
}

impl<'a> InheritedNames<'a> {
    /// Whether the service of some number inherits a function of a name.
    pub fn has(&self, service: u32, name: &[u8]) -> bool
        ensures { result ≡ is_told self.now service name.now }
    {
        match entry_at(self.inherited.as_slice(), service) {
            Some(which) => is_in_set(self.sets.as_slice(), which, name),
            None => false,
        }
    }
}

/// The names that each service inherits, by the parents of services. Past 4,000,000 copied names it is want of memory.
pub fn inherited_names<'a>(
    alloc: Global,
    parents: &[Option<u32>],
    services: &[InFile<'a, Service>],
) -> Result<InheritedNames<'a>, AllocError>
    ensures { IfOk result (λ names. (program : Program) → parents.now ≡ parents_of program → filed_services services.now ≡ services_of program → TellsInherited program names) }
{
    let offered = all_offered(alloc, parents, services)?;
    let inherited = parents_sets(alloc, parents, offered.made.as_slice())?;
    Ok(InheritedNames {
        sets: offered.sets,
        inherited,
    })
}

/// What each service offers, as far as it can be made.
fn all_offered<'a>(
    alloc: Global,
    parents: &[Option<u32>],
    services: &[InFile<'a, Service>],
) -> Result<Offered<'a>, AllocError>
    ensures { IfOk result (λ offered. AreOffered parents.now services.now offered.sets.items offered.made.items) }
{
    let order = parents_first(alloc, parents)?;
    offered_in_order(alloc, parents, services, order.as_slice())
}

/// What services offer, made in this order.
fn offered_in_order<'a>(
    alloc: Global,
    parents: &[Option<u32>],
    services: &[InFile<'a, Service>],
    order: &[u32],
) -> Result<Offered<'a>, AllocError>
    ensures { IfOk result (λ offered. AreOffered parents.now services.now offered.sets.items offered.made.items) }
{
    let mut offered = nothing_offered(alloc, services.len())?;
    let done = offer_each(alloc, &mut offered, parents, services, order);
    kept(offered, done)
}

/// Offers the functions of services in this order.
fn offer_each<'a>(
    alloc: Global,
    offered: &mut Offered<'a>,
    parents: &[Option<u32>],
    services: &[InFile<'a, Service>],
    order: &[u32],
) -> Result<(), AllocError>
    ensures { OnOk result (KeepsOffered parents.now services.now offered.old offered.new) }
{
    for service in order {
        offer(alloc, offered, parents, services, *service)?;
    }
    Ok(())
}

/// The set of each service's parent, which has to be made.
fn parents_sets(
    alloc: Global,
    parents: &[Option<u32>],
    made: &[Option<u32>],
) -> Result<Vec<Option<u32>>, AllocError>
    ensures { IfOk result (λ sets. AreInherited made.now parents.now sets.items) }
{
    let mut sets = Vec::new(alloc);
    for parent in parents {
        sets.push(base_of(made, *parent)?)?;
    }
    Ok(sets)
}
