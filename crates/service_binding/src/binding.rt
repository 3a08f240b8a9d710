//! Pairs bound to services and handlers.

ghost use Rattle.std.specs.Prelude.{◌≡◌, ◌≤◌, ◌++◌, ◌∷◌, [], All, List, length, map, IfOk, IfErr, OnOk, MatchResult};
ghost use Rattle.call_rules.specs.Handling.{ServiceState};
ghost use Rattle.schema.specs.SchemaOf.{schema_of};
ghost use Rattle.schema.specs.Sound.{AreDifferent, IsPlaceIn, IsSound};
ghost use Rattle.service_binding.specs.Binding.{AreBound, IsBound, IsRefused, numbered_name};
ghost use Rattle.service_binding.specs.FirstRefusal.{IsFirstRefusal, OnRefusal};
ghost use Rattle.service_binding.specs.Steps.{AreLeftBehind, IsHanded, IsBoundSoFar, OnPairFault};

use crate::fault::{BindFault, BindKind, PairFault};
use crate::handlers::{HandedIn, suits, take_handler};
use crate::services::number_for;
use crate::{BindWords, Word};
use call_rules::{Handler, Kind};
use schema::Schema;
use std::alloc::{AllocError, Global};
use thrift_value::ByteText;

/// Names with their services' numbers, the handlers that serve them in the same order, and the handlers that are left.
#[derive(Drop)]
struct Progress<H> {
    names: Vec<(ByteText, u32)>,
    bound: Vec<H>,
    left: Vec<H>,
}

/// The number and the handler that a pair takes behind others.
fn take_pair<H: Handler>(
    alloc: Global,
    schema: &Schema,
    handed: HandedIn,
    before: &[(Word, Kind)],
    pair: &(Word, Kind),
    left: &mut Vec<H>,
) -> Result<(u32, H), PairFault>
    requires { IsSound (schema_of schema.now) }
    ensures { (services : List ServiceState) → IsHanded handed services → AreLeftBehind services before.now (map H.service left.old.items) → MatchResult result
        (λ taken. IsBound (schema_of schema.now) services before.now pair.now (pair.now.0, taken.0) (H.service taken.1)
        × AreLeftBehind services (before.now ++ pair.now ∷ []) (map H.service left.new.items))
        (λ fault. OnPairFault fault (IsRefused (schema_of schema.now) services before.now pair.now)) }
{
    let number = number_for(schema, before, pair)?;
    let handler = take_handler(left, handed, pair.1)?;
    if !suits(alloc, schema, number, &handler)? {
        return Err(PairFault::Refused(BindKind::Unsuited));
    }
    Ok((number, handler))
}

impl<H: Handler> Progress<H> {
    /// What is bound, with a name and its number, and a handler more.
    fn enter(
        &mut self,
        alloc: Global,
        name: &str,
        number: u32,
        handler: H,
    ) -> Result<(), AllocError>
        ensures { OnOk result ((self.new.names.items ≡ self.old.names.items ++ (name.now, number) ∷ [])
            × (self.new.bound.items ≡ self.old.bound.items ++ handler ∷ []) × (self.new.left.items ≡ self.old.left.items)) }
    {
        let name = name.as_bytes().to_vec(alloc)?;
        self.names.push((ByteText::new(name), number))?;
        self.bound.push(handler)?;
        Ok(())
    }

    /// Binds a pair behind others.
    fn bind_next(
        &mut self,
        alloc: Global,
        schema: &Schema,
        handed: HandedIn,
        before: &[(Word, Kind)],
        pair: &(Word, Kind),
    ) -> Result<(), PairFault>
        requires { IsSound (schema_of schema.now) }
        ensures { (services : List ServiceState) → IsHanded handed services
            → IsBoundSoFar (schema_of schema.now) services before.now self.old.names.items (map H.service self.old.bound.items) (map H.service self.old.left.items)
            → MatchResult result
            (λ _. IsBoundSoFar (schema_of schema.now) services (before.now ++ pair.now ∷ []) self.new.names.items (map H.service self.new.bound.items) (map H.service self.new.left.items))
            (λ fault. OnPairFault fault (IsRefused (schema_of schema.now) services before.now pair.now)) }
    {
        let (number, handler) = take_pair(alloc, schema, handed, before, pair, &mut self.left)?;
        self.enter(alloc, pair.0.as_str(), number, handler)?;
        Ok(())
    }
}

/// Binds the pairs one after another.
fn bound_pairs<H: Handler>(
    alloc: Global,
    schema: &Schema,
    pairs: &[(Word, Kind)],
    handlers: Vec<H>,
) -> Result<Progress<H>, BindFault>
    requires sound { IsSound (schema_of schema.now) }
    requires few { length pairs.now ≤ 16 }
    ensures bound { IfOk result (λ made. AreBound (schema_of schema.now) (map H.service handlers.items) pairs.now made.names.items (map H.service made.bound.items)) }
    ensures refused { IfErr result (λ fault. OnRefusal fault (IsFirstRefusal (schema_of schema.now) (map H.service handlers.items) pairs.now)) }
{
    let handed = HandedIn::new(&handlers);
    let mut progress = Progress {
        names: Vec::new(alloc),
        bound: Vec::new(alloc),
        left: handlers,
    };
    for (place, pair) in pairs.iter().enumerate() {
        let before = pairs.split_at(place).0;
        if let Err(fault) = progress.bind_next(alloc, schema, handed, before, pair) {
            return Err(fault.at(place as u32));
        }
    }
    Ok(progress)
}

/// Services' names with their numbers in the schema, and the handlers that serve them, in the same order.
pub type BoundPairs<H> = (Vec<(ByteText, u32)>, Vec<H>);

/// Binds each pair's name to its service and to a handler of its kind, and gives both in the order of the pairs. The other
/// handlers are dropped, and with a fault all are. A pair is refused, the first that is, for the first of the reasons of
/// [`BindKind`] that holds.
pub fn bind_pairs<H: Handler>(
    alloc: Global,
    schema: &Schema,
    pairs: &BindWords,
    handlers: Vec<H>,
) -> Result<BoundPairs<H>, BindFault>
    requires sound { IsSound (schema_of schema.now) }
    requires few { length pairs.now ≤ 16 }
    // What is bound is determined, and so is what is refused.
    ensures bound { IfOk result (λ made. AreBound (schema_of schema.now) (map H.service handlers.items) pairs.now made.0.items (map H.service made.1.items)) }
    ensures refused { IfErr result (λ fault. OnRefusal fault (IsFirstRefusal (schema_of schema.now) (map H.service handlers.items) pairs.now)) }
    // So the names are different, the numbers are places, and there is a handler for each pair.
    ensures different { IfOk result (λ made. AreDifferent (map numbered_name made.0.items)) }
    ensures places { IfOk result (λ made. All (λ named. IsPlaceIn (schema_of schema.now).services named.1) made.0.items) }
    ensures names { IfOk result (λ made. length made.0.items ≡ length pairs.now) }
    ensures handlers { IfOk result (λ made. length made.1.items ≡ length pairs.now) }
{
    let progress = bound_pairs(alloc, schema, pairs.as_slice(), handlers)?;
    Ok((progress.names, progress.bound))
}
