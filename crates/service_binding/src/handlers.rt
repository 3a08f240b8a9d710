//! Which handler a pair takes.

ghost use Rattle.std.specs.Prelude.{◌≡◌, ◌<◌, ◌↔◌, [], cond, drop, length, map, IfOk, OnOk, IfSome, IsTrue, Ok, Err, MatchResult};
ghost use Rattle.std.specs.List.{position_from};
ghost use Rattle.std.specs.Option.{option_map};
ghost use Rattle.call_rules.specs.Handling.{ServiceState};
ghost use Rattle.call_rules.specs.Suited.{IsSuited};
ghost use Rattle.schema.specs.SchemaOf.{schema_of};
ghost use Rattle.schema.specs.Sound.{IsSound};
ghost use Rattle.service_binding.specs.Handlers.{first_left, is_handed_in, is_of_kind, same_kind, services_of_kind};
ghost use Rattle.service_binding.specs.Services.{HasShapes};
ghost use Rattle.service_binding.specs.Steps.{IsHanded, TakesFirst, has_kind};

use crate::fault::BindKind;
use call_rules::{Handler, Kind};
use schema::Schema;
use std::alloc::{AllocError, Global};

/// Whether two kinds are one.
fn same_kind(kind: Kind, other: Kind) -> bool
    ensures { result ≡ same_kind kind other }
{
    match (kind, other) {
        (Kind::Calculator, Kind::Calculator) => true,
        (Kind::Store, Kind::Store) => true,
        (Kind::Mirror, Kind::Mirror) => true,
        _ => false,
    }
}

/// Whether a handler is of a kind.
fn is_of_kind<H: Handler>(handler: &H, kind: Kind) -> bool
    ensures { result ≡ is_of_kind kind (H.service handler.now) }
{
    same_kind(kind, handler.kind())
}

/// The place of the first handler of a kind.
fn place_of_kind<H: Handler>(handlers: &[H], kind: Kind) -> Option<usize>
    ensures found { result ≡ position_from (is_of_kind kind) 0 (map H.service handlers.now) }
    ensures within { IfSome result (λ place. place < length handlers.now) }
{
    for (place, handler) in handlers.iter().enumerate() {
        if is_of_kind(handler, kind) {
            return Some(place);
        }
    }
    None
}

/// Whether there is a handler of a kind.
fn is_handed_in<H: Handler>(handlers: &[H], kind: Kind) -> bool
    ensures { result ≡ is_handed_in kind (map H.service handlers.now) }
{
    for handler in handlers {
        if is_of_kind(handler, kind) {
            return true;
        }
    }
    false
}

/// Of which kinds handlers were handed in.
#[derive(Clone, Copy)]
pub(crate) struct HandedIn {
    calculator: bool,
    store: bool,
    mirror: bool,
}

impl HandedIn {
    /// The kinds of these handlers.
    pub(crate) fn new<H: Handler>(handlers: &[H]) -> Self
        ensures { IsHanded result (map H.service handlers.now) }
    {
        HandedIn {
            calculator: is_handed_in(handlers, Kind::Calculator),
            store: is_handed_in(handlers, Kind::Store),
            mirror: is_handed_in(handlers, Kind::Mirror),
        }
    }

    /// Whether a kind is among them.
    fn has(self, kind: Kind) -> bool
        ensures { result ≡ has_kind self kind }
    {
        match kind {
            Kind::Calculator => self.calculator,
            Kind::Store => self.store,
            Kind::Mirror => self.mirror,
        }
    }
}

/// Takes the first handler of a kind out.
fn take_first<H: Handler>(left: &mut Vec<H>, kind: Kind) -> Option<H>
    ensures { TakesFirst kind (map H.service left.old.items) (option_map H.service result) (map H.service left.new.items) }
{
    match place_of_kind(left, kind) {
        Some(place) => Some(left.remove(place)),
        None => None,
    }
}

/// Takes the handler of a pair of this kind out of those that are left.
pub(crate) fn take_handler<H: Handler>(
    left: &mut Vec<H>,
    handed: HandedIn,
    kind: Kind,
) -> Result<H, BindKind>
    ensures exact { MatchResult result
        (λ handler. first_left (has_kind handed kind) (services_of_kind kind (map H.service left.old.items)) ≡ Ok (H.service handler))
        (λ reason. first_left (has_kind handed kind) (services_of_kind kind (map H.service left.old.items)) ≡ Err reason) }
    ensures others { OnOk result ((other : Kind) → services_of_kind other (map H.service left.new.items)
        ≡ drop (cond (same_kind other kind) 1 0) (services_of_kind other (map H.service left.old.items))) }
{
    match take_first(left, kind) {
        Some(handler) => Ok(handler),
        None => Err(none_left(handed.has(kind))),
    }
}

/// Why no handler is left, by whether one was handed in.
fn none_left(handed: bool) -> BindKind
    ensures { first_left handed [] ≡ Err result }
{
    if handed {
        BindKind::SameKind
    } else {
        BindKind::UnknownKind
    }
}

/// Whether a handler suits the service at a number.
pub(crate) fn suits<H: Handler>(
    alloc: Global,
    schema: &Schema,
    number: u32,
    handler: &H,
) -> Result<bool, AllocError>
    requires sound { IsSound (schema_of schema.now) }
    requires place { number < length (schema_of schema.now).services }
    ensures { IfOk result (λ suited. HasShapes (schema_of schema.now) number
        (λ lines. IsTrue suited ↔ IsSuited (H.service handler.now).kind lines)) }
{
    let shapes = schema.shapes(alloc, number)?;
    Ok(handler.suits(&shapes))
}
