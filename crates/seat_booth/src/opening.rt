//! How a booth's table is made with the tokens of all seats, and how they come back.
ghost use Rattle.std.specs.Prelude.{◌≡◌, ℕ, ◌+◌, ◌-◌, ◌<◌, ◌≤◌, [], ◌∷◌, ◌++◌, List, Option, Some, IfOk, IfErr, length, map, All, vec_len, vec_capacity};
ghost use Rattle.seat_booth.specs.Limits.{word_count, most_seats};
ghost use Rattle.seat_booth.specs.declared.view.CallStage.TheVariants.{Idle};
ghost use Rattle.seat_booth.specs.Past.{view, new_pasts};

use crate::booth::NoBooth;
use crate::object::Object;
use crate::table::{Opening, SeatToken, TurnTable, WORDS};
use atomic_table::{Refused, Table};
use std::alloc::{AllocFailed, Global};
use std::snapshot::Snapshot;

/// The table over this object, and the one token, which has every seat.
pub(crate) fn open<O: Object>(
    alloc: Global,
    object: O,
    seats: u32,
) -> Result<(TurnTable<O>, SeatToken<O>), NoBooth<O>>
    requires { seats ≤ most_seats }
    ensures ok { IfOk result (λ made. (made.0.shared.table_id.words ≡ word_count) × (made.0.shared.table_id.slots ≡ 1) × (made.0.shared.key.object.value ≡ object) × (made.0.shared.key.seats ≡ seats)) }
    ensures token { IfOk result (λ made. (made.1.table_id ≡ made.0.shared.table_id) × (made.1.me ≡ (view (Some (O.meaning object)) Idle (new_pasts 0 seats), []))) }
    ensures err { IfErr result (λ no. no.0 ≡ object) }
{
    let about = Opening {
        object: Snapshot::of(&object),
        seats,
    };
    let slots = one_slot(alloc, object)?;
    match Table::new(alloc, &[0u64; WORDS], slots, &about) {
        Ok(made) => Ok(made),
        Err(Refused { slots }) => Err(NoBooth(only(slots))),
    }
}

/// The one slot, for the object.
fn one_slot<O>(alloc: Global, object: O) -> Result<Vec<O>, NoBooth<O>>
    ensures ok { IfOk result (λ slots. slots.items ≡ object ∷ []) }
    ensures err { IfErr result (λ no. no.0 ≡ object) }
{
    let mut slots = Vec::new(alloc);
    match slots.push(object) {
        Ok(()) => Ok(slots),
        Err(AllocFailed { value }) => {
            slots.destroy_empty();
            Err(NoBooth(value))
        }
    }
}

/// The one element.
fn only<O>(mut slots: Vec<O>) -> O
    requires { vec_len slots ≡ 1 }
    ensures { slots.items ≡ result ∷ [] }
{
    let Some(object) = slots.pop() else {
        unreachable!()
    };
    slots.destroy_empty();
    object
}
