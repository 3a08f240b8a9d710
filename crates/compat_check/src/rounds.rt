//! Pairs that are reached, looked at in rounds.
ghost use Rattle.std.specs.Prelude.{◌≡◌, ◌++◌, OnOk, IfOk, flat_map, map};
ghost use Rattle.std.specs.Option.{option_map};
ghost use Rattle.schema.specs.Sound.{IsSound};
ghost use Rattle.compat_model.specs.StructPairs.{named_pairs, pairs_within};
ghost use Rattle.compat_check.specs.Fresh.{IsFirstOfRounds, fresh_pairs, seen_with_each};
ghost use Rattle.compat_check.specs.Plain.{change_of, plain_found_break, plain_pair};

use crate::change::Change;
use crate::fresh::{MAX_PAIRS, take_unseen};
use crate::pair::Pair;
use crate::pairs::{FoundBreak, first_break, held_by};
use crate::steps::spend_on_pairs;
use indexmap::IndexSet;
use std::alloc::{AllocError, Global};

/// Each round but the last has a pair that no other has.
const MAX_ROUNDS: usize = MAX_PAIRS + 1;

/// Takes the pairs that a pair's fields hold, and that weren't seen before.
fn reach(
    alloc: Global,
    change: &Change<'_>,
    seen: &mut IndexSet<Pair>,
    into: &mut Vec<Pair>,
    pair: &Pair,
) -> Result<(), AllocError>
    requires old { IsSound (change_of change.now).old }
    requires new { IsSound (change_of change.now).new }
    ensures into { OnOk result (map plain_pair into.new.items ≡ map plain_pair into.old.items
        ++ fresh_pairs (map plain_pair seen.old.keys) (pairs_within (change_of change.now) (plain_pair pair.now))) }
    ensures seen { OnOk result (map plain_pair seen.new.keys ≡ seen_with_each (map plain_pair seen.old.keys) (pairs_within (change_of change.now) (plain_pair pair.now))) }
{
    let held = held_by(alloc, change, pair)?;
    take_unseen(seen, into, held.as_slice())
}

/// The pairs that some pairs' fields hold, and that weren't seen before, each once; now they were.
fn next_round(
    alloc: Global,
    change: &Change<'_>,
    seen: &mut IndexSet<Pair>,
    current: &[Pair],
) -> Result<Vec<Pair>, AllocError>
    requires old { IsSound (change_of change.now).old }
    requires new { IsSound (change_of change.now).new }
    ensures fresh { IfOk result (λ all. map plain_pair all.items
        ≡ fresh_pairs (map plain_pair seen.old.keys) (flat_map (pairs_within (change_of change.now)) (map plain_pair current.now))) }
    ensures seen { OnOk result (map plain_pair seen.new.keys
        ≡ seen_with_each (map plain_pair seen.old.keys) (flat_map (pairs_within (change_of change.now)) (map plain_pair current.now))) }
{
    let mut all = Vec::new(alloc);
    for pair in current {
        reach(alloc, change, seen, &mut all, pair)?;
    }
    Ok(all)
}

/// The first break of the pairs that are named, and of those that are reached from them. Each is looked at once.
pub fn first_in_rounds<'a>(
    alloc: Global,
    left: &mut u32,
    change: &Change<'a>,
    named: &[Pair],
) -> Result<Option<FoundBreak<'a>>, AllocError>
    requires old { IsSound (change_of change.now).old }
    requires new { IsSound (change_of change.now).new }
    requires named { map plain_pair named.now ≡ named_pairs (change_of change.now) }
    ensures { IfOk result (λ found. IsFirstOfRounds (change_of change.now) (option_map plain_found_break found)) }
{
    let mut seen = IndexSet::new(alloc);
    let mut current = Vec::new(alloc);
    take_unseen(&mut seen, &mut current, named)?;
    for _round in 0..MAX_ROUNDS {
        if current.as_slice().is_empty() {
            return Ok(None);
        }
        spend_on_pairs(left, change, current.as_slice())?;
        if let Some(found) = first_break(change, current.as_slice()) {
            return Ok(Some(found));
        }
        current = next_round(alloc, change, &mut seen, current.as_slice())?;
    }
    Err(AllocError)
}
