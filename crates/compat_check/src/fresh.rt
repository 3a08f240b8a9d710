//! Pairs that weren't seen before.
ghost use Rattle.std.specs.Prelude.{◌≡◌, ◌++◌, ◌∷◌, [], OnOk, map};
ghost use Rattle.compat_check.specs.Fresh.{fresh_pairs, seen_with, seen_with_each};
ghost use Rattle.compat_check.specs.Plain.{plain_pair};

use crate::pair::Pair;
use indexmap::IndexSet;
use std::alloc::AllocError;

/// The most pairs that are looked at.
pub(crate) const MAX_PAIRS: usize = 4_000_000;

/// Takes a pair, unless it was seen before.
fn take(seen: &mut IndexSet<Pair>, into: &mut Vec<Pair>, pair: Pair) -> Result<(), AllocError>
    ensures into { OnOk result (map plain_pair into.new.items ≡ map plain_pair into.old.items ++ fresh_pairs (map plain_pair seen.old.keys) (plain_pair pair ∷ [])) }
    ensures seen { OnOk result (map plain_pair seen.new.keys ≡ seen_with (map plain_pair seen.old.keys) (plain_pair pair)) }
{
    if seen.insert(pair)? {
        into.push(pair)?;
    }
    Ok(())
}

/// Takes the pairs that weren't seen before, each once; now they were.
fn take_each(
    seen: &mut IndexSet<Pair>,
    into: &mut Vec<Pair>,
    pairs: &[Pair],
) -> Result<(), AllocError>
    ensures into { OnOk result (map plain_pair into.new.items ≡ map plain_pair into.old.items ++ fresh_pairs (map plain_pair seen.old.keys) (map plain_pair pairs.now)) }
    ensures seen { OnOk result (map plain_pair seen.new.keys ≡ seen_with_each (map plain_pair seen.old.keys) (map plain_pair pairs.now)) }
{
    for pair in pairs {
        take(seen, into, *pair)?;
    }
    Ok(())
}

/// The same, where no more than `MAX_PAIRS` are seen then.
pub(crate) fn take_unseen(
    seen: &mut IndexSet<Pair>,
    into: &mut Vec<Pair>,
    pairs: &[Pair],
) -> Result<(), AllocError>
    ensures into { OnOk result (map plain_pair into.new.items ≡ map plain_pair into.old.items ++ fresh_pairs (map plain_pair seen.old.keys) (map plain_pair pairs.now)) }
    ensures seen { OnOk result (map plain_pair seen.new.keys ≡ seen_with_each (map plain_pair seen.old.keys) (map plain_pair pairs.now)) }
{
    take_each(seen, into, pairs)?;
    if seen.len() > MAX_PAIRS {
        return Err(AllocError);
    }
    Ok(())
}
