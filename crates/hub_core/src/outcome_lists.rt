//! The outcomes of each loop, in memory that was taken at first.

ghost use Rattle.std.specs.Prelude.{◌≡◌, ◌<◌, [], ◌∷◌, ◌++◌, length, get_or, set, replicate, IfOk, MatchOption};
ghost use Rattle.machine_model.specs.HallRule.{outcome_of};
ghost use Rattle.machine_model.specs.OwnCalls.{most_connections};

use call_rules::Key;
use limits::MOST_CONNECTIONS;
use std::alloc::{AllocError, Global};
use std::collections::VecDeque;
use std::marker::Model;
use streams::Settled;

/// A job's outcome.
#[derive(Drop)]
struct OutcomeRow {
    key: Key,
    settled: Settled,
}

impl Model for OutcomeRow {
    ghost use Rattle.machine_model.specs.HallState.{JobOutcome};
    ghost use Rattle.machine_model.specs.HallRule.{outcome_of};

    ghost Value = { JobOutcome };

    ghost view = { λ o. outcome_of o.key o.settled };
}

/// The outcomes of one loop, the oldest first; it has room for 1,024.
#[derive(Drop)]
pub(crate) struct OutcomeList {
    rows: VecDeque<OutcomeRow>,
}

impl Model for OutcomeList {
    ghost use Rattle.std.specs.Prelude.{◌≤◌, List};
    ghost use Rattle.std.specs.VecDeque.{deque_capacity};
    ghost use Rattle.machine_model.specs.HallState.{JobOutcome};
    ghost use Rattle.machine_model.specs.OwnCalls.{most_connections};

    ghost Value = { List JobOutcome };

    ghost view = { λ l. l.rows.items };

    ghost invariant = { λ l. most_connections ≤ deque_capacity l.rows };
}

impl OutcomeList {
    /// No outcome.
    fn new(alloc: Global) -> Result<OutcomeList, AllocError>
        ensures { IfOk result (λ list. list ≡ []) }
    {
        Ok(OutcomeList {
            rows: VecDeque::with_capacity(alloc, MOST_CONNECTIONS)?,
        })
    }

    /// Adds an outcome.
    fn push(&mut self, key: Key, settled: Settled)
        requires { length self.old < most_connections }
        ensures { self.new ≡ self.old ++ outcome_of key settled ∷ [] }
    {
        self.rows.push_back_reserved(OutcomeRow { key, settled });
    }

    /// Takes the oldest one out.
    fn pop(&mut self) -> Option<(Key, Settled)>
        ensures { MatchOption result ((self.old ≡ []) × (self.new ≡ self.old)) (λ outcome. self.old ≡ outcome_of outcome.0 outcome.1 ∷ self.new) }
    {
        let OutcomeRow { key, settled } = self.rows.pop_front()?;
        Some((key, settled))
    }
}

/// So many lists of no outcomes.
pub(crate) fn empty_lists(alloc: Global, loops: u32) -> Result<Vec<OutcomeList>, AllocError>
    ensures { IfOk result (λ lists. lists.items ≡ replicate loops []) }
{
    let mut lists = Vec::with_capacity(alloc, loops as usize)?;
    for _ in 0..loops {
        let list = OutcomeList::new(alloc)?;
        lists.push(list)?;
    }
    Ok(lists)
}

/// Adds an outcome to the list at this place.
pub(crate) fn put_at(lists: &mut [OutcomeList], place: usize, key: Key, settled: Settled)
    requires within { place < length lists.old }
    requires room { length (get_or lists.old place []) < most_connections }
    ensures { lists.new ≡ set lists.old place (get_or lists.old place [] ++ outcome_of key settled ∷ []) }
{
    let list = &mut lists[place];
    list.push(key, settled);
}

/// Takes the oldest outcome out of the list at this place.
pub(crate) fn take_at(lists: &mut [OutcomeList], place: usize) -> Option<(Key, Settled)>
    requires within { place < length lists.old }
    ensures { MatchOption result ((get_or lists.old place [] ≡ []) × (lists.new ≡ lists.old))
        (λ outcome. (get_or lists.old place [] ≡ outcome_of outcome.0 outcome.1 ∷ get_or lists.new place []) × (lists.new ≡ set lists.old place (get_or lists.new place []))) }
{
    let list = &mut lists[place];
    list.pop()
}
