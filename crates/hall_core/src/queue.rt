//! What waits, what is taken, and what came of it. Each change is in memory that was taken at first.

ghost use Rattle.std.specs.Prelude.{◌≡◌, ◌+◌, ◌<◌, [], ◌∷◌, ◌++◌, true, length, take, drop, IfOk, MatchOption};
ghost use Rattle.machine_model.specs.HallState.{has_key, is_same, without};
ghost use Rattle.machine_model.specs.HallRule.{job_of, outcome_of};
ghost use Rattle.machine_model.specs.OwnCalls.{most_connections};
ghost use Rattle.hall_core.specs.Queues.{keys_held};

use crate::job::Job;
use call_rules::Key;
use limits::MOST_CONNECTIONS;
use std::alloc::{AllocError, Global};
use std::collections::VecDeque;
use std::marker::Model;
use streams::{Bytes, Settled};

/// A job's outcome.
#[derive(Drop)]
struct OutcomeRow {
    key: Key,
    settled: Settled,
}

impl Model for OutcomeRow {
    ghost use Rattle.machine_model.specs.HallState.{JobOutcome};
    ghost use Rattle.machine_model.specs.HallRule.{outcome_of};

    ghost Value = { JobOutcome };

    ghost view = { λ o. outcome_of o.key o.settled };
}

/// Jobs, taken keys and outcomes, the oldest first; at most 1,024 of all.
#[derive(Drop)]
pub(crate) struct Queue {
    jobs: VecDeque<Job>,
    taken: Vec<Key>,
    outcomes: VecDeque<OutcomeRow>,
}

impl Model for Queue {
    ghost use Rattle.std.specs.Vec.{vec_capacity};
    ghost use Rattle.std.specs.VecDeque.{deque_capacity};
    ghost use Rattle.hall_core.specs.Queues.{QueueView, HasRoom};

    ghost Value = { QueueView };

    ghost view = { λ q. record { jobs = q.jobs.items; taken = q.taken.items; outcomes = q.outcomes.items } };

    ghost invariant = { λ q. HasRoom (record { jobs = q.jobs.items; taken = q.taken.items; outcomes = q.outcomes.items }) (deque_capacity q.jobs) (vec_capacity q.taken) (deque_capacity q.outcomes) };
}

/// Whether two keys are the same.
fn is_same(one: Key, other: Key) -> bool
    ensures { result ≡ is_same one other }
{
    one.c == other.c && one.i == other.i
}

/// The first place of a key.
fn place_of(keys: &[Key], key: Key) -> usize
    requires { has_key key keys.now ≡ true }
    ensures within { result < length keys.now }
    ensures without { without key keys.now ≡ take result keys.now ++ drop (result + 1) keys.now }
{
    for place in 0..keys.len() {
        let other = keys[place];
        if is_same(other, key) {
            return place;
        }
    }
    unreachable!()
}

impl Queue {
    /// Holds nothing, and has room for the most.
    pub(crate) fn new(alloc: Global) -> Result<Queue, AllocError>
        ensures { IfOk result (λ q. q ≡ record { jobs = []; taken = []; outcomes = [] }) }
    {
        Ok(Queue {
            jobs: VecDeque::with_capacity(alloc, MOST_CONNECTIONS)?,
            taken: Vec::with_capacity(alloc, MOST_CONNECTIONS)?,
            outcomes: VecDeque::with_capacity(alloc, MOST_CONNECTIONS)?,
        })
    }

    /// Adds a job.
    pub(crate) fn submit(&mut self, key: Key, payload: Bytes)
        requires { keys_held self.old < most_connections }
        ensures { self.new ≡ record self.old { jobs = self.old.jobs ++ job_of key payload ∷ [] } }
    {
        self.jobs.push_back_reserved(Job { key, payload });
    }

    /// Takes the oldest job out, whose key is taken then.
    pub(crate) fn take(&mut self) -> Option<Job>
        ensures { MatchOption result
            ((self.old.jobs ≡ []) × (self.new ≡ self.old))
            (λ job. (self.old.jobs ≡ job ∷ self.new.jobs)
            × (self.new ≡ record self.old { jobs = self.new.jobs; taken = self.old.taken ++ job.key ∷ [] })) }
    {
        let job = self.jobs.pop_front()?;
        self.taken.push_reserved(job.key);
        Some(job)
    }

    /// Lets a key go that is taken, with no outcome of it.
    pub(crate) fn free(&mut self, key: Key)
        requires { has_key key self.old.taken ≡ true }
        ensures { self.new ≡ record self.old { taken = without key self.old.taken } }
    {
        let place = place_of(self.taken.as_slice(), key);
        self.taken.remove(place);
    }

    /// Adds an outcome of a key that is taken, and no longer then.
    pub(crate) fn put(&mut self, key: Key, settled: Settled)
        requires { has_key key self.old.taken ≡ true }
        ensures { self.new ≡ record self.old { taken = without key self.old.taken; outcomes = self.old.outcomes ++ outcome_of key settled ∷ [] } }
    {
        let place = place_of(self.taken.as_slice(), key);
        self.taken.remove(place);
        self.outcomes
            .push_back_reserved(OutcomeRow { key, settled });
    }

    /// Takes the oldest outcome out.
    pub(crate) fn collect(&mut self) -> Option<(Key, Settled)>
        ensures { MatchOption result
            ((self.old.outcomes ≡ []) × (self.new ≡ self.old))
            (λ outcome. (self.old.outcomes ≡ outcome_of outcome.0 outcome.1 ∷ self.new.outcomes)
            × (self.new ≡ record self.old { outcomes = self.new.outcomes })) }
    {
        let OutcomeRow { key, settled } = self.outcomes.pop_front()?;
        Some((key, settled))
    }
}
