//! The hall: jobs, outcomes, services' memories and the journal.

ghost use Rattle.std.specs.Prelude.{◌≡◌, ◌∷◌, [], IfNone, MatchOption};
ghost use Rattle.machine_model.specs.HallState.{is_same, without};

use crate::journals::PlainEntry;
use host_model::Key;
use streams::Settled;

/// A payload that waits for a worker.
#[derive(Drop)]
pub struct PlainJob {
    pub key: Key,
    pub payload: Vec<u8>,
}

/// What a payload came to.
#[derive(Drop)]
pub struct PlainJobOutcome {
    pub key: Key,
    pub settled: Settled,
}

/// A hall.
#[derive(Drop)]
pub struct PlainHall<C, A, M> {
    /// The jobs, the oldest first.
    pub jobs: Vec<PlainJob>,
    /// The keys of jobs that workers have taken.
    pub taken: Vec<Key>,
    /// The outcomes that they have put, the oldest first.
    pub outcomes: Vec<PlainJobOutcome>,
    /// The services' memories, one a slot.
    pub memories: Vec<M>,
    pub journal: Vec<PlainEntry<C, A>>,
    /// The journal's count of faults.
    pub faults: u64,
    pub closed: bool,
    /// Whether the journal has failed.
    pub broken: bool,
}

/// Takes the first item out, where there is one.
#[tactic(auto, using(crate::proofs::Seeing::first_and_rest))]
pub fn take_first<T>(items: &mut Vec<T>) -> Option<T>
    ensures none { MatchOption result (items.old.items ≡ []) (λ first. items.old.items ≡ first ∷ items.new.items) }
    ensures same { IfNone result (items.new ≡ items.old) }
{
    if items.is_empty() {
        return None;
    }
    Some(items.remove(0))
}

/// Whether two keys are the same.
fn is_same(one: Key, other: Key) -> bool
    ensures { result ≡ is_same one other }
{
    one.c == other.c && one.i == other.i
}

/// Takes the first key that is this one out, where there is one.
pub fn take_out(key: Key, keys: &mut Vec<Key>)
    ensures { keys.new.items ≡ without key keys.old.items }
{
    for place in 0..keys.len() {
        if is_same(keys[place], key) {
            keys.remove(place);
            return;
        }
    }
}
