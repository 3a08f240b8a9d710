//! What a journal leaves in the services' memories, and whether it is a legal history.

ghost use Rattle.std.specs.Prelude.{◌≡◌, ◌↔◌, IfOk, IsTrue};
ghost use Rattle.host_model.specs.Journal.{ServiceRules, entries_of, after, after_call, IsAnswered, Legal};
ghost use Rattle.plain_machine.specs.SeenDesk.{entry_seen, journal_seen};

use host_model::Key;
use std::alloc::{AllocError, Global};

/// A call with its answer.
#[derive(Clone, Copy)]
pub struct PlainEntry<C, A> {
    /// The frame that asked for the call.
    pub key: Key,
    pub call: C,
    pub answer: A,
}

/// The entries of the connection of this number.
pub fn entries_of<C: Copy, A: Copy>(
    alloc: Global,
    c: u32,
    journal: &[PlainEntry<C, A>],
) -> Result<Vec<PlainEntry<C, A>>, AllocError>
    ensures { IfOk result (λ own. journal_seen own.items ≡ entries_of c (journal_seen journal.now)) }
{
    let mut own = Vec::new(alloc);
    for entry in journal {
        if entry.key.c == c {
            own.push(*entry)?;
        }
    }
    Ok(own)
}

/// Services that compute, on small inputs.
pub trait PlainServices {
    type Call: Copy;

    type Answer: Copy;

    type Memory: Copy;

    ghost rules: { Self → ServiceRules Self.Call Self.Answer Self.Memory };

    /// The slot of the service that a call is for.
    fn slot(&self, call: Self::Call) -> usize
        ensures { result ≡ (rules self.now).slot call };

    /// A service's answer to a call from its memory, and the memory that it has then.
    fn rule(&self, call: Self::Call, memory: Self::Memory) -> (Self::Answer, Self::Memory)
        ensures { result ≡ (rules self.now).rule call memory };

    /// Whether two answers are the same.
    fn is_same(&self, answer: Self::Answer, other: Self::Answer) -> bool
        ensures { IsTrue result ↔ (answer ≡ other) };
}

/// Brings the memories, one a slot, from those before a journal to those after it.
pub fn after<S: PlainServices>(
    services: &S,
    memories: &mut [S::Memory],
    journal: &[PlainEntry<S::Call, S::Answer>],
)
    ensures { memories.new ≡ after (S.rules services.now) memories.old (journal_seen journal.now) }
{
    for done in journal {
        after_call(services, memories, done.call);
    }
}

/// Whether a journal is a legal history from these memories.
pub fn is_legal<S: PlainServices>(
    alloc: Global,
    services: &S,
    memories: &[S::Memory],
    journal: &[PlainEntry<S::Call, S::Answer>],
) -> Result<bool, AllocError>
    ensures { IfOk result (λ legal. IsTrue legal ↔ Legal (S.rules services.now) memories.now (journal_seen journal.now)) }
{
    let mut memories = Vec::from_slice(alloc, memories)?;
    Ok(goes_on(services, memories.as_mut_slice(), journal))
}

/// Whether a journal is a legal history from these memories, which it uses up.
fn goes_on<S: PlainServices>(
    services: &S,
    memories: &mut [S::Memory],
    journal: &[PlainEntry<S::Call, S::Answer>],
) -> bool
    ensures { IsTrue result ↔ Legal (S.rules services.now) memories.old (journal_seen journal.now) }
{
    for entry in journal {
        if !is_answered(services, memories, entry) {
            return false;
        }
        after_call(services, memories, entry.call);
    }
    true
}

/// Brings the memories from those before a call to those after it.
pub fn after_call<S: PlainServices>(services: &S, memories: &mut [S::Memory], call: S::Call)
    ensures { memories.new ≡ after_call (S.rules services.now) memories.old call }
{
    let slot = services.slot(call);
    if slot < memories.len() {
        let (_, memory) = services.rule(call, memories[slot]);
        memories[slot] = memory;
    }
}

/// Whether an entry's answer is the one of its service at these memories.
fn is_answered<S: PlainServices>(
    services: &S,
    memories: &[S::Memory],
    entry: &PlainEntry<S::Call, S::Answer>,
) -> bool
    ensures { IsTrue result ↔ IsAnswered (S.rules services.now) memories.now (entry_seen entry.now) }
{
    let slot = services.slot(entry.call);
    if slot < memories.len() {
        let (answer, _) = services.rule(entry.call, memories[slot]);
        services.is_same(entry.answer, answer)
    } else {
        false
    }
}
