//! What a desk calls and sends.

ghost use Rattle.std.specs.Prelude.{◌≡◌, map, IfOk};
ghost use Rattle.host_model.specs.DeskRules.{DeskRules};
ghost use Rattle.host_model.specs.Conversation.{answer_at, called, reply_for, sent};
ghost use Rattle.plain_machine.specs.SeenDesk.{decision_seen, journal_seen};

use crate::journals::PlainEntry;
use std::alloc::{AllocError, Global};
use streams::{Bytes, EnvelopeFault};

/// What is decided on a payload.
#[derive(Drop)]
pub enum Decided<C> {
    /// Its head is refused, which ends the connection.
    Refused(EnvelopeFault),
    /// It gets no reply and makes no call.
    Passed,
    /// It gets this frame back, its size included, without a call.
    Replied(Bytes),
    /// It makes this call.
    Called(C),
}

/// A desk that computes, on small inputs.
pub trait PlainDesk {
    type Call: Copy;

    type Answer: Copy;

    ghost desk: { Self → DeskRules Self.Call Self.Answer };

    /// What is decided on a payload.
    fn decide(&self, alloc: Global, payload: &[u8]) -> Result<Decided<Self::Call>, AllocError>
        ensures { IfOk result (λ decided. decision_seen decided ≡ (desk self.now).decide payload.now) };

    /// Whether a call gets no reply.
    fn is_silent(&self, call: Self::Call) -> bool
        ensures { result ≡ (desk self.now).silent call };

    /// The frame that goes back for a payload whose call had this answer.
    fn reply(
        &self,
        alloc: Global,
        payload: &[u8],
        answer: Self::Answer,
    ) -> Result<Vec<u8>, AllocError>
        ensures { IfOk result (λ reply. reply.items ≡ (desk self.now).reply payload.now answer) };
}

/// The calls that payloads ask for, each with the number of its frame.
pub fn called<D: PlainDesk>(
    alloc: Global,
    desk: &D,
    payloads: &[Vec<u8>],
) -> Result<Vec<(u64, D::Call)>, AllocError>
    ensures { IfOk result (λ calls. calls.items ≡ called (D.desk desk.now) 0 (map (λ p. p.items) payloads.now)) }
{
    let mut calls = Vec::new(alloc);
    for (number, payload) in payloads.iter().enumerate() {
        if let Decided::Called(call) = desk.decide(alloc, payload.as_slice())? {
            calls.push((number as u64, call))?;
        }
    }
    Ok(calls)
}

/// All that is sent to payloads, where calls were answered as these entries say.
pub fn sent<D: PlainDesk>(
    alloc: Global,
    desk: &D,
    entries: &[PlainEntry<D::Call, D::Answer>],
    payloads: &[Vec<u8>],
) -> Result<Vec<u8>, AllocError>
    ensures { IfOk result (λ out. out.items ≡ sent (D.desk desk.now) (journal_seen entries.now) 0 (map (λ p. p.items) payloads.now)) }
{
    let mut out = Vec::new(alloc);
    for (number, payload) in payloads.iter().enumerate() {
        let reply = reply_for(
            alloc,
            desk,
            payload.as_slice(),
            answer_at(entries, number as u64),
        )?;
        out.extend_from_slice(reply.as_slice())?;
    }
    Ok(out)
}

/// The answer to the call of the frame of this number, where an entry has it.
fn answer_at<C: Copy, A: Copy>(entries: &[PlainEntry<C, A>], number: u64) -> Option<A>
    ensures { result ≡ answer_at (journal_seen entries.now) number }
{
    for entry in entries {
        if entry.key.i == number {
            return Some(entry.answer);
        }
    }
    None
}

/// The reply to a payload whose call, if it makes one, has this answer.
fn reply_for<D: PlainDesk>(
    alloc: Global,
    desk: &D,
    payload: &[u8],
    answer: Option<D::Answer>,
) -> Result<Vec<u8>, AllocError>
    ensures { IfOk result (λ reply. reply.items ≡ reply_for (D.desk desk.now) payload.now ((D.desk desk.now).decide payload.now) answer) }
{
    match desk.decide(alloc, payload)? {
        Decided::Refused(_) => Ok(Vec::new(alloc)),
        Decided::Passed => Ok(Vec::new(alloc)),
        Decided::Replied(reply) => Ok(reply.into_vec()),
        Decided::Called(call) => match answer {
            None => Ok(Vec::new(alloc)),
            Some(answer) => {
                if desk.is_silent(call) {
                    return Ok(Vec::new(alloc));
                }
                desk.reply(alloc, payload, answer)
            }
        },
    }
}
