//! Reading the head of what answers a call.

ghost use Rattle.std.specs.Prelude.{◌≡◌, IfOk};
ghost use Rattle.envelope.specs.Readout.{reply_head_at, IsHead, IsHeadOrNoMemory, IsReplyIn};

use super::head::{Head, HeadFault, LentHead, Protocol};
use super::read::{kept, whole_head};
use std::alloc::Global;
use streams::EnvelopeFault;

/// The type of a reply.
const REPLY: u8 = 2;

/// The type of an exception.
const EXCEPTION: u8 = 3;

/// The head in front of a payload that answers a call, of a reply or an exception, in the forms that `read_head` takes (Thrift binary
/// and compact protocol, 'Message').
#[tactic(auto, using(crate::proofs::Heads::or_no_memory))]
pub fn read_reply_head(alloc: Global, protocol: Protocol, payload: &[u8]) -> Result<Head, HeadFault>
    ensures exact { IsHeadOrNoMemory result (reply_head_at protocol payload.now) }
{
    match lent_reply(protocol, payload) {
        Ok(head) => kept(alloc, &head),
        Err(fault) => Err(fault),
    }
}

/// Does what `read_reply_head` does, but the name stays in the payload; takes no memory, and never answers that there is none.
pub fn lend_reply_head(protocol: Protocol, payload: &[u8]) -> Result<LentHead<'_>, HeadFault>
    ensures found { IfOk result (λ head. IsReplyIn protocol payload.now head) }
    ensures exact { IsHead result (reply_head_at protocol payload.now) }
{
    lent_reply(protocol, payload)
}

/// The head, whose name is lent, or the fault that comes first.
#[tactic(auto, unfolding(crate::specs::Readout::reply_head_at, crate::specs::Readout::reply_kind))]
fn lent_reply(protocol: Protocol, payload: &[u8]) -> Result<LentHead<'_>, HeadFault>
    ensures { IsHead result (reply_head_at protocol payload.now) }
{
    let front = whole_head(protocol, payload)?;
    if front.kind != REPLY && front.kind != EXCEPTION {
        return Err(HeadFault::Envelope(EnvelopeFault::MessageType(front.kind)));
    }
    let behind = payload.len() - front.rest.len();
    Ok(LentHead::new(front.name, front.kind, front.id, behind))
}
