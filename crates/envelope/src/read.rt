//! Reading a head.

ghost use Rattle.std.specs.Prelude.{◌≡◌, Ok, Err, IfOk, List, ℕ, ◌++◌, length};
ghost use Rattle.std.specs.Int.{w32};
ghost use Rattle.wire_num.specs.Fixed.{unsigned_of};
ghost use Rattle.envelope.specs.Said.{Said, IsCall};
ghost use Rattle.envelope.specs.Spelling.{IsSpelling};
ghost use Rattle.envelope.specs.Readout.{name_of, strict_head, old_head, sized_name, compact_rest, compact_head, whole_head, head_at, IsHead, IsHeadOrNoMemory, IsEncodedIn, MeansExactly};

use super::head::{
    COMPACT_MARK, COMPACT_VERSION, Head, HeadFault, LentHead, Protocol, STRICT_VERSION,
};
use std::alloc::Global;
use streams::EnvelopeFault;
use thrift_value::ByteText;
use wire_num::{decode_bytes, decode_i32, decode_u8, decode_varint32};

/// The head in front of a payload, of a call or a call without a reply: strict or old in the binary protocol, or compact (Thrift
/// binary and compact protocol, 'Message').
pub fn read_head(alloc: Global, protocol: Protocol, payload: &[u8]) -> Result<Head, HeadFault>
    ensures found { IfOk result (λ head. IsEncodedIn protocol payload.now head) }
    ensures only { (said : Said) (text rest : List ℕ) → payload.now ≡ text ++ rest → IsSpelling protocol said text
        → IsCall said.kind
        → IsHeadOrNoMemory result (Ok (record { name = said.name; kind = said.kind; id = said.id; behind = length text })) }
    ensures refused { (said : Said) (text rest : List ℕ) → payload.now ≡ text ++ rest → IsSpelling protocol said text
        → (IsCall said.kind → ⊥) → IsHeadOrNoMemory result (Err (EnvelopeFault.MessageType said.kind)) }
    ensures exact { IsHeadOrNoMemory result (head_at protocol payload.now) }
{
    head_of(alloc, protocol, payload)
}

/// The head, or the fault that comes first.
#[tactic(auto, using(crate::proofs::Heads::or_no_memory))]
fn head_of(alloc: Global, protocol: Protocol, payload: &[u8]) -> Result<Head, HeadFault>
    ensures { IsHeadOrNoMemory result (head_at protocol payload.now) }
{
    match lent(protocol, payload) {
        Ok(head) => kept(alloc, &head),
        Err(fault) => Err(fault),
    }
}

/// A head with a name of its own.
pub(crate) fn kept(alloc: Global, head: &LentHead<'_>) -> Result<Head, HeadFault>
    ensures { IsHeadOrNoMemory result (Ok head.now) }
{
    let name = head.name().to_vec(alloc)?;
    Ok(Head {
        name: ByteText::new(name),
        kind: head.kind(),
        id: head.id(),
        behind: head.behind(),
    })
}

/// Does what `read_head` does, but the name stays in the payload; takes no memory, and never answers that there is none.
#[inline(always)]
pub fn lend_head(protocol: Protocol, payload: &[u8]) -> Result<LentHead<'_>, HeadFault>
    ensures found { IfOk result (λ head. IsEncodedIn protocol payload.now head) }
    ensures exact { IsHead result (head_at protocol payload.now) }
{
    lent(protocol, payload)
}

/// The head, whose name is lent, or the fault that comes first.
#[tactic(auto, unfolding(crate::specs::Readout::head_at, crate::specs::Readout::call_type))]
#[inline(always)]
fn lent(protocol: Protocol, payload: &[u8]) -> Result<LentHead<'_>, HeadFault>
    ensures { IsHead result (head_at protocol payload.now) }
{
    let front = whole_head(protocol, payload)?;
    if front.kind != CALL && front.kind != ONEWAY {
        return Err(HeadFault::Envelope(EnvelopeFault::MessageType(front.kind)));
    }
    let behind = payload.len() - front.rest.len();
    Ok(LentHead::new(front.name, front.kind, front.id, behind))
}

/// The type of a call.
const CALL: u8 = 1;

/// The type of a call without a reply.
const ONEWAY: u8 = 4;

/// What a head says, in the payload's own bytes, and the bytes behind it.
#[derive(Clone, Copy)]
pub(crate) struct Front<'a> {
    pub(crate) name: &'a [u8],
    pub(crate) kind: u8,
    pub(crate) id: i32,
    pub(crate) rest: &'a [u8],
}

/// A whole head of any type.
#[tactic(auto, unfolding(crate::specs::Readout::whole_head))]
#[inline(always)]
pub(crate) fn whole_head(protocol: Protocol, payload: &[u8]) -> Result<Front<'_>, HeadFault>
    ensures { MeansExactly
        (λ f. (record { name = f.name.now; kind = f.kind; id = f.id }, f.rest.now))
        result (whole_head protocol payload.now) }
{
    match protocol {
        Protocol::Binary => binary_head(payload),
        Protocol::Compact => compact_head(payload),
    }
}

/// A strict or an old head.
#[tactic(auto, unfolding(crate::specs::Readout::whole_head, crate::specs::Readout::either_head))]
#[inline(always)]
fn binary_head(payload: &[u8]) -> Result<Front<'_>, HeadFault>
    ensures { MeansExactly
        (λ f. (record { name = f.name.now; kind = f.kind; id = f.id }, f.rest.now))
        result (whole_head Protocol.Binary payload.now) }
{
    let (first, rest) = decode_bytes(payload, 4)?;
    let size = i32::from_be_bytes([first[0], first[1], first[2], first[3]]);
    if size < 0 {
        strict(first, rest)
    } else {
        old(size, rest)
    }
}

/// A strict head, of which the first four bytes were read.
#[tactic(auto, unfolding(crate::specs::Readout::strict_head, crate::specs::Readout::version))]
#[inline(always)]
fn strict<'a>(first: &'a [u8], rest: &'a [u8]) -> Result<Front<'a>, HeadFault>
    requires { length first.now ≡ 4 }
    ensures { MeansExactly
        (λ f. (record { name = f.name.now; kind = f.kind; id = f.id }, f.rest.now))
        result (strict_head first.now rest.now) }
{
    // Two tests, each with its return: one test of both joins its arms at the function's end.
    if first[0] != STRICT_VERSION[0] {
        return Err(HeadFault::Envelope(version_of(first)));
    }
    if first[1] != STRICT_VERSION[1] {
        return Err(HeadFault::Envelope(version_of(first)));
    }
    let (size, rest) = decode_i32(rest)?;
    let (name, rest) = next_name(size, rest)?;
    let (id, rest) = decode_i32(rest)?;
    Ok(Front {
        name,
        kind: first[3],
        id,
        rest,
    })
}

/// The fault of a head with another version.
#[inline(never)]
fn version_of(first: &[u8]) -> EnvelopeFault
    requires { length first.now ≡ 4 }
    ensures { result ≡ EnvelopeFault.Version (unsigned_of w32 first.now) }
{
    EnvelopeFault::Version(u32::from_be_bytes([first[0], first[1], first[2], first[3]]))
}

/// An old head, of which the length of the name was read.
#[tactic(auto, unfolding(crate::specs::Readout::old_head))]
#[inline(always)]
fn old(size: i32, rest: &[u8]) -> Result<Front<'_>, HeadFault>
    ensures { MeansExactly
        (λ f. (record { name = f.name.now; kind = f.kind; id = f.id }, f.rest.now))
        result (old_head size rest.now) }
{
    let (name, rest) = next_name(size, rest)?;
    let (kind, rest) = decode_u8(rest)?;
    let (id, rest) = decode_i32(rest)?;
    Ok(Front {
        name,
        kind,
        id,
        rest,
    })
}

/// The name of this length, and the bytes behind it.
#[tactic(auto, unfolding(crate::specs::Readout::name_of))]
#[inline(always)]
fn next_name(size: i32, bytes: &[u8]) -> Result<(&[u8], &[u8]), HeadFault>
    ensures { MeansExactly (λ r. (r.0.now, r.1.now)) result (name_of size bytes.now) }
{
    if size < 0 {
        return Err(HeadFault::Envelope(EnvelopeFault::NameSize));
    }
    let (name, behind) = decode_bytes(bytes, size as usize)?;
    Ok((name, behind))
}

/// A compact head.
#[tactic(auto, unfolding(crate::specs::Readout::compact_head))]
#[inline(always)]
fn compact_head(payload: &[u8]) -> Result<Front<'_>, HeadFault>
    ensures { MeansExactly
        (λ f. (record { name = f.name.now; kind = f.kind; id = f.id }, f.rest.now))
        result (compact_head payload.now) }
{
    let (mark, rest) = decode_u8(payload)?;
    if mark != COMPACT_MARK {
        return Err(HeadFault::Envelope(EnvelopeFault::Version(u32::from(mark))));
    }
    let (typed, rest) = decode_u8(rest)?;
    if typed % 32 != COMPACT_VERSION {
        return Err(HeadFault::Envelope(EnvelopeFault::Version(u32::from(typed))));
    }
    compact_rest(typed / 32, rest)
}

/// A compact head of this type, of which the first two bytes were read.
#[tactic(auto, unfolding(crate::specs::Readout::compact_rest))]
#[inline(always)]
fn compact_rest(kind: u8, rest: &[u8]) -> Result<Front<'_>, HeadFault>
    ensures { MeansExactly
        (λ f. (record { name = f.name.now; kind = f.kind; id = f.id }, f.rest.now))
        result (compact_rest kind rest.now) }
{
    let (id, rest) = decode_varint32(rest)?;
    let (size, rest) = decode_varint32(rest)?;
    let (name, rest) = sized_name(size, rest)?;
    Ok(Front {
        name,
        kind,
        id: i32::from_be_bytes(id.to_be_bytes()),
        rest,
    })
}

/// The name of this length, which has 31 bits, and the bytes behind it.
#[tactic(auto, unfolding(crate::specs::Readout::sized_name))]
#[inline(always)]
fn sized_name(size: u32, bytes: &[u8]) -> Result<(&[u8], &[u8]), HeadFault>
    ensures { MeansExactly (λ r. (r.0.now, r.1.now)) result (sized_name size bytes.now) }
{
    if size >= 1 << 31 {
        return Err(HeadFault::from(EnvelopeFault::NameSize));
    }
    let (name, rest) = decode_bytes(bytes, size as usize)?;
    Ok((name, rest))
}
