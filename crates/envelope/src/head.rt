//! What a head is.

ghost use Rattle.std.specs.Prelude.{◌≡◌};

use std::alloc::AllocError;
use std::marker::Model;
use streams::EnvelopeFault;
use thiserror::Error;
use thrift_value::ByteText;
use wire_num::NumFault;

/// The first byte of a compact head (Thrift compact protocol, 'Message').
pub(crate) const COMPACT_MARK: u8 = 0x82;

/// The version of a compact head, five bits of its second byte.
pub(crate) const COMPACT_VERSION: u8 = 1;

/// The first two bytes of a strict head (Thrift binary protocol, 'Message').
pub(crate) const STRICT_VERSION: [u8; 2] = [0x80, 0x01];

/// How messages are spelled.
#[derive(Clone, Copy, PartialEq, Eq)]
pub enum Protocol {
    /// The Thrift binary protocol.
    Binary,
    /// The Thrift compact protocol.
    Compact,
}

/// The head of a call, as it was read (Thrift binary and compact protocol, 'Message').
#[derive(Drop)]
pub struct Head {
    /// The method's name, with the service's in front where several share a connection.
    pub name: ByteText,
    /// The message's type: 1 is a call, 4 a call without a reply.
    pub kind: u8,
    /// The sequence id, which the reply repeats.
    pub id: i32,
    /// The place behind the head, where the struct of the arguments begins.
    pub behind: usize,
}

/// The head of a call, whose name stands in the payload; contracts see the head.
#[derive(Drop)]
pub struct LentHead<'a> {
    name: &'a [u8],
    kind: u8,
    id: i32,
    behind: usize,
}

impl<'a> Model for LentHead<'a> {
    ghost use Rattle.envelope.specs.declared.head.Head.{Head};

    ghost Value = { Head };

    ghost view = { λ h. record { name = h.name.now; kind = h.kind; id = h.id; behind = h.behind } };
}

impl<'a> LentHead<'a> {
    /// The head of these parts.
    pub(crate) fn new(name: &'a [u8], kind: u8, id: i32, behind: usize) -> LentHead<'a>
        ensures { result ≡ record { name = name.now; kind = kind; id = id; behind = behind } }
    {
        LentHead {
            name,
            kind,
            id,
            behind,
        }
    }

    /// The method's name, with the service's in front where several share a connection.
    pub fn name(&self) -> &'a [u8]
        ensures { result.now ≡ self.now.name }
    {
        self.name
    }

    /// The message's type: 1 is a call, 4 a call without a reply.
    pub fn kind(&self) -> u8
        ensures { result ≡ self.now.kind }
    {
        self.kind
    }

    /// The sequence id, which the reply repeats.
    pub fn id(&self) -> i32
        ensures { result ≡ self.now.id }
    {
        self.id
    }

    /// The place behind the head, where the struct of the arguments begins.
    pub fn behind(&self) -> usize
        ensures { result ≡ self.now.behind }
    {
        self.behind
    }
}

/// Why no head was read.
#[derive(Clone, Copy, Debug, PartialEq, Eq, Error)]
pub enum HeadFault {
    /// The bytes are at fault.
    #[error("the message has no head: {}", fault_text(.0))]
    Envelope(EnvelopeFault),
    /// There was no memory for the name. No bytes are at fault.
    #[error("out of memory")]
    NoMemory,
}

/// What is at fault with the bytes of a head.
fn fault_text(fault: &EnvelopeFault) -> &'static str {
    match fault {
        EnvelopeFault::Short => "the bytes end inside it",
        EnvelopeFault::Version(_) => "it has another version",
        EnvelopeFault::NameSize => "the length of its name is out of range",
        EnvelopeFault::LongVarint => "a number has more bytes than its longest form",
        EnvelopeFault::MessageType(_) => "it is the head of no call",
    }
}

impl From<EnvelopeFault> for HeadFault {
    ghost use Rattle.std.specs.Prelude.{◌≡◌};
    ghost use Rattle.envelope.specs.declared.head.HeadFault.TheVariants.{Envelope};

    ghost from_gives = { λ fault result. result ≡ Envelope fault };

    fn from(fault: EnvelopeFault) -> HeadFault {
        HeadFault::Envelope(fault)
    }
}

impl From<NumFault> for HeadFault {
    ghost use Rattle.std.specs.Prelude.{◌≡◌};
    ghost use Rattle.envelope.specs.Readout.{envelope_fault_of};
    ghost use Rattle.envelope.specs.declared.head.HeadFault.TheVariants.{Envelope};

    ghost from_gives = { λ fault result. result ≡ Envelope (envelope_fault_of fault) };

    fn from(fault: NumFault) -> HeadFault {
        match fault {
            NumFault::Short => HeadFault::Envelope(EnvelopeFault::Short),
            NumFault::LongVarint => HeadFault::Envelope(EnvelopeFault::LongVarint),
        }
    }
}

impl From<AllocError> for HeadFault {
    ghost use Rattle.std.specs.Prelude.{◌≡◌};
    ghost use Rattle.envelope.specs.declared.head.HeadFault.TheVariants as faults;

    ghost from_gives = { λ _ result. result ≡ faults.NoMemory };

    fn from(_error: AllocError) -> HeadFault {
        HeadFault::NoMemory
    }
}
