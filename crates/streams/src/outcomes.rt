//! What a message comes to.

use super::octets::Bytes;
use thiserror::Error;

/// Why the head of a message isn't one (Thrift binary protocol, 'Message'; Thrift compact protocol, 'Message').
#[derive(Clone, Copy, Debug, PartialEq, Eq, Error)]
pub enum EnvelopeFault {
    /// The payload ends before the head does.
    #[error("the message ends inside its head")]
    Short,
    /// The head has another version; the number is what stood in its place.
    #[error("the message head has another version ({0})")]
    Version(u32),
    /// The name's length is below 0.
    #[error("the message's name has a length below 0")]
    NameSize,
    /// A varint of the head has too many bytes.
    #[error("a number in the message head has too many bytes")]
    LongVarint,
    /// The message is neither a call nor a oneway call; the number is its type.
    #[error("the message is no call (type {0})")]
    MessageType(u8),
}

/// What one whole frame came to.
#[derive(Drop)]
pub enum Settled {
    /// It is replied to with this whole frame, its size included.
    Reply(Bytes),
    /// It has no reply.
    Nothing,
    /// It ends its connection.
    Close(EnvelopeFault),
    /// There was no memory to settle it.
    NoMemory,
}
