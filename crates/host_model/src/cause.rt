use streams::EnvelopeFault;

/// Why a connection ended.
#[derive(Clone, Copy, PartialEq, Eq)]
pub enum EndCause {
    /// Its input ended after a whole frame, or before any byte.
    End,
    /// Its input ended inside a size or a frame.
    Cut,
    /// A frame's size is below 1 or above the largest that is allowed.
    SizeFault(i32),
    /// A message's head is refused.
    Envelope(EnvelopeFault),
    /// A read failed.
    ReadFault,
    /// A write failed.
    WriteFault,
    /// Memory ran out for a frame or for its reply.
    NoMemory,
    /// The host stopped before the connection had ended by itself.
    Stopped,
}
