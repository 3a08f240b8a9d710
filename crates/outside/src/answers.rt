//! What a loop asks of links, and what they answer.

/// What links tell when they are asked what is next.
#[derive(Clone, Copy)]
pub enum Hint {
    /// The connection of this number was opened; numbers go by 1 from 0.
    Opened(u32),
    /// This connection may have something to read.
    Readable(u32),
    /// This connection may be written on.
    Writable(u32),
    /// A bell was rung, or it may have been.
    Woken,
    /// No connection is open, and none will be opened.
    Over,
}

/// What a read or a write came to.
#[derive(Clone, Copy)]
pub enum Taken {
    /// So many bytes were read or written, one at least.
    Bytes(usize),
    /// The end of the input was read.
    End,
    /// It isn't possible yet.
    NotYet,
    /// It failed, and the count of the connection's faults rose.
    Failed,
    /// There was no memory for it.
    NoMemory,
}

/// How a loop stands that asks what is next.
#[derive(Clone, Copy)]
pub struct Ask {
    /// No frame is ready, none is submitted and not collected, and no reply is to be written.
    pub idle: bool,
    /// One more connection may be opened.
    pub room: bool,
    /// Some connection is held because the read budget has no room.
    pub held: bool,
}
