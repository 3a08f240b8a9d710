//! A mark without bytes of its own.

use lists::NotedBytes;

/// One thing that happened on the connection of the number that it carries. Its bytes are seen by contracts alone.
#[derive(Drop)]
pub(crate) enum Note {
    /// The connection was opened.
    Opened(u32),
    /// These bytes were read.
    Read(u32, NotedBytes),
    /// The end of its input was read.
    Ended(u32),
    /// These bytes were written.
    Wrote(u32, NotedBytes),
    /// A read failed.
    ReadFailed(u32),
    /// A write failed.
    WriteFailed(u32),
    /// The connection was closed.
    Closed(u32),
}
