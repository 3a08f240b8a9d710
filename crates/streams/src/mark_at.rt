//! A mark whose bytes are lent.

/// One thing that happened on the connection of the number that it carries.
#[derive(Drop)]
pub enum MarkAt<'a> {
    /// The connection was opened.
    Opened(u32),
    /// These bytes were read.
    Read(u32, &'a [u8]),
    /// The end of its input was read.
    Ended(u32),
    /// These bytes were written.
    Wrote(u32, &'a [u8]),
    /// A read failed.
    ReadFailed(u32),
    /// A write failed.
    WriteFailed(u32),
    /// The connection was closed.
    Closed(u32),
}
