//! What becomes of the bytes of a message.

use super::fault::StreamFault;

/// What becomes of the first bytes of a message, whatever follows them.
#[derive(Clone, Copy)]
pub enum MessageProgress {
    /// So many bytes are missing of the item under way.
    Wants(u32),
    /// The message is whole, and has so many bytes.
    Whole(u32),
    /// It is none, as so many bytes show.
    Refused(u32, StreamFault),
}
