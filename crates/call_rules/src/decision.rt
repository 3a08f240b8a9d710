//! What is decided on a payload.

use crate::call::Call;
use streams::{Bytes, EnvelopeFault};

/// What is decided on a payload.
#[derive(Drop)]
pub enum Decision {
    /// Its head is refused, which ends the connection.
    Close(EnvelopeFault),
    /// It gets no reply and makes no call.
    Silent,
    /// It gets this frame back, its size included, without a call.
    Reply(Bytes),
    /// It makes this call.
    Invoke(Call),
}
