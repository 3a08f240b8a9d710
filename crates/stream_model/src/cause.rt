//! Why an unframed connection ended.

use host_model::EndCause;
use thrift_value::WireFault;

/// Why an unframed connection ended.
#[derive(Clone, Copy)]
pub enum StreamCause {
    /// As one with frames; never for a size.
    By(EndCause),
    /// The struct of a message has this fault.
    Body(WireFault),
    /// A message would be longer than it may be.
    TooLong,
}
