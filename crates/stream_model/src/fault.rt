//! Why bytes are no message.

use streams::EnvelopeFault;
use thrift_value::WireFault;

/// Why bytes are no message, whatever follows them.
#[derive(Clone, Copy)]
pub enum StreamFault {
    /// The head has this fault: of its version, of its name's length, or of its type.
    Envelope(EnvelopeFault),
    /// The struct of the arguments has this fault: of a type, of a size, of its levels, or of the number of its values.
    Body(WireFault),
    /// The message would be longer than it may be.
    TooLong,
}
