//! The limits of the host, each once: what is refused past them stands where it is refused.
//!
//! ```
//! if text.len() > LONGEST_IDL_TEXT { .. }
//! ```
#![tactic(auto)]

/// The most connections that are open at one time, and so the most jobs that are under way, and the most connections of a script.
pub const MOST_CONNECTIONS: usize = 1_024;

/// The longest payload of a frame that words may allow, in bytes; and the largest read budget.
pub const LONGEST_PAYLOAD: u64 = 268_435_456;

/// The most bytes that one read asks for.
pub const MOST_READ: usize = 65_536;

/// The most levels of structs and containers of a value on the wire, of a constant and of a type.
pub const MOST_LEVELS: u32 = 64;

/// The most values that a value on the wire or a constant consists of, itself included.
pub const MOST_VALUES: u32 = 4_000_000;

/// The longest payload of a frame where words don't say it, in bytes, as in Apache's servers.
pub const USUAL_PAYLOAD: u32 = 16_384_000;

/// The most levels of a type: 1,000 containers in one another, and what stands in the innermost.
pub const MOST_TYPE_LEVELS: u32 = 1_001;

/// The longest file of an IDL, in bytes.
pub const LONGEST_IDL_TEXT: usize = 4_194_304;

/// The longest script, in bytes.
pub const LONGEST_SCRIPT: usize = 67_108_864;
