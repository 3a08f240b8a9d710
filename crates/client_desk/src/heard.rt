//! What a call came to.

use thrift_value::{ByteText, Value};

/// What a call came to, as its reply tells it.
#[derive(Drop)]
pub enum Heard {
    /// A result.
    Success(Value),
    /// No result, of a method that has none.
    Void,
    /// No result, of a method that has one.
    Missing,
    /// A declared exception, under its id.
    Throws(i16, Value),
    /// The call failed: a code and a text (Thrift: TApplicationException).
    Exception(i32, ByteText),
}
