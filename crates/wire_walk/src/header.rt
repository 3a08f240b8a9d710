//! What stands before a field.

use thrift_value::Tag;

/// What stands before a field of a struct (Thrift binary and compact protocol, 'Struct').
#[derive(Clone, Copy)]
pub enum Header {
    /// The end of the struct.
    Stop,
    /// The id and the kind of a field, whose value follows.
    Field(i16, Tag),
    /// The id and the value of a bool field, behind which nothing follows.
    Flag(i16, bool),
}
