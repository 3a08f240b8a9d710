//! What stands before a name in its list.

use idl_parser::{Definition, EnumValue, Field};

/// The names that were given before one in the same list.
#[derive(Clone, Copy)]
pub enum GivenBefore<'a> {
    /// None.
    Nothing,
    /// Those of definitions of the same file.
    Definitions(&'a [Definition]),
    /// Those of fields of the same list.
    Fields(&'a [Field]),
    /// Those of values of the same enum.
    Values(&'a [EnumValue]),
}
