//! A list of bytes.

use lists::Listed;

/// A list of bytes, as contracts see it too.
pub type Bytes = Listed<u8>;
