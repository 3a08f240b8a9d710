use lists::{ByteText, Listed};

/// The shapes of a service's functions, a line each.
pub type FnShapes = Listed<ByteText>;
