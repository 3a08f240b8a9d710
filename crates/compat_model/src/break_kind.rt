//! Why a new schema doesn't read what an old one wrote.

/// Why a new schema doesn't read what an old one wrote, or calls of the old one fail in the new one.
#[derive(Clone, Copy, PartialEq, Eq)]
pub enum BreakKind {
    /// A struct, a service or a function is no longer there.
    Gone,
    /// One of a pair's structs is a union, and the other isn't.
    Kind,
    /// A union has lost a field.
    UnionField,
    /// A field has another type.
    Unlike,
    /// A field has to be there, and didn't have to be before.
    NewRequired,
    /// A function has a reply in one schema alone.
    Oneway,
    /// A function's result has another type, or stands in one schema alone.
    Result,
    /// A function throws what its callers don't know.
    Throws,
    /// There was no memory to tell.
    NoMemory,
}
