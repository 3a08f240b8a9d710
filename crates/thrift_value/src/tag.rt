/// The kind of a value. The derived order is the order of the variants here, in which values of
/// different kinds stand.
#[derive(Clone, Copy, PartialEq, Eq, PartialOrd, Ord)]
pub enum Tag {
    /// True or false.
    Bool,
    /// A number of 8 bits.
    I8,
    /// A number of 16 bits.
    I16,
    /// A number of 32 bits, or an enum.
    I32,
    /// A number of 64 bits.
    I64,
    /// A floating-point number of 64 bits.
    Double,
    /// A string or a binary.
    Bytes,
    /// A struct, union or exception.
    Struct,
    /// A map.
    Map,
    /// A set.
    Set,
    /// A list.
    List,
    /// A number of 128 bits that names something.
    Uuid,
}
