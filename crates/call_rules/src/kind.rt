/// A kind of handler.
#[derive(Clone, Copy, PartialEq, Eq)]
pub enum Kind {
    /// The calculator of the Thrift tutorial.
    Calculator,
    /// Texts by their keys.
    Store,
    /// What answers every call with its first argument.
    Mirror,
}
