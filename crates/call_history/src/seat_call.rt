//! One call of a history. No value of it is made: contracts speak of it.
/// The call that a seat made, the object's reply, and what the object meant after it.
pub struct SeatCall<Q, A, M> {
    /// The number of the seat that called.
    pub seat: u32,
    /// What it asked.
    pub op: Q,
    /// What the object replied.
    pub reply: A,
    /// What the object meant after the call.
    pub after: M,
}
