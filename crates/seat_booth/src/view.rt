//! What a token of the booth knows. No value of these types is made.
use call_history::SeatCall;
use std::collections::LinkedList;

/// How far a seat is with its call.
pub(crate) enum CallStage {
    Idle,
    /// It has drawn this ticket.
    Waits(u64),
    /// It has the turn, which this ticket gave it.
    Turn(u64),
}

/// One seat: its number, what it has seen of the history, and its own calls.
pub(crate) struct Past<Q, A, M> {
    /// Below the booth's number of seats, and no other seat's.
    pub number: u32,
    /// A beginning of the history; all of it while the seat has the turn.
    pub seen: LinkedList<SeatCall<Q, A, M>>,
    /// The history's calls of this number.
    pub mine: LinkedList<SeatCall<Q, A, M>>,
}

/// One token: a seat's has one past. Before the seats are dealt one token has them all, and while they come back it has several.
pub(crate) struct TokenView<Q, A, M> {
    /// What the object meant at the opening; a token with no seat may have none.
    pub opening: Option<M>,
    pub stage: CallStage,
    /// The seats that it has.
    pub pasts: LinkedList<Past<Q, A, M>>,
}
