//! What a booth can keep: an object that is called one operation at a time.
ghost use Rattle.std.specs.Prelude.{ℕ, List};
ghost use Rattle.call_history.specs.declared.seat_call.SeatCall.{SeatCall};
ghost use Rattle.call_history.specs.History.{meaning_after, IsHistory};
ghost use Rattle.call_history.specs.Calls.{calls_by, AllAllowed};

/// An object whose calls have one order.
pub trait Object {
    type Op;

    type Reply;

    /// What contracts see of the object. No value of it is made, so a list in it is a `LinkedList`.
    type Meaning;

    // What the object stands for.
    ghost meaning: { Self → Self.Meaning };

    // One step: the meaning before, the operation, the reply and the meaning after.
    ghost gives: { Self.Meaning → Self.Op → Self.Reply → Self.Meaning → Type 0 };

    // The step's own condition, on the meaning before it.
    ghost can: { Self.Meaning → Self.Op → Type 0 };

    // The condition of a call, which a caller can know: it speaks of the opening meaning, the seat's number, and the seat's own earlier calls.
    ghost may: { Self.Meaning → ℕ → List (SeatCall Self.Op Self.Reply Self.Meaning) → Self.Op → Type 0 };

    fn step(&mut self, op: Self::Op) -> Self::Reply
        requires { can (meaning self.old) op }
        ensures { gives (meaning self.old) op result (meaning self.new) };

    // Where each call of a history was allowed, a step that is allowed next can be made.
    ghost follows: { (first : Self.Meaning) (seat : ℕ) (log : List (SeatCall Self.Op Self.Reply Self.Meaning)) (op : Self.Op) → IsHistory gives first log → AllAllowed may first log → may first seat (calls_by seat log) op → can (meaning_after first log) op };
}
