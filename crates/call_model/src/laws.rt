//! What holds of all decisions.

ghost use Rattle.std.specs.Prelude.{◌≡◌, ◌<◌, ◌≤◌, ℕ, List, length};
ghost use Rattle.host_model.specs.DeskRules as desk;
ghost use Rattle.call_rules.specs.Desks.{IsAnsweredCall, IsDesk, IsWholeFrame, longest_payload};
ghost use Rattle.call_rules.specs.PlainCalls.{PlainAnswer, PlainCall, IsPlainCall};
ghost use Rattle.call_model.specs.Offices.{PlainOffice, IsSoundOffice};
ghost use Rattle.call_model.specs.Decisions.{decision};
ghost use Rattle.call_model.specs.Desk.{desk_of};
ghost use Rattle.call_model.specs.Replies.{reply_of};

/// Each reply that is decided on a payload is a whole frame.
pub fn refusals_are_framed()
    ensures { (office : PlainOffice) (payload reply : List ℕ) → IsSoundOffice office → length payload ≤ longest_payload
        → decision office payload ≡ desk.Reply reply → IsWholeFrame reply }
{}

/// Each call that is decided is plain, and its slot is one of those that are bound.
pub fn calls_are_plain()
    ensures slot { (office : PlainOffice) (payload : List ℕ) (call : PlainCall) → IsSoundOffice office → decision office payload ≡ desk.Invoke call
        → call.slot < length office.bindings }
    ensures plain { (office : PlainOffice) (payload : List ℕ) (call : PlainCall) → IsSoundOffice office → decision office payload ≡ desk.Invoke call
        → IsPlainCall call }
{}

/// Each reply to a call is a whole frame.
pub fn replies_are_framed()
    ensures { (office : PlainOffice) (payload : List ℕ) (answer : PlainAnswer) → IsSoundOffice office → length payload ≤ longest_payload
        → IsAnsweredCall (decision office payload) → IsWholeFrame (reply_of office payload answer) }
{}

/// An office is a desk, also where no more is kept of it than that it is sound.
pub fn an_office_is_a_desk()
    ensures sound { (office : PlainOffice) → IsSoundOffice office → IsDesk (desk_of office) }
    ensures again { (office : PlainOffice) → ∥ IsSoundOffice office ∥₁ → IsSoundOffice office }
{}
