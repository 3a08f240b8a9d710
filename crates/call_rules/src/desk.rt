//! What decides on payloads and makes replies.

ghost use Rattle.std.specs.Prelude.{◌≡◌, ◌≤◌, IfOk, length};
ghost use Rattle.call_rules.specs.Answers.{plain_answer, plain_decision};
ghost use Rattle.call_rules.specs.Desks.{DeskMeaning, IsDesk, IsAnsweredCall, longest_payload};

use crate::call::Answer;
use crate::decision::Decision;
use std::alloc::{AllocError, Global};

/// What decides on payloads and makes replies (Thrift: a processor). It holds what never changes.
pub trait Desk {
    // Its slots, its longest payload, its decisions and its replies.
    ghost meaning: { Self → DeskMeaning };

    /// What is decided on a payload.
    fn decide(&self, alloc: Global, payload: &[u8]) -> Result<Decision, AllocError>
        requires { length payload.now ≤ longest_payload }
        ensures { IfOk result (λ decision. plain_decision decision ≡ (meaning self.now).decide payload.now) };

    /// The frame, its size included, that goes back for a payload whose call had this answer.
    fn reply(&self, alloc: Global, payload: &[u8], answer: &Answer) -> Result<Vec<u8>, AllocError>
        requires short { length payload.now ≤ longest_payload }
        requires called { IsAnsweredCall ((meaning self.now).decide payload.now) }
        ensures { IfOk result (λ frame. frame.items ≡ (meaning self.now).reply payload.now (plain_answer answer.now)) };

    // What holds of every desk.
    ghost holds: { (desk : Self) → IsDesk (meaning desk) };
}
