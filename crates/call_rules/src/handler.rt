//! What answers calls.

ghost use Rattle.std.specs.Prelude.{◌≡◌, ◌↔◌, IfOk, OnOk, OnErr, IsTrue};
ghost use Rattle.thrift_value.specs.TreeOf.{tree_of};
ghost use Rattle.call_rules.specs.PlainCalls.{IsPlainValue, IsPlainAnswer};
ghost use Rattle.call_rules.specs.Answers.{plain_answer};
ghost use Rattle.call_rules.specs.Handling.{ServiceState, handled, service_after};
ghost use Rattle.call_rules.specs.Suited.{IsSuited};

use crate::call::Answer;
use crate::kind::Kind;
use std::alloc::{AllocError, Global};
use thrift_value::{FnShapes, Value};

/// What answers the calls of one service (Thrift: a handler). Its kind never changes.
pub trait Handler: Send + Drop {
    // Its kind, and what it keeps from one call to the next.
    ghost service: { Self → ServiceState };

    /// Its kind.
    fn kind(&self) -> Kind
        ensures { result ≡ (service self.now).kind };

    /// Whether it can serve a service whose functions have these shapes.
    fn suits(&self, shapes: &FnShapes) -> bool
        ensures { IsTrue result ↔ IsSuited (service self.now).kind shapes.now };

    /// Answers a call.
    fn answer(&mut self, alloc: Global, method: &[u8], args: &Value) -> Result<Answer, AllocError>
        ensures answered { IfOk result (λ answer.
            plain_answer answer ≡ (handled (service self.old) method.now (tree_of args.now)).answer) }
        ensures moved { OnOk result (service self.new ≡ service_after (service self.old) method.now (tree_of args.now)) }
        ensures plain { IsPlainValue (tree_of args.now) → IfOk result (λ answer. IsPlainAnswer (plain_answer answer)) }
        ensures err { OnErr result (service self.new ≡ service self.old) };
}

/// A handler in a box answers as what is in it.
impl Handler for Box<dyn Handler> {
    ghost service = { λ handler. (Handler-box handler).service handler.value };

    fn kind(&self) -> Kind {
        (**self).kind()
    }

    fn suits(&self, shapes: &FnShapes) -> bool {
        (**self).suits(shapes)
    }

    fn answer(&mut self, alloc: Global, method: &[u8], args: &Value) -> Result<Answer, AllocError> {
        (**self).answer(alloc, method, args)
    }
}
