//! The mirror.

use call_rules::{Answer, Handler, Kind, first_value};
use std::alloc::{AllocError, Global};
use thrift_value::{FnShapes, Value};

/// What answers each call of any service with the call's first argument.
#[derive(Clone, Copy)]
pub struct Mirror {}

impl Mirror {
    ghost use Rattle.std.specs.Prelude.{◌≡◌};
    ghost use Rattle.call_rules.specs.declared.kind.Kind.TheVariants as kinds;
    ghost use Rattle.call_rules.specs.Handling.{new_service};
    ghost use Rattle.house_handlers.specs.Kept.{mirror_service};

    /// A mirror.
    pub fn new() -> Self
        ensures { mirror_service result ≡ new_service kinds.Mirror }
    {
        Mirror {}
    }
}

impl Mirror {
    ghost use Rattle.std.specs.Prelude.{◌≡◌, IfOk, OnOk, OnErr};
    ghost use Rattle.thrift_value.specs.TreeOf.{tree_of};
    ghost use Rattle.call_rules.specs.Answers.{plain_answer};
    ghost use Rattle.call_rules.specs.Handling.{handled, service_after};
    ghost use Rattle.house_handlers.specs.Kept.{mirror_service};

    /// Answers a call.
    fn respond(&mut self, alloc: Global, method: &[u8], args: &Value) -> Result<Answer, AllocError>
        ensures answered { IfOk result (λ answer. plain_answer answer ≡ (handled (mirror_service self.old) method.now (tree_of args.now)).answer) }
        ensures moved { OnOk result (mirror_service self.new ≡ service_after (mirror_service self.old) method.now (tree_of args.now)) }
        ensures err { OnErr result (mirror_service self.new ≡ mirror_service self.old) }
    {
        match first_value(args) {
            None => Ok(Answer::Empty),
            Some(value) => Ok(Answer::Success(value.try_clone(alloc)?)),
        }
    }
}

impl Handler for Mirror {
    ghost use Rattle.house_handlers.specs.Kept.{mirror_service};

    ghost service = { mirror_service };

    fn kind(&self) -> Kind {
        Kind::Mirror
    }

    fn suits(&self, _shapes: &FnShapes) -> bool {
        true
    }

    fn answer(&mut self, alloc: Global, method: &[u8], args: &Value) -> Result<Answer, AllocError> {
        self.respond(alloc, method, args)
    }
}
