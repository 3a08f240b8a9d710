//! What holds of all services.

ghost use Rattle.std.specs.Prelude.{List, ℕ};
ghost use Rattle.thrift_value.specs.Tree.{Tree};
ghost use Rattle.call_rules.specs.PlainCalls.{IsPlainValue, IsPlainAnswer};
ghost use Rattle.call_rules.specs.Handling.{ServiceState, HasItsMemory, new_service, handled, service_after};

use crate::kind::Kind;

/// What a service answers to plain arguments is plain, and what it keeps stays of its kind.
pub fn services_answer_plainly()
    ensures first { (kind : Kind) → HasItsMemory (new_service kind) }
    ensures kept { (service : ServiceState) (method : List ℕ) (args : Tree) → HasItsMemory service → HasItsMemory (service_after service method args) }
    ensures plain { (service : ServiceState) (method : List ℕ) (args : Tree) → HasItsMemory service → IsPlainValue args
        → IsPlainAnswer (handled service method args).answer }
{}
