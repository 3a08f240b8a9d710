//! What holds of all pairs, schemas and handlers.

ghost use Rattle.std.specs.Prelude.{◌≡◌, ℕ, List, Option, Ok};
ghost use Rattle.service_binding.specs.Binding.{AreBound, NumberedName};
ghost use Rattle.call_rules.specs.Handling.{ServiceState};
ghost use Rattle.service_binding.specs.Pairs.{NamedKind};
ghost use Rattle.schema.specs.PlainSchema.{PlainSchema};
ghost use Rattle.schema.specs.Sound.{IsSound};
ghost use Rattle.service_binding.specs.declared.fault.BindKind.{BindKind};
ghost use Rattle.service_binding.specs.Defaults.{slot_for_default};
ghost use Rattle.service_binding.specs.FirstRefusal.{IsRefusedFirst};

/// Pairs are bound in one way at most.
pub fn bindings_are_determined()
    ensures { (s : PlainSchema) (services : List ServiceState) (pairs : List NamedKind) (bindings others : List NumberedName) (bound taken : List ServiceState)
        → AreBound s services pairs bindings bound → AreBound s services pairs others taken → (bindings ≡ others) × (bound ≡ taken) }
{}

/// Of pairs that are bound, with a default that one of them names, or none, nothing is refused.
pub fn what_is_bound_is_not_refused()
    ensures { (s : PlainSchema) (services : List ServiceState) (pairs : List NamedKind) (default_service : Option (List ℕ)) (bindings : List NumberedName) (bound : List ServiceState) (slot : Option ℕ)
        (place : ℕ) (kind : BindKind) → IsSound s → AreBound s services pairs bindings bound → slot_for_default bindings default_service ≡ Ok slot
        → IsRefusedFirst s services pairs default_service place kind → ⊥ }
{}

/// There is one first refusal at most.
pub fn refusals_are_determined()
    ensures { (s : PlainSchema) (services : List ServiceState) (pairs : List NamedKind) (default_service : Option (List ℕ)) (place other : ℕ) (kind reason : BindKind)
        → IsSound s → IsRefusedFirst s services pairs default_service place kind → IsRefusedFirst s services pairs default_service other reason
        → (place ≡ other) × (kind ≡ reason) }
{}
