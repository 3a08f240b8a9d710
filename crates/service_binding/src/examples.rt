//! Worked examples of the definitions, each the contract of a function that does nothing.

ghost use Rattle.std.specs.Prelude.{◌≡◌, [], ◌∷◌, codes, Some, None, Ok, Err};
ghost use Rattle.call_rules.specs.declared.kind.Kind.TheVariants as kinds;
ghost use Rattle.call_rules.specs.Handling.{new_service};
ghost use Rattle.schema.specs.Example.{example_schema};
ghost use Rattle.service_binding.specs.declared.fault.BindKind.TheVariants as reasons;
ghost use Rattle.service_binding.specs.Defaults.{slot_for_default};
ghost use Rattle.service_binding.specs.Handlers.{handler_for};
ghost use Rattle.service_binding.specs.Refusals.{refused_pair_text};
ghost use Rattle.service_binding.specs.Services.{number_for};

/// Which number a name stands for in the schema of service V.
pub fn numbers_are_found()
    ensures found { number_for example_schema [] (codes "V", kinds.Mirror) ≡ Ok 0 }
    ensures same { number_for example_schema ((codes "V", kinds.Mirror) ∷ []) (codes "V", kinds.Store) ≡ Err reasons.SameService }
    ensures unknown_first { number_for example_schema ((codes "W", kinds.Mirror) ∷ []) (codes "W", kinds.Mirror) ≡ Err reasons.UnknownService }
{}

/// Which handler a pair takes.
pub fn handlers_are_taken()
    ensures first { handler_for (new_service kinds.Store ∷ new_service kinds.Mirror ∷ []) [] (codes "A", kinds.Mirror) ≡ Ok (new_service kinds.Mirror) }
    ensures none { handler_for (new_service kinds.Store ∷ []) [] (codes "A", kinds.Mirror) ≡ Err reasons.UnknownKind }
    ensures taken { handler_for (new_service kinds.Mirror ∷ []) ((codes "A", kinds.Mirror) ∷ []) (codes "B", kinds.Mirror) ≡ Err reasons.SameKind }
    ensures of_another_kind { handler_for (new_service kinds.Mirror ∷ []) ((codes "A", kinds.Store) ∷ []) (codes "B", kinds.Mirror) ≡ Ok (new_service kinds.Mirror) }
{}

/// Which slot a default has.
pub fn defaults_are_found()
    ensures none { slot_for_default ((codes "A", 3) ∷ []) None ≡ Ok None }
    ensures second { slot_for_default ((codes "A", 3) ∷ (codes "B", 1) ∷ []) (Some (codes "B")) ≡ Ok (Some 1) }
    ensures of_no_pair { slot_for_default ((codes "A", 3) ∷ (codes "B", 1) ∷ []) (Some (codes "C")) ≡ Err reasons.NotBound }
{}

/// The line of a refusal.
pub fn refusals_have_their_line()
    ensures pair { refused_pair_text ((codes "Calculator", kinds.Store) ∷ []) (Some (codes "Nobody")) 0 reasons.Unsuited ≡ codes "thriftd: bind Calculator=store Unsuited\n" }
    ensures default_service { refused_pair_text ((codes "Calculator", kinds.Calculator) ∷ []) (Some (codes "Nobody")) 1 reasons.NotBound ≡ codes "thriftd: bind Nobody NotBound\n" }
{}
