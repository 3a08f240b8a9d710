//! What holds of calls of a hub, whoever makes them: the contracts of functions that do nothing.

ghost use Rattle.std.specs.Prelude.{◌≡◌, List, [], map, length};
ghost use Rattle.std.specs.List.{flat_map};
ghost use Rattle.host_model.specs.DeskRules.{DeskRules};
ghost use Rattle.call_history.specs.History.{meaning_after, IsHistory};
ghost use Rattle.call_history.specs.Calls.{asks_of, AllAllowed};
ghost use Rattle.call_rules.specs.PlainCalls.{PlainCall, PlainAnswer};
ghost use Rattle.call_rules.specs.Entries.{CallEntry};
ghost use Rattle.call_rules.specs.Handling.{ServiceState, handler_rules};
ghost use Rattle.machine_model.specs.SeenHall.{MayHave};
ghost use Rattle.machine_model.specs.Merge.{WorkerTurn, AreTurns, asked};
ghost use Rattle.hub_model.specs.HubRule.{HubCall, HubGives};
ghost use Rattle.hub_model.specs.HubMay.{HubMay};
ghost use Rattle.hub_model.specs.Talk.{OfHubTurns};
ghost use Rattle.hub_core.specs.Hub.{ServedHub, hub_filled};
ghost use Rattle.hub_core.specs.Following.{HubStepCall, hub_ask, ObjectGives, ObjectMay};
ghost use Rattle.hub_core.specs.HubWork.{hub_asked_in};

/// Calls at a booth round a hub, whose journal had no entries, are a history of the model's hub, with the same asks, each of which was
/// allowed, and with the same end.
pub fn calls_are_a_hubs_history()
    ensures { (first : ServedHub) (log : List HubStepCall) → MayHave first.hall.told [] → IsHistory ObjectGives first log → AllAllowed ObjectMay first log →
        (full : List (HubCall PlainCall PlainAnswer ServiceState)) × (entries : List CallEntry)
        × IsHistory (HubGives (length first.lists) handler_rules) (hub_filled first []) full × (asks_of full ≡ map hub_ask log)
        × AllAllowed (HubMay (length first.lists) handler_rules) (hub_filled first []) (asks_of full)
        × MayHave (meaning_after first log).hall.told entries × (meaning_after (hub_filled first []) full ≡ hub_filled (meaning_after first log) entries) }
{}

/// Where a seat has asked of a hub what a worker's turns ask of a hall, these are turns at a hub.
pub fn turns_ask_a_hub()
    ensures { (desk : DeskRules PlainCall PlainAnswer) (own : List HubStepCall) (turns : List (WorkerTurn PlainCall PlainAnswer)) →
        AreTurns desk turns → hub_asked_in own ≡ flat_map asked turns → OfHubTurns desk (map hub_ask own) }
{}
