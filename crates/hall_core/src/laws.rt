//! What holds of every hall, whoever calls it: the contract of a function that does nothing.

ghost use Rattle.std.specs.Prelude.{◌≡◌, ◌⊎◌, List, []};
ghost use Rattle.streams.specs.Cause.{Rose};
ghost use Rattle.host_model.specs.Journal.{after, Legal};
ghost use Rattle.call_history.specs.History.{meaning_after, IsHistory};
ghost use Rattle.call_rules.specs.Entries.{CallEntry};
ghost use Rattle.call_rules.specs.Handling.{handler_rules};
ghost use Rattle.machine_model.specs.HallState.{IsNewlyOpened};
ghost use Rattle.machine_model.specs.SeenHall.{MayHave, filled};
ghost use Rattle.hall_core.specs.Meant.{ServedHall};
ghost use Rattle.hall_core.specs.Asked.{StepCall, StepGives};

/// After any steps of a hall that was newly opened over an empty journal, the journal is a legal history of its services, and they
/// have the memories that it leaves, unless its count of faults rose.
pub fn journals_tell_of_services()
    ensures { (opening : ServedHall) (log : List StepCall) → IsNewlyOpened (filled opening []) → MayHave opening.told [] → IsHistory StepGives opening log →
        (entries : List CallEntry) × MayHave (meaning_after opening log).told entries × Legal handler_rules opening.memories entries
        × (((meaning_after opening log).memories ≡ after handler_rules opening.memories entries) ⊎ Rose opening.faults (meaning_after opening log).faults) }
{}
