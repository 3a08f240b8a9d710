//! A law of a worker's turns, the contract of a function that does nothing.

ghost use Rattle.std.specs.Prelude.{◌≢◌, List, []};
ghost use Rattle.call_rules.specs.Desks.{DeskMeaning, desk_rules};
ghost use Rattle.machine_model.specs.Merge.{OfTurns};
ghost use Rattle.hall_core.specs.Asked.{StepCall};
ghost use Rattle.hall_pool.specs.declared.turn.Turn.{Turn};
ghost use Rattle.hall_pool.specs.declared.turn.Turn.TheVariants.{Journal};
ghost use Rattle.hall_pool.specs.Turns.{asks_made, AddsTurn, AddsRun, HasMadeTurns};

/// A worker's calls are those of its turns, however many it makes, up to one that answers Journal: at first it has made none (`none`), and then a turn, or a
/// run, leaves calls of turns alone, after which more may come where the answer isn't Journal.
pub fn turns_add_up()
    ensures none { (desk : DeskMeaning) → HasMadeTurns desk [] }
    ensures turn { (desk : DeskMeaning) (old new : List StepCall) (turn : Turn) → HasMadeTurns desk old → AddsTurn desk old new turn →
        OfTurns (desk_rules desk) (asks_made new) × (turn ≢ Journal → HasMadeTurns desk new) }
    ensures run { (desk : DeskMeaning) (old new : List StepCall) (turn : Turn) → HasMadeTurns desk old → AddsRun desk old new turn →
        OfTurns (desk_rules desk) (asks_made new) × (turn ≢ Journal → HasMadeTurns desk new) }
{}
