//! That a rehearsal is fed by its script, as the contract of a function that does nothing.

ghost use Rattle.std.specs.Prelude.{◌≡◌, ℕ, ◌<◌, ◌≤◌, ◌^◌, List, ◌∷◌, ◌++◌, length};
ghost use Rattle.host_model.specs.Journal.{ServiceRules};
ghost use Rattle.host_model.specs.DeskRules.{DeskRules};
ghost use Rattle.machine_model.specs.Loop.{most_connections};
ghost use Rattle.machine_model.specs.Machine.{Cell, IsFirst};
ghost use Rattle.machine_model.specs.Bounds.{HasItsService};
ghost use Rattle.script_model.specs.ScriptLines.{PlanLine, resting, ScriptPlan, openings};
ghost use Rattle.script_model.specs.InputEnds.{EndsBehindPieces};
ghost use Rattle.script_model.specs.RestLines.{HasPlaceFor};
ghost use Rattle.script_model.specs.Fed.{IsFedBy};
ghost use Rattle.script_model.specs.Playing.{MemoryAt};
ghost use Rattle.script_model.specs.Rehearsing.{IsRehearsalOf};
ghost use Rattle.script_model.specs.Ending.{LetsAllMove};

use machine_model::laws::{every_cell_keeps, every_step_can, plain_machine_runs};
use machine_model::moments::a_moment_of_rest_tells;

/// Where nothing in a script stops for good, its lines open no more connections than may be open at a time, and each call has its service, a rehearsal comes to
/// rest at each line of rest, however memory is at its moves: the tape has a place there (`rests`), and one after all lines (`at_end`). So it is fed by its
/// script, where no piece stands behind the line that ends its input, or lets it fail (`fed`).
pub fn a_rehearsal_is_fed<C, A, M>()
    ensures rests { (d : DeskRules C A) (r : ServiceRules C A M) (memories : List M) (memory : ℕ → MemoryAt) (budget workers : ℕ) (script : ScriptPlan) (wants : ℕ)
        (first last : Cell C A M) (before behind : List PlanLine) →
        d.max < 2 ^ 31 → IsFirst memories first → HasItsService d r (length memories) → LetsAllMove workers script → openings script.lines ≤ most_connections →
        IsRehearsalOf d r memory budget workers script wants first last → script.lines ≡ before ++ resting ∷ behind →
        HasPlaceFor d budget before last.loop.tape last.hall.journal }
    ensures at_end { (d : DeskRules C A) (r : ServiceRules C A M) (memories : List M) (memory : ℕ → MemoryAt) (budget workers : ℕ) (script : ScriptPlan) (wants : ℕ)
        (first last : Cell C A M) →
        d.max < 2 ^ 31 → IsFirst memories first → HasItsService d r (length memories) → LetsAllMove workers script → openings script.lines ≤ most_connections →
        IsRehearsalOf d r memory budget workers script wants first last → HasPlaceFor d budget script.lines last.loop.tape last.hall.journal }
    ensures fed { (d : DeskRules C A) (r : ServiceRules C A M) (memories : List M) (memory : ℕ → MemoryAt) (budget workers : ℕ) (script : ScriptPlan) (wants : ℕ)
        (first last : Cell C A M) →
        d.max < 2 ^ 31 → IsFirst memories first → HasItsService d r (length memories) → LetsAllMove workers script → openings script.lines ≤ most_connections →
        EndsBehindPieces script.lines → IsRehearsalOf d r memory budget workers script wants first last → IsFedBy d budget script last.loop.tape last.hall.journal }
{
    plain_machine_runs::<C, A, M>();
    every_cell_keeps::<C, A, M>();
    every_step_can::<C, A, M>();
    a_moment_of_rest_tells::<C, A, M>();
}
