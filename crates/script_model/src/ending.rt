//! Laws of the end of a rehearsal, each the contract of a function that does nothing.

ghost use Rattle.std.specs.Prelude.{◌≡◌, ◌≢◌, ℕ, ◌<◌, ◌≤◌, ◌^◌, Some, List, [], length, slice_get};
ghost use Rattle.host_model.specs.declared.cause.EndCause.{EndCause};
ghost use Rattle.host_model.specs.declared.cause.EndCause.TheVariants.{Stopped};
ghost use Rattle.host_model.specs.Journal.{ServiceRules};
ghost use Rattle.host_model.specs.DeskRules.{DeskRules};
ghost use Rattle.host_model.specs.Headline.{Headline};
ghost use Rattle.machine_model.specs.Worker.{idle};
ghost use Rattle.machine_model.specs.Machine.{Cell, IsFirst, HaveAllEnded};
ghost use Rattle.machine_model.specs.Bounds.{HasItsService};
ghost use Rattle.script_model.specs.ScriptLines.{ScriptPlan};
ghost use Rattle.script_model.specs.Playing.{MemoryAt, Play};
ghost use Rattle.script_model.specs.Rehearsing.{pass, IsRehearsalOf};
ghost use Rattle.script_model.specs.Ending.{LetsAllMove, LetsAllEnd, IsStill};

use machine_model::laws::{every_cell_keeps, every_run_meets, every_step_can, plain_machine_runs};

/// A pass that moves nothing changes nothing, and leaves nothing that can move.
pub fn a_still_pass<C, A, M>()
    ensures { (d : DeskRules C A) (r : ServiceRules C A M) (memory : ℕ → MemoryAt) (fuel budget workers : ℕ) (play next : Play C A M) →
        pass d r memory fuel budget workers play ≡ Some next → next.moves ≡ play.moves → (next ≡ play) × IsStill d r memory budget workers play }
{}

/// Where nothing in a script stops for good, and each call has its service, a rehearsal of it ends with nothing under way, however memory is at its moves: no
/// worker holds a job, and no job and no outcome is left. Where each input ends or fails besides, and the budget has room for the longest frame, each connection
/// that was opened has ended then, and none since the host stopped; so the rehearsal meets the headline.
pub fn a_rehearsal_ends<C, A, M>()
    ensures rests { (d : DeskRules C A) (r : ServiceRules C A M) (memories : List M) (memory : ℕ → MemoryAt) (budget workers : ℕ) (script : ScriptPlan) (wants : ℕ) (first last : Cell C A M) →
        d.max < 2 ^ 31 → IsFirst memories first → HasItsService d r (length memories) → LetsAllMove workers script →
        IsRehearsalOf d r memory budget workers script wants first last → ((w : ℕ) → last.workers w ≡ idle) × (last.hall.jobs ≡ []) × (last.hall.outcomes ≡ []) }
    ensures ended { (d : DeskRules C A) (r : ServiceRules C A M) (memories : List M) (memory : ℕ → MemoryAt) (budget workers : ℕ) (script : ScriptPlan) (wants : ℕ) (first last : Cell C A M) →
        d.max < 2 ^ 31 → IsFirst memories first → HasItsService d r (length memories) → LetsAllEnd workers script → d.max ≤ budget →
        IsRehearsalOf d r memory budget workers script wants first last → (causes : List EndCause) × HaveAllEnded last.loop causes × ((c : ℕ) → slice_get causes c ≢ Some Stopped) }
    ensures meets { (d : DeskRules C A) (r : ServiceRules C A M) (memories : List M) (memory : ℕ → MemoryAt) (budget workers : ℕ) (script : ScriptPlan) (wants : ℕ) (first last : Cell C A M) →
        d.max < 2 ^ 31 → IsFirst memories first → HasItsService d r (length memories) → LetsAllEnd workers script → d.max ≤ budget →
        IsRehearsalOf d r memory budget workers script wants first last → (causes : List EndCause) × Headline d r memories last.loop.tape last.hall.journal causes }
{
    plain_machine_runs::<C, A, M>();
    every_cell_keeps::<C, A, M>();
    every_run_meets::<C, A, M>();
    every_step_can::<C, A, M>();
}
