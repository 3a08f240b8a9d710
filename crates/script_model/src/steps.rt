//! That some number of steps suffices for a script, each law the contract of a function that does nothing.

ghost use Rattle.std.specs.Prelude.{◌≡◌, ◌≢◌, ℕ, ◌<◌, ◌≤◌, ◌^◌, false, Some, List, length, slice_get};
ghost use Rattle.host_model.specs.declared.cause.EndCause.{EndCause};
ghost use Rattle.host_model.specs.declared.cause.EndCause.TheVariants.{Stopped};
ghost use Rattle.host_model.specs.Journal.{ServiceRules};
ghost use Rattle.host_model.specs.DeskRules.{DeskRules};
ghost use Rattle.host_model.specs.Headline.{Headline};
ghost use Rattle.machine_model.specs.Machine.{Cell, IsFirst, HaveAllEnded};
ghost use Rattle.machine_model.specs.Bounds.{HasItsService};
ghost use Rattle.script_model.specs.ScriptLines.{ScriptPlan};
ghost use Rattle.script_model.specs.Playing.{MemoryAt, Play};
ghost use Rattle.script_model.specs.Rehearsing.{rehearsal, IsRehearsalOf};
ghost use Rattle.script_model.specs.Ending.{LetsAllEnd};

use crate::ending::a_rehearsal_ends;
use crate::laws::a_rehearsal_is_a_run;

/// Every script has a rehearsal, whatever stands in it and however memory is at its moves, on any machine whose hall isn't closed: each move leaves less to do,
/// so some number of steps suffices (`comes`). With more steps it comes to the same (`more`).
pub fn some_steps_suffice<C, A, M>()
    ensures comes { (d : DeskRules C A) (r : ServiceRules C A M) (memory : ℕ → MemoryAt) (budget workers : ℕ) (script : ScriptPlan) (first : Cell C A M) →
        first.hall.closed ≡ false → (wants : ℕ) × (last : Cell C A M) × IsRehearsalOf d r memory budget workers script wants first last }
    ensures more { (d : DeskRules C A) (r : ServiceRules C A M) (memory : ℕ → MemoryAt) (budget workers : ℕ) (script : ScriptPlan) (first : Cell C A M) (play : Play C A M)
        (fuel more : ℕ) → fuel ≤ more → rehearsal d r memory fuel budget workers script first ≡ Some play → rehearsal d r memory more budget workers script first ≡ Some play }
{}

/// A script that lets each of its connections end has a rehearsal at which each has ended, none since the host stopped, and that meets the headline: where each
/// call has its service, and the budget has room for the longest frame, however memory is at its moves.
pub fn a_script_comes_to_its_end<C, A, M>()
    ensures { (d : DeskRules C A) (r : ServiceRules C A M) (memories : List M) (memory : ℕ → MemoryAt) (budget workers : ℕ) (script : ScriptPlan) (first : Cell C A M) →
        d.max < 2 ^ 31 → IsFirst memories first → HasItsService d r (length memories) → LetsAllEnd workers script → d.max ≤ budget →
        (wants : ℕ) × (last : Cell C A M) × (causes : List EndCause) × IsRehearsalOf d r memory budget workers script wants first last × HaveAllEnded last.loop causes
        × ((c : ℕ) → slice_get causes c ≢ Some Stopped) × Headline d r memories last.loop.tape last.hall.journal causes }
{
    some_steps_suffice::<C, A, M>();
    a_rehearsal_ends::<C, A, M>();
    a_rehearsal_is_a_run::<C, A, M>();
}
