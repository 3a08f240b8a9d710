//! That memory which ran out in a rehearsal shows, each law the contract of a function that does nothing.

ghost use Rattle.std.specs.Prelude.{◌≡◌, ◌≢◌, ◌↔◌, ℕ, ◌<◌, ◌^◌, Some, List, [], slice_get};
ghost use Rattle.host_model.specs.declared.cause.EndCause.{EndCause};
ghost use Rattle.host_model.specs.declared.cause.EndCause.TheVariants.{NoMemory};
ghost use Rattle.host_model.specs.Journal.{ServiceRules};
ghost use Rattle.host_model.specs.DeskRules.{DeskRules};
ghost use Rattle.machine_model.specs.Worker.{idle};
ghost use Rattle.machine_model.specs.Machine.{Cell, IsFirst, HaveAllEnded};
ghost use Rattle.script_model.specs.ScriptLines.{ScriptPlan};
ghost use Rattle.script_model.specs.Playing.{MemoryAt, always_ample};
ghost use Rattle.script_model.specs.Rehearsing.{IsRehearsalOf};

use machine_model::laws::{every_cell_keeps, plain_machine_runs};

/// Memory that ran out in a rehearsal shows in a cause, and in no other way: where each connection has ended, no worker has a job and neither a job nor an
/// outcome is left (`nothing_left`), and memory ran out at no move exactly where no cause is want of memory (`exactly`). Wherever workers and outcomes are done,
/// also where a connection is still open, memory ran out at no move unless a connection has ended for want of it (`at_rest`); and where it ran out at none, no
/// connection has ended so (`only_then`), as with ample memory (`ample`).
pub fn want_of_memory_shows<C, A, M>()
    ensures exactly { (d : DeskRules C A) (r : ServiceRules C A M) (memories : List M) (memory : ℕ → MemoryAt) (budget workers : ℕ) (script : ScriptPlan) (wants : ℕ)
        (first last : Cell C A M) (causes : List EndCause) →
        d.max < 2 ^ 31 → IsFirst memories first → IsRehearsalOf d r memory budget workers script wants first last → HaveAllEnded last.loop causes →
        (wants ≡ 0) ↔ ((c : ℕ) → slice_get causes c ≢ Some NoMemory) }
    ensures nothing_left { (d : DeskRules C A) (r : ServiceRules C A M) (memories : List M) (memory : ℕ → MemoryAt) (budget workers : ℕ) (script : ScriptPlan) (wants : ℕ)
        (first last : Cell C A M) (causes : List EndCause) →
        d.max < 2 ^ 31 → IsFirst memories first → IsRehearsalOf d r memory budget workers script wants first last → HaveAllEnded last.loop causes →
        (last.hall.jobs ≡ []) × (last.hall.outcomes ≡ []) × ((w : ℕ) → last.workers w ≡ idle) }
    ensures at_rest { (d : DeskRules C A) (r : ServiceRules C A M) (memories : List M) (memory : ℕ → MemoryAt) (budget workers : ℕ) (script : ScriptPlan) (wants : ℕ)
        (first last : Cell C A M) →
        d.max < 2 ^ 31 → IsFirst memories first → IsRehearsalOf d r memory budget workers script wants first last →
        ((w : ℕ) → last.workers w ≡ idle) → last.hall.outcomes ≡ [] → ((c : ℕ) → c < last.loop.count → (last.loop.conns c).cause ≢ Some NoMemory) → wants ≡ 0 }
    ensures only_then { (d : DeskRules C A) (r : ServiceRules C A M) (memories : List M) (memory : ℕ → MemoryAt) (budget workers : ℕ) (script : ScriptPlan) (first last : Cell C A M) →
        d.max < 2 ^ 31 → IsFirst memories first → IsRehearsalOf d r memory budget workers script 0 first last →
        (c : ℕ) → c < last.loop.count → (last.loop.conns c).cause ≢ Some NoMemory }
    ensures ample { (d : DeskRules C A) (r : ServiceRules C A M) (budget workers : ℕ) (script : ScriptPlan) (wants : ℕ) (first last : Cell C A M) →
        IsRehearsalOf d r always_ample budget workers script wants first last → wants ≡ 0 }
{
    every_cell_keeps::<C, A, M>();
    plain_machine_runs::<C, A, M>();
}
