//! Laws of scripts, each the contract of a function that does nothing.

ghost use Rattle.std.specs.Prelude.{◌≡◌, ℕ, ◌<◌, ◌^◌, true, List, [], ◌∷◌};
ghost use Rattle.streams.specs.declared.marks.Mark.{Mark};
ghost use Rattle.host_model.specs.declared.cause.EndCause.{EndCause};
ghost use Rattle.host_model.specs.Journal.{JournalEntry, ServiceRules, entries_of};
ghost use Rattle.host_model.specs.DeskRules.{DeskRules};
ghost use Rattle.host_model.specs.Headline.{Headline};
ghost use Rattle.script_model.specs.Arrival.{arrival_of};
ghost use Rattle.script_model.specs.Rehearsal.{is_scripted, IsRunOfArrivals};
ghost use Rattle.machine_model.specs.Machine.{Cell, MachineEvent, EventsLead, IsFirst, HaveAllEnded};
ghost use Rattle.script_model.specs.ScriptLines.{ScriptPlan};
ghost use Rattle.script_model.specs.Writing.{KeepsItsRules};
ghost use Rattle.script_model.specs.Fed.{IsFedBy, script_of_one};
ghost use Rattle.script_model.specs.Playing.{MemoryAt, always_ample};
ghost use Rattle.script_model.specs.Rehearsing.{IsRehearsalOf};

use machine_model::laws::{every_cell_keeps, every_run_meets, plain_machine_runs};

/// A run on the pieces of one connection is one that the script of these pieces feeds; and a run that it feeds, which meets the headline and ended as such
/// scripts can, is a run on these pieces.
pub fn one_connection_is_fed<C, A, M>()
    ensures fed { (d : DeskRules C A) (r : ServiceRules C A M) (memories : List M) (budget : ℕ) (pieces : List (List ℕ)) (tape : List Mark) (journal : List (JournalEntry C A)) (cause : EndCause) →
        IsRunOfArrivals d r memories is_scripted (λ c. arrival_of pieces) tape journal (cause ∷ []) → IsFedBy d budget (script_of_one pieces) tape journal }
    ensures run { (d : DeskRules C A) (r : ServiceRules C A M) (memories : List M) (budget : ℕ) (pieces : List (List ℕ)) (tape : List Mark) (journal : List (JournalEntry C A)) (cause : EndCause) →
        Headline d r memories tape journal (cause ∷ []) → is_scripted cause ≡ true → IsFedBy d budget (script_of_one pieces) tape journal →
        IsRunOfArrivals d r memories is_scripted (λ c. arrival_of pieces) tape journal (cause ∷ []) }
{}

/// A rehearsal is a run of the machine, however memory is at its moves, since each move is one of the machine's events, or none that it sees; so it meets the
/// headline where each connection has ended. A script comes to one end alone, whatever number of steps sufficed; and where memory never ran out, to the end
/// that it comes to with ample memory.
pub fn a_rehearsal_is_a_run<C, A, M>()
    ensures run { (d : DeskRules C A) (r : ServiceRules C A M) (memory : ℕ → MemoryAt) (budget workers : ℕ) (script : ScriptPlan) (wants : ℕ) (first last : Cell C A M) →
        d.max < 2 ^ 31 → IsRehearsalOf d r memory budget workers script wants first last → (events : List MachineEvent) × EventsLead d r first events last }
    ensures meets { (d : DeskRules C A) (r : ServiceRules C A M) (memories : List M) (memory : ℕ → MemoryAt) (budget workers : ℕ) (script : ScriptPlan) (wants : ℕ)
        (first last : Cell C A M) (causes : List EndCause) →
        d.max < 2 ^ 31 → IsFirst memories first → IsRehearsalOf d r memory budget workers script wants first last → HaveAllEnded last.loop causes →
        Headline d r memories last.loop.tape last.hall.journal causes }
    ensures only { (d : DeskRules C A) (r : ServiceRules C A M) (memory : ℕ → MemoryAt) (budget workers : ℕ) (script : ScriptPlan) (wants others : ℕ) (first last other : Cell C A M) →
        IsRehearsalOf d r memory budget workers script wants first last → IsRehearsalOf d r memory budget workers script others first other → last ≡ other }
    ensures with_ample_memory { (d : DeskRules C A) (r : ServiceRules C A M) (memory : ℕ → MemoryAt) (budget workers : ℕ) (script : ScriptPlan) (first last : Cell C A M) →
        d.max < 2 ^ 31 → IsRehearsalOf d r memory budget workers script 0 first last → IsRehearsalOf d r always_ample budget workers script 0 first last }
{
    plain_machine_runs::<C, A, M>();
    every_run_meets::<C, A, M>();
}

/// In a rehearsal, however memory is, each write is under the rule of its connection whose turn it is: it takes all that is left of what was to be sent by
/// then, or as much of it as the rule allows, or it fails where the rule says so. The journal is that of the end, whatever was called after the write.
pub fn rehearsed_writes_keep_their_rules<C, A, M>()
    ensures { (d : DeskRules C A) (r : ServiceRules C A M) (memories : List M) (memory : ℕ → MemoryAt) (budget workers : ℕ) (script : ScriptPlan) (wants : ℕ)
        (first last : Cell C A M) (c : ℕ) →
        d.max < 2 ^ 31 → IsFirst memories first → IsRehearsalOf d r memory budget workers script wants first last →
        KeepsItsRules d script c (entries_of c last.hall.journal) last.loop.tape }
{
    plain_machine_runs::<C, A, M>();
    every_cell_keeps::<C, A, M>();
}
