//! A rehearsal told by what shows of it, each law the contract of a function that does nothing.

ghost use Rattle.std.specs.Prelude.{◌≡◌, ◌≢◌, ℕ, ◌<◌, ◌≤◌, ◌^◌, Some, List, length, slice_get};
ghost use Rattle.streams.specs.declared.marks.Mark.{Mark};
ghost use Rattle.host_model.specs.declared.cause.EndCause.{EndCause};
ghost use Rattle.host_model.specs.declared.cause.EndCause.TheVariants.{NoMemory};
ghost use Rattle.host_model.specs.Journal.{JournalEntry, ServiceRules};
ghost use Rattle.host_model.specs.DeskRules.{DeskRules};
ghost use Rattle.host_model.specs.Headline.{Headline};
ghost use Rattle.machine_model.specs.Machine.{Cell, IsFirst};
ghost use Rattle.machine_model.specs.Bounds.{HasItsService};
ghost use Rattle.script_model.specs.ScriptLines.{ScriptPlan};
ghost use Rattle.script_model.specs.Playing.{MemoryAt, always_ample};
ghost use Rattle.script_model.specs.Rehearsing.{IsRehearsalOf};
ghost use Rattle.script_model.specs.Ending.{LetsAllEnd};
ghost use Rattle.script_model.specs.Showing.{ShowTheSame, IsRehearsedTo};

use crate::laws::a_rehearsal_is_a_run;
use crate::steps::a_script_comes_to_its_end;
use crate::wants::want_of_memory_shows;

/// Of two starts with the same memories the same shows (`starts`). What doesn't show, the journal's count of faults and what stands at connections that aren't
/// opened, decides nothing: from two machines of which the same shows, a script comes to two of which the same shows (`same`). So with the same memory at each
/// move it comes to one tape, one journal and one list of causes, and memory ran out at as many moves (`one`).
pub fn what_shows_is_one<C, A, M>()
    ensures starts { (memories : List M) (first other : Cell C A M) → IsFirst memories first → IsFirst memories other → ShowTheSame first other }
    ensures same { (d : DeskRules C A) (r : ServiceRules C A M) (memory : ℕ → MemoryAt) (budget workers : ℕ) (script : ScriptPlan) (wants others : ℕ) (first last other end : Cell C A M) →
        ShowTheSame first other → IsRehearsalOf d r memory budget workers script wants first last → IsRehearsalOf d r memory budget workers script others other end →
        (wants ≡ others) × ShowTheSame last end }
    ensures one { (d : DeskRules C A) (r : ServiceRules C A M) (memories : List M) (memory : ℕ → MemoryAt) (budget workers : ℕ) (script : ScriptPlan) (wants others : ℕ)
        (tape marks : List Mark) (journal entries : List (JournalEntry C A)) (causes ends : List EndCause) →
        IsRehearsedTo d r memories memory budget workers script wants tape journal causes → IsRehearsedTo d r memories memory budget workers script others marks entries ends →
        (wants ≡ others) × (tape ≡ marks) × (journal ≡ entries) × (causes ≡ ends) }
{}

/// A script that lets each of its connections end comes to some tape, some journal and some causes, which meet the headline: where each call has its service, and
/// the budget has room for the longest frame, however memory is at its moves.
pub fn something_shows<C, A, M>()
    ensures { (d : DeskRules C A) (r : ServiceRules C A M) (memories : List M) (memory : ℕ → MemoryAt) (budget workers : ℕ) (script : ScriptPlan) →
        d.max < 2 ^ 31 → HasItsService d r (length memories) → LetsAllEnd workers script → d.max ≤ budget →
        (wants : ℕ) × (tape : List Mark) × (journal : List (JournalEntry C A)) × (causes : List EndCause)
        × IsRehearsedTo d r memories memory budget workers script wants tape journal causes × Headline d r memories tape journal causes }
{
    a_script_comes_to_its_end::<C, A, M>();
}

/// Memory that doesn't show decides nothing either: where no cause is want of memory, the same shows as with ample memory (`ample`); so whatever memory is at the
/// moves of two rehearsals of a script, they come to one tape, one journal and one list of causes, unless some connection ended for want of it (`one`).
pub fn what_shows_with_memory_is_one<C, A, M>()
    ensures ample { (d : DeskRules C A) (r : ServiceRules C A M) (memories : List M) (memory : ℕ → MemoryAt) (budget workers : ℕ) (script : ScriptPlan) (wants : ℕ)
        (tape : List Mark) (journal : List (JournalEntry C A)) (causes : List EndCause) →
        d.max < 2 ^ 31 → IsRehearsedTo d r memories memory budget workers script wants tape journal causes → ((c : ℕ) → slice_get causes c ≢ Some NoMemory) →
        IsRehearsedTo d r memories always_ample budget workers script 0 tape journal causes }
    ensures one { (d : DeskRules C A) (r : ServiceRules C A M) (memories : List M) (memory memory_then : ℕ → MemoryAt) (budget workers : ℕ) (script : ScriptPlan) (wants others : ℕ)
        (tape marks : List Mark) (journal entries : List (JournalEntry C A)) (causes ends : List EndCause) →
        d.max < 2 ^ 31 → IsRehearsedTo d r memories memory budget workers script wants tape journal causes → ((c : ℕ) → slice_get causes c ≢ Some NoMemory) →
        IsRehearsedTo d r memories memory_then budget workers script others marks entries ends → ((c : ℕ) → slice_get ends c ≢ Some NoMemory) →
        (tape ≡ marks) × (journal ≡ entries) × (causes ≡ ends) }
{
    a_rehearsal_is_a_run::<C, A, M>();
    want_of_memory_shows::<C, A, M>();
}
