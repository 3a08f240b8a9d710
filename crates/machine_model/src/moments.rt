//! Laws of moments of a run: what is under way at each front of its tape, what a moment of rest tells, and what a connection
//! keeps once it has ended. Each is the contract of a function that does nothing.

ghost use Rattle.std.specs.Prelude.{◌≡◌, ℕ, ◌<◌, ◌≤◌, ◌^◌, ◌⊎◌, Some, List, [], ◌∷◌};
ghost use Rattle.host_model.specs.declared.cause.EndCause.{EndCause};
ghost use Rattle.host_model.specs.Marks.{marks_of, output};
ghost use Rattle.host_model.specs.Journal.{ServiceRules, entries_of};
ghost use Rattle.host_model.specs.DeskRules.{DeskRules};
ghost use Rattle.host_model.specs.Conversation.{but_last, Done, EndsBy};
ghost use Rattle.machine_model.specs.Loop.{Loop};
ghost use Rattle.machine_model.specs.Machine.{Cell, MachineEvent, Steps, EventsLead, IsFirst};
ghost use Rattle.machine_model.specs.Merge.{LoopItem, no_loop, Weaves};
ghost use Rattle.machine_model.specs.AtFronts.{all_begun, KeepsWithin};
ghost use Rattle.machine_model.specs.Resting.{IsAtRest, IsPlaceOfRest};

use host_model::laws::every_moment_stands as every_world_stands;

/// A run, or a loop's own order, keeps within a read budget as long as it does so after each of its steps: then the sizes under way are within it at each
/// front of the tape.
pub fn sizes_at_fronts<C, A, M>()
    ensures first { (d : DeskRules C A) (memories : List M) (first : Cell C A M) (budget : ℕ) → d.max < 2 ^ 31 → IsFirst memories first → KeepsWithin d.max budget first.loop }
    ensures step { (d : DeskRules C A) (r : ServiceRules C A M) (memories : List M) (first old new : Cell C A M) (events : List MachineEvent) (event : MachineEvent) (budget : ℕ) →
        d.max < 2 ^ 31 → IsFirst memories first → EventsLead d r first events old → KeepsWithin d.max budget old.loop → Steps d r old event new → all_begun new.loop ≤ budget →
        KeepsWithin d.max budget new.loop }
    ensures nothing { (max budget : ℕ) → max < 2 ^ 31 → KeepsWithin max budget no_loop }
    ensures item { (max budget : ℕ) (items : List (LoopItem C A)) (old new : Loop) (item : LoopItem C A) →
        max < 2 ^ 31 → Weaves max no_loop items old → KeepsWithin max budget old → Weaves max old (item ∷ []) new → all_begun new ≤ budget → KeepsWithin max budget new }
{}

/// A moment of rest in a run is a place of rest of the whole run: each open connection has all its replies by then, and calls whose frames were whole by then
/// stand in the journal before those whose frames weren't.
pub fn a_moment_of_rest_tells<C, A, M>()
    ensures { (d : DeskRules C A) (r : ServiceRules C A M) (memories : List M) (first mid last : Cell C A M) (events more : List MachineEvent) →
        d.max < 2 ^ 31 → IsFirst memories first → EventsLead d r first events mid → IsAtRest mid.loop → EventsLead d r mid more last →
        IsPlaceOfRest d last.hall.journal mid.loop.tape }
{
    every_world_stands::<C, A, M>();
}

/// At any moment of a run the calls of each connection's payloads are done, or those of all but the last; and what the cause of one that has ended says of it
/// holds from then on, whatever its last payload still comes to.
pub fn connections_keep_their_calls<C, A, M>()
    ensures called { (d : DeskRules C A) (r : ServiceRules C A M) (memories : List M) (first cell : Cell C A M) (events : List MachineEvent) →
        d.max < 2 ^ 31 → IsFirst memories first → EventsLead d r first events cell → (c : ℕ) → c < cell.loop.count →
        Done d (entries_of c cell.hall.journal) (cell.loop.conns c).payloads ⊎ Done d (entries_of c cell.hall.journal) (but_last (cell.loop.conns c).payloads) }
    ensures ended { (d : DeskRules C A) (r : ServiceRules C A M) (memories : List M) (first cell : Cell C A M) (events : List MachineEvent) →
        d.max < 2 ^ 31 → IsFirst memories first → EventsLead d r first events cell → (c : ℕ) (cause : EndCause) → c < cell.loop.count → (cell.loop.conns c).cause ≡ Some cause →
        EndsBy d (cell.loop.conns c).payloads (cell.loop.conns c).held (entries_of c cell.hall.journal) (output (marks_of c cell.loop.tape)) cause }
{
    every_world_stands::<C, A, M>();
}
