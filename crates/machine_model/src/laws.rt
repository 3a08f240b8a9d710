//! Laws of the machine, each the contract of a function that does nothing. A size is a signed number of four bytes, hence the
//! bound on the longest payload.

ghost use Rattle.std.specs.Prelude.{◌≡◌, ◌≢◌, ◌↔◌, ℕ, suc, ◌+◌, ◌<◌, ◌≤◌, ◌^◌, ◌⊎◌, true, false, List, [], ◌∷◌, ◌++◌, length, map, Some};
ghost use Rattle.streams.specs.declared.outcomes.Settled.{Settled};
ghost use Rattle.streams.specs.declared.marks.Mark.{Mark};
ghost use Rattle.streams.specs.Cause.{Rose};
ghost use Rattle.host_model.specs.declared.cause.EndCause.{EndCause};
ghost use Rattle.host_model.specs.declared.key.Key.{Key};
ghost use Rattle.host_model.specs.Journal.{JournalEntry, ServiceRules};
ghost use Rattle.host_model.specs.DeskRules.{DeskRules};
ghost use Rattle.host_model.specs.Headline.{Headline};
ghost use Rattle.machine_model.specs.HallState.{HallState, IsNewlyOpened, keys_in};
ghost use Rattle.machine_model.specs.HallRule.{HallOperation, submit, take_job, apply, collect, HallAnswer, job, applied, no_memory, journal_fault, is_broken, outcome, HallGives};
ghost use Rattle.machine_model.specs.Determined.{IsFree, IsApply, IsSameButFaults};
ghost use Rattle.call_history.specs.History.{meaning_after, IsHistory};
ghost use Rattle.call_history.specs.Calls.{seat_ask, calls_by, asks_of, AllAllowed};
ghost use Rattle.machine_model.specs.OwnCalls.{HallCall, HallAsk, OwnAsksAllow, HallMay, HallCan, any_of, adds_key, frees_key, summed_calls, longest_payload};
ghost use Rattle.machine_model.specs.OpenAtFronts.{IsWithinMost};
ghost use Rattle.machine_model.specs.Trouble.{is_close, any_fault_told, ClosesWhereTold};
ghost use Rattle.machine_model.specs.OwnLoop.{adds_of_conn, frees_of_conn, refuses_job, CollectsItsOwn};
ghost use Rattle.machine_model.specs.SeenHall.{SeenHall, MayHave, filled, SeenCall, SeenGives, SeenCan, SeenMay};
ghost use Rattle.machine_model.specs.SingleKeys.{adds_this_key, frees_this_key};
ghost use Rattle.machine_model.specs.Loop.{Loop, open_among, most_connections, LoopAsks};
ghost use Rattle.machine_model.specs.Worker.{WorkerState, WorkerAsks};
ghost use Rattle.machine_model.specs.Machine.{Cell, MachineEvent, EventsLead, IsFirst, HaveAllEnded};
ghost use Rattle.machine_model.specs.Bounds.{all_submitted, all_collected, NoneIsLeftBehind, HasItsService};
ghost use Rattle.machine_model.specs.Places.{CellKeeps};
ghost use Rattle.machine_model.specs.Plain.{Told, event_told, run_plain};
ghost use Rattle.machine_model.specs.Merge.{LoopItem, no_loop, OfTurns, calls_in, Weaves, IsOneHistory, merge, event_of, cell_at_first};

use host_model::laws::{
    every_moment_stands as every_world_stands, every_run_meets as every_world_meets,
    less_than_a_frame,
};

/// What the hall is asked has an answer, and one alone, but for the free ones: memory may run out, and the journal may fail.
/// The answer says what the hall is then, but for the journal's count of faults, which only an Apply raises that tells of its failing.
pub fn one_answer<C, A, M>()
    ensures some { (r : ServiceRules C A M) (old : HallState C A M) (op : HallOperation C) →
        HallCan r old op → (answer : HallAnswer A) × (new : HallState C A M) × HallGives r old op answer new }
    ensures answer { (r : ServiceRules C A M) (old new other : HallState C A M) (op : HallOperation C) (answer reply : HallAnswer A) →
        HallGives r old op answer new → HallGives r old op reply other → (IsFree answer → ⊥) → (IsFree reply → ⊥) → answer ≡ reply }
    ensures hall { (r : ServiceRules C A M) (old new other : HallState C A M) (op : HallOperation C) (answer : HallAnswer A) →
        HallGives r old op answer new → HallGives r old op answer other → answer ≢ no_memory → IsSameButFaults new other }
    ensures want { (r : ServiceRules C A M) (old new : HallState C A M) (key : Key) (call : C) →
        HallGives r old (apply key call) no_memory new →
        IsSameButFaults old new ⊎ ((answer : A) × HallGives r old (apply key call) (applied answer) new) }
    ensures broken { (r : ServiceRules C A M) (old new : HallState C A M) (key : Key) (call : C) (answer : HallAnswer A) →
        HallGives r old (apply key call) answer new → (old.broken ≡ true) ↔ (answer ≡ is_broken) }
    ensures count { (r : ServiceRules C A M) (old new : HallState C A M) (op : HallOperation C) (answer : HallAnswer A) →
        HallGives r old op answer new → (IsApply op → ⊥) → new.faults ≡ old.faults }
    ensures told { (r : ServiceRules C A M) (old new : HallState C A M) (op : HallOperation C) (answer : HallAnswer A) →
        HallGives r old op answer new → answer ≢ journal_fault → new.faults ≡ old.faults }
{}

/// In a history whose calls each seat was allowed to make, what a seat may ask next is what the hall can do.
pub fn own_calls_suffice<C, A, M>()
    ensures { (r : ServiceRules C A M) (opening : HallState C A M) (seat : ℕ) (log : List (HallCall C A M)) (op : HallOperation C) →
        IsHistory (HallGives r) opening log → AllAllowed (HallMay r) opening (asks_of log) → HallMay r opening seat (calls_by seat (asks_of log)) op →
        HallCan r (meaning_after opening log) op }
{}

/// Keys are single: a job that Take answered may be applied by the seat that took it, since no seat has applied it; and the key of an outcome that Collect
/// answers was submitted once, by seat 0, and no seat has collected it before.
pub fn single_keys<C, A, M>()
    ensures taken { (r : ServiceRules C A M) (opening : HallState C A M) (log : List (HallCall C A M)) (front : List (HallAsk C A)) (seat : ℕ) (key : Key) (payload : List ℕ) (call : C) →
        IsHistory (HallGives r) opening log → AllAllowed (HallMay r) opening (asks_of log) → asks_of log ≡ front ++ seat_ask seat take_job (job key payload) ∷ [] →
        r.slot call < length opening.memories → HallMay r opening seat (calls_by seat (asks_of log)) (apply key call) }
    ensures collected { (r : ServiceRules C A M) (opening : HallState C A M) (log : List (HallCall C A M)) (front : List (HallAsk C A)) (seat : ℕ) (key : Key) (settled : Settled) →
        IsHistory (HallGives r) opening log → AllAllowed (HallMay r) opening (asks_of log) → asks_of log ≡ front ++ seat_ask seat collect (outcome key settled) ∷ [] →
        (summed_calls (adds_this_key key) (calls_by 0 front) ≡ 1) × ((other : ℕ) → summed_calls (frees_this_key key) (calls_by other front) ≡ 0) }
{}

/// A hall whose journal may tell nothing: its history is one of a hall whose journal is known, with the same asks and the same end; so what a seat may ask
/// next is what it can do.
pub fn seen_halls<C, A, M>()
    ensures filled { (r : ServiceRules C A M) (opening : SeenHall C A M) (entries : List (JournalEntry C A)) (log : List (SeenCall C A M)) →
        MayHave opening.told entries → IsHistory (SeenGives r) opening log →
        (full : List (HallCall C A M)) × (last : List (JournalEntry C A)) × IsHistory (HallGives r) (filled opening entries) full × (asks_of full ≡ asks_of log)
        × MayHave (meaning_after opening log).told last × (meaning_after (filled opening entries) full ≡ filled (meaning_after opening log) last) }
    ensures allowed { (r : ServiceRules C A M) (opening : SeenHall C A M) (asks : List (HallAsk C A)) →
        AllAllowed (SeenMay r) opening asks → AllAllowed (HallMay r) (filled opening []) asks }
    ensures suffices { (r : ServiceRules C A M) (opening : SeenHall C A M) (seat : ℕ) (log : List (SeenCall C A M)) (op : HallOperation C) →
        IsHistory (SeenGives r) opening log → AllAllowed (SeenMay r) opening (asks_of log) → SeenMay r opening seat (calls_by seat (asks_of log)) op →
        SeenCan r (meaning_after opening log) op }
{}

/// What the loop knows of its own calls alone, in mid-run. Where they were allowed in one history it collects what it submitted, once (`own`). So of each
/// connection its calls count what was submitted and collected (`numbers`), and all together, where no two of either are one call (`all`); it may submit the
/// next payload, as long as the hall took each job and no connection was given up while its payload was under way (`may`); and an outcome that it collects
/// next is that of a connection's last payload, the one that is under way (`answered`).
pub fn own_calls_tell_the_loop<C, A, M>()
    ensures own { (r : ServiceRules C A M) (opening : HallState C A M) (log : List (HallCall C A M)) →
        IsHistory (HallGives r) opening log → AllAllowed (HallMay r) opening (asks_of log) → CollectsItsOwn (calls_by 0 (asks_of log)) }
    ensures numbers { (max : ℕ) (weave : List (LoopItem C A)) (loop : Loop) → Weaves max no_loop weave loop → CollectsItsOwn (calls_in weave) → (c : ℕ) →
        (summed_calls (adds_of_conn c) (calls_in weave) ≡ (loop.conns c).submitted) × (summed_calls (frees_of_conn c) (calls_in weave) ≡ (loop.conns c).collected) }
    ensures all { (max : ℕ) (weave : List (LoopItem C A)) (loop : Loop) → Weaves max no_loop weave loop → CollectsItsOwn (calls_in weave) →
        (summed_calls adds_key (calls_in weave) ≡ all_submitted loop) × (summed_calls frees_key (calls_in weave) ≡ all_collected loop)
        × (all_submitted loop + all_collected loop ≤ length (calls_in weave)) }
    ensures may { (max : ℕ) (r : ServiceRules C A M) (opening : HallState C A M) (weave : List (LoopItem C A)) (loop next : Loop) (key : Key) (payload : List ℕ) (answer : HallAnswer A) →
        Weaves max no_loop weave loop → CollectsItsOwn (calls_in weave) → max ≤ longest_payload → NoneIsLeftBehind loop → summed_calls refuses_job (calls_in weave) ≡ 0 →
        LoopAsks {C = C} loop (submit key payload) answer next → OwnAsksAllow r opening 0 (calls_in weave) (submit key payload) }
    ensures answered { (max : ℕ) (weave : List (LoopItem C A)) (loop : Loop) (key : Key) (settled : Settled) →
        Weaves max no_loop weave loop → CollectsItsOwn (calls_in weave ++ seat_ask 0 collect (outcome key settled) ∷ []) →
        (key.c < loop.count) × (key.i ≡ (loop.conns key.c).collected) × ((loop.conns key.c).submitted ≡ suc key.i) × (length (loop.conns key.c).payloads ≡ suc key.i) }
{}

/// A newly opened hall is broken, or tells of a failed journal, only where its journal's count rose; and, where no other seat closes it without having been
/// told so, it is closed only where seat 0 has closed it or the count rose. Where it isn't broken the count is as it was.
pub fn trouble_shows<C, A, M>()
    ensures broken { (r : ServiceRules C A M) (opening : HallState C A M) (log : List (HallCall C A M)) → IsNewlyOpened opening → IsHistory (HallGives r) opening log →
        (meaning_after opening log).broken ≡ true → Rose opening.faults (meaning_after opening log).faults }
    ensures whole { (r : ServiceRules C A M) (opening : HallState C A M) (log : List (HallCall C A M)) → IsHistory (HallGives r) opening log →
        (meaning_after opening log).broken ≡ false → (meaning_after opening log).faults ≡ opening.faults }
    ensures told { (r : ServiceRules C A M) (opening : HallState C A M) (log : List (HallCall C A M)) → IsNewlyOpened opening → IsHistory (HallGives r) opening log →
        any_fault_told (asks_of log) ≡ true → Rose opening.faults (meaning_after opening log).faults }
    ensures closed { (r : ServiceRules C A M) (opening : HallState C A M) (log : List (HallCall C A M)) → IsNewlyOpened opening → IsHistory (HallGives r) opening log →
        ClosesWhereTold (asks_of log) → (meaning_after opening log).closed ≡ true →
        (any_of is_close (calls_by 0 (asks_of log)) ≡ true) ⊎ Rose opening.faults (meaning_after opening log).faults }
    ensures turns { (d : DeskRules C A) (asks : List (HallAsk C A)) → ((seat : ℕ) → seat ≢ 0 → OfTurns d (calls_by seat asks)) → ClosesWhereTold asks }
{}

/// At each front of the tape at most 1,024 connections are open, whatever the loop's own order is woven with.
pub fn open_at_fronts<C, A, M>()
    ensures run { (d : DeskRules C A) (r : ServiceRules C A M) (memories : List M) (first cell : Cell C A M) (events : List MachineEvent) →
        IsFirst memories first → EventsLead d r first events cell → (front back : List Mark) → cell.loop.tape ≡ front ++ back → IsWithinMost front }
    ensures weave { (max : ℕ) (weave : List (LoopItem C A)) (loop : Loop) → Weaves max no_loop weave loop → (front back : List Mark) → loop.tape ≡ front ++ back → IsWithinMost front }
{}

/// Runs and weaves go on at their end.
pub fn runs_go_on<C, A, M>()
    ensures run { (d : DeskRules C A) (r : ServiceRules C A M) (old mid new : Cell C A M) (events more : List MachineEvent) →
        EventsLead d r old events mid → EventsLead d r mid more new → EventsLead d r old (events ++ more) new }
    ensures weave { (max : ℕ) (old mid new : Loop) (items more : List (LoopItem C A)) →
        Weaves max old items mid → Weaves max mid more new → Weaves max old (items ++ more) new }
    ensures calls { (items more : List (LoopItem C A)) → calls_in (items ++ more) ≡ calls_in items ++ calls_in more }
{}

/// What holds of every cell that a run reaches: among others, the last payload of each connection is at exactly one place.
pub fn every_cell_keeps<C, A, M>()
    ensures { (d : DeskRules C A) (r : ServiceRules C A M) (memories : List M) (first cell : Cell C A M) (events : List MachineEvent) →
        d.max < 2 ^ 31 → IsFirst memories first → EventsLead d r first events cell → CellKeeps d r memories cell }
{
    every_world_stands::<C, A, M>();
}

/// Each step of a run asks what the hall can do, though no step demands it: the key is new and there is room for it, or it is
/// taken, and the slot is in range. At most 1,024 connections are open; the hall's keys are the payloads that were submitted
/// and not collected. So there is room as long as no connection was given up while its payload was under way.
pub fn every_step_can<C, A, M>()
    ensures most { (d : DeskRules C A) (r : ServiceRules C A M) (memories : List M) (first cell : Cell C A M) (events : List MachineEvent) →
        d.max < 2 ^ 31 → IsFirst memories first → EventsLead d r first events cell → open_among cell.loop.conns cell.loop.count ≤ most_connections }
    ensures keys { (d : DeskRules C A) (r : ServiceRules C A M) (memories : List M) (first cell : Cell C A M) (events : List MachineEvent) →
        d.max < 2 ^ 31 → IsFirst memories first → EventsLead d r first events cell →
        length (keys_in cell.hall) + all_collected cell.loop ≡ all_submitted cell.loop }
    ensures asked_by_loop { (d : DeskRules C A) (r : ServiceRules C A M) (memories : List M) (first cell : Cell C A M) (events : List MachineEvent)
        (op : HallOperation C) (answer : HallAnswer A) (loop : Loop) →
        d.max ≤ longest_payload → IsFirst memories first → EventsLead d r first events cell → NoneIsLeftBehind cell.loop →
        LoopAsks cell.loop op answer loop → HallCan r cell.hall op }
    ensures asked_by_worker { (d : DeskRules C A) (r : ServiceRules C A M) (memories : List M) (first cell : Cell C A M) (events : List MachineEvent)
        (w : ℕ) (op : HallOperation C) (answer : HallAnswer A) (worker : WorkerState A) →
        d.max < 2 ^ 31 → IsFirst memories first → EventsLead d r first events cell → HasItsService d r (length memories) →
        WorkerAsks d (cell.workers w) op answer worker → HallCan r cell.hall op }
{
    every_world_stands::<C, A, M>();
}

/// The journal of every run is a legal history, its calls stand in order, and each connection has had a whole conversation.
pub fn every_run_meets<C, A, M>()
    ensures { (d : DeskRules C A) (r : ServiceRules C A M) (memories : List M) (first cell : Cell C A M) (events : List MachineEvent) (causes : List EndCause) →
        d.max < 2 ^ 31 → IsFirst memories first → EventsLead d r first events cell → HaveAllEnded cell.loop causes →
        Headline d r memories cell.loop.tape cell.hall.journal causes }
{
    every_world_stands::<C, A, M>();
    every_world_meets::<C, A, M>();
}

/// One history of the hall, and the loop's own order, are a run of the machine, and so meet what every run meets.
pub fn one_history_runs<C, A, M>()
    ensures run { (d : DeskRules C A) (r : ServiceRules C A M) (memories : List M) (opening : HallState C A M) (log : List (HallCall C A M)) (weave : List (LoopItem C A)) (loop : Loop) →
        IsOneHistory d r memories opening log weave loop →
        (cell : Cell C A M) × EventsLead d r (cell_at_first opening) (map event_of (merge (asks_of log) weave)) cell × (cell.loop ≡ loop) × (cell.hall ≡ meaning_after opening log) }
    ensures headline { (d : DeskRules C A) (r : ServiceRules C A M) (memories : List M) (opening : HallState C A M) (log : List (HallCall C A M)) (weave : List (LoopItem C A))
        (loop : Loop) (causes : List EndCause) →
        d.max < 2 ^ 31 → IsOneHistory d r memories opening log weave loop → HaveAllEnded loop causes →
        Headline d r memories loop.tape (meaning_after opening log).journal causes }
{
    every_run_meets::<C, A, M>();
}

/// What the plain machine computes is a run of the events that it is told.
pub fn plain_machine_runs<C, A, M>()
    ensures { (d : DeskRules C A) (r : ServiceRules C A M) (first cell : Cell C A M) (told : List Told) →
        d.max < 2 ^ 31 → run_plain d r told (Some first) ≡ Some cell → EventsLead d r first (map event_told told) cell }
{
    less_than_a_frame();
}
