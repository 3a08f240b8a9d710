//! Examples: small runs that the plain machine computes, and steps that there can't be, each the contract of a function
//! that does nothing.

ghost use Rattle.std.specs.Prelude.{◌≡◌, ℕ, true, false, None, Some, List, [], ◌∷◌, ◌++◌, map};
ghost use Rattle.streams.specs.declared.outcomes.EnvelopeFault.TheVariants.{Short};
ghost use Rattle.streams.specs.declared.outcomes.Settled.TheVariants.{Reply, Nothing, Close as Refused};
ghost use Rattle.streams.specs.declared.marks.Mark.{Mark};
ghost use Rattle.streams.specs.declared.marks.Mark.TheVariants.{Opened, Read, Ended, Wrote, WriteFailed, Closed};
ghost use Rattle.host_model.specs.declared.cause.EndCause.{EndCause};
ghost use Rattle.host_model.specs.Journal.{JournalEntry};
ghost use Rattle.host_model.specs.declared.cause.EndCause.TheVariants.{End, Envelope, WriteFault, Stopped};
ghost use Rattle.host_model.specs.TinyDesk.{tiny_desk, counting, tiny_entry, size_of_one, IsTinyRun};
ghost use Rattle.machine_model.specs.HallState.{key_of, HallState};
ghost use Rattle.machine_model.specs.HallRule.{take_job, submit, apply, put, collect, done, job, empty, is_closed, applied, no_memory, journal_fault, outcome, HallGives};
ghost use Rattle.machine_model.specs.Loop.{Loop, new_conn, opens, reads, ends, writes, fails_write, gives_up, with_cause, changed, Happens, LoopAsks};
ghost use Rattle.machine_model.specs.Worker.{WorkerState, holds, has_answer, has_none, WorkerAsks};
ghost use Rattle.machine_model.specs.Machine.{MachineEvent, HaveAllEnded, on_conn, submits, takes, applies, puts, collects};
ghost use Rattle.call_history.specs.History.{meaning_after};
ghost use Rattle.machine_model.specs.Merge.{IsOneHistory};
ghost use Rattle.machine_model.specs.TinyThreads.{small_history, small_weave, small_tape};
ghost use Rattle.machine_model.specs.Tiny.{tiny_hall, opens_one, sends_size, sends, works, calls, gets, leaves, LeadTo, loop_like, with_payload, two_jobs, two_outcomes};

use super::laws::{every_run_meets, one_history_runs, plain_machine_runs};
use host_model::laws::less_than_a_frame;

/// Runs as they go. A second connection's call is answered from the memory that the first one's left. A connection reads on
/// only after another's reply. A write takes a part of a reply, and the next one fails. Two workers take two jobs, and the
/// second one's call takes effect first. A head that is refused, a silent payload, a silent call and a reply without a call.
/// A job is taken after its connection was given up.
pub fn runs()
    ensures read_back { LeadTo
        (opens_one ++ opens_one ++ sends_size 0 ++ sends 0 1 ++ submits 0 ∷ calls 0 ++ collects ∷ gets 0 1 ++ gets 0 1
        ++ sends_size 1 ++ sends 1 1 ++ submits 1 ∷ calls 1 ++ collects ∷ gets 1 2 ++ leaves 0 ++ leaves 1)
        (Opened 0 ∷ Opened 1 ∷ Read 0 size_of_one ∷ Read 0 (1 ∷ []) ∷ Wrote 0 (5 ∷ []) ∷ Wrote 0 (5 ∷ []) ∷ Read 1 size_of_one ∷ Read 1 (1 ∷ []) ∷ Wrote 1 (6 ∷ 6 ∷ [])
        ∷ Ended 0 ∷ Closed 0 ∷ Ended 1 ∷ Closed 1 ∷ [])
        (tiny_entry 0 5 ∷ tiny_entry 1 6 ∷ []) (Some End ∷ Some End ∷ []) }
    ensures held_back { LeadTo
        (opens_one ++ opens_one ++ sends_size 0 ++ sends 0 1 ++ sends_size 1 ++ submits 0 ∷ calls 0 ++ collects ∷ gets 0 2 ++ leaves 0
        ++ sends 1 1 ++ submits 1 ∷ calls 0 ++ collects ∷ gets 1 2 ++ leaves 1)
        (Opened 0 ∷ Opened 1 ∷ Read 0 size_of_one ∷ Read 0 (1 ∷ []) ∷ Read 1 size_of_one ∷ Wrote 0 (5 ∷ 5 ∷ []) ∷ Ended 0 ∷ Closed 0 ∷ Read 1 (1 ∷ []) ∷ Wrote 1 (6 ∷ 6 ∷ [])
        ∷ Ended 1 ∷ Closed 1 ∷ [])
        (tiny_entry 0 5 ∷ tiny_entry 1 6 ∷ []) (Some End ∷ Some End ∷ []) }
    ensures write_fails { LeadTo
        (opens_one ++ sends_size 0 ++ sends 0 1 ++ submits 0 ∷ calls 0 ++ collects ∷ gets 0 1 ++ on_conn (fails_write 0) ∷ [])
        (Opened 0 ∷ Read 0 size_of_one ∷ Read 0 (1 ∷ []) ∷ Wrote 0 (5 ∷ []) ∷ WriteFailed 0 ∷ Closed 0 ∷ [])
        (tiny_entry 0 5 ∷ []) (Some WriteFault ∷ []) }
    ensures two_workers { LeadTo
        (opens_one ++ opens_one ++ sends_size 0 ++ sends 0 1 ++ submits 0 ∷ sends_size 1 ++ sends 1 1 ++ submits 1 ∷ takes 0 ∷ takes 1 ∷ applies 1 ∷ applies 0
        ∷ puts 0 ∷ puts 1 ∷ collects ∷ collects ∷ gets 0 2 ++ gets 1 2 ++ leaves 0 ++ leaves 1)
        (Opened 0 ∷ Opened 1 ∷ Read 0 size_of_one ∷ Read 0 (1 ∷ []) ∷ Read 1 size_of_one ∷ Read 1 (1 ∷ []) ∷ Wrote 0 (6 ∷ 6 ∷ []) ∷ Wrote 1 (5 ∷ 5 ∷ [])
        ∷ Ended 0 ∷ Closed 0 ∷ Ended 1 ∷ Closed 1 ∷ [])
        (tiny_entry 1 5 ∷ tiny_entry 0 6 ∷ []) (Some End ∷ Some End ∷ []) }
    ensures each_decision { LeadTo
        (opens_one ++ sends_size 0 ++ sends 0 3 ++ submits 0 ∷ works 0 ++ collects ∷ sends_size 0 ++ sends 0 5 ++ submits 0 ∷ calls 0 ++ collects
        ∷ sends_size 0 ++ sends 0 2 ++ submits 0 ∷ works 0 ++ collects ∷ gets 0 2 ++ sends_size 0 ++ sends 0 4 ++ submits 0 ∷ works 0 ++ collects ∷ [])
        (Opened 0 ∷ Read 0 size_of_one ∷ Read 0 (3 ∷ []) ∷ Read 0 size_of_one ∷ Read 0 (5 ∷ []) ∷ Read 0 size_of_one ∷ Read 0 (2 ∷ []) ∷ Wrote 0 (20 ∷ 21 ∷ []) ∷ Read 0 size_of_one ∷ Read 0 (4 ∷ [])
        ∷ Closed 0 ∷ [])
        (record { key = record { c = 0; i = 1 }; call = 11; answer = 5 } ∷ []) (Some (Envelope Short) ∷ []) }
    ensures called_after_it_stopped { LeadTo
        (opens_one ++ sends_size 0 ++ sends 0 1 ++ submits 0 ∷ takes 0 ∷ on_conn (gives_up 0 Stopped) ∷ applies 0 ∷ puts 0 ∷ collects ∷ [])
        (Opened 0 ∷ Read 0 size_of_one ∷ Read 0 (1 ∷ []) ∷ Closed 0 ∷ []) (tiny_entry 0 5 ∷ []) (Some Stopped ∷ []) }
{}

/// What the plain machine shows of a run of the tiny desk, in which each connection has ended, meets the headline.
pub fn shown_runs_meet()
    ensures { (events : List MachineEvent) (tape : List Mark) (journal : List (JournalEntry ℕ ℕ)) (causes : List EndCause) →
        LeadTo events tape journal (map Some causes) → IsTinyRun tape journal causes }
{
    plain_machine_runs::<u8, u8, u8>();
    every_run_meets::<u8, u8, u8>();
}

/// One history of the hall and the loop's own order: two connections, two workers, a payload in pieces, a reply in two writes,
/// both inputs end, and the hall is closed. So the premises of the law on one history can be met.
pub fn one_history()
    ensures is_one { (loop : Loop) × IsOneHistory tiny_desk counting (5 ∷ []) tiny_hall small_history small_weave loop × (loop.tape ≡ small_tape)
        × HaveAllEnded loop (End ∷ End ∷ []) }
    ensures journal { (meaning_after tiny_hall small_history).journal ≡ tiny_entry 1 5 ∷ tiny_entry 0 6 ∷ [] }
    ensures meets { IsTinyRun small_tape (tiny_entry 1 5 ∷ tiny_entry 0 6 ∷ []) (End ∷ End ∷ []) }
{
    less_than_a_frame();
    one_history_runs::<u8, u8, u8>();
}

/// What the loop can't do.
pub fn wrong_steps_of_the_loop()
    ensures one_too_many_open { (new : Loop) → Happens 2 (loop_like 1024 new_conn) opens new → ⊥ }
    ensures read_while_a_reply_is_unwritten { (new : Loop) → Happens 2 (loop_like 1 (with_payload 1 1 (5 ∷ []))) (reads 0 size_of_one) new → ⊥ }
    ensures read_while_a_payload_is_under_way { (new : Loop) → Happens 2 (loop_like 1 (with_payload 1 0 [])) (reads 0 size_of_one) new → ⊥ }
    ensures read_past_the_size { (new : Loop) → Happens 2 (loop_like 1 new_conn) (reads 0 (0 ∷ 0 ∷ 0 ∷ 1 ∷ 1 ∷ [])) new → ⊥ }
    ensures written_without_a_reply { (new : Loop) → Happens 2 (loop_like 1 (with_payload 1 1 [])) (writes 0 1) new → ⊥ }
    ensures ended_while_a_payload_is_under_way { (new : Loop) → Happens 2 (loop_like 1 (with_payload 1 0 [])) (ends 0) new → ⊥ }
    ensures given_up_as_at_its_end { (new : Loop) → Happens 2 (loop_like 1 new_conn) (gives_up 0 End) new → ⊥ }
    ensures given_up_without_its_mark { Happens 2 (loop_like 1 new_conn) (gives_up 0 Stopped) (changed (loop_like 1 new_conn) 0 (with_cause new_conn Stopped) []) → ⊥ }
    ensures refused_without_its_mark { LoopAsks {C = ℕ} {A = ℕ} (loop_like 1 (with_payload 1 0 [])) collect (outcome (key_of 0 0) (Refused Short))
        (changed (loop_like 1 (with_payload 1 0 [])) 0 (record (with_payload 1 1 []) { cause = Some (Envelope Short) }) []) → ⊥ }
    ensures submitted_twice { (new : Loop) → LoopAsks {C = ℕ} {A = ℕ} (loop_like 1 (with_payload 1 0 [])) (submit (key_of 0 0) (1 ∷ [])) done new → ⊥ }
    ensures submitted_with_another_number { (new : Loop) → LoopAsks {C = ℕ} {A = ℕ} (loop_like 1 (with_payload 0 0 [])) (submit (key_of 0 1) (1 ∷ [])) done new → ⊥ }
    ensures submitted_with_another_payload { (new : Loop) → LoopAsks {C = ℕ} {A = ℕ} (loop_like 1 (with_payload 0 0 [])) (submit (key_of 0 0) (2 ∷ [])) done new → ⊥ }
{}

/// What the hall can't answer.
pub fn wrong_answers_of_the_hall()
    ensures taken_out_of_order { (new : HallState ℕ ℕ ℕ) → HallGives counting (record tiny_hall { jobs = two_jobs }) take_job (job (key_of 1 0) (1 ∷ [])) new → ⊥ }
    ensures collected_out_of_order { (new : HallState ℕ ℕ ℕ) → HallGives counting (record tiny_hall { outcomes = two_outcomes }) collect (outcome (key_of 1 0) Nothing) new → ⊥ }
    ensures closed_before_the_last_job { (new : HallState ℕ ℕ ℕ) → HallGives counting (record tiny_hall { jobs = two_jobs; closed = true }) take_job is_closed new → ⊥ }
    ensures closed_before_the_last_outcome { (new : HallState ℕ ℕ ℕ) → HallGives counting (record tiny_hall { outcomes = two_outcomes; closed = true }) collect is_closed new → ⊥ }
    ensures empty_and_closed { (new : HallState ℕ ℕ ℕ) → HallGives counting (record tiny_hall { closed = true }) take_job empty new → ⊥ }
    ensures closed_and_open { (new : HallState ℕ ℕ ℕ) → HallGives counting tiny_hall take_job is_closed new → ⊥ }
    ensures submitted_to_a_closed_hall { (new : HallState ℕ ℕ ℕ) → HallGives counting (record tiny_hall { closed = true }) (submit (key_of 0 0) (1 ∷ [])) done new → ⊥ }
    ensures another_answer { (new : HallState ℕ ℕ ℕ) → HallGives counting tiny_hall (apply (key_of 0 0) 10) (applied 6) new → ⊥ }
    ensures called_after_a_fault { (new : HallState ℕ ℕ ℕ) → HallGives counting (record tiny_hall { broken = true }) (apply (key_of 0 0) 10) (applied 5) new → ⊥ }
    ensures fault_without_a_cause { HallGives counting tiny_hall (apply (key_of 0 0) 10) journal_fault (record tiny_hall { memories = 6 ∷ []; broken = true }) → ⊥ }
    ensures fault_untold { (new : HallState ℕ ℕ ℕ) → new.faults ≡ 1 → HallGives counting tiny_hall (apply (key_of 0 0) 10) (applied 5) new → ⊥ }
    ensures fault_forgotten { (new : HallState ℕ ℕ ℕ) → HallGives counting (record tiny_hall { broken = true }) (apply (key_of 0 0) 10) no_memory new → ⊥ }
{}

/// What a worker can't ask.
pub fn wrong_steps_of_a_worker()
    ensures taken_with_a_job_in_worker { (worker : WorkerState ℕ) → WorkerAsks tiny_desk (holds (key_of 0 0) (1 ∷ [])) take_job empty worker → ⊥ }
    ensures applied_twice { (worker : WorkerState ℕ) → WorkerAsks tiny_desk (has_answer (key_of 0 0) (1 ∷ []) 5) (apply (key_of 0 0) 10) (applied 6) worker → ⊥ }
    ensures tried_again { (worker : WorkerState ℕ) → WorkerAsks tiny_desk (has_none (key_of 0 0) (1 ∷ [])) (apply (key_of 0 0) 10) (applied 5) worker → ⊥ }
    ensures silent_payload_is_called { (worker : WorkerState ℕ) → WorkerAsks tiny_desk (holds (key_of 0 0) (3 ∷ [])) (apply (key_of 0 0) 10) (applied 5) worker → ⊥ }
    ensures another_call { (worker : WorkerState ℕ) → WorkerAsks tiny_desk (holds (key_of 0 0) (1 ∷ [])) (apply (key_of 0 0) 11) (applied 5) worker → ⊥ }
    ensures applied_under_another_key { (worker : WorkerState ℕ) → WorkerAsks tiny_desk (holds (key_of 0 0) (1 ∷ [])) (apply (key_of 1 0) 10) (applied 5) worker → ⊥ }
    ensures put_under_another_key { (worker : WorkerState ℕ) → WorkerAsks tiny_desk (holds (key_of 0 0) (2 ∷ [])) (put (key_of 1 0) (Reply (20 ∷ 21 ∷ []))) done worker → ⊥ }
    ensures put_with_another_outcome { (worker : WorkerState ℕ) → WorkerAsks tiny_desk (holds (key_of 0 0) (2 ∷ [])) (put (key_of 0 0) (Reply (5 ∷ 5 ∷ []))) done worker → ⊥ }
    ensures put_without_a_call { (worker : WorkerState ℕ) → WorkerAsks tiny_desk (holds (key_of 0 0) (1 ∷ [])) (put (key_of 0 0) (Reply (5 ∷ 5 ∷ []))) done worker → ⊥ }
    ensures oneway_is_answered { (worker : WorkerState ℕ) → WorkerAsks tiny_desk (has_answer (key_of 0 0) (5 ∷ []) 7) (put (key_of 0 0) (Reply (7 ∷ 7 ∷ []))) done worker → ⊥ }
    ensures call_is_not_answered { (worker : WorkerState ℕ) → WorkerAsks tiny_desk (has_answer (key_of 0 0) (1 ∷ []) 7) (put (key_of 0 0) Nothing) done worker → ⊥ }
{}
