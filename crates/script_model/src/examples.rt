//! Scripts of a tiny desk and what their rehearsals come to, each the contract of a function that does nothing.

ghost use Rattle.std.specs.Prelude.{◌≡◌, ℕ, None, List, [], ◌∷◌, ◌++◌};
ghost use Rattle.host_model.specs.declared.cause.EndCause.{EndCause};
ghost use Rattle.streams.specs.declared.marks.Mark.{Mark};
ghost use Rattle.streams.specs.declared.marks.Mark.TheVariants.{Opened, Read, Ended, Wrote, ReadFailed, WriteFailed, Closed};
ghost use Rattle.host_model.specs.declared.cause.EndCause.TheVariants.{End, Cut, ReadFault, WriteFault, NoMemory};
ghost use Rattle.host_model.specs.Journal.{JournalEntry};
ghost use Rattle.host_model.specs.TinyDesk.{tiny_desk, counting, tiny_entry, size_of_one};
ghost use Rattle.script_model.specs.ScriptLines.{opening, piece, input_end, input_fault, resting, turn_of_conn, turn_of_worker, turn_of_outcome, takes_most, blocks, fails};
ghost use Rattle.script_model.specs.RestLines.{IsOverBudget};
ghost use Rattle.script_model.specs.Fed.{IsFedBy};
ghost use Rattle.script_model.specs.Playing.{always_ample, lacking, lacking_for_call, lacking_for_answer};
ghost use Rattle.script_model.specs.Rehearsing.{rehearsal};
ghost use Rattle.script_model.specs.Rows.{tiny_script, frame_of_one, RehearsesTo, RehearsesWith, EndsWith, ShowsAll, closed_at_first, once, ComesToNoRest};

/// Rehearsals as they go: no line; an input that ends inside a size; a budget of one frame, for which a second connection is held until the first one's call is
/// collected; a write of one byte and one that fails, with a block between them; two workers that overtake each other, on schedule; a worker that does a whole job
/// while another one holds its own; a rest between two calls; a read that fails after its pieces; and a rest at which the second connection is held, so that its
/// piece is read after the opening of a third.
pub fn rehearsals()
    ensures nothing { RehearsesTo 2 0 (tiny_script [] []) [] [] [] }
    ensures cut_in_a_size { RehearsesTo 2 1 (tiny_script (opening ∷ piece 0 (0 ∷ 0 ∷ []) ∷ input_end 0 ∷ []) [])
        (Opened 0 ∷ Read 0 (0 ∷ 0 ∷ []) ∷ Ended 0 ∷ Closed 0 ∷ []) [] (Cut ∷ []) }
    ensures held_for_the_budget { RehearsesTo 1 1 (tiny_script (opening ∷ opening ∷ piece 0 (frame_of_one 1) ∷ piece 1 (frame_of_one 1) ∷ input_end 0 ∷ input_end 1 ∷ []) [])
        (Opened 0 ∷ Opened 1 ∷ Read 0 size_of_one ∷ Read 0 (1 ∷ []) ∷ Read 1 size_of_one ∷ Wrote 0 (5 ∷ 5 ∷ []) ∷ Ended 0 ∷ Closed 0 ∷ Read 1 (1 ∷ [])
        ∷ Wrote 1 (6 ∷ 6 ∷ []) ∷ Ended 1 ∷ Closed 1 ∷ [])
        (tiny_entry 0 5 ∷ tiny_entry 1 6 ∷ []) (End ∷ End ∷ []) }
    ensures write_rules { RehearsesTo 2 0 (tiny_script (opening ∷ piece 0 (frame_of_one 1) ∷ input_end 0 ∷ []) (takes_most 1 ∷ blocks ∷ fails ∷ []))
        (Opened 0 ∷ Read 0 size_of_one ∷ Read 0 (1 ∷ []) ∷ Wrote 0 (5 ∷ []) ∷ WriteFailed 0 ∷ Closed 0 ∷ [])
        (tiny_entry 0 5 ∷ []) (WriteFault ∷ []) }
    ensures on_schedule { RehearsesTo 2 2 (tiny_script (opening ∷ opening ∷ piece 0 (frame_of_one 1) ∷ piece 1 (frame_of_one 1) ∷ input_end 0 ∷ input_end 1
        ∷ turn_of_conn 0 ∷ turn_of_conn 0 ∷ turn_of_conn 0 ∷ turn_of_conn 0 ∷ turn_of_conn 1 ∷ turn_of_conn 1 ∷ turn_of_conn 1 ∷ turn_of_conn 1
        ∷ turn_of_worker 0 ∷ turn_of_worker 1 ∷ turn_of_worker 1 ∷ turn_of_worker 0 ∷ []) [])
        (Opened 0 ∷ Opened 1 ∷ Read 0 size_of_one ∷ Read 0 (1 ∷ []) ∷ Read 1 size_of_one ∷ Read 1 (1 ∷ []) ∷ Wrote 0 (6 ∷ 6 ∷ []) ∷ Ended 0 ∷ Closed 0
        ∷ Wrote 1 (5 ∷ 5 ∷ []) ∷ Ended 1 ∷ Closed 1 ∷ [])
        (tiny_entry 1 5 ∷ tiny_entry 0 6 ∷ []) (End ∷ End ∷ []) }
    ensures whole_job { RehearsesTo 2 2 (tiny_script (opening ∷ opening ∷ piece 0 (frame_of_one 1) ∷ piece 1 (frame_of_one 1) ∷ input_end 0 ∷ input_end 1
        ∷ turn_of_conn 1 ∷ turn_of_conn 1 ∷ turn_of_conn 1 ∷ turn_of_conn 1 ∷ turn_of_conn 0 ∷ turn_of_conn 0 ∷ turn_of_conn 0 ∷ turn_of_conn 0 ∷ turn_of_worker 1 ∷ []) [])
        (Opened 0 ∷ Opened 1 ∷ Read 1 size_of_one ∷ Read 1 (1 ∷ []) ∷ Read 0 size_of_one ∷ Read 0 (1 ∷ []) ∷ Wrote 0 (5 ∷ 5 ∷ []) ∷ Ended 0 ∷ Closed 0
        ∷ Wrote 1 (6 ∷ 6 ∷ []) ∷ Ended 1 ∷ Closed 1 ∷ [])
        (tiny_entry 0 5 ∷ tiny_entry 1 6 ∷ []) (End ∷ End ∷ []) }
    ensures rest_between { RehearsesTo 2 1 (tiny_script (opening ∷ opening ∷ piece 1 (frame_of_one 1) ∷ resting ∷ piece 0 (frame_of_one 1) ∷ input_end 0 ∷ input_end 1 ∷ []) [])
        (Opened 0 ∷ Opened 1 ∷ Read 1 size_of_one ∷ Read 1 (1 ∷ []) ∷ Wrote 1 (5 ∷ 5 ∷ []) ∷ Read 0 size_of_one ∷ Read 0 (1 ∷ []) ∷ Ended 1 ∷ Closed 1 ∷ Wrote 0 (6 ∷ 6 ∷ [])
        ∷ Ended 0 ∷ Closed 0 ∷ [])
        (tiny_entry 1 5 ∷ tiny_entry 0 6 ∷ []) (End ∷ End ∷ []) }
    ensures read_fails { RehearsesTo 2 1 (tiny_script (opening ∷ piece 0 (0 ∷ []) ∷ input_fault 0 ∷ turn_of_outcome ∷ []) [])
        (Opened 0 ∷ Read 0 (0 ∷ []) ∷ ReadFailed 0 ∷ Closed 0 ∷ []) [] (ReadFault ∷ []) }
    ensures held_at_a_rest { RehearsesTo 1 1 (tiny_script (opening ∷ opening ∷ piece 0 size_of_one ∷ piece 1 (frame_of_one 1) ∷ resting ∷ opening ∷ piece 0 (1 ∷ [])
        ∷ input_end 0 ∷ input_end 1 ∷ input_end 2 ∷ []) [])
        (Opened 0 ∷ Opened 1 ∷ Read 0 size_of_one ∷ Read 1 size_of_one ∷ Opened 2 ∷ Read 0 (1 ∷ []) ∷ Ended 2 ∷ Closed 2 ∷ Wrote 0 (5 ∷ 5 ∷ []) ∷ Ended 0 ∷ Closed 0
        ∷ Read 1 (1 ∷ []) ∷ Wrote 1 (6 ∷ 6 ∷ []) ∷ Ended 1 ∷ Closed 1 ∷ [])
        (tiny_entry 0 5 ∷ tiny_entry 1 6 ∷ []) (End ∷ End ∷ End ∷ []) }
{}

/// Rehearsals in which memory runs out: for the only frame, when it is to be admitted; for a decision, or a reply, after which the connection ends; for a call,
/// which isn't made; and for the copy of its answer, which leaves the call in the journal.
pub fn rehearsals_without_memory()
    ensures for_a_frame { RehearsesWith (once 2 lacking) 2 1 (tiny_script (opening ∷ piece 0 (frame_of_one 1) ∷ input_end 0 ∷ []) [])
        (Opened 0 ∷ Read 0 size_of_one ∷ Closed 0 ∷ []) [] (NoMemory ∷ []) }
    ensures for_a_decision { RehearsesWith (once 6 lacking) 2 1 (tiny_script (opening ∷ piece 0 (frame_of_one 1) ∷ input_end 0 ∷ []) [])
        (Opened 0 ∷ Read 0 size_of_one ∷ Read 0 (1 ∷ []) ∷ Closed 0 ∷ []) [] (NoMemory ∷ []) }
    ensures for_a_call { RehearsesWith (once 6 lacking_for_call) 2 1 (tiny_script (opening ∷ piece 0 (frame_of_one 1) ∷ input_end 0 ∷ []) [])
        (Opened 0 ∷ Read 0 size_of_one ∷ Read 0 (1 ∷ []) ∷ Closed 0 ∷ []) [] (NoMemory ∷ []) }
    ensures for_an_answer { RehearsesWith (once 6 lacking_for_answer) 2 1 (tiny_script (opening ∷ piece 0 (frame_of_one 1) ∷ input_end 0 ∷ []) [])
        (Opened 0 ∷ Read 0 size_of_one ∷ Read 0 (1 ∷ []) ∷ Closed 0 ∷ []) (tiny_entry 0 5 ∷ []) (NoMemory ∷ []) }
    ensures for_a_reply { RehearsesWith (once 7 lacking) 2 1 (tiny_script (opening ∷ piece 0 (frame_of_one 1) ∷ input_end 0 ∷ []) [])
        (Opened 0 ∷ Read 0 size_of_one ∷ Read 0 (1 ∷ []) ∷ Closed 0 ∷ []) (tiny_entry 0 5 ∷ []) (NoMemory ∷ []) }
{}

/// Rehearsals that leave a connection open, each for one thing that its script or the budget lacks: its input never ends; a piece is empty, or of what is no
/// byte; a write may take nothing; a worker that there isn't has its job; and no budget has room for its frame.
pub fn rehearsals_that_leave_one_open()
    ensures no_end { EndsWith 2 1 (tiny_script (opening ∷ piece 0 (frame_of_one 1) ∷ []) []) (None ∷ []) }
    ensures empty_piece { EndsWith 2 1 (tiny_script (opening ∷ piece 0 [] ∷ input_end 0 ∷ []) []) (None ∷ []) }
    ensures no_bytes { EndsWith 2 1 (tiny_script (opening ∷ piece 0 (0 ∷ 0 ∷ 0 ∷ 256 ∷ []) ∷ input_end 0 ∷ []) []) (None ∷ []) }
    ensures empty_write { EndsWith 2 1 (tiny_script (opening ∷ piece 0 (frame_of_one 1) ∷ input_end 0 ∷ []) (takes_most 0 ∷ [])) (None ∷ []) }
    ensures no_such_worker { EndsWith 2 1 (tiny_script (opening ∷ piece 0 (frame_of_one 1) ∷ input_end 0 ∷ turn_of_conn 0 ∷ turn_of_conn 0 ∷ turn_of_conn 0 ∷ turn_of_conn 0
        ∷ turn_of_worker 1 ∷ []) []) (None ∷ []) }
    ensures no_room { EndsWith 0 1 (tiny_script (opening ∷ piece 0 (frame_of_one 1) ∷ input_end 0 ∷ []) []) (None ∷ []) }
{}

/// Runs that their scripts don't feed: a read goes over a piece's end; a write passes over its rule; an input ends that the script says fails; a connection
/// that is opened after a rest is opened before what came before the rest was read; and the same where a size that no frame has was read on another one,
/// which is no size to be over the budget by; and an input that ends after a rest has ended before what came before the rest was read.
pub fn runs_that_are_not_fed()
    ensures read_over_a_piece { (journal : List (JournalEntry ℕ ℕ)) (back : List Mark) →
        IsFedBy tiny_desk 2 (tiny_script (opening ∷ piece 0 (0 ∷ 0 ∷ []) ∷ piece 0 (0 ∷ 1 ∷ 1 ∷ []) ∷ input_end 0 ∷ []) []) (Opened 0 ∷ Read 0 size_of_one ∷ back) journal → ⊥ }
    ensures rule_passed_over { (journal : List (JournalEntry ℕ ℕ)) (back : List Mark) →
        IsFedBy tiny_desk 2 (tiny_script (opening ∷ piece 0 (frame_of_one 1) ∷ input_end 0 ∷ []) (blocks ∷ takes_most 1 ∷ []))
        (Opened 0 ∷ Read 0 size_of_one ∷ Read 0 (1 ∷ []) ∷ Wrote 0 (5 ∷ 5 ∷ []) ∷ back) journal → ⊥ }
    ensures ended_in_place_of_a_fault { (journal : List (JournalEntry ℕ ℕ)) (back : List Mark) →
        IsFedBy tiny_desk 2 (tiny_script (opening ∷ input_fault 0 ∷ []) []) (Opened 0 ∷ Ended 0 ∷ back) journal → ⊥ }
    ensures opened_before_the_rest { (journal : List (JournalEntry ℕ ℕ)) (back : List Mark) →
        IsFedBy tiny_desk 2 (tiny_script (opening ∷ piece 0 (frame_of_one 1) ∷ resting ∷ opening ∷ input_end 0 ∷ input_end 1 ∷ []) []) (Opened 0 ∷ Opened 1 ∷ back) journal → ⊥ }
    ensures rest_beside_a_bad_size { (journal : List (JournalEntry ℕ ℕ)) (back : List Mark) →
        IsFedBy tiny_desk 2 (tiny_script (opening ∷ opening ∷ piece 0 (255 ∷ 255 ∷ 255 ∷ 255 ∷ []) ∷ piece 1 (frame_of_one 1) ∷ resting ∷ opening ∷ piece 2 (frame_of_one 1)
        ∷ input_end 0 ∷ input_end 1 ∷ input_end 2 ∷ []) [])
        (Opened 0 ∷ Opened 1 ∷ Read 0 (255 ∷ 255 ∷ 255 ∷ 255 ∷ []) ∷ Closed 0 ∷ Opened 2 ∷ back) journal → ⊥ }
    ensures ended_before_the_rest { (journal : List (JournalEntry ℕ ℕ)) (back : List Mark) →
        IsFedBy tiny_desk 2 (tiny_script (opening ∷ opening ∷ piece 0 (frame_of_one 1) ∷ resting ∷ input_end 0 ∷ input_end 1 ∷ []) [])
        (Opened 0 ∷ Opened 1 ∷ Ended 1 ∷ Closed 1 ∷ back) journal → ⊥ }
{}

/// After the sizes of two frames of one byte, on a budget of one byte, a line of rest asks nothing of what was read.
pub fn a_front_over_the_budget()
    ensures { IsOverBudget 1 1 (Opened 0 ∷ Opened 1 ∷ Read 0 size_of_one ∷ Read 1 size_of_one ∷ []) }
{}

/// Rehearsals that don't come to rest at a line of rest, each for one thing that `a_rehearsal_is_fed` asks of the script or the services: a piece is empty, or
/// of what is no byte, so that what stands behind it is never read; a write may take nothing; a worker that there isn't has the job; and a call has no service.
/// The connection is open, and its bytes aren't read or its reply isn't written, when the next one is opened.
pub fn rehearsals_without_rest()
    ensures empty_piece { ComesToNoRest (5 ∷ []) 2 1 (tiny_script (opening ∷ piece 0 [] ∷ piece 0 (frame_of_one 1) ∷ resting ∷ opening ∷ input_end 0 ∷ input_end 1 ∷ []) [])
        (Opened 0 ∷ Opened 1 ∷ Ended 1 ∷ Closed 1 ∷ []) [] }
    ensures no_bytes { ComesToNoRest (5 ∷ []) 2 1 (tiny_script (opening ∷ piece 0 (0 ∷ 0 ∷ 0 ∷ 256 ∷ []) ∷ resting ∷ opening ∷ input_end 0 ∷ input_end 1 ∷ []) [])
        (Opened 0 ∷ Opened 1 ∷ Ended 1 ∷ Closed 1 ∷ []) [] }
    ensures empty_write { ComesToNoRest (5 ∷ []) 2 1 (tiny_script (opening ∷ piece 0 (frame_of_one 1) ∷ resting ∷ opening ∷ input_end 0 ∷ input_end 1 ∷ []) (takes_most 0 ∷ []))
        (Opened 0 ∷ Read 0 size_of_one ∷ Read 0 (1 ∷ []) ∷ Opened 1 ∷ Ended 1 ∷ Closed 1 ∷ []) (tiny_entry 0 5 ∷ []) }
    ensures no_such_worker { ComesToNoRest (5 ∷ []) 2 1 (tiny_script (opening ∷ piece 0 (frame_of_one 1 ++ 0 ∷ []) ∷ turn_of_conn 0 ∷ turn_of_conn 0 ∷ turn_of_conn 0 ∷ turn_of_conn 0
        ∷ turn_of_worker 1 ∷ resting ∷ opening ∷ input_end 0 ∷ input_end 1 ∷ []) [])
        (Opened 0 ∷ Read 0 size_of_one ∷ Read 0 (1 ∷ []) ∷ Opened 1 ∷ Ended 1 ∷ Closed 1 ∷ []) [] }
    ensures no_service { ComesToNoRest [] 2 1 (tiny_script (opening ∷ piece 0 (frame_of_one 1 ++ 0 ∷ []) ∷ resting ∷ opening ∷ input_end 0 ∷ input_end 1 ∷ []) [])
        (Opened 0 ∷ Read 0 size_of_one ∷ Read 0 (1 ∷ []) ∷ Opened 1 ∷ Ended 1 ∷ Closed 1 ∷ []) [] }
{}

/// On a hall that is closed a script with one call has no rehearsal, whatever number of steps: its payload is submitted for ever. So the law asks for one that
/// isn't.
pub fn a_closed_hall_has_no_rehearsal()
    ensures { (fuel : ℕ) →
        rehearsal tiny_desk counting always_ample fuel 2 1 (tiny_script (opening ∷ piece 0 (frame_of_one 1) ∷ input_end 0 ∷ []) []) closed_at_first ≡ None }
{}

/// What shows of the rehearsal of one call (`shows`), and nothing else does (`no_other`).
pub fn what_shows_of_a_call()
    ensures shows { ShowsAll 2 1 (tiny_script (opening ∷ piece 0 (frame_of_one 1) ∷ input_end 0 ∷ []) [])
        (Opened 0 ∷ Read 0 size_of_one ∷ Read 0 (1 ∷ []) ∷ Wrote 0 (5 ∷ 5 ∷ []) ∷ Ended 0 ∷ Closed 0 ∷ []) (tiny_entry 0 5 ∷ []) (End ∷ []) }
    ensures no_other { (tape : List Mark) (journal : List (JournalEntry ℕ ℕ)) (causes : List EndCause) →
        ShowsAll 2 1 (tiny_script (opening ∷ piece 0 (frame_of_one 1) ∷ input_end 0 ∷ []) []) tape journal causes →
        (tape ≡ Opened 0 ∷ Read 0 size_of_one ∷ Read 0 (1 ∷ []) ∷ Wrote 0 (5 ∷ 5 ∷ []) ∷ Ended 0 ∷ Closed 0 ∷ []) × (journal ≡ tiny_entry 0 5 ∷ []) × (causes ≡ End ∷ []) }
{}
