//! Examples: runs of a tiny desk, each the contract of a function that does nothing.

ghost use Rattle.std.specs.Prelude.{◌≡◌, pos, List, [], ◌∷◌};
ghost use Rattle.streams.specs.declared.outcomes.EnvelopeFault.TheVariants.{Short};
ghost use Rattle.streams.specs.declared.marks.Mark.TheVariants.{Opened, Read, Ended, Wrote, ReadFailed, WriteFailed, Closed};
ghost use Rattle.host_model.specs.declared.cause.EndCause.TheVariants.{End, Cut, SizeFault, Envelope, ReadFault, WriteFault, Stopped};
ghost use Rattle.host_model.specs.Journal.{Legal};
ghost use Rattle.host_model.specs.Conversation.{called, sent};
ghost use Rattle.host_model.specs.TinyDesk.{tiny_desk, counting, tiny_entry, size_of_one, IsTinyRun};

/// What five payloads call and are sent: calls have the numbers of their frames, and a silent one has no reply.
pub fn calls_and_replies()
    ensures calls { called tiny_desk 0 ((1 ∷ []) ∷ (2 ∷ []) ∷ (3 ∷ []) ∷ (5 ∷ []) ∷ (1 ∷ []) ∷ []) ≡ (0, 10) ∷ (3, 11) ∷ (4, 10) ∷ [] }
    ensures replies { sent tiny_desk (record { key = record { c = 7; i = 0 }; call = 10; answer = 5 } ∷ record { key = record { c = 7; i = 3 }; call = 11; answer = 6 } ∷ []) 0
        ((1 ∷ []) ∷ (2 ∷ []) ∷ (3 ∷ []) ∷ (5 ∷ []) ∷ (1 ∷ []) ∷ []) ≡ 5 ∷ 5 ∷ 20 ∷ 21 ∷ [] }
{}

/// Of two calls the second is answered by the memory that the first one left.
pub fn histories()
    ensures counted { Legal counting (5 ∷ []) (tiny_entry 0 5 ∷ tiny_entry 1 6 ∷ []) }
    ensures forgotten { Legal counting (5 ∷ []) (tiny_entry 0 5 ∷ tiny_entry 1 5 ∷ []) → ⊥ }
{}

/// Runs as they go: a connection is opened, sends a frame, is called, gets the reply in two writes, and ends; and one that the host stops while its
/// frame is pending, whose call then stands in the journal all the same.
pub fn runs()
    ensures replied { IsTinyRun (Opened 0 ∷ Read 0 size_of_one ∷ Read 0 (1 ∷ []) ∷ Wrote 0 (5 ∷ []) ∷ Wrote 0 (5 ∷ []) ∷ Ended 0 ∷ Closed 0 ∷ [])
        (tiny_entry 0 5 ∷ []) (End ∷ []) }
    ensures stopped { IsTinyRun (Opened 0 ∷ Read 0 (0 ∷ 0 ∷ 0 ∷ 1 ∷ 1 ∷ []) ∷ Closed 0 ∷ []) (tiny_entry 0 5 ∷ []) (Stopped ∷ []) }
{}

/// Runs that there can't be.
pub fn wrong_runs()
    ensures called_twice { IsTinyRun (Opened 0 ∷ Read 0 size_of_one ∷ Read 0 (1 ∷ []) ∷ Wrote 0 (5 ∷ 5 ∷ []) ∷ Ended 0 ∷ Closed 0 ∷ [])
        (tiny_entry 0 5 ∷ tiny_entry 0 6 ∷ []) (End ∷ []) → ⊥ }
    ensures wrong_number { IsTinyRun (Opened 0 ∷ Read 0 (0 ∷ 0 ∷ 0 ∷ 1 ∷ 5 ∷ []) ∷ Ended 0 ∷ Closed 0 ∷ [])
        (record { key = record { c = 0; i = 1 }; call = 11; answer = 5 } ∷ []) (End ∷ []) → ⊥ }
    ensures replied_twice { IsTinyRun (Opened 0 ∷ Read 0 size_of_one ∷ Read 0 (1 ∷ []) ∷ Wrote 0 (5 ∷ 5 ∷ []) ∷ Wrote 0 (5 ∷ 5 ∷ []) ∷ Ended 0 ∷ Closed 0 ∷ [])
        (tiny_entry 0 5 ∷ []) (End ∷ []) → ⊥ }
    ensures not_replied { IsTinyRun (Opened 0 ∷ Read 0 size_of_one ∷ Read 0 (1 ∷ []) ∷ Ended 0 ∷ Closed 0 ∷ []) (tiny_entry 0 5 ∷ []) (End ∷ []) → ⊥ }
    ensures another_answer { IsTinyRun (Opened 0 ∷ Read 0 size_of_one ∷ Read 0 (1 ∷ []) ∷ Wrote 0 (6 ∷ 6 ∷ []) ∷ Ended 0 ∷ Closed 0 ∷ [])
        (tiny_entry 0 6 ∷ []) (End ∷ []) → ⊥ }
    ensures end_in_a_frame { IsTinyRun (Opened 0 ∷ Read 0 size_of_one ∷ Ended 0 ∷ Closed 0 ∷ []) [] (End ∷ []) → ⊥ }
    ensures cut_behind_a_frame { IsTinyRun (Opened 0 ∷ Read 0 size_of_one ∷ Read 0 (1 ∷ []) ∷ Wrote 0 (5 ∷ 5 ∷ []) ∷ Ended 0 ∷ Closed 0 ∷ [])
        (tiny_entry 0 5 ∷ []) (Cut ∷ []) → ⊥ }
    ensures good_size_refused { IsTinyRun (Opened 0 ∷ Read 0 size_of_one ∷ Closed 0 ∷ []) [] (SizeFault (pos 1) ∷ []) → ⊥ }
    ensures not_closed { IsTinyRun (Opened 0 ∷ Read 0 size_of_one ∷ Read 0 (1 ∷ []) ∷ Wrote 0 (5 ∷ 5 ∷ []) ∷ Ended 0 ∷ []) (tiny_entry 0 5 ∷ []) (End ∷ []) → ⊥ }
    ensures replied_before_it_is_whole { IsTinyRun (Opened 0 ∷ Read 0 size_of_one ∷ Wrote 0 (5 ∷ 5 ∷ []) ∷ Read 0 (1 ∷ []) ∷ Ended 0 ∷ Closed 0 ∷ [])
        (tiny_entry 0 5 ∷ []) (End ∷ []) → ⊥ }
    ensures read_on_before_the_reply { IsTinyRun (Opened 0 ∷ Read 0 (0 ∷ 0 ∷ 0 ∷ 1 ∷ 1 ∷ []) ∷ Read 0 size_of_one ∷ Wrote 0 (5 ∷ 5 ∷ []) ∷ Ended 0 ∷ Closed 0 ∷ [])
        (tiny_entry 0 5 ∷ []) (Cut ∷ []) → ⊥ }
    ensures out_of_order { IsTinyRun (Opened 0 ∷ Opened 1 ∷ Read 0 (0 ∷ 0 ∷ 0 ∷ 1 ∷ 1 ∷ []) ∷ Wrote 0 (6 ∷ []) ∷ Read 1 (0 ∷ 0 ∷ 0 ∷ 1 ∷ 1 ∷ []) ∷ Wrote 0 (6 ∷ [])
        ∷ Wrote 1 (5 ∷ 5 ∷ []) ∷ Ended 0 ∷ Closed 0 ∷ Ended 1 ∷ Closed 1 ∷ []) (tiny_entry 1 5 ∷ tiny_entry 0 6 ∷ []) (End ∷ End ∷ []) → ⊥ }
    ensures marks_of_nobody { IsTinyRun (Opened 0 ∷ []) [] [] → ⊥ }
    ensures entry_of_nobody { IsTinyRun [] (tiny_entry 0 5 ∷ []) [] → ⊥ }
    ensures end_behind_a_refused_head { IsTinyRun (Opened 0 ∷ Read 0 (0 ∷ 0 ∷ 0 ∷ 1 ∷ 4 ∷ []) ∷ Ended 0 ∷ Closed 0 ∷ []) [] (End ∷ []) → ⊥ }
    ensures stopped_behind_a_bad_size { IsTinyRun (Opened 0 ∷ Read 0 (0 ∷ 0 ∷ 0 ∷ 0 ∷ []) ∷ Closed 0 ∷ []) [] (Stopped ∷ []) → ⊥ }
    ensures cut_behind_a_bad_size { IsTinyRun (Opened 0 ∷ Read 0 (0 ∷ 0 ∷ 0 ∷ 0 ∷ []) ∷ Ended 0 ∷ Closed 0 ∷ []) [] (Cut ∷ []) → ⊥ }
    ensures read_fault_behind_a_bad_size { IsTinyRun (Opened 0 ∷ Read 0 (0 ∷ 0 ∷ 0 ∷ 0 ∷ []) ∷ ReadFailed 0 ∷ Closed 0 ∷ []) [] (ReadFault ∷ []) → ⊥ }
    ensures good_head_refused { IsTinyRun (Opened 0 ∷ Read 0 (0 ∷ 0 ∷ 0 ∷ 1 ∷ 1 ∷ []) ∷ Wrote 0 (5 ∷ 5 ∷ []) ∷ Closed 0 ∷ [])
        (tiny_entry 0 5 ∷ []) (Envelope Short ∷ []) → ⊥ }
    ensures opened_twice { IsTinyRun (Opened 0 ∷ Opened 0 ∷ Ended 0 ∷ Closed 0 ∷ []) [] (End ∷ []) → ⊥ }
    ensures two_frames_at_once { IsTinyRun (Opened 0 ∷ Read 0 (0 ∷ 0 ∷ 0 ∷ 1 ∷ 1 ∷ 0 ∷ 0 ∷ 0 ∷ 1 ∷ 1 ∷ []) ∷ Wrote 0 (5 ∷ 5 ∷ 6 ∷ 6 ∷ []) ∷ Ended 0 ∷ Closed 0 ∷ [])
        (tiny_entry 0 5 ∷ record { key = record { c = 0; i = 1 }; call = 10; answer = 6 } ∷ []) (End ∷ []) → ⊥ }
    ensures write_fault_behind_the_reply { IsTinyRun (Opened 0 ∷ Read 0 (0 ∷ 0 ∷ 0 ∷ 1 ∷ 1 ∷ []) ∷ Wrote 0 (5 ∷ 5 ∷ []) ∷ WriteFailed 0 ∷ Closed 0 ∷ [])
        (tiny_entry 0 5 ∷ []) (WriteFault ∷ []) → ⊥ }
{}
