//! Worked rows of what is asked and heard, each the contract of a function that does nothing.

ghost use Rattle.std.specs.Prelude.{◌≡◌, pos, true, false, [], ◌∷◌, ◌++◌, codes, Ok, Err};
ghost use Rattle.streams.specs.declared.outcomes.EnvelopeFault.TheVariants as heads;
ghost use Rattle.envelope.specs.declared.head.Protocol.TheVariants.{Binary, Compact};
ghost use Rattle.thrift_value.specs.declared.wire_fault.WireFault.TheVariants as wire;
ghost use Rattle.thrift_value.specs.Tree.{of_i32, of_i64, of_struct, field, no_fields};
ghost use Rattle.call_rules.specs.Examples.{no_arguments, two_numbers_passed};
ghost use Rattle.call_model.specs.Examples.{sent_call, sent_number, sent_two, short_head};
ghost use Rattle.client_desk.specs.declared.ask_fault.AskFault.TheVariants as ask;
ghost use Rattle.client_desk.specs.declared.heard_fault.HeardFault.TheVariants as hear;
ghost use Rattle.client_desk.specs.Asking.{asked_frame};
ghost use Rattle.client_desk.specs.Hearing.{success, void, missing, throws, exception, heard};
ghost use Rattle.client_desk.specs.Worked.{calculator_client, hears_binary, hears_compact, add_reply, add_exception, compact_add_reply, sent_text};

/// What a client of the tutorial's calculator asks.
pub fn worked_calls()
    ensures add { asked_frame (calculator_client Binary false 100) (codes "add") (two_numbers_passed (pos 1) (pos 1)) (pos 1)
        ≡ Ok ((0 ∷ 0 ∷ 0 ∷ 30 ∷ []) ++ sent_call (codes "add") 1 (sent_two 1 1)) }
    ensures compact { asked_frame (calculator_client Compact false 100) (codes "add") (two_numbers_passed (pos 1) (pos 1)) (pos 1)
        ≡ Ok ((0 ∷ 0 ∷ 0 ∷ 12 ∷ 130 ∷ 33 ∷ 1 ∷ 3 ∷ codes "add") ++ (21 ∷ 2 ∷ 21 ∷ 2 ∷ 0 ∷ [])) }
    ensures of_a_service { asked_frame (calculator_client Binary true 100) (codes "add") (two_numbers_passed (pos 1) (pos 1)) (pos 1)
        ≡ Ok ((0 ∷ 0 ∷ 0 ∷ 41 ∷ []) ++ sent_call (codes "Calculator:add") 1 (sent_two 1 1)) }
    ensures oneway { asked_frame (calculator_client Binary false 100) (codes "zip") no_arguments (pos 1)
        ≡ Ok ((0 ∷ 0 ∷ 0 ∷ 16 ∷ []) ++ (short_head 4 (codes "zip") 1 ++ 0 ∷ [])) }
    ensures absent { asked_frame (calculator_client Binary false 100) (codes "add") no_arguments (pos 1)
        ≡ Ok ((0 ∷ 0 ∷ 0 ∷ 16 ∷ []) ++ sent_call (codes "add") 1 (0 ∷ [])) }
    ensures no_method { asked_frame (calculator_client Binary false 100) (codes "foo") no_arguments (pos 1) ≡ Err ask.NoMethod }
    ensures another_type { asked_frame (calculator_client Binary false 100) (codes "add") (of_struct (field (pos 1) (of_i64 (pos 1)) no_fields)) (pos 1) ≡ Err ask.Unfit }
    ensures longest { asked_frame (calculator_client Binary false 16) (codes "zip") no_arguments (pos 1)
        ≡ Ok ((0 ∷ 0 ∷ 0 ∷ 16 ∷ []) ++ (short_head 4 (codes "zip") 1 ++ 0 ∷ [])) }
    ensures longer { asked_frame (calculator_client Binary false 15) (codes "zip") no_arguments (pos 1) ≡ Err ask.TooLarge }
{}

/// What answers it.
pub fn worked_replies()
    ensures number { heard hears_binary (codes "add") (pos 1) (add_reply (sent_number 0 2 ++ 0 ∷ [])) ≡ Ok (success (of_i32 (pos 2))) }
    ensures compact { heard hears_compact (codes "add") (pos 1) (compact_add_reply (5 ∷ 0 ∷ 4 ∷ 0 ∷ [])) ≡ Ok (success (of_i32 (pos 2))) }
    ensures last { heard hears_binary (codes "add") (pos 1) (add_reply (sent_number 0 1 ++ (sent_number 0 2 ++ 0 ∷ []))) ≡ Ok (success (of_i32 (pos 2))) }
    ensures last_that_fits { heard hears_binary (codes "add") (pos 1) (add_reply (sent_number 0 2 ++ (sent_text 0 (codes "no") ++ 0 ∷ []))) ≡ Ok (success (of_i32 (pos 2))) }
    ensures behind { heard hears_binary (codes "add") (pos 1) (add_reply (sent_number 0 2 ++ 0 ∷ 7 ∷ [])) ≡ Ok (success (of_i32 (pos 2))) }
    ensures void { heard hears_binary (codes "ping") (pos 0) (short_head 2 (codes "ping") 0 ++ 0 ∷ []) ≡ Ok void }
    ensures missing { heard hears_binary (codes "add") (pos 1) (add_reply (0 ∷ [])) ≡ Ok missing }
    ensures another_type { heard hears_binary (codes "add") (pos 1) (add_reply (sent_text 0 (codes "no") ++ 0 ∷ [])) ≡ Ok missing }
    ensures thrown { heard hears_binary (codes "calculate") (pos 1) (short_head 2 (codes "calculate") 1 ++ ((12 ∷ 0 ∷ 1 ∷ sent_number 1 4) ++ 0 ∷ 0 ∷ []))
        ≡ Ok (throws (pos 1) (of_struct (field (pos 1) (of_i32 (pos 4)) no_fields))) }
    ensures exception { heard hears_binary (codes "add") (pos 1) (add_exception (sent_text 1 (codes "no") ++ (sent_number 2 6 ++ 0 ∷ []))) ≡ Ok (exception (pos 6) (codes "no")) }
    ensures bare_exception { heard hears_binary (codes "add") (pos 1) (add_exception (0 ∷ [])) ≡ Ok (exception (pos 0) []) }
    ensures text_for_a_code { heard hears_binary (codes "add") (pos 1) (add_exception (sent_number 2 6 ++ (sent_text 2 (codes "no") ++ 0 ∷ []))) ≡ Ok (exception (pos 6) []) }
    ensures another_id { heard hears_binary (codes "add") (pos 1) (short_head 2 (codes "add") 2 ++ (sent_number 0 2 ++ 0 ∷ [])) ≡ Err (hear.WrongId (pos 2)) }
    ensures another_name { heard hears_binary (codes "add") (pos 1) (short_head 2 (codes "sub") 2 ++ (sent_number 0 2 ++ 0 ∷ [])) ≡ Err hear.WrongName }
    ensures call { heard hears_binary (codes "add") (pos 1) (short_head 1 (codes "add") 1 ++ 0 ∷ []) ≡ Err (hear.Head (heads.MessageType 1)) }
    ensures short { heard hears_binary (codes "add") (pos 1) (add_reply (sent_number 0 2)) ≡ Err (hear.Wire wire.Short) }
{}
