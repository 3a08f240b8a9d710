//! Worked examples of the definitions, each the contract of a function that does nothing.

ghost use Rattle.std.specs.Prelude.{◌≡◌, pos, true, false, [], ◌∷◌, ◌++◌, codes, Some, None};
ghost use Rattle.thrift_value.specs.Tree.{of_bool, of_bytes, of_i32, of_list, of_struct, field, no_fields, item, no_items};
ghost use Rattle.streams.specs.declared.outcomes.EnvelopeFault.TheVariants as envelope_faults;
ghost use Rattle.host_model.specs.DeskRules as desk;
ghost use Rattle.thrift_value.specs.declared.tag.Tag.TheVariants as tags;
ghost use Rattle.envelope.specs.declared.head.Protocol.{Protocol};
ghost use Rattle.envelope.specs.declared.head.Protocol.TheVariants.{Binary, Compact};
ghost use Rattle.call_rules.specs.PlainCalls.{success, empty, throws, broken};
ghost use Rattle.call_rules.specs.Examples.{no_arguments, two_numbers_passed, work_passed};
ghost use Rattle.call_model.specs.Offices.{IsSoundOffice};
ghost use Rattle.call_model.specs.Names.{service_part, method_part};
ghost use Rattle.call_model.specs.Decisions.{decision};
ghost use Rattle.call_model.specs.Replies.{reply_of};
ghost use Rattle.call_model.specs.Examples.{calculator_office, two_services, two_by_default, needy_office, echo_within, mixed_office, example_office, shared_office, short_head, sent_call, sent_number, sent_two, sent_lists, nested, nested_sent, exception_sent, compact_exception_sent, reply_sent};

/// How a message's name is cut.
pub fn names_are_cut()
    ensures service { service_part (codes "Calculator:add") ≡ Some (codes "Calculator") }
    ensures method { method_part (codes "Calculator:add") ≡ codes "add" }
    ensures first { method_part (codes "a:b:c") ≡ codes "b:c" }
    ensures no_service { service_part (codes "add") ≡ None }
    ensures whole { method_part (codes "add") ≡ codes "add" }
{}

/// Payloads that make a call.
pub fn calls_are_decided()
    ensures ping { decision (calculator_office Binary) (sent_call (codes "ping") 0 (0 ∷ []))
        ≡ desk.Invoke (record { slot = 0; method = codes "ping"; args = no_arguments; silent = false }) }
    ensures add { decision (calculator_office Binary) (sent_call (codes "add") 1 (sent_two 1 1))
        ≡ desk.Invoke (record { slot = 0; method = codes "add"; args = two_numbers_passed (pos 1) (pos 1); silent = false }) }
    ensures compact { decision (calculator_office Compact) (130 ∷ 33 ∷ 1 ∷ 3 ∷ 97 ∷ 100 ∷ 100 ∷ 21 ∷ 2 ∷ 21 ∷ 2 ∷ 0 ∷ [])
        ≡ desk.Invoke (record { slot = 0; method = codes "add"; args = two_numbers_passed (pos 1) (pos 1); silent = false }) }
    ensures old_head { decision (calculator_office Binary) ((0 ∷ 0 ∷ 0 ∷ 3 ∷ codes "add") ++ ((1 ∷ 0 ∷ 0 ∷ 0 ∷ 1 ∷ []) ++ sent_two 1 1))
        ≡ desk.Invoke (record { slot = 0; method = codes "add"; args = two_numbers_passed (pos 1) (pos 1); silent = false }) }
    ensures sent_oneway { decision (calculator_office Binary) (short_head 4 (codes "zip") 1 ++ 0 ∷ [])
        ≡ desk.Invoke (record { slot = 0; method = codes "zip"; args = no_arguments; silent = true }) }
    ensures declared_oneway { decision (calculator_office Binary) (sent_call (codes "zip") 2 (0 ∷ []))
        ≡ desk.Invoke (record { slot = 0; method = codes "zip"; args = no_arguments; silent = true }) }
    ensures inherited { decision (calculator_office Binary) (sent_call (codes "getStruct") 1 (sent_number 1 7 ++ 0 ∷ []))
        ≡ desk.Invoke (record { slot = 0; method = codes "getStruct"; args = of_struct (field (pos 1) (of_i32 (pos 7)) no_fields); silent = false }) }
    ensures of_a_service { decision two_services (sent_call (codes "Calculator:add") 1 (sent_two 1 1))
        ≡ desk.Invoke (record { slot = 0; method = codes "add"; args = two_numbers_passed (pos 1) (pos 1); silent = false }) }
    ensures skipped { decision (calculator_office Binary) (sent_call (codes "calculate") 1
        (sent_number 1 1 ++ ((12 ∷ 0 ∷ 2 ∷ 11 ∷ 0 ∷ 1 ∷ 0 ∷ 0 ∷ 0 ∷ 1 ∷ 49 ∷ sent_number 2 5) ++ ((13 ∷ 0 ∷ 9 ∷ 8 ∷ 13 ∷ 0 ∷ 0 ∷ 0 ∷ 1 ∷ 0 ∷ 0 ∷ 0 ∷ 7 ∷ 8 ∷ 8 ∷ 0 ∷ 0 ∷ 0 ∷ 0 ∷ [])
        ++ (sent_number 2 9 ++ (sent_number 3 1 ++ 0 ∷ 0 ∷ []))))))
        ≡ desk.Invoke (record { slot = 0; method = codes "calculate"; args = work_passed (pos 1) (pos 0) (pos 9) (pos 1); silent = false }) }
{}

/// Payloads that make no call.
pub fn refusals_are_decided()
    ensures no_method { decision (calculator_office Binary) (sent_call (codes "foo") 5 (0 ∷ []))
        ≡ desk.Reply (exception_sent 56 (codes "foo") 5 (codes "Invalid method name: 'foo'") 1) }
    ensures silent { decision (calculator_office Binary) (short_head 4 (codes "foo") 5 ++ 0 ∷ []) ≡ desk.Silent }
    ensures no_service { decision two_services (sent_call (codes "Nobody:add") 1 (sent_two 1 1))
        ≡ desk.Reply (exception_sent 60 (codes "add") 1 (codes "Service name not found: Nobody") 1) }
    ensures no_name_of_a_service { decision two_services (sent_call (codes "add") 1 (sent_two 1 1))
        ≡ desk.Reply (exception_sent 57 (codes "add") 1 (codes "Service name not found: add") 1) }
    ensures missing { decision needy_office (sent_call (codes "f") 1 (12 ∷ 0 ∷ 1 ∷ 0 ∷ 0 ∷ []))
        ≡ desk.Reply (exception_sent 52 (codes "f") 1 (codes "Bad arguments: Missing x") 7) }
    ensures huge_list { decision (calculator_office Binary) (sent_call (codes "add") 1 (15 ∷ 0 ∷ 1 ∷ 8 ∷ 127 ∷ 255 ∷ 255 ∷ 255 ∷ 0 ∷ 0 ∷ 0 ∷ 0 ∷ 0 ∷ 0 ∷ 0 ∷ []))
        ≡ desk.Reply (exception_sent 50 (codes "add") 1 (codes "Bad arguments: Short") 7) }
    ensures no_call { decision (calculator_office Binary) (short_head 2 (codes "ping") 0 ++ 0 ∷ []) ≡ desk.Close (envelope_faults.MessageType 2) }
    ensures version { decision (calculator_office Binary) (128 ∷ 2 ∷ 0 ∷ 1 ∷ 0 ∷ 0 ∷ 0 ∷ 4 ∷ codes "ping" ++ 0 ∷ 0 ∷ 0 ∷ 0 ∷ 0 ∷ [])
        ≡ desk.Close (envelope_faults.Version 2147614721) }
{}

/// What goes back for calls and their answers.
pub fn replies_are_made()
    ensures nothing { reply_of (calculator_office Binary) (sent_call (codes "ping") 0 (0 ∷ [])) empty ≡ reply_sent 17 (codes "ping") 0 (0 ∷ []) }
    ensures sum { reply_of (calculator_office Binary) (sent_call (codes "add") 1 (sent_two 1 1)) (success (of_i32 (pos 2)))
        ≡ reply_sent 23 (codes "add") 1 (sent_number 0 2 ++ 0 ∷ []) }
    ensures compact { reply_of (calculator_office Compact) (130 ∷ 33 ∷ 1 ∷ 3 ∷ 97 ∷ 100 ∷ 100 ∷ 21 ∷ 2 ∷ 21 ∷ 2 ∷ 0 ∷ []) (success (of_i32 (pos 2)))
        ≡ 0 ∷ 0 ∷ 0 ∷ 11 ∷ 130 ∷ 65 ∷ 1 ∷ 3 ∷ 97 ∷ 100 ∷ 100 ∷ 5 ∷ 0 ∷ 4 ∷ 0 ∷ [] }
    ensures old_head { reply_of (calculator_office Binary) ((0 ∷ 0 ∷ 0 ∷ 3 ∷ codes "add") ++ ((1 ∷ 0 ∷ 0 ∷ 0 ∷ 1 ∷ []) ++ sent_two 1 1)) (success (of_i32 (pos 2)))
        ≡ reply_sent 23 (codes "add") 1 (sent_number 0 2 ++ 0 ∷ []) }
    ensures thrown { reply_of (calculator_office Binary) (sent_call (codes "calculate") 1 (0 ∷ []))
        (throws (pos 1) (of_struct (field (pos 1) (of_i32 (pos 4)) (field (pos 2) (of_bytes (codes "Cannot divide by 0")) no_fields))))
        ≡ reply_sent 58 (codes "calculate") 1 ((12 ∷ 0 ∷ 1 ∷ sent_number 1 4) ++ ((11 ∷ 0 ∷ 2 ∷ 0 ∷ 0 ∷ 0 ∷ 18 ∷ codes "Cannot divide by 0") ++ 0 ∷ 0 ∷ [])) }
    ensures without_its_service { reply_of two_services (sent_call (codes "Calculator:add") 1 (sent_two 1 1)) (success (of_i32 (pos 2)))
        ≡ reply_sent 23 (codes "add") 1 (sent_number 0 2 ++ 0 ∷ []) }
    ensures another_type { reply_of shared_office (sent_call (codes "getStruct") 1 (sent_number 1 7 ++ 0 ∷ [])) (success (of_i32 (pos 7)))
        ≡ exception_sent 71 (codes "getStruct") 1 (codes "Internal error processing getStruct") 6 }
    ensures broken { reply_of (calculator_office Binary) (sent_call (codes "add") 1 (0 ∷ [])) broken
        ≡ exception_sent 59 (codes "add") 1 (codes "Internal error processing add") 6 }
    ensures nothing_to_give { reply_of (calculator_office Binary) (sent_call (codes "ping") 0 (0 ∷ [])) (success (of_i32 (pos 1)))
        ≡ exception_sent 61 (codes "ping") 0 (codes "Internal error processing ping") 6 }
    ensures undeclared { reply_of (calculator_office Binary) (sent_call (codes "add") 1 (0 ∷ [])) (throws (pos 1) (of_struct no_fields))
        ≡ exception_sent 59 (codes "add") 1 (codes "Internal error processing add") 6 }
    ensures too_large { reply_of (echo_within 18) (0 ∷ 0 ∷ 0 ∷ 1 ∷ 101 ∷ 1 ∷ 0 ∷ 0 ∷ 0 ∷ 1 ∷ 11 ∷ 0 ∷ 1 ∷ 0 ∷ 0 ∷ 0 ∷ 0 ∷ 0 ∷ []) (success (of_bytes []))
        ≡ exception_sent 46 (codes "e") 1 (codes "Reply is too large") 6 }
{}

/// An office of the examples is sound, so what the laws ask of an office can be met.
pub fn an_office_is_sound()
    ensures sound { (protocol : Protocol) → IsSoundOffice (example_office protocol) }
    ensures call { decision (example_office Binary) (sent_call (codes "f") 1 (0 ∷ []))
        ≡ desk.Invoke (record { slot = 0; method = codes "f"; args = no_arguments; silent = false }) }
    ensures reply { reply_of (example_office Binary) (sent_call (codes "f") 1 (0 ∷ [])) (success (of_list tags.Struct (item (of_struct no_fields) no_items)))
        ≡ reply_sent 23 (codes "f") 1 (15 ∷ 0 ∷ 0 ∷ 12 ∷ 0 ∷ 0 ∷ 0 ∷ 1 ∷ 0 ∷ 0 ∷ []) }
{}

/// A name's service counts where one alone is bound, too.
pub fn one_service_is_named()
    ensures unknown { decision (calculator_office Binary) (sent_call (codes "Nobody:add") 1 (sent_two 1 1))
        ≡ desk.Reply (exception_sent 60 (codes "add") 1 (codes "Service name not found: Nobody") 1) }
    ensures known { decision (calculator_office Binary) (sent_call (codes "Calculator:add") 1 (sent_two 1 1))
        ≡ desk.Invoke (record { slot = 0; method = codes "add"; args = two_numbers_passed (pos 1) (pos 1); silent = false }) }
    ensures no_method { decision (calculator_office Binary) (sent_call (codes "Calculator:") 1 (sent_two 1 1))
        ≡ desk.Reply (exception_sent 50 [] 1 (codes "Invalid method name: ''") 1) }
    ensures silent { decision two_services (short_head 4 (codes "Nobody:add") 1 ++ sent_two 1 1) ≡ desk.Silent }
{}

/// A name without a service asks for the default service, and a name with one doesn't.
pub fn a_default_is_asked()
    ensures first { decision (two_by_default 0) (sent_call (codes "add") 1 (sent_two 1 1))
        ≡ desk.Invoke (record { slot = 0; method = codes "add"; args = two_numbers_passed (pos 1) (pos 1); silent = false }) }
    ensures reply { reply_of (two_by_default 0) (sent_call (codes "add") 1 (sent_two 1 1)) (success (of_i32 (pos 2)))
        ≡ reply_sent 23 (codes "add") 1 (sent_number 0 2 ++ 0 ∷ []) }
    ensures second { decision (two_by_default 1) (sent_call (codes "add") 1 (sent_two 1 1))
        ≡ desk.Reply (exception_sent 56 (codes "add") 1 (codes "Invalid method name: 'add'") 1) }
    ensures another { decision (two_by_default 1) (sent_call (codes "Calculator:add") 1 (sent_two 1 1))
        ≡ desk.Invoke (record { slot = 0; method = codes "add"; args = two_numbers_passed (pos 1) (pos 1); silent = false }) }
    ensures unknown { decision (two_by_default 0) (sent_call (codes "Nobody:add") 1 (sent_two 1 1))
        ≡ desk.Reply (exception_sent 60 (codes "add") 1 (codes "Service name not found: Nobody") 1) }
{}

/// What is told of arguments at fault.
pub fn faults_are_told()
    ensures silent { decision (calculator_office Binary) (sent_call (codes "zip") 1 []) ≡ desk.Silent }
    ensures compact { decision (calculator_office Compact) (130 ∷ 33 ∷ 5 ∷ 3 ∷ codes "foo" ++ 0 ∷ [])
        ≡ desk.Reply (compact_exception_sent 38 (codes "foo") 5 (codes "Invalid method name: 'foo'") 1) }
    ensures bad_type { decision (calculator_office Binary) (sent_call (codes "add") 1 (5 ∷ 0 ∷ 1 ∷ 0 ∷ []))
        ≡ desk.Reply (exception_sent 54 (codes "add") 1 (codes "Bad arguments: BadType 5") 7) }
    ensures two_of_a_union { decision (mixed_office Binary) (sent_call (codes "b") 1 ((12 ∷ 0 ∷ 1 ∷ sent_two 1 1) ++ 0 ∷ []))
        ≡ desk.Reply (exception_sent 56 (codes "b") 1 (codes "Bad arguments: UnionFields U") 7) }
    ensures deep { decision (calculator_office Binary) (sent_call (codes "ping") 1 ((15 ∷ 0 ∷ 9 ∷ sent_lists 62) ++ 0 ∷ []))
        ≡ desk.Invoke (record { slot = 0; method = codes "ping"; args = no_arguments; silent = false }) }
    ensures too_deep { decision (calculator_office Binary) (sent_call (codes "ping") 1 ((15 ∷ 0 ∷ 9 ∷ sent_lists 63) ++ 0 ∷ []))
        ≡ desk.Reply (exception_sent 53 (codes "ping") 1 (codes "Bad arguments: TooDeep") 7) }
{}

/// Which answers may go back.
pub fn replies_are_tested()
    ensures flag { reply_of (mixed_office Compact) (130 ∷ 33 ∷ 1 ∷ 1 ∷ 98 ∷ 0 ∷ []) (success (of_bool true))
        ≡ 0 ∷ 0 ∷ 0 ∷ 8 ∷ 130 ∷ 65 ∷ 1 ∷ 1 ∷ 98 ∷ 1 ∷ 0 ∷ 0 ∷ [] }
    ensures levels { reply_of (mixed_office Compact) (130 ∷ 33 ∷ 1 ∷ 1 ∷ 110 ∷ 0 ∷ []) (success (nested 62))
        ≡ (0 ∷ 0 ∷ 0 ∷ 133 ∷ 130 ∷ 65 ∷ 1 ∷ 1 ∷ 110 ∷ 12 ∷ 0 ∷ []) ++ (nested_sent 62 ++ 0 ∷ []) }
    ensures too_deep { reply_of (mixed_office Compact) (130 ∷ 33 ∷ 1 ∷ 1 ∷ 110 ∷ 0 ∷ []) (success (nested 63))
        ≡ compact_exception_sent 37 (codes "n") 1 (codes "Internal error processing n") 6 }
    ensures exception { reply_of (calculator_office Binary) (sent_call (codes "calculate") 1 (0 ∷ [])) (throws (pos 1) (of_i32 (pos 4)))
        ≡ exception_sent 71 (codes "calculate") 1 (codes "Internal error processing calculate") 6 }
    ensures untidy { reply_of shared_office (sent_call (codes "getStruct") 1 (sent_number 1 7 ++ 0 ∷ []))
        (success (of_struct (field (pos 2) (of_bytes []) (field (pos 1) (of_i32 (pos 7)) no_fields))))
        ≡ exception_sent 71 (codes "getStruct") 1 (codes "Internal error processing getStruct") 6 }
    ensures longest { reply_of (echo_within 21) (sent_call (codes "e") 1 (0 ∷ [])) (success (of_bytes []))
        ≡ reply_sent 21 (codes "e") 1 (11 ∷ 0 ∷ 0 ∷ 0 ∷ 0 ∷ 0 ∷ 0 ∷ 0 ∷ []) }
    ensures longer { reply_of (echo_within 20) (sent_call (codes "e") 1 (0 ∷ [])) (success (of_bytes []))
        ≡ exception_sent 46 (codes "e") 1 (codes "Reply is too large") 6 }
{}
