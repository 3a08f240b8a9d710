//! Worked examples of the definitions, each the contract of a function that does nothing.

ghost use Rattle.std.specs.Prelude.{◌≡◌, pos, negsuc, [], codes};
ghost use Rattle.thrift_value.specs.declared.tag.Tag.TheVariants as tags;
ghost use Rattle.thrift_value.specs.Tree.{Tree, of_i32, of_bytes, of_struct, of_map, of_list, no_fields, field, no_items, item, no_pairs, pair};
ghost use Rattle.call_rules.specs.declared.kind.Kind.TheVariants as kinds;
ghost use Rattle.call_rules.specs.PlainCalls.{success, empty, throws, broken};
ghost use Rattle.call_rules.specs.Handling.{kind_rule, memory_at_first};
ghost use Rattle.call_rules.specs.Examples.{no_arguments, two_numbers_passed, work_passed, text_passed, two_texts_passed, texts_from};

/// What the calculator answers.
pub fn calculator_answers()
    ensures ping { (memory : Tree) → kind_rule kinds.Calculator memory (codes "ping") no_arguments ≡ record { answer = empty; memory = memory } }
    ensures zip { (memory : Tree) → kind_rule kinds.Calculator memory (codes "zip") no_arguments ≡ record { answer = empty; memory = memory } }
    ensures sum { (kind_rule kinds.Calculator (memory_at_first kinds.Calculator) (codes "add") (two_numbers_passed (pos 1) (pos 1))).answer ≡ success (of_i32 (pos 2)) }
    ensures wraps { (kind_rule kinds.Calculator (memory_at_first kinds.Calculator) (codes "add") (two_numbers_passed (pos 2147483647) (pos 1))).answer
        ≡ success (of_i32 (negsuc 2147483647)) }
    ensures absent_is_zero { (kind_rule kinds.Calculator (memory_at_first kinds.Calculator) (codes "add") no_arguments).answer ≡ success (of_i32 (pos 0)) }
    ensures other_shape { (kind_rule kinds.Calculator (memory_at_first kinds.Calculator) (codes "add") (of_struct (field (pos 1) (of_bytes []) no_fields))).answer ≡ broken }
    ensures no_work { (kind_rule kinds.Calculator (memory_at_first kinds.Calculator) (codes "calculate") (of_struct (field (pos 1) (of_i32 (pos 1)) no_fields))).answer ≡ broken }
    ensures unnamed { (kind_rule kinds.Calculator (memory_at_first kinds.Calculator) (codes "Ping") no_arguments).answer ≡ broken }
    ensures by_zero { kind_rule kinds.Calculator (memory_at_first kinds.Calculator) (codes "calculate") (work_passed (pos 1) (pos 1) (pos 0) (pos 4))
        ≡ record {
          answer = throws (pos 1) (of_struct (field (pos 1) (of_i32 (pos 4)) (field (pos 2) (of_bytes (codes "Cannot divide by 0")) no_fields)));
          memory = memory_at_first kinds.Calculator;
        } }
    ensures unknown { (kind_rule kinds.Calculator (memory_at_first kinds.Calculator) (codes "calculate") (work_passed (pos 1) (pos 1) (pos 0) (pos 9))).answer
        ≡ throws (pos 1) (of_struct (field (pos 1) (of_i32 (pos 9)) (field (pos 2) (of_bytes (codes "Unknown operation")) no_fields))) }
    ensures truncates { (kind_rule kinds.Calculator (memory_at_first kinds.Calculator) (codes "calculate") (work_passed (pos 1) (negsuc 6) (pos 2) (pos 4))).answer
        ≡ success (of_i32 (negsuc 2)) }
    ensures least_by_minus_one { (kind_rule kinds.Calculator (memory_at_first kinds.Calculator) (codes "calculate") (work_passed (pos 1) (negsuc 2147483647) (negsuc 0) (pos 4))).answer
        ≡ success (of_i32 (negsuc 2147483647)) }
    ensures no_struct { (kind_rule kinds.Calculator (memory_at_first kinds.Calculator) (codes "getStruct") (of_struct (field (pos 1) (of_i32 (pos 1)) no_fields))).answer ≡ empty }
    ensures kept { (kind_rule kinds.Calculator (memory_at_first kinds.Calculator) (codes "calculate") (work_passed (pos 7) (pos 20) (pos 22) (pos 1))).memory
        ≡ of_map tags.I32 tags.Bytes (pair (of_i32 (pos 7)) (of_bytes (codes "42")) no_pairs) }
    ensures told { (kind_rule kinds.Calculator (of_map tags.I32 tags.Bytes (pair (of_i32 (pos 7)) (of_bytes (codes "42")) no_pairs)) (codes "getStruct")
        (of_struct (field (pos 1) (of_i32 (pos 7)) no_fields))).answer
        ≡ success (of_struct (field (pos 1) (of_i32 (pos 7)) (field (pos 2) (of_bytes (codes "42")) no_fields))) }
{}

/// What the store answers.
pub fn store_answers()
    ensures nothing { (kind_rule kinds.Store (memory_at_first kinds.Store) (codes "get") (text_passed (codes "a"))).answer ≡ empty }
    ensures put { kind_rule kinds.Store (memory_at_first kinds.Store) (codes "put") (two_texts_passed (codes "a") (codes "v")) ≡ record { answer = empty; memory = texts_from (codes "a") (codes "v") no_pairs } }
    ensures found { (kind_rule kinds.Store (texts_from (codes "a") (codes "v") no_pairs) (codes "get") (text_passed (codes "a"))).answer ≡ success (of_bytes (codes "v")) }
    ensures swapped { kind_rule kinds.Store (texts_from (codes "a") (codes "v") no_pairs) (codes "swap") (two_texts_passed (codes "a") (codes "w"))
        ≡ record { answer = success (of_bytes (codes "v")); memory = texts_from (codes "a") (codes "w") no_pairs } }
    ensures in_order { (kind_rule kinds.Store (texts_from (codes "b") (codes "v") no_pairs) (codes "put") (two_texts_passed (codes "ab") (codes "w"))).memory
        ≡ texts_from (codes "ab") (codes "w") (pair (of_bytes (codes "b")) (of_bytes (codes "v")) no_pairs) }
    ensures keys { (kind_rule kinds.Store (texts_from (codes "ab") (codes "w") (pair (of_bytes (codes "b")) (of_bytes (codes "v")) no_pairs)) (codes "keys") no_arguments).answer
        ≡ success (of_list tags.Bytes (item (of_bytes (codes "ab")) (item (of_bytes (codes "b")) no_items))) }
    ensures forgotten { kind_rule kinds.Store (texts_from (codes "a") (codes "v") no_pairs) (codes "forget") (text_passed (codes "a")) ≡ record { answer = empty; memory = memory_at_first kinds.Store } }
    ensures absent { (kind_rule kinds.Store (memory_at_first kinds.Store) (codes "put") (text_passed (codes "a"))).answer ≡ broken }
{}

/// What the mirror answers.
pub fn mirror_answers()
    ensures first { (kind_rule kinds.Mirror (memory_at_first kinds.Mirror) (codes "anything") (two_numbers_passed (pos 3) (pos 4))).answer ≡ success (of_i32 (pos 3)) }
    ensures none { (kind_rule kinds.Mirror (memory_at_first kinds.Mirror) (codes "anything") no_arguments).answer ≡ empty }
{}
