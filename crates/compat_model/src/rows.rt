//! Worked examples of the definitions.
ghost use Rattle.std.specs.Prelude.{◌≡◌, [], ◌∷◌, codes, pos, Some, None};
ghost use Rattle.thrift_value.specs.Tree.{of_i32, of_bytes, of_struct, field, no_fields};
ghost use Rattle.schema.specs.declared.types.FieldNeed.TheVariants.{Default, Optional, Required};
ghost use Rattle.schema.specs.declared.types.FieldsKind.TheVariants as of_kind;
ghost use Rattle.schema.specs.PlainKind.{kind_i32, kind_i64, kind_text, kind_binary, kind_enum, kind_struct, kind_list, kind_set, kind_map};
ghost use Rattle.compat_model.specs.declared.break_kind.BreakKind.TheVariants as breaks;
ghost use Rattle.compat_model.specs.Breaks.{IsCompatible, break_in_round};
ghost use Rattle.compat_model.specs.KeptValues.{IsKeptUnder};
ghost use Rattle.compat_model.specs.Worked.{answering, arguments_alone, first_function, first_struct, function_change, function_structs, included_struct, inherited_functions, one_function, lone_struct, oneway_function, served_change, two_steps, worked_break, worked_change, worked_field, worked_function};

/// What may change in a struct of the main file, and what may not.
pub fn worked_structs()
    ensures field_required { break_in_round (worked_change first_struct (lone_struct of_kind.Struct (worked_field 1 Default kind_i32 ∷ (worked_field 2 Required kind_i32 ∷ [])))) 0
        ≡ worked_break (codes "S") 2 breaks.NewRequired }
    ensures other_type { break_in_round (worked_change first_struct (lone_struct of_kind.Struct (worked_field 1 Default kind_i64 ∷ []))) 0
        ≡ worked_break (codes "S") 1 breaks.Unlike }
    ensures unlike_first { break_in_round (worked_change first_struct (lone_struct of_kind.Struct (worked_field 0 Required kind_i32 ∷ (worked_field 1 Default kind_i64 ∷ [])))) 0
        ≡ worked_break (codes "S") 1 breaks.Unlike }
    ensures was_required { break_in_round (worked_change (lone_struct of_kind.Struct (worked_field 1 Required kind_i32 ∷ [])) (lone_struct of_kind.Struct (worked_field 1 Required kind_i32 ∷ []))) 0 ≡ None }
    ensures field_lost { break_in_round (worked_change first_struct (lone_struct of_kind.Struct [])) 0 ≡ None }
    ensures to_exception { break_in_round (worked_change first_struct (lone_struct of_kind.Exception (worked_field 1 Default kind_i32 ∷ []))) 0 ≡ None }
    ensures gone { break_in_round (worked_change first_struct []) 0 ≡ worked_break (codes "S") 0 breaks.Gone }
    ensures in_another_file { break_in_round (worked_change first_struct (included_struct (codes "S") (worked_field 1 Default kind_i32 ∷ []) ∷ [])) 0 ≡ worked_break (codes "S") 0 breaks.Gone }
    ensures of_another_file { break_in_round (worked_change (included_struct (codes "S") [] ∷ []) []) 0 ≡ None }
    ensures to_union { break_in_round (worked_change first_struct (lone_struct of_kind.Union (worked_field 1 Optional kind_i32 ∷ []))) 0
        ≡ worked_break (codes "S") 0 breaks.Kind }
    ensures union_field { break_in_round (worked_change (lone_struct of_kind.Union (worked_field 1 Optional kind_i32 ∷ (worked_field 2 Optional kind_i32 ∷ [])))
        (lone_struct of_kind.Union (worked_field 1 Optional kind_i32 ∷ []))) 0 ≡ worked_break (codes "S") 2 breaks.UnionField }
    ensures union_grows { break_in_round (worked_change (lone_struct of_kind.Union (worked_field 1 Optional kind_i32 ∷ []))
        (lone_struct of_kind.Union (worked_field 1 Optional kind_i32 ∷ (worked_field 2 Optional kind_i32 ∷ [])))) 0 ≡ None }
    ensures struct_key { break_in_round (worked_change (lone_struct of_kind.Struct (worked_field 1 Default (kind_map (kind_struct 0) kind_i32) ∷ []))
        (lone_struct of_kind.Struct (worked_field 1 Default (kind_map (kind_struct 0) kind_i32) ∷ []))) 0 ≡ worked_break (codes "S") 1 breaks.Unlike }
{}

/// Numbers of 32 bits and enums are alike, and so are texts and bytes.
pub fn worked_types()
    ensures enum_number { break_in_round (worked_change first_struct (lone_struct of_kind.Struct (worked_field 1 Default (kind_enum 0) ∷ []))) 0 ≡ None }
    ensures text_bytes { break_in_round (worked_change (lone_struct of_kind.Struct (worked_field 1 Default kind_text ∷ []))
        (lone_struct of_kind.Struct (worked_field 1 Default kind_binary ∷ []))) 0 ≡ None }
    ensures elements { break_in_round (worked_change (lone_struct of_kind.Struct (worked_field 1 Default (kind_list (kind_list kind_i32)) ∷ []))
        (lone_struct of_kind.Struct (worked_field 1 Default (kind_list (kind_list kind_i64)) ∷ []))) 0 ≡ worked_break (codes "S") 1 breaks.Unlike }
    ensures members { break_in_round (worked_change (lone_struct of_kind.Struct (worked_field 1 Default (kind_set kind_text) ∷ []))
        (lone_struct of_kind.Struct (worked_field 1 Default (kind_set kind_binary) ∷ []))) 0 ≡ None }
    ensures other_members { break_in_round (worked_change (lone_struct of_kind.Struct (worked_field 1 Default (kind_set kind_i32) ∷ []))
        (lone_struct of_kind.Struct (worked_field 1 Default (kind_list kind_i32) ∷ []))) 0 ≡ worked_break (codes "S") 1 breaks.Unlike }
    ensures struct_member { break_in_round (worked_change (lone_struct of_kind.Struct (worked_field 1 Default (kind_set (kind_struct 0)) ∷ []))
        (lone_struct of_kind.Struct (worked_field 1 Default (kind_set (kind_struct 0)) ∷ []))) 0 ≡ worked_break (codes "S") 1 breaks.Unlike }
{}

/// What may change of a function, and what may not.
pub fn worked_functions()
    ensures same { break_in_round (function_change first_function first_function) 0 ≡ None }
    ensures gone { break_in_round (served_change (function_structs Optional) (one_function first_function) (function_structs Optional) []) 0
        ≡ worked_break (codes "V") 0 breaks.Gone }
    ensures renamed { break_in_round (function_change first_function (worked_function (codes "g") (Some kind_i32) [])) 0 ≡ worked_break (codes "f") 0 breaks.Gone }
    ensures oneway { break_in_round (function_change (worked_function (codes "f") None []) oneway_function) 0 ≡ worked_break (codes "f") 0 breaks.Oneway }
    ensures other_result { break_in_round (function_change first_function (worked_function (codes "f") (Some kind_i64) [])) 0 ≡ worked_break (codes "f") 0 breaks.Result }
    ensures no_result { break_in_round (function_change first_function (worked_function (codes "f") None [])) 0 ≡ worked_break (codes "f") 0 breaks.Result }
    ensures throws_more { break_in_round (function_change first_function
        (worked_function (codes "f") (Some kind_i32) (worked_field 1 Default (kind_struct 2) ∷ (worked_field 2 Default (kind_struct 2) ∷ [])))) 0
        ≡ worked_break (codes "f") 2 breaks.Throws }
    ensures throws_first { break_in_round (function_change first_function
        (worked_function (codes "f") (Some kind_i32) (worked_field 3 Default (kind_struct 2) ∷ (worked_field 4 Default (kind_struct 2) ∷ [])))) 0
        ≡ worked_break (codes "f") 3 breaks.Throws }
    ensures argument { break_in_round (served_change (arguments_alone kind_i32) (one_function (worked_function (codes "f") None []))
        (arguments_alone kind_i64) (one_function (worked_function (codes "f") (Some kind_i32) []))) 0 ≡ worked_break (codes "f") 1 breaks.Unlike }
    ensures structs_first { break_in_round (served_change first_struct (one_function first_function) [] []) 0 ≡ worked_break (codes "S") 0 breaks.Gone }
    ensures throws_less { break_in_round (function_change first_function (worked_function (codes "f") (Some kind_i32) [])) 0 ≡ None }
    ensures inherited { break_in_round (served_change (function_structs Optional) (inherited_functions (first_function ∷ [])) (function_structs Optional) (inherited_functions [])) 0
        ≡ worked_break (codes "f") 0 breaks.Gone }
    ensures moved_up { break_in_round (served_change (function_structs Optional) (one_function first_function) (function_structs Optional)
        (inherited_functions (first_function ∷ []))) 0 ≡ None }
{}

/// A struct that fields reach is looked at too, and a result as it is read by old callers.
pub fn worked_reaches()
    ensures named { break_in_round (worked_change (two_steps kind_i32) (two_steps kind_i64)) 0 ≡ None }
    ensures one_step { break_in_round (worked_change (two_steps kind_i32) (two_steps kind_i64)) 2 ≡ None }
    ensures two_steps { break_in_round (worked_change (two_steps kind_i32) (two_steps kind_i64)) 3 ≡ worked_break (codes "C") 1 breaks.Unlike }
    ensures new_need { break_in_round (served_change (function_structs Optional) (one_function (worked_function (codes "f") (Some (kind_struct 1)) []))
        (function_structs Required) (one_function (worked_function (codes "f") (Some (kind_struct 1)) []))) 1 ≡ None }
    ensures old_need { break_in_round (served_change (function_structs Required) (one_function (worked_function (codes "f") (Some (kind_struct 1)) []))
        (function_structs Optional) (one_function (worked_function (codes "f") (Some (kind_struct 1)) []))) 1 ≡ worked_break (codes "R") 1 breaks.NewRequired }
    ensures answered_union { break_in_round (served_change (answering (worked_field 1 Optional kind_i32 ∷ [])) (one_function (worked_function (codes "f") (Some (kind_struct 1)) []))
        (answering (worked_field 1 Optional kind_i32 ∷ (worked_field 2 Optional kind_i32 ∷ []))) (one_function (worked_function (codes "f") (Some (kind_struct 1)) []))) 1
        ≡ worked_break (codes "U") 2 breaks.UnionField }
{}

/// Of what was written the fields that the reader declares are there, with equal values.
pub fn worked_values()
    ensures kept { IsKeptUnder first_struct (kind_struct 0) (of_struct (field (pos 1) (of_i32 (pos 5)) (field (pos 2) (of_bytes []) no_fields)))
        (of_struct (field (pos 1) (of_i32 (pos 5)) no_fields)) }
    ensures another { IsKeptUnder first_struct (kind_struct 0) (of_struct (field (pos 1) (of_i32 (pos 5)) no_fields)) (of_struct (field (pos 1) (of_i32 (pos 6)) no_fields)) → ⊥ }
    ensures lost { IsKeptUnder first_struct (kind_struct 0) (of_struct (field (pos 1) (of_i32 (pos 5)) no_fields)) (of_struct no_fields) → ⊥ }
{}

/// A field that may be missing is no break, and neither is a struct that holds itself.
pub fn worked_compatible()
    ensures field_more { IsCompatible (worked_change first_struct (lone_struct of_kind.Struct (worked_field 1 Default kind_i32 ∷ (worked_field 2 Optional kind_i32 ∷ [])))) }
    ensures holds_itself { IsCompatible (worked_change (lone_struct of_kind.Struct (worked_field 1 Optional (kind_struct 0) ∷ []))
        (lone_struct of_kind.Struct (worked_field 1 Optional (kind_struct 0) ∷ (worked_field 2 Optional kind_i32 ∷ [])))) }
{}
