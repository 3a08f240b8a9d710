//! Examples of what the definitions compute, each the contract of a function that does nothing.

ghost use Rattle.std.specs.Prelude.{◌≡◌, ◌^◌, ◌*◌, pos, negsuc, codes, true, false, None, Some, [], ◌∷◌};
ghost use Rattle.thrift_value.specs.Tree.{of_bool, of_i32, of_double, of_struct, no_fields, field, item, no_items, pair, no_pairs};
ghost use Rattle.idl_token.specs.Uuids.{uuid_number};
ghost use Rattle.idl_parser.specs.declared.tree.Base.TheVariants as base;
ghost use Rattle.idl_include.specs.TypeExpr.{base_expr, name_expr, list_expr};
ghost use Rattle.idl_include.specs.ConstExpr.{int_const, literal_const, map_const, const_entry, no_entries};
ghost use Rattle.idl_include.specs.Spots.{given_name, type_use, typedef_spot, field_spot, enum_value_spot, service_spot, function_spot, thrown_spot};
ghost use Rattle.idl_include.specs.SmallPrograms.{column, with_number, small_field, small_function, aliases_itself, extends_itself, inherits_twice, named_kinds, written_at, list_of_a, narrow, doubled_id, takes_itself, crossed, lists_itself, named_number};
ghost use Rattle.schema.specs.PlainKind.{kind_i8, kind_i32, kind_enum, kind_struct, kind_list};
ghost use Rattle.check_model.specs.WholeDoubles.{double_number, double_bits, int_as_double};
ghost use Rattle.check_model.specs.TidyRows.{tidy_members, tidy_pairs};
ghost use Rattle.check_model.specs.Resolved.{TypeMeans};
ghost use Rattle.check_model.specs.Worths.{valued, flawed, wrong_kind, out_of_range, const_cycle, unknown_field, missing_field};
ghost use Rattle.check_model.specs.Evaluation.{evaluated};
ghost use Rattle.check_model.specs.FiniteValues.{has_value_within};
ghost use Rattle.check_model.specs.Passes.{dotted_name, duplicate_name, unknown_type, typedef_cycle, field_id, duplicate_id, enum_number, service_cycle, duplicate_function, not_exception, FindsFault};
ghost use Rattle.check_model.specs.FirstFlaw.{found_by, ProgramFlaw, IsFirstFlaw};
ghost use Rattle.check_model.specs.ProgramSchema.{IsSchemaOf};
ghost use Rattle.check_model.specs.SmallSchemas.{named_schema, named_constant, no_schema, itself_schema, needs_itself, worth_in};

/// Doubles of constants are whole numbers; members and pairs are put in order, of equal ones the last.
pub fn values()
    ensures half { double_number (codes "0.5") ≡ None }
    ensures fraction { double_number (codes "-1.50e1") ≡ Some (negsuc 14) }
    ensures no_digits_before { double_number (codes ".5e+1") ≡ Some (pos 5) }
    ensures largest { int_as_double (pos (2 ^ 53)) ≡ Some (pos (2 ^ 53)) }
    ensures too_large { int_as_double (negsuc (2 ^ 53)) ≡ None }
    ensures two { double_bits (pos 2) ≡ 4 * 16 ^ 15 }
    ensures minus_three { double_bits (negsuc 2) ≡ 13837309855095848960 }
    ensures two_to_53 { double_bits (pos (2 ^ 53)) ≡ 4845873199050653696 }
    ensures uuid { uuid_number (codes "00112233-4455-6677-8899-AaBbCcDdEeFf") ≡ Some 88962710306127702866241727433142015 }
    ensures short_uuid { uuid_number (codes "00112233-4455-6677-8899-aabbccddeef") ≡ None }
    ensures long_uuid { uuid_number (codes "00112233-4455-6677-8899-aabbccddeeff0") ≡ None }
    ensures moved_dash { uuid_number (codes "00112233-4455-6677-889-9aabbccddeeff") ≡ None }
    ensures members { tidy_members (item (of_i32 (pos 2)) (item (of_i32 (negsuc 0)) (item (of_i32 (pos 2)) no_items)))
        ≡ item (of_i32 (negsuc 0)) (item (of_i32 (pos 2)) no_items) }
    ensures pairs { tidy_pairs (pair (of_i32 (pos 2)) (of_bool true) (pair (of_i32 (pos 1)) (of_bool true) (pair (of_i32 (pos 2)) (of_bool false) no_pairs)))
        ≡ pair (of_i32 (pos 1)) (of_bool true) (pair (of_i32 (pos 2)) (of_bool false) no_pairs) }
{}

/// Constants and their first faults. A constant that is checked is under evaluation itself; one that is evaluated alone isn't.
pub fn constants()
    ensures out_of_range { worth_in narrow no_schema 0 kind_i8 ≡ flawed (column 22) out_of_range }
    ensures other_form { worth_in crossed no_schema 0 kind_i32 ≡ flawed (column 15) wrong_kind }
    ensures cycle { worth_in lists_itself no_schema 0 (kind_list kind_i32) ≡ flawed (column 22) const_cycle }
    ensures cycle_of_others { evaluated (record { program = lists_itself; schema = no_schema }) 0 (kind_list kind_i32) list_of_a ≡ flawed (column 22) wrong_kind }
    ensures default_cycle { worth_in takes_itself itself_schema 0 (kind_struct 0) ≡ flawed (column 21) const_cycle }
    ensures number { worth_in named_number no_schema 0 (kind_enum 0) ≡ valued (of_i32 (pos 5)) 1 }
    ensures other_enum { worth_in named_number no_schema 0 (kind_enum 1) ≡ flawed (column 33) wrong_kind }
    ensures given { evaluated (record { program = crossed; schema = needs_itself }) 0 (kind_struct 0)
        (map_const (column 1) (const_entry (literal_const (written_at (codes "n") 2)) (int_const (pos 7) (column 4)) no_entries))
        ≡ flawed (column 1) missing_field }
    ensures no_field { evaluated (record { program = crossed; schema = needs_itself }) 0 (kind_struct 0)
        (map_const (column 1) (const_entry (literal_const (written_at (codes "m") 2)) (int_const (pos 7) (column 4)) no_entries))
        ≡ flawed (column 2) unknown_field }
{}

/// Types with typedefs resolved, and structs with and without a finite value.
pub fn types()
    ensures list { TypeMeans crossed 0 (list_expr (base_expr base.I32)) (kind_list kind_i32) }
    ensures name { TypeMeans takes_itself 0 (name_expr (written_at (codes "S") 15)) (kind_struct 0) }
    ensures finite { has_value_within itself_schema 1 0 ≡ true }
    ensures loops { has_value_within needs_itself 5 0 ≡ false }
{}

/// A program that has a schema, and one that has a first fault.
pub fn verdicts()
    ensures accepted { IsSchemaOf named_number (named_schema (named_constant ∷ [])) }
    ensures repeated_id { IsFirstFlaw doubled_id (record { file = 0; at = column 21; kind = found_by duplicate_id }) }
{}

/// What passes find at a spot, and what not.
pub fn faults()
    ensures dotted { FindsFault dotted_name narrow 0 (given_name [] (written_at (codes "a.b") 1)) }
    ensures third_is_second { FindsFault duplicate_name narrow 0 (given_name (written_at (codes "a") 1 ∷ []) (written_at (codes "a") 3)) }
    ensures unknown { FindsFault unknown_type crossed 0 (type_use (written_at (codes "A") 1)) }
    ensures typedef_itself { FindsFault typedef_cycle aliases_itself 0 (typedef_spot 0 (written_at (codes "T") 17)) }
    ensures id_zero { FindsFault field_id narrow 0 (field_spot [] (small_field 12 0 (base_expr base.I8) (written_at (codes "a") 18) None)) }
    ensures past_the_last { FindsFault enum_number narrow 0 (enum_value_spot (with_number (Some (pos 2147483647)) ∷ []) (with_number None)) }
    ensures service_itself { FindsFault service_cycle extends_itself 0 (service_spot 0 (written_at (codes "A") 9)) }
    ensures inherited { FindsFault duplicate_function inherits_twice 0 (function_spot 1 [] (small_function (codes "f") 46)) }
    ensures exception_by_typedef { FindsFault not_exception named_kinds 0 (thrown_spot (small_field 1 1 (name_expr (written_at (codes "U") 1)) (written_at (codes "e") 1) None)) → ⊥ }
    ensures struct_thrown { FindsFault not_exception named_kinds 0 (thrown_spot (small_field 1 1 (name_expr (written_at (codes "T") 1)) (written_at (codes "e") 1) None)) }
{}
