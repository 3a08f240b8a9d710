//! Worked examples of the definitions, each the contract of a function that does nothing.

ghost use Rattle.std.specs.Prelude.{◌≡◌, pos, negsuc, ◌^◌, ◌-◌, [], ◌∷◌, ◌++◌, Ok, Err, true, false};
ghost use Rattle.thrift_value.specs.declared.tag.Tag.TheVariants as tags;
ghost use Rattle.thrift_value.specs.declared.wire_fault.WireFault.TheVariants as faults;
ghost use Rattle.thrift_value.specs.Tree.{of_bool, of_i8, of_i16, of_i32, of_i64, of_double, of_struct, of_map, of_list, of_uuid, no_fields, field, no_items, no_pairs};
ghost use Rattle.wire_model.specs.Place.{struct_at, found_struct};
ghost use Rattle.wire_model.specs.Reading.{value};
ghost use Rattle.wire_model.specs.Encoder.{text};
ghost use Rattle.compact_codec.specs.Reading.{compact};
ghost use Rattle.compact_codec.specs.Written.{compact_encoder};
ghost use Rattle.compact_codec.specs.Examples.{small_numbers, small_numbers_bytes, steps, steps_bytes, flag_sets, flag_sets_bytes, lone_uuid, lone_uuid_bytes, levels_tree, levels_bytes};

/// Structs that are read, and the places behind them.
pub fn structs_are_read()
    ensures nothing { struct_at compact (0 ∷ 9 ∷ []) 0 ≡ found_struct (of_struct no_fields) 1 }
    ensures numbers { struct_at compact (77 ∷ small_numbers_bytes ++ 99 ∷ []) 1 ≡ found_struct small_numbers 6 }
    ensures success { struct_at compact (5 ∷ 0 ∷ 4 ∷ 0 ∷ []) 0 ≡ found_struct (of_struct (field (pos 0) (of_i32 (pos 2)) no_fields)) 4 }
    ensures headers { struct_at compact steps_bytes 0 ≡ found_struct steps 15 }
    ensures map { struct_at compact flag_sets_bytes 0 ≡ found_struct flag_sets 10 }
    ensures uuid { struct_at compact lone_uuid_bytes 0 ≡ found_struct lone_uuid 18 }
    ensures longer_number { struct_at compact (21 ∷ 130 ∷ 128 ∷ 0 ∷ 0 ∷ []) 0 ≡ found_struct (of_struct (field (pos 1) (of_i32 (pos 1)) no_fields)) 5 }
    ensures longer_id { struct_at compact (3 ∷ 130 ∷ 0 ∷ 7 ∷ 0 ∷ []) 0 ≡ found_struct (of_struct (field (pos 1) (of_i8 (pos 7)) no_fields)) 5 }
    ensures sixteen_bits { struct_at compact (20 ∷ 128 ∷ 128 ∷ 4 ∷ 0 ∷ []) 0 ≡ found_struct (of_struct (field (pos 1) (of_i16 (negsuc 32767)) no_fields)) 5 }
    ensures any_code_of_nothing { struct_at compact (25 ∷ 15 ∷ 0 ∷ []) 0 ≡ found_struct (of_struct (field (pos 1) (of_list tags.Bool no_items) no_fields)) 3 }
    ensures size_behind { struct_at compact (25 ∷ 243 ∷ 128 ∷ 0 ∷ 0 ∷ []) 0 ≡ found_struct (of_struct (field (pos 1) (of_list tags.Bool no_items) no_fields)) 5 }
    ensures empty_map { struct_at compact (27 ∷ 0 ∷ 0 ∷ []) 0 ≡ found_struct (of_struct (field (pos 1) (of_map tags.Bool tags.Bool no_pairs) no_fields)) 3 }
    ensures sixty_four_levels { struct_at compact (levels_bytes 63) 0 ≡ found_struct (levels_tree 63) 65 }
{}

/// The first fault, in reading order.
pub fn first_faults()
    ensures no_end { struct_at compact [] 0 ≡ Err faults.Short }
    ensures half_a_header { struct_at compact (5 ∷ 128 ∷ []) 0 ≡ Err faults.Short }
    ensures no_stop { struct_at compact (21 ∷ 2 ∷ []) 0 ≡ Err faults.Short }
    ensures half_a_uuid { struct_at compact (29 ∷ 0 ∷ 0 ∷ 0 ∷ 0 ∷ 0 ∷ 0 ∷ 0 ∷ 1 ∷ []) 0 ≡ Err faults.Short }
    ensures no_type { struct_at compact (14 ∷ 2 ∷ 0 ∷ []) 0 ≡ Err (faults.BadType 14) }
    ensures a_delta_alone { struct_at compact (16 ∷ 2 ∷ 0 ∷ []) 0 ≡ Err (faults.BadType 0) }
    ensures type_before_id { struct_at compact (3 ∷ 254 ∷ 255 ∷ 3 ∷ 0 ∷ 30 ∷ []) 0 ≡ Err (faults.BadType 14) }
    ensures id_above { struct_at compact (3 ∷ 254 ∷ 255 ∷ 3 ∷ 0 ∷ 19 ∷ 0 ∷ 0 ∷ []) 0 ≡ Err faults.FieldRange }
    ensures long_number { struct_at compact (21 ∷ 128 ∷ 128 ∷ 128 ∷ 128 ∷ 128 ∷ 0 ∷ 0 ∷ []) 0 ≡ Err faults.LongVarint }
    ensures long_id { struct_at compact (5 ∷ 128 ∷ 128 ∷ 128 ∷ 128 ∷ 128 ∷ []) 0 ≡ Err faults.LongVarint }
    ensures large_length { struct_at compact (24 ∷ 128 ∷ 128 ∷ 128 ∷ 128 ∷ 8 ∷ []) 0 ≡ Err faults.BadSize }
    ensures long_length { struct_at compact (24 ∷ 2 ∷ 97 ∷ []) 0 ≡ Err faults.Short }
    ensures room_before_type { struct_at compact (25 ∷ 47 ∷ 0 ∷ []) 0 ≡ Err faults.Short }
    ensures element_type { struct_at compact (25 ∷ 31 ∷ 0 ∷ []) 0 ≡ Err (faults.BadType 15) }
    ensures key_type_first { struct_at compact (27 ∷ 1 ∷ 224 ∷ 0 ∷ []) 0 ≡ Err (faults.BadType 14) }
    ensures byte_of_codes_counts { struct_at compact (27 ∷ 2 ∷ 224 ∷ 0 ∷ []) 0 ≡ Err (faults.BadType 14) }
    ensures sixty_five_levels { struct_at compact (levels_bytes 64) 0 ≡ Err faults.TooDeep }
    ensures number_before_level { value compact 0 tags.List (record { bytes = []; budget = 0 }) ≡ Err faults.TooMany }
    ensures level_before_header { value compact 0 tags.List (record { bytes = []; budget = 1 }) ≡ Err faults.TooDeep }
    ensures one_value_too_many { value compact 64 tags.Struct (record { bytes = small_numbers_bytes; budget = 2 }) ≡ Err faults.TooMany }
    ensures a_flag_counts { value compact 64 tags.Struct (record { bytes = 17 ∷ 0 ∷ []; budget = 1 }) ≡ Err faults.TooMany }
{}

/// What is written.
pub fn structs_are_written()
    ensures numbers { text compact_encoder small_numbers ≡ small_numbers_bytes }
    ensures success { text compact_encoder (of_struct (field (pos 0) (of_i32 (pos 2)) no_fields)) ≡ 5 ∷ 0 ∷ 4 ∷ 0 ∷ [] }
    ensures headers { text compact_encoder steps ≡ steps_bytes }
    ensures map { text compact_encoder flag_sets ≡ flag_sets_bytes }
    ensures own_tag { text compact_encoder (of_struct (field (pos 1) (of_list tags.I8 no_items) no_fields)) ≡ 25 ∷ 3 ∷ 0 ∷ [] }
    ensures empty_map { text compact_encoder (of_struct (field (pos 1) (of_map tags.I8 tags.I8 no_pairs) no_fields)) ≡ 27 ∷ 0 ∷ 0 ∷ [] }
    ensures signed { text compact_encoder (of_i64 (negsuc (2 ^ 63 - 1))) ≡ 255 ∷ 255 ∷ 255 ∷ 255 ∷ 255 ∷ 255 ∷ 255 ∷ 255 ∷ 255 ∷ 1 ∷ [] }
    ensures uuid { text compact_encoder lone_uuid ≡ lone_uuid_bytes }
    ensures double { text compact_encoder (of_double (2 ^ 56)) ≡ 0 ∷ 0 ∷ 0 ∷ 0 ∷ 0 ∷ 0 ∷ 0 ∷ 1 ∷ [] }
{}
