//! Worked examples of the definitions, each the contract of a function that does nothing.

ghost use Rattle.std.specs.Prelude.{◌≡◌, pos, negsuc, ◌^◌, [], ◌∷◌, ◌++◌, Ok, Err, true, false};
ghost use Rattle.thrift_value.specs.declared.tag.Tag.TheVariants as tags;
ghost use Rattle.thrift_value.specs.declared.wire_fault.WireFault.TheVariants as faults;
ghost use Rattle.thrift_value.specs.Tree.{of_bool, of_i8, of_i32, of_double, of_struct, of_map, of_list, of_uuid, no_fields, field, no_items, no_pairs};
ghost use Rattle.wire_model.specs.Place.{struct_at, found_struct};
ghost use Rattle.wire_model.specs.Reading.{value};
ghost use Rattle.wire_model.specs.Encoder.{text};
ghost use Rattle.binary_codec.specs.Reading.{binary};
ghost use Rattle.binary_codec.specs.Written.{binary_encoder};
ghost use Rattle.binary_codec.specs.Examples.{two_numbers, two_numbers_bytes, empty_list, empty_list_bytes, lookup, lookup_bytes, uuid_alone, uuid_alone_bytes, deep, deep_bytes};

/// Structs that are read, and the places behind them.
pub fn structs_are_read()
    ensures nothing { struct_at binary (0 ∷ 9 ∷ []) 0 ≡ found_struct (of_struct no_fields) 1 }
    ensures numbers { struct_at binary (77 ∷ two_numbers_bytes ++ 99 ∷ []) 1 ≡ found_struct two_numbers 16 }
    ensures untold_tag { struct_at binary empty_list_bytes 0 ≡ found_struct empty_list 9 }
    ensures any_code_of_nothing { struct_at binary (15 ∷ 0 ∷ 1 ∷ 99 ∷ 0 ∷ 0 ∷ 0 ∷ 0 ∷ 0 ∷ []) 0 ≡ found_struct empty_list 9 }
    ensures any_codes_of_no_pairs { struct_at binary (13 ∷ 0 ∷ 1 ∷ 98 ∷ 99 ∷ 0 ∷ 0 ∷ 0 ∷ 0 ∷ 0 ∷ []) 0
        ≡ found_struct (of_struct (field (pos 1) (of_map tags.Bool tags.Bool no_pairs) no_fields)) 10 }
    ensures repeats_in_wire_order { struct_at binary (3 ∷ 0 ∷ 2 ∷ 5 ∷ 3 ∷ 0 ∷ 1 ∷ 6 ∷ 3 ∷ 0 ∷ 2 ∷ 7 ∷ 0 ∷ []) 0
        ≡ found_struct (of_struct (field (pos 2) (of_i8 (pos 5)) (field (pos 1) (of_i8 (pos 6)) (field (pos 2) (of_i8 (pos 7)) no_fields)))) 13 }
    ensures map { struct_at binary lookup_bytes 0 ≡ found_struct lookup 25 }
    ensures any_byte_is_false { struct_at binary (2 ∷ 0 ∷ 1 ∷ 2 ∷ 0 ∷ []) 0 ≡ found_struct (of_struct (field (pos 1) (of_bool false) no_fields)) 5 }
    ensures one_is_true { struct_at binary (2 ∷ 0 ∷ 1 ∷ 1 ∷ 0 ∷ []) 0 ≡ found_struct (of_struct (field (pos 1) (of_bool true) no_fields)) 5 }
    ensures uuid { struct_at binary uuid_alone_bytes 0 ≡ found_struct uuid_alone 20 }
    ensures sixty_four_levels { struct_at binary (deep_bytes 63) 0 ≡ found_struct (deep 63) 319 }
{}

/// The first fault, in reading order.
pub fn first_faults()
    ensures no_end { struct_at binary [] 0 ≡ Err faults.Short }
    ensures half_a_header { struct_at binary (8 ∷ 0 ∷ []) 0 ≡ Err faults.Short }
    ensures no_stop { struct_at binary (8 ∷ 0 ∷ 1 ∷ 0 ∷ 0 ∷ 0 ∷ 1 ∷ []) 0 ≡ Err faults.Short }
    ensures type_before_id { struct_at binary (99 ∷ 0 ∷ []) 0 ≡ Err (faults.BadType 99) }
    ensures negative_length { struct_at binary (11 ∷ 0 ∷ 1 ∷ 255 ∷ 255 ∷ 255 ∷ 255 ∷ []) 0 ≡ Err faults.BadSize }
    ensures long_length { struct_at binary (11 ∷ 0 ∷ 1 ∷ 0 ∷ 0 ∷ 0 ∷ 2 ∷ 97 ∷ []) 0 ≡ Err faults.Short }
    ensures size_before_type { struct_at binary (15 ∷ 0 ∷ 1 ∷ 99 ∷ 255 ∷ 0 ∷ 0 ∷ 0 ∷ []) 0 ≡ Err faults.BadSize }
    ensures room_before_type { struct_at binary (15 ∷ 0 ∷ 1 ∷ 99 ∷ 0 ∷ 0 ∷ 0 ∷ 2 ∷ 0 ∷ []) 0 ≡ Err faults.Short }
    ensures half_a_uuid { struct_at binary (16 ∷ 0 ∷ 1 ∷ 0 ∷ 0 ∷ 0 ∷ 0 ∷ 0 ∷ 0 ∷ 0 ∷ 1 ∷ []) 0 ≡ Err faults.Short }
    ensures type_behind_a_uuid { struct_at binary (17 ∷ 0 ∷ 1 ∷ 0 ∷ []) 0 ≡ Err (faults.BadType 17) }
    ensures element_type { struct_at binary (15 ∷ 0 ∷ 1 ∷ 99 ∷ 0 ∷ 0 ∷ 0 ∷ 1 ∷ 0 ∷ []) 0 ≡ Err (faults.BadType 99) }
    ensures key_type_first { struct_at binary (13 ∷ 0 ∷ 1 ∷ 98 ∷ 99 ∷ 0 ∷ 0 ∷ 0 ∷ 1 ∷ 0 ∷ []) 0 ≡ Err (faults.BadType 98) }
    ensures huge_list { struct_at binary (15 ∷ 0 ∷ 1 ∷ 8 ∷ 127 ∷ 255 ∷ 255 ∷ 255 ∷ 0 ∷ 0 ∷ 0 ∷ 0 ∷ 0 ∷ 0 ∷ 0 ∷ []) 0 ≡ Err faults.Short }
    ensures sixty_five_levels { struct_at binary (deep_bytes 64) 0 ≡ Err faults.TooDeep }
    ensures number_before_level { value binary 0 tags.List (record { bytes = []; budget = 0 }) ≡ Err faults.TooMany }
    ensures level_before_header { value binary 0 tags.List (record { bytes = []; budget = 1 }) ≡ Err faults.TooDeep }
    ensures one_value_too_many { value binary 64 tags.Struct (record { bytes = two_numbers_bytes; budget = 2 }) ≡ Err faults.TooMany }
{}

/// What is written.
pub fn structs_are_written()
    ensures numbers { text binary_encoder two_numbers ≡ two_numbers_bytes }
    ensures own_tag { text binary_encoder (of_struct (field (pos 1) (of_list tags.I32 no_items) no_fields)) ≡ empty_list_bytes }
    ensures map { text binary_encoder lookup ≡ lookup_bytes }
    ensures signed { text binary_encoder (of_i8 (negsuc 0)) ≡ 255 ∷ [] }
    ensures bools { text binary_encoder (of_struct (field (pos 1) (of_bool true) (field (pos 2) (of_bool false) no_fields)))
        ≡ 2 ∷ 0 ∷ 1 ∷ 1 ∷ 2 ∷ 0 ∷ 2 ∷ 0 ∷ 0 ∷ [] }
    ensures uuid { text binary_encoder uuid_alone ≡ uuid_alone_bytes }
    ensures double { text binary_encoder (of_double (2 ^ 56)) ≡ 1 ∷ 0 ∷ 0 ∷ 0 ∷ 0 ∷ 0 ∷ 0 ∷ 0 ∷ [] }
{}
