//! Worked texts.
ghost use Rattle.std.specs.Prelude.{◌≡◌, ◌∷◌, [], true, pos, negsuc, codes};
ghost use Rattle.thrift_value.specs.declared.tag.Tag.TheVariants.{Bool as BoolTag, I16 as I16Tag, Bytes as BytesTag};
ghost use Rattle.thrift_value.specs.Tree.{of_bool, of_i32, of_double, of_bytes, of_struct, of_map, of_set, of_list, of_uuid, field, no_fields, item, no_items, pair, no_pairs};
ghost use Rattle.value_text.specs.ValueText.{tree_text};

/// A text of each kind of value.
pub fn worked_texts()
    ensures number { tree_text (of_i32 (negsuc 6)) ≡ codes "-7i" }
    ensures fields { tree_text (of_struct (field (negsuc 0) (of_bool true) no_fields)) ≡ codes "{-1=true}" }
    ensures double { tree_text (of_double 4607182418800017408) ≡ codes "d3ff0000000000000" }
    ensures uuid { tree_text (of_uuid 88962710306127702866241727433142015) ≡ codes "u00112233445566778899aabbccddeeff" }
    ensures bytes { tree_text (of_bytes (97 ∷ 34 ∷ 92 ∷ 10 ∷ [])) ≡ codes "\"a\\\"\\\\\\x0a\"" }
    ensures list { tree_text (of_list BoolTag (item (of_bool true) (item (of_bool true) no_items))) ≡ codes "list<bool>[true,true]" }
    ensures set { tree_text (of_set I16Tag no_items) ≡ codes "set<i16>[]" }
    ensures map { tree_text (of_map BytesTag BoolTag (pair (of_bytes []) (of_bool true) (pair (of_bytes (97 ∷ [])) (of_bool true) no_pairs)))
        ≡ codes "map<bytes,bool>{\"\"=true,\"a\"=true}" }
{}
