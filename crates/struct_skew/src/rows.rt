//! Worked examples of the definitions.
ghost use Rattle.std.specs.Prelude.{◌≡◌, ◌≤◌, ℕ, pos, [], ◌∷◌, codes, true, false, Ok, Err};
ghost use Rattle.limits.specs.Limits.{most_levels, most_values};
ghost use Rattle.thrift_value.specs.declared.tag.Tag.TheVariants as tag;
ghost use Rattle.thrift_value.specs.Measures.{count_of, depth_of};
ghost use Rattle.schema.specs.PlainSchema.{PlainSchema};
ghost use Rattle.thrift_value.specs.Tree.{Tree, of_i32, of_bytes, of_struct, of_map, of_set, of_list, field, no_fields, item, no_items, pair, no_pairs};
ghost use Rattle.schema.specs.PlainKind.{kind_i32, kind_list, kind_struct};
ghost use Rattle.struct_skew.specs.Fits.{fits_kind};
ghost use Rattle.struct_skew.specs.Projection.{projection};
ghost use Rattle.known_parts.specs.Rows.{row_schema, sent_one, row_lists, nested_empty};
ghost use Rattle.struct_skew.specs.declared.fault.SkewFault.TheVariants as skew;

/// Which field counts, and what stands for one that wasn't sent.
pub fn worked_fields()
    ensures known_fields { projection row_schema 3 (of_struct (field (pos 1) (of_i32 (pos 1)) (field (pos 2) (of_struct
        (field (pos 1) (of_bytes (codes "1")) (field (pos 2) (of_i32 (pos 5)) (field (pos 9) (of_map tag.I32 tag.Map (pair (of_i32 (pos 7)) (of_map tag.Bool tag.Bool no_pairs) no_pairs))
        (field (pos 2) (of_i32 (pos 9)) (field (pos 3) (of_i32 (pos 1)) no_fields)))))) no_fields)))
        ≡ Ok (of_struct (field (pos 1) (of_i32 (pos 1)) (field (pos 2) (of_struct
        (field (pos 1) (of_i32 (pos 0)) (field (pos 2) (of_i32 (pos 9)) (field (pos 3) (of_i32 (pos 1)) no_fields)))) no_fields))) }
    ensures later_does_not_fit { projection row_schema 0 (of_struct (field (pos 2) (of_i32 (pos 5)) (field (pos 2) (of_bytes (codes "5")) no_fields)))
        ≡ Ok (of_struct (field (pos 1) (of_i32 (pos 0)) (field (pos 2) (of_i32 (pos 5)) no_fields))) }
    ensures missing { projection row_schema 3 (sent_one 3 (of_struct no_fields)) ≡ Err (skew.Missing 2 (pos 1)) }
    ensures missing_in_a_list { projection row_schema 3 (sent_one 9 (of_list tag.Struct (item (of_struct (field (pos 1) (of_i32 (pos 1)) no_fields)) (item (of_struct no_fields) no_items))))
        ≡ Err (skew.Missing 2 (pos 1)) }
    ensures default_in_a_list { projection row_schema 3 (sent_one 5 (of_list tag.Struct (item (of_struct no_fields) no_items)))
        ≡ Ok (sent_one 5 (of_list tag.Struct (item (of_struct (field (pos 1) (of_i32 (pos 0)) no_fields)) no_items))) }
    ensures undeclared { projection row_schema 0 (sent_one 12 (of_i32 (pos 5))) ≡ Ok (sent_one 1 (of_i32 (pos 0))) }
{}

/// A union has exactly one field that fits.
pub fn worked_unions()
    ensures one { projection row_schema 1 (of_struct (field (pos 1) (of_bytes []) (field (pos 2) (of_bytes []) no_fields)))
        ≡ Ok (sent_one 2 (of_bytes [])) }
    ensures two { projection row_schema 1 (of_struct (field (pos 2) (of_bytes []) (field (pos 1) (of_i32 (pos 1)) no_fields))) ≡ Err (skew.UnionFields 1) }
    ensures none { projection row_schema 1 (of_struct no_fields) ≡ Err (skew.UnionFields 1) }
    ensures unknown { projection row_schema 1 (sent_one 3 (of_i32 (pos 1))) ≡ Err (skew.UnionFields 1) }
    ensures repeated { projection row_schema 1 (of_struct (field (pos 1) (of_i32 (pos 1)) (field (pos 1) (of_i32 (pos 2)) no_fields)))
        ≡ Ok (sent_one 1 (of_i32 (pos 2))) }
    ensures fields_first { projection row_schema 3 (of_struct (field (pos 4) (of_struct no_fields) (field (pos 3) (of_struct no_fields) no_fields)))
        ≡ Err (skew.Missing 2 (pos 1)) }
    ensures its_field_first { projection row_schema 4 (of_struct (field (pos 2) (of_i32 (pos 1)) (field (pos 1) (of_struct no_fields) no_fields)))
        ≡ Err (skew.Missing 2 (pos 1)) }
{}

/// Containers: their elements decide whether they fit, and maps and sets become tidy.
pub fn worked_containers()
    ensures another_element { projection row_schema 3 (sent_one 7 (of_set tag.Bytes (item (of_bytes []) no_items))) ≡ Ok (of_struct no_fields) }
    ensures empty_of_any { projection row_schema 3 (sent_one 7 (of_set tag.Bool no_items)) ≡ Ok (sent_one 7 (of_set tag.I32 no_items)) }
    ensures equal_keys { projection row_schema 3 (sent_one 6 (of_map tag.Bytes tag.I32
        (pair (of_bytes (codes "b")) (of_i32 (pos 1)) (pair (of_bytes (codes "a")) (of_i32 (pos 2)) (pair (of_bytes (codes "b")) (of_i32 (pos 3)) no_pairs)))))
        ≡ Ok (sent_one 6 (of_map tag.Bytes tag.I32 (pair (of_bytes (codes "a")) (of_i32 (pos 2)) (pair (of_bytes (codes "b")) (of_i32 (pos 3)) no_pairs)))) }
    ensures replaced_pair_counts { projection row_schema 5 (sent_one 1 (of_map tag.Bytes tag.Struct
        (pair (of_bytes (codes "a")) (of_struct no_fields) (pair (of_bytes (codes "a")) (sent_one 1 (of_i32 (pos 1))) no_pairs))))
        ≡ Err (skew.Missing 2 (pos 1)) }
    ensures equal_when_projected { projection row_schema 5 (sent_one 2 (of_map tag.Struct tag.I32
        (pair (of_struct (field (pos 1) (of_i32 (pos 7)) (field (pos 9) (of_bytes []) no_fields))) (of_i32 (pos 1))
        (pair (of_struct (field (pos 8) (of_i32 (pos 0)) (field (pos 1) (of_i32 (pos 7)) no_fields))) (of_i32 (pos 2)) no_pairs))))
        ≡ Ok (sent_one 2 (of_map tag.Struct tag.I32 (pair (sent_one 1 (of_i32 (pos 7))) (of_i32 (pos 2)) no_pairs))) }
    ensures members { projection row_schema 3 (sent_one 7 (of_set tag.I32 (item (of_i32 (pos 2)) (item (of_i32 (pos 1)) (item (of_i32 (pos 2)) no_items)))))
        ≡ Ok (sent_one 7 (of_set tag.I32 (item (of_i32 (pos 1)) (item (of_i32 (pos 2)) no_items)))) }
    ensures struct_by_its_tag { fits_kind (kind_list (kind_struct 2)) (of_list tag.Struct (item (of_struct no_fields) no_items)) ≡ true }
    ensures deep_elements { fits_kind (kind_list (kind_list kind_i32)) (of_list tag.List (item (of_list tag.Bytes (item (of_bytes []) no_items)) no_items)) ≡ false }
{}

/// The bound on levels.
pub fn worked_levels()
    ensures at_most { projection row_schema 3 (sent_one 8 (nested_empty tag.List 62)) ≡ Ok (sent_one 8 (nested_empty tag.List 62)) }
    ensures too_deep { projection row_schema 3 (sent_one 8 (row_lists 64)) ≡ Err skew.TooDeep }
    ensures too_deep_by_a_default { projection row_schema 6 (of_struct no_fields) ≡ Err skew.TooDeep }
{}

/// A projection has at most 64 levels and 4,000,000 values.
pub fn a_projection_is_bounded()
    ensures { (s : PlainSchema) (which : ℕ) (raw value : Tree) → projection s which raw ≡ Ok value → (depth_of value ≤ most_levels) × (count_of value ≤ most_values) }
{}
