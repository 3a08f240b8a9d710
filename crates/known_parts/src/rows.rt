//! Worked examples of the definitions.
ghost use Rattle.std.specs.Prelude.{◌≡◌, pos, [], codes, None, Some};
ghost use Rattle.thrift_value.specs.declared.tag.Tag.TheVariants as tag;
ghost use Rattle.thrift_value.specs.Tree.{of_i32, of_bytes, of_struct, of_map, of_set, of_list, field, no_fields, item, no_items, pair, no_pairs};
ghost use Rattle.schema.specs.PlainKind.{kind_struct};
ghost use Rattle.known_parts.specs.Known.{known};
ghost use Rattle.known_parts.specs.Rows.{row_schema, sent_one};

/// What is known of fields: those that are declared and fit, as they were sent.
pub fn worked_known_fields()
    ensures repeated { known row_schema (of_struct (field (pos 2) (of_i32 (pos 5)) (field (pos 1) (of_i32 (pos 7)) (field (pos 2) (of_i32 (pos 9)) no_fields)))) (kind_struct 0)
        ≡ Some (of_struct (field (pos 2) (of_i32 (pos 5)) (field (pos 1) (of_i32 (pos 7)) (field (pos 2) (of_i32 (pos 9)) no_fields)))) }
    ensures undeclared { known row_schema (of_struct (field (pos 9) (of_map tag.I32 tag.Map (pair (of_i32 (pos 7)) (of_map tag.Bool tag.Bool no_pairs) no_pairs))
        (field (pos 2) (of_i32 (pos 5)) no_fields))) (kind_struct 0) ≡ Some (sent_one 2 (of_i32 (pos 5))) }
    ensures later_does_not_fit { known row_schema (of_struct (field (pos 2) (of_i32 (pos 5)) (field (pos 2) (of_bytes (codes "5")) no_fields))) (kind_struct 0)
        ≡ Some (sent_one 2 (of_i32 (pos 5))) }
    ensures replaced_struct { known row_schema (of_struct (field (pos 3) (sent_one 8 (of_i32 (pos 1))) (field (pos 3) (sent_one 1 (of_i32 (pos 1))) no_fields))) (kind_struct 3)
        ≡ Some (of_struct (field (pos 3) (of_struct no_fields) (field (pos 3) (sent_one 1 (of_i32 (pos 1))) no_fields))) }
    ensures two_of_a_union { known row_schema (of_struct (field (pos 2) (of_bytes []) (field (pos 1) (of_i32 (pos 1)) no_fields))) (kind_struct 1)
        ≡ Some (of_struct (field (pos 2) (of_bytes []) (field (pos 1) (of_i32 (pos 1)) no_fields))) }
    ensures no_struct { known row_schema (of_i32 (pos 1)) (kind_struct 0) ≡ None }
{}

/// What is known of containers: all of their elements or nothing, with the tags of the declared types.
pub fn worked_known_containers()
    ensures another_element_later { known row_schema (of_struct (field (pos 7) (of_set tag.I32 (item (of_i32 (pos 1)) no_items))
        (field (pos 7) (of_set tag.Bytes (item (of_bytes []) no_items)) no_fields))) (kind_struct 3)
        ≡ Some (sent_one 7 (of_set tag.I32 (item (of_i32 (pos 1)) no_items))) }
    ensures another_element { known row_schema (sent_one 5 (of_list tag.I32 (item (of_i32 (pos 1)) no_items))) (kind_struct 3) ≡ Some (of_struct no_fields) }
    ensures empty_of_any { known row_schema (sent_one 7 (of_set tag.Bool no_items)) (kind_struct 3) ≡ Some (sent_one 7 (of_set tag.I32 no_items)) }
    ensures known_elements { known row_schema (sent_one 5 (of_list tag.Struct (item (of_struct (field (pos 9) (of_i32 (pos 5)) (field (pos 2) (of_i32 (pos 1)) no_fields))) no_items))) (kind_struct 3)
        ≡ Some (sent_one 5 (of_list tag.Struct (item (sent_one 2 (of_i32 (pos 1))) no_items))) }
    ensures in_wire_order { known row_schema (sent_one 6 (of_map tag.Bytes tag.I32
        (pair (of_bytes (codes "b")) (of_i32 (pos 1)) (pair (of_bytes (codes "a")) (of_i32 (pos 2)) (pair (of_bytes (codes "b")) (of_i32 (pos 3)) no_pairs))))) (kind_struct 3)
        ≡ Some (sent_one 6 (of_map tag.Bytes tag.I32
        (pair (of_bytes (codes "b")) (of_i32 (pos 1)) (pair (of_bytes (codes "a")) (of_i32 (pos 2)) (pair (of_bytes (codes "b")) (of_i32 (pos 3)) no_pairs))))) }
    ensures another_value { known row_schema (sent_one 6 (of_map tag.Bytes tag.Bytes (pair (of_bytes []) (of_bytes []) no_pairs))) (kind_struct 3) ≡ Some (of_struct no_fields) }
{}
