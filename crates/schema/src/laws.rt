//! What holds of all sound schemas.
ghost use Rattle.std.specs.Prelude.{◌≡◌, ℕ, List, ◌∷◌, [], codes, pos, true, Some, None};
ghost use Rattle.thrift_value.specs.declared.tag.Tag.TheVariants.{Bool as BoolTag};
ghost use Rattle.thrift_value.specs.Tree.{of_bool, of_i8, of_list, of_struct, field, no_fields, item, no_items};
ghost use Rattle.schema.specs.Example.{example_field, example_function, example_needy, example_schema, example_struct, example_union};
ghost use Rattle.schema.specs.Inherited.{lineage, IsLineage};
ghost use Rattle.schema.specs.LookUp.{field_at, function_named, service_named};
ghost use Rattle.schema.specs.PlainKind.{kind_bool, kind_list, kind_struct};
ghost use Rattle.schema.specs.PlainSchema.{PlainSchema};
ghost use Rattle.schema.specs.SchemaText.{schema_text};
ghost use Rattle.schema.specs.Shapes.{AreShapesOf};
ghost use Rattle.schema.specs.Sound.{IsPlaceIn, IsSound};
ghost use Rattle.schema.specs.WrittenAs.{IsWrittenAs};

/// The lineage of a service of a sound schema is whole: it ends at a service that extends none.
pub fn a_lineage_is_whole()
    ensures { (s : PlainSchema) (which : ℕ) → IsSound s → IsPlaceIn s.services which
        → IsLineage s.services which (lineage s.services which) }
{}

/// A service of a sound schema has one list of shapes.
pub fn the_shapes_are_determined()
    ensures { (s : PlainSchema) (which : ℕ) (lines others : List (List ℕ)) → IsSound s → IsPlaceIn s.services which
        → AreShapesOf s which lines → AreShapesOf s which others → lines ≡ others }
{}

/// What the example is: sound, with these look-ups, this text and this shape.
pub fn the_example_is_sound()
    ensures sound { IsSound example_schema }
    ensures field { field_at example_schema 0 (pos 1) ≡ Some example_field }
    ensures no_field { field_at example_schema 0 (pos 2) ≡ None }
    ensures service { service_named example_schema (codes "V") ≡ Some 0 }
    ensures dotted { service_named example_schema (codes "t.V") ≡ None }
    ensures function { function_named example_schema 0 (codes "f") ≡ Some example_function }
    ensures shapes { AreShapesOf example_schema 0 (codes "f():list<struct>" ∷ []) }
    ensures text { schema_text example_schema
        ≡ codes "file t\nstruct S\n  1 default bool a = true\nservice V\n  list<t.S> f()\n" }
{}

/// Values that may be written under a type, and values that may not.
pub fn values_as_written()
    ensures one_of_a_union { IsWrittenAs (example_union ∷ []) (kind_struct 0) (of_struct (field (pos 2) (of_bool true) no_fields)) }
    ensures two_of_a_union { IsWrittenAs (example_union ∷ []) (kind_struct 0) (of_struct (field (pos 1) (of_bool true) (field (pos 2) (of_bool true) no_fields))) → ⊥ }
    ensures none_of_a_union { IsWrittenAs (example_union ∷ []) (kind_struct 0) (of_struct no_fields) → ⊥ }
    ensures required_is_missing { IsWrittenAs (example_needy ∷ []) (kind_struct 0) (of_struct no_fields) → ⊥ }
    ensures undeclared_id { IsWrittenAs (example_struct ∷ []) (kind_struct 0) (of_struct (field (pos 2) (of_bool true) no_fields)) → ⊥ }
    ensures another_type { IsWrittenAs (example_struct ∷ []) (kind_list kind_bool) (of_list BoolTag (item (of_bool true) (item (of_i8 (pos 1)) no_items))) → ⊥ }
    ensures empty_list { IsWrittenAs (example_struct ∷ []) (kind_list (kind_struct 0)) (of_list BoolTag no_items) }
{}
