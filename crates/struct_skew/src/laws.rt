//! What holds of the definitions.
ghost use Rattle.std.specs.Prelude.{◌≡◌, ◌↔◌, ◌≤◌, ℕ, true, IsTrue, is_some, List, Some, Ok, Err};
ghost use Rattle.limits.specs.Limits.{most_levels, most_values};
ghost use Rattle.thrift_value.specs.declared.tag.Tag.TheVariants.{Struct as StructTag};
ghost use Rattle.thrift_value.specs.Measures.{count_of, depth_of};
ghost use Rattle.thrift_value.specs.Plain.{plain};
ghost use Rattle.thrift_value.specs.Sizes.{HasSmallSizes};
ghost use Rattle.thrift_value.specs.Tags.{tag_of};
ghost use Rattle.thrift_value.specs.Tidy.{IsTidy};
ghost use Rattle.thrift_value.specs.Tree.{Tree, FieldTrees, of_struct};
ghost use Rattle.schema.specs.LookUp.{function_named};
ghost use Rattle.schema.specs.PlainKind.{PlainKind, kind_struct};
ghost use Rattle.schema.specs.PlainSchema.{PlainFunction, PlainSchema, PlainStruct};
ghost use Rattle.schema.specs.Sound.{IsPlaceIn, IsSound, IsSoundFunction};
ghost use Rattle.schema.specs.WrittenAs.{IsWrittenAs, MayBeWrittenAs};
ghost use Rattle.known_parts.specs.Known.{known, known_fields};
ghost use Rattle.struct_skew.specs.declared.fault.SkewFault.{SkewFault};
ghost use Rattle.struct_skew.specs.Filled.{IsFilled};
ghost use Rattle.struct_skew.specs.FilledTests.{is_settled};
ghost use Rattle.struct_skew.specs.Fits.{fits_kind};
ghost use Rattle.struct_skew.specs.Projection.{meaning_of, projection};
ghost use Rattle.struct_skew.specs.ProjectionLaws.{NamesDeclared};
ghost use Rattle.struct_skew.specs.TidyTests.{has_small_sizes, is_tidy};
ghost use Rattle.struct_skew.specs.WrittenTests.{may_be_written};

/// The tests of values decide what they are named for.
pub fn the_tests_decide()
    ensures tidy { (x : Tree) → IsTrue (is_tidy x) ↔ IsTidy x }
    ensures sizes { (x : Tree) → IsTrue (has_small_sizes x) ↔ HasSmallSizes x }
    ensures written { (structs : List PlainStruct) (kind : PlainKind) (x : Tree)
        → IsTrue (may_be_written structs kind x) ↔ MayBeWrittenAs structs kind x }
{}

/// A projection is a tidy value of its struct's type. Where no length and no number of elements that was sent is above
/// 2^31 - 1, none of the projection is.
pub fn a_projection_is_of_its_type()
    ensures tidy { (s : PlainSchema) (which : ℕ) (raw value : Tree) → IsSound s → IsPlaceIn s.structs which → tag_of raw ≡ StructTag
        → projection s which raw ≡ Ok value → IsTidy value }
    ensures typed { (s : PlainSchema) (which : ℕ) (raw value : Tree) → IsSound s → IsPlaceIn s.structs which → tag_of raw ≡ StructTag
        → projection s which raw ≡ Ok value → IsWrittenAs s.structs (kind_struct which) value }
    ensures sizes { (s : PlainSchema) (which : ℕ) (raw value : Tree) → IsSound s → IsPlaceIn s.structs which → tag_of raw ≡ StructTag
        → HasSmallSizes raw → projection s which raw ≡ Ok value → HasSmallSizes value }
{}

/// What is missing is a declared field that has to be there, and what has none or several fields is a union.
pub fn a_fault_names_what_is_declared()
    ensures { (s : PlainSchema) (which : ℕ) (raw : Tree) (fault : SkewFault) → IsSound s → IsPlaceIn s.structs which → tag_of raw ≡ StructTag
        → projection s which raw ≡ Err fault → NamesDeclared s fault }
{}

/// A value in which nothing is missing is its own projection, also where its bytes don't tell the tags of empty containers.
pub fn a_filled_value_is_its_projection()
    ensures { (s : PlainSchema) (which : ℕ) (v : Tree) → IsSound s → IsTidy v → IsWrittenAs s.structs (kind_struct which) v
        → IsFilled s.structs (kind_struct which) v → depth_of v ≤ most_levels → count_of v ≤ most_values → projection s which (plain v) ≡ Ok v }
{}

/// What a schema knows of a struct has the struct's projection; and something is known of a value exactly where it fits its type.
pub fn what_is_known_decides()
    ensures projected { (s : PlainSchema) (which : ℕ) (fields : FieldTrees) → IsSound s
        → projection s which (of_struct (known_fields s which fields)) ≡ projection s which (of_struct fields) }
    ensures fitting { (s : PlainSchema) (kind : PlainKind) (raw : Tree) → IsSound s → is_some (known s raw kind) ≡ fits_kind kind raw }
{}

/// A settled value means itself, and within the bounds it is its own projection.
pub fn settled_values_mean_themselves()
    ensures meaning { (s : PlainSchema) (kind : PlainKind) (v : Tree) → IsSound s → is_settled s.structs kind v ≡ true → meaning_of s.structs v kind ≡ Ok v }
    ensures projected { (s : PlainSchema) (which : ℕ) (v : Tree) → IsSound s → is_settled s.structs (kind_struct which) v ≡ true
        → depth_of v ≤ most_levels → count_of v ≤ most_values → projection s which v ≡ Ok v }
{}

/// A function that is found in a sound schema is sound, and its arguments are a struct of the schema.
pub fn a_found_function_is_sound()
    ensures args { (s : PlainSchema) (which : ℕ) (name : List ℕ) (f : PlainFunction) → IsSound s → function_named s which name ≡ Some f → IsPlaceIn s.structs f.args }
    ensures sound { (s : PlainSchema) (which : ℕ) (name : List ℕ) (f : PlainFunction) → IsSound s → function_named s which name ≡ Some f → IsSoundFunction s f }
{}
