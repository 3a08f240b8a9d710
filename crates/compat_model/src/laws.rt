//! What holds of all changes.
ghost use Rattle.std.specs.Prelude.{◌≡◌, ℕ, Contains, IsOk};
ghost use Rattle.thrift_value.specs.Plain.{plain};
ghost use Rattle.thrift_value.specs.Tidy.{IsTidy};
ghost use Rattle.thrift_value.specs.Tree.{Tree};
ghost use Rattle.schema.specs.PlainKind.{PlainKind};
ghost use Rattle.schema.specs.PlainSchema.{PlainSchema};
ghost use Rattle.schema.specs.Sound.{IsSound};
ghost use Rattle.schema.specs.WrittenAs.{IsWrittenAs};
ghost use Rattle.struct_skew.specs.Projection.{meaning_of};
ghost use Rattle.compat_model.specs.Breaks.{PlainBreak, IsCompatible, IsFirstBreak};
ghost use Rattle.compat_model.specs.KeptValues.{KeepsValues};
ghost use Rattle.compat_model.specs.StructPairs.{SchemaChange, StructPair, writing_schema, reading_schema, pairs_reached};

/// Where a new schema has no break, every value of a struct that is written as the first of a pair is kept where it is read as the
/// second: its fields that the reader declares are there, equal or kept in turn; or it has too many levels or values.
pub fn compatible_values_are_kept()
    ensures { (ch : SchemaChange) (n : ℕ) (p : StructPair) → IsSound ch.old → IsSound ch.new → IsCompatible ch → Contains (pairs_reached ch n) p
        → KeepsValues (writing_schema ch p.backward) p.from (reading_schema ch p.backward) p.to }
{}

/// A change with a first break is not compatible.
pub fn a_break_is_no_compatibility()
    ensures { (ch : SchemaChange) (b : PlainBreak) → IsFirstBreak ch b → IsCompatible ch → ⊥ }
{}

/// A change has one first break at most.
pub fn the_break_is_determined()
    ensures { (ch : SchemaChange) (b other : PlainBreak) → IsFirstBreak ch b → IsFirstBreak ch other → b ≡ other }
{}

/// A value that was written under a type has a meaning under it, also where its bytes don't tell the tags of empty containers.
pub fn a_written_value_has_a_meaning()
    ensures { (s : PlainSchema) (kind : PlainKind) (v : Tree) → IsSound s → IsTidy v → IsWrittenAs s.structs kind v
        → IsOk (meaning_of s.structs (plain v) kind) }
{}
