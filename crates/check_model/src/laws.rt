//! What holds of schemas and of first faults.

ghost use Rattle.std.specs.Prelude.{◌≡◌, ◌⊎◌, ℕ, List};
ghost use Rattle.streams.specs.Files.{File};
ghost use Rattle.idl_include.specs.TypeExpr.{TypeExpr};
ghost use Rattle.idl_include.specs.Program.{Program};
ghost use Rattle.schema.specs.PlainKind.{PlainKind};
ghost use Rattle.schema.specs.PlainSchema.{PlainSchema};
ghost use Rattle.check_model.specs.Resolved.{TypeMeans};
ghost use Rattle.check_model.specs.SchemaParts.{IsPartialSchema};
ghost use Rattle.check_model.specs.FirstFlaw.{ProgramFlaw, IsFirstFlaw};
ghost use Rattle.check_model.specs.ProgramSchema.{IsSchemaOf, ProgramVerdict, IsProgramVerdict};

use graph_cycles::laws::a_node_leads_to_another_or_not;
use idl_include::laws::{each_file_is_read_as_one_thing, the_program_is_determined};

/// A type means one kind at most.
pub fn a_type_has_one_meaning()
    ensures { (program : Program) (file : ℕ) (type : TypeExpr) (j k : PlainKind) → TypeMeans program file type j → TypeMeans program file type k → j ≡ k }
{}

/// A program has one schema at most, with its defaults and constants and without.
pub fn the_schema_is_determined()
    ensures partial { (program : Program) (a b : PlainSchema) → IsPartialSchema program a → IsPartialSchema program b → a ≡ b }
    ensures whole { (program : Program) (a b : PlainSchema) → IsSchemaOf program a → IsSchemaOf program b → a ≡ b }
{}

/// A program has one first fault at most.
pub fn the_first_flaw_is_determined()
    ensures { (program : Program) (f g : ProgramFlaw) → IsFirstFlaw program f → IsFirstFlaw program g → f ≡ g }
{}

/// A program that has a schema has no first fault.
pub fn a_schema_excludes_a_flaw()
    ensures { (program : Program) (schema : PlainSchema) (flaw : ProgramFlaw) → IsSchemaOf program schema → IsFirstFlaw program flaw → ⊥ }
{}

/// The program of a main file among files has a verdict, and one alone.
pub fn the_verdict_is_determined()
    ensures some { (files : List File) (main : List ℕ) → (v : ProgramVerdict) × IsProgramVerdict files main v }
    ensures one { (files : List File) (main : List ℕ) (v w : ProgramVerdict) → IsProgramVerdict files main v → IsProgramVerdict files main w → v ≡ w }
{
    each_file_is_read_as_one_thing();
    the_program_is_determined();
    a_node_leads_to_another_or_not();
}

/// A program has a schema or a first fault.
pub fn a_schema_or_a_first_flaw()
    ensures { (program : Program) → ((schema : PlainSchema) × IsSchemaOf program schema) ⊎ ((flaw : ProgramFlaw) × IsFirstFlaw program flaw) }
{
    a_node_leads_to_another_or_not();
}
