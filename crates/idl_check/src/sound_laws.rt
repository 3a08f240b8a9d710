//! What holds of programs of texts, and of their schemas.

ghost use Rattle.std.specs.Prelude.{◌<◌, ◌+◌, ◌^◌, ℕ, List, length};
ghost use Rattle.thrift_value.specs.Tree.{Tree};
ghost use Rattle.idl_include.specs.DeclaredIn.{definitions_in};
ghost use Rattle.idl_include.specs.TypeExpr.{TypeExpr};
ghost use Rattle.idl_include.specs.Program.{Program};
ghost use Rattle.idl_include.specs.Numbering.{constants_of, typedefs_of, enums_of, structs_of, services_of, all_functions};
ghost use Rattle.idl_include.specs.SourcesOf.{program_in, IsOfSomeText, AreFiles};
ghost use Rattle.schema.specs.PlainKind.{PlainKind};
ghost use Rattle.schema.specs.PlainSchema.{PlainSchema};
ghost use Rattle.schema.specs.Sound.{IsKindIn, IsValueOf, IsSoundButConstants, IsSound};
ghost use Rattle.check_model.specs.Resolved.{TypeMeans};
ghost use Rattle.check_model.specs.SchemaParts.{IsPartialSchema};
ghost use Rattle.check_model.specs.FirstFlaw.{HasNoFlaw};
ghost use Rattle.check_model.specs.ProgramSchema.{IsSchemaOf};
ghost use Rattle.idl_check.specs.DeclaredTexts.{AreOfText, IsProgramOfTexts};
ghost use Rattle.idl_const.specs.ShortLiterals.{GivesShortLiterals};
ghost use Rattle.idl_check.specs.Clean.{IsClean};

use idl_const::laws::values_may_be_written;
use idl_include::IdlFile;
use idl_parser::Document;
use idl_token::{each_token_is_of_its_kind, tokens_stand_in_order};

/// The names that a document gives are identifiers, its literals are short, and it has no more definitions and functions than its text has bytes.
pub fn a_document_is_of_its_text()
    ensures { (d : Document) → IsOfSomeText d → AreOfText (definitions_in d) }
{
    each_token_is_of_its_kind();
    tokens_stand_in_order();
}

/// The files that loading gives are a program of texts.
pub fn loaded_files_are_a_program_of_texts()
    ensures { (files : List IdlFile) → AreFiles files → IsProgramOfTexts (program_in files) }
{
    each_token_is_of_its_kind();
    tokens_stand_in_order();
}

/// A program of texts has fewer definitions, functions included, than 32 bits count.
pub fn a_program_of_texts_has_short_lists()
    ensures constants { (program : Program) → IsProgramOfTexts program → length (constants_of program) < 2 ^ 32 }
    ensures typedefs { (program : Program) → IsProgramOfTexts program → length (typedefs_of program) < 2 ^ 32 }
    ensures enums { (program : Program) → IsProgramOfTexts program → length (enums_of program) < 2 ^ 32 }
    ensures services { (program : Program) → IsProgramOfTexts program → length (services_of program) < 2 ^ 32 }
    ensures structs { (program : Program) → IsProgramOfTexts program → length (structs_of program) + length (all_functions program) < 2 ^ 32 }
{}

/// What a type means names enums and structs of the program's schema.
pub fn a_meaning_is_a_type_of_the_schema()
    ensures partial { (program : Program) (partial : PlainSchema) → IsPartialSchema program partial → (file : ℕ) (type : TypeExpr) (kind : PlainKind)
        → TypeMeans program file type kind → IsKindIn partial kind }
    ensures whole { (program : Program) (schema : PlainSchema) → IsSchemaOf program schema → (file : ℕ) (type : TypeExpr) (kind : PlainKind)
        → TypeMeans program file type kind → IsKindIn schema kind }
{}

/// The values that a program of texts gives have short literals.
pub fn a_program_of_texts_gives_short_literals()
    ensures { (program : Program) → IsProgramOfTexts program → GivesShortLiterals program }
{}

/// The schema of a program of texts is sound without its defaults and constants, where some passes find nothing.
pub fn a_partial_schema_is_sound()
    ensures { (program : Program) (partial : PlainSchema) → IsProgramOfTexts program → IsClean program → IsPartialSchema program partial → IsSoundButConstants partial }
{}

/// A program of which no pass finds anything is clean.
pub fn a_faultless_program_is_clean()
    ensures { (program : Program) → HasNoFlaw program → IsClean program }
{}

/// What is a value of a type without defaults and constants is one with them.
pub fn a_value_is_one_with_defaults()
    ensures { (program : Program) (partial schema : PlainSchema) → IsPartialSchema program partial → IsSchemaOf program schema
        → (kind : PlainKind) (value : Tree) → IsValueOf partial kind value → IsValueOf schema kind value }
{}

/// The schema of a program of texts is sound.
pub fn a_schema_is_sound()
    ensures { (program : Program) (schema : PlainSchema) → IsProgramOfTexts program → IsSchemaOf program schema → IsSound schema }
{
    values_may_be_written();
}

/// The schema of the program that loading gives is sound.
pub fn the_schema_of_loaded_files_is_sound()
    ensures { (files : List IdlFile) (schema : PlainSchema) → AreFiles files → IsSchemaOf (program_in files) schema → IsSound schema }
{
    loaded_files_are_a_program_of_texts();
    a_schema_is_sound();
}
