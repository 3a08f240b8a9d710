//! What holds of the verdicts on IDLs.

ghost use Rattle.std.specs.Prelude.{◌≡◌, ℕ, List, Some};
ghost use Rattle.streams.specs.Files.{File};
ghost use Rattle.idl_check.specs.Verdicts.{IdlVerdict, IsIdlVerdict};

use check_model::laws::a_schema_or_a_first_flaw;
use idl_include::laws::{each_file_is_read_as_one_thing, the_program_is_determined};

/// Each IDL has a verdict, where files are told: its program has a schema, or is refused with a file, a place and a kind.
pub fn an_idl_has_a_verdict()
    ensures { (files : List File) (idl : List ℕ) → (verdict : IdlVerdict) × IsIdlVerdict (Some files) idl verdict }
{
    each_file_is_read_as_one_thing();
    a_schema_or_a_first_flaw();
}

/// An IDL has one verdict at most, where files are told.
pub fn an_idl_has_one_verdict()
    ensures { (files : List File) (idl : List ℕ) (a b : IdlVerdict) → IsIdlVerdict (Some files) idl a → IsIdlVerdict (Some files) idl b → a ≡ b }
{
    the_program_is_determined();
}
