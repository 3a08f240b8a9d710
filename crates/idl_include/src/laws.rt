//! What holds of the loading of a program.

ghost use Rattle.std.specs.Prelude.{◌≡◌, ℕ, List};
ghost use Rattle.streams.specs.Files.{File};
ghost use Rattle.idl_parser.specs.Trees.{document_node};
ghost use Rattle.idl_include.specs.Decoded.{declarations_of, includes_of};
ghost use Rattle.idl_include.specs.DeclaredIn.{definitions_in, includes_of_document};
ghost use Rattle.idl_include.specs.Readings.{FileReading, IsReaderOf};
ghost use Rattle.idl_include.specs.Loading.{program_of};

use idl_parser::{
    Document, a_document_has_no_fault, a_document_or_a_first_fault, the_document_is_determined,
    the_first_fault_is_determined,
};
use idl_token::{
    the_fault_is_determined, tokens_are_determined, tokens_exclude_a_fault, tokens_or_a_first_fault,
};

/// Each file is read as something, and as one thing alone.
pub fn each_file_is_read_as_one_thing()
    ensures some { (files : List File) → (reader : List ℕ → FileReading) × IsReaderOf files reader }
    ensures one { (files : List File) (r s : List ℕ → FileReading) → IsReaderOf files r → IsReaderOf files s → (name : List ℕ) → r name ≡ s name }
{
    tokens_or_a_first_fault();
    tokens_are_determined();
    tokens_exclude_a_fault();
    the_fault_is_determined();
    a_document_or_a_first_fault();
    the_document_is_determined();
    a_document_has_no_fault();
    the_first_fault_is_determined();
}

/// A main file has one program among files, or one first fault.
pub fn the_program_is_determined()
    ensures { (files : List File) (main : List ℕ) (r s : List ℕ → FileReading) → IsReaderOf files r → IsReaderOf files s → program_of r main ≡ program_of s main }
{
    each_file_is_read_as_one_thing();
}

/// A document in memory declares what its tree declares, and includes what its tree includes.
pub fn a_document_declares_what_its_tree_does()
    ensures declarations { (d : Document) → declarations_of (document_node d) ≡ definitions_in d }
    ensures includes { (d : Document) → includes_of (document_node d) ≡ includes_of_document d }
{}
