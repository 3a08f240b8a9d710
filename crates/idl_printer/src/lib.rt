//! The printer of the interface language: a document becomes a text, in one layout, which is read as that document again.
//!
//! ```
//! let document = parse(alloc, text, tokens.as_slice())?;
//! let text = print(alloc, &document)?;
//! ```
#![tactic(auto)]

ghost use Rattle.std.specs.Prelude.{◌≡◌, ◌++◌, List, OnOk, IfOk};
ghost use Rattle.std.specs.List.{flat_map};
ghost use Rattle.idl_token.specs.Tokens.{AreTokensOf};
ghost use Rattle.idl_printer.specs.Unplaced.{without_places};
ghost use Rattle.idl_parser.specs.Documents.{deepest, DocumentIn};
ghost use Rattle.idl_printer.specs.Printed.{include_line, definition_text, printed};
ghost use Rattle.idl_printer.specs.ReadBack.{IsParsed, IsParsedAs};
ghost use Rattle.idl_parser.specs.Symbols.{lexemes};
ghost use Rattle.idl_parser.specs.Trees.{document_node};

use crate::definition_printer::put_definition;
use crate::type_printer::put_spaced_word;
use crate::value_printer::put_literal;
use idl_parser::{Definition, Document, Include};
use idl_token::{Terminal, Token};
use std::alloc::{AllocError, Global};

mod definition_printer;
mod field_printer;
mod type_printer;
mod value_printer;

#[tactic(auto, unfolding(crate::specs::Printed::include_line))]
fn put_include(into: &mut Vec<u8>, include: &Include) -> Result<(), AllocError>
    ensures { OnOk result (into.new.items ≡ into.old.items ++ include_line include.now) }
{
    put_spaced_word(into, Terminal::Include)?;
    put_literal(into, include.file.bytes.as_slice())?;
    into.extend_from_slice(b"\n")
}

fn put_includes(into: &mut Vec<u8>, includes: &[Include]) -> Result<(), AllocError>
    ensures { OnOk result (into.new.items ≡ into.old.items ++ flat_map include_line includes.now) }
{
    for include in includes {
        put_include(into, include)?;
    }
    Ok(())
}

fn put_definitions(into: &mut Vec<u8>, definitions: &[Definition]) -> Result<(), AllocError>
    ensures { OnOk result (into.new.items ≡ into.old.items ++ flat_map definition_text definitions.now) }
{
    for definition in definitions {
        put_definition(into, definition)?;
    }
    Ok(())
}

/// The text of a document, in one layout: what `parse` reads from it is the document, but for the places.
#[tactic(auto, unfolding(crate::specs::Printed::printed))]
pub fn print(alloc: Global, document: &Document) -> Result<Vec<u8>, AllocError>
    ensures exact { IfOk result (λ text. text.items ≡ printed document.now) }
    ensures read_back { IfOk result (λ text. IsParsed document.now → IsParsedAs (document_node document.now) text.items) }
{
    a_printed_document_is_read_back();
    let mut text = Vec::new(alloc);
    put_includes(&mut text, document.includes.as_slice())?;
    put_definitions(&mut text, document.definitions.as_slice())?;
    Ok(text)
}

/// A document that was read is the one that is read from its printed text, but for the places.
pub fn a_printed_document_is_read_back()
    ensures { (d : Document) → IsParsed d → IsParsedAs (document_node d) (printed d) }
{}

/// The printed text says nothing but the tree, places aside: documents with one tree have one text.
pub fn the_print_is_canonical()
    ensures { (d e : Document) → without_places (document_node d) ≡ without_places (document_node e) → printed d ≡ printed e }
{}

/// What is parsed from the printed text of a document that was read is the document, but for the places.
pub fn a_printed_document_is_parsed_to_itself()
    ensures { (d parsed : Document) (tokens : List Token) → IsParsed d → AreTokensOf tokens (printed d)
        → DocumentIn deepest (lexemes (printed d) tokens) (document_node parsed) → without_places (document_node parsed) ≡ without_places (document_node d) }
{}
