//! The parser of the interface language: the tokens of a text become a document, or the first fault is found.
//!
//! `parse(alloc, text, tokens.as_slice())` takes what `idl_token::tokens` gave for the text:
//!
//! ```
//! let tokens = idl_token::tokens(alloc, text)?;
//! let document = parse(alloc, text, tokens.as_slice())?;
//! for definition in document.definitions.iter() {
//!     match definition {
//!         Definition::Struct(structure) => { .. structure.name.text, structure.fields .. }
//!         ..
//!     }
//! }
//! ```
//!
//! The crate knows the grammar alone: whether a name is defined, a constant fits or a field's number is
//! taken is the checker's matter. Separators, annotations, namespaces, `cpp_include` and `cpp_type` are read and left out.
#![tactic(auto)]

ghost use Rattle.std.specs.Prelude.{◌≡◌, ◌≢◌, ◌≤◌, length, IfOk, IfErr};
ghost use Rattle.idl_token.specs.Tokens.{AreTokensOf};
ghost use Rattle.idl_parser.specs.Documents.{deepest, DocumentIn};
ghost use Rattle.idl_parser.specs.Faults.{IsFaultOf};
ghost use Rattle.idl_parser.specs.Symbols.{lexemes};
ghost use Rattle.idl_parser.specs.Trees.{document_node};

use crate::reader::{Stop, SymbolReader};
use crate::symbol::symbols;
use idl_token::{
    LONGEST_IDL_TEXT, Place, Token, an_integer_has_a_place_in_64_bits, each_token_is_of_its_kind,
    place_at, tokens_stand_in_order,
};
use std::alloc::{AllocError, Global};
use thiserror::Error;

mod definition_reader;
mod document_reader;
mod field_reader;
mod laws;
mod leaves;
mod reader;
mod small_reader;
mod symbol;
mod tree;
mod type_reader;
mod value_reader;

pub use laws::{
    a_document_has_no_fault, a_document_or_a_first_fault,
    a_reading_finds_the_document_or_the_first_fault, one_more_level_changes_no_document,
    only_what_is_left_out_is_refused, the_document_is_determined, the_first_fault_is_determined,
};
pub use tree::{
    Base, Const, ConstTree, Definition, Document, Double, Enum, EnumValue, Field, Function,
    Include, Int, Literal, Name, Need, Service, Struct, StructKind, TypeTree, Typedef,
};
pub use type_reader::base_terminal;

/// What is wrong with a token.
#[derive(Clone, Copy, Debug, PartialEq, Eq, Error)]
pub enum ParseKind {
    /// No document goes on with it.
    #[error("no document goes on with this")]
    Found,
    /// It is a word or a sign that is left out by name.
    #[error("this word or sign isn't part of the language here")]
    Refused,
    /// It opens level 65 of a type or a constant.
    #[error("more than 64 levels of containers")]
    TooDeep,
    /// The document found no room in memory.
    #[error("out of memory")]
    NoMemory,
}

/// The first fault of a text.
#[derive(Clone, Copy, Debug, Error)]
#[error("{at}: {kind}")]
pub struct ParseFault {
    /// The place of the token at fault, or that behind the last byte.
    pub at: Place,
    /// What is wrong there.
    pub kind: ParseKind,
}

impl From<AllocError> for ParseFault {
    ghost use Rattle.idl_parser.specs.declared.ParseKind.TheVariants.{NoMemory};

    ghost from_gives = { λ _ fault. fault.kind ≡ NoMemory };

    fn from(_error: AllocError) -> Self {
        ParseFault {
            at: Place { line: 1, column: 1 },
            kind: ParseKind::NoMemory,
        }
    }
}

/// The document of a text, or its first fault.
pub fn parse(alloc: Global, text: &[u8], tokens: &[Token]) -> Result<Document, ParseFault>
    requires short { length text.now ≤ LONGEST_IDL_TEXT }
    requires tokens { AreTokensOf tokens.now text.now }
    ensures ok { IfOk result (λ d. DocumentIn deepest (lexemes text.now tokens.now) (document_node d)) }
    ensures fault { IfErr result (λ f. f.kind ≢ ParseKind.NoMemory → IsFaultOf text.now tokens.now f) }
{
    tokens_stand_in_order();
    each_token_is_of_its_kind();
    an_integer_has_a_place_in_64_bits();
    let all = symbols(alloc, text, tokens)?;
    let mut reader = SymbolReader::new(alloc, text, all.as_slice());
    match reader.whole_document() {
        Ok(document) => Ok(document),
        Err(Stop::NoMemory) => Err(AllocError.into()),
        Err(stop) => {
            let (at, kind) = reader.fault(stop, place_at(text, text.len()));
            Err(ParseFault { at, kind })
        }
    }
}
