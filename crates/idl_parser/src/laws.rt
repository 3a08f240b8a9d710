//! What holds of documents and of first faults, over the grammar alone.
ghost use Rattle.std.specs.Prelude.{◌≡◌, ◌↔◌, ◌⊎◌, ◌≤◌, ℕ, suc, List, length, false, true, Bool};
ghost use Rattle.std.specs.List.{All};
ghost use Rattle.idl_token.specs.Wholes.{sound, whole_of};
ghost use Rattle.idl_token.specs.Tokens.{token_bytes, AreTokensOf};
ghost use Rattle.idl_parser.specs.Symbols.{terminal_of};
ghost use Rattle.idl_parser.specs.Phrases.{Lexeme, Node, Phrase, Derives};
ghost use Rattle.idl_parser.specs.Documents.{document, DocumentIn};
ghost use Rattle.idl_parser.specs.FirstFault.{IsFirstSyntaxFault, AreDocument, HasFirstSyntaxFault};
ghost use Rattle.idl_parser.specs.Faults.{IsFaultOf};
ghost use Rattle.idl_parser.specs.Reading.{read, whole, done, failed};

use crate::ParseFault;
use idl_token::{Terminal, Token, TokenKind, each_token_is_of_its_kind};

/// Some symbols are one document at most.
pub fn the_document_is_determined()
    ensures { (levels : ℕ) (ts : List Lexeme) (d e : Node) → DocumentIn levels ts d → DocumentIn levels ts e → d ≡ e }
{}

/// Some symbols are a document, or they have a first fault.
pub fn a_document_or_a_first_fault()
    ensures { (levels : ℕ) (ts : List Lexeme) → AreDocument levels ts ⊎ HasFirstSyntaxFault levels ts }
{}

/// With one more level a document is the same.
pub fn one_more_level_changes_no_document()
    ensures { (levels : ℕ) (ts : List Lexeme) (d : Node) → DocumentIn levels ts d → DocumentIn (suc levels) ts d }
{}

/// A document has no first fault.
pub fn a_document_has_no_fault()
    ensures { (levels : ℕ) (ts rest : List Lexeme) (d : Node) (deep : Bool) → DocumentIn levels ts d → IsFirstSyntaxFault levels ts rest deep → ⊥ }
{}

/// Some symbols have one first fault at most, and a text has one fault at most.
pub fn the_first_fault_is_determined()
    ensures rest { (levels : ℕ) (ts rest left : List Lexeme) (deep further : Bool) → IsFirstSyntaxFault levels ts rest deep → IsFirstSyntaxFault levels ts left further → rest ≡ left }
    ensures deep { (levels : ℕ) (ts rest left : List Lexeme) (deep further : Bool) → IsFirstSyntaxFault levels ts rest deep → IsFirstSyntaxFault levels ts left further → deep ≡ further }
    ensures of_a_text { (text : List ℕ) (tokens : List Token) (f g : ParseFault) → IsFaultOf text tokens f → IsFaultOf text tokens g → f ≡ g }
{}

/// What the reading makes of some symbols is their document, or their first fault.
pub fn a_reading_finds_the_document_or_the_first_fault()
    ensures document { (n levels : ℕ) (ts : List Lexeme) (d : Node) (rest : List Lexeme) → whole (read n (document levels) ts) ≡ done d rest → DocumentIn levels ts d }
    ensures fault { (n levels : ℕ) (ts rest : List Lexeme) (deep : Bool) → length ts ≤ n → whole (read n (document levels) ts) ≡ failed deep rest → IsFirstSyntaxFault levels ts rest deep }
{}

/// A token's symbol is `Refused` exactly where its kind is: no keyword's is, and no sign's but that of `&`.
pub fn only_what_is_left_out_is_refused()
    ensures token { (kind : TokenKind) (bytes : List ℕ) → whole_of bytes ≡ sound kind → (terminal_of kind bytes ≡ Terminal.Refused) ↔ (kind ≡ TokenKind.Refused) }
    ensures each { (text : List ℕ) (tokens : List Token) → AreTokensOf tokens text → All (λ t. (terminal_of t.kind (token_bytes text t) ≡ Terminal.Refused) ↔ (t.kind ≡ TokenKind.Refused)) tokens }
{
    each_token_is_of_its_kind();
}
