//! One file: its bytes, its tokens, its document.

ghost use Rattle.std.specs.Prelude.{◌≡◌, ◌≢◌, ◌≤◌, ℕ, List, true, false, length, IfOk, IfErr, OnOk};
ghost use Rattle.streams.specs.Cause.{Rose};
ghost use Rattle.idl_token.specs.Limits.{longest_idl_text};
ghost use Rattle.idl_token.specs.Tokens.{AreTokensOf, IsFirstLexFault};
ghost use Rattle.idl_parser.specs.Faults.{IsFaultOf};
ghost use Rattle.idl_include.specs.Readings.{FileReading};
ghost use Rattle.idl_include.specs.SourcesOf.{IsOfSomeText};
ghost use Rattle.idl_include.specs.Loads.{Tells, IsRead, IsTextRead, IsUnread, IsUnreadAt, is_unread, is_wrong_want};

use crate::faults::{LoadKind, LoadStop, stop_at, stop_in};
use crate::laws::each_file_is_read_as_one_thing;
use idl_parser::{Document, ParseFault, ParseKind, parse};
use idl_token::{LONGEST_IDL_TEXT, LexFault, LexKind, Token, tokens};
use lists::ByteText;
use std::alloc::Global;
use streams::{FileFail, Files};

/// The document of the file of this name.
pub(crate) fn read_file<F: Files>(
    alloc: Global,
    files: &mut F,
    name: &str,
) -> Result<Document, LoadStop>
    ensures told { (reader : List ℕ → FileReading) → Tells (F.files files.old) reader → IsRead name.now (reader name.now) result }
    ensures failed { IfErr result (IsUnreadAt (F.files files.old) name.now) }
    ensures text { IfOk result IsOfSomeText }
    ensures same { F.files files.new ≡ F.files files.old }
    ensures sinks { F.sink_faults files.new ≡ F.sink_faults files.old }
    ensures later { F.faults files.old ≤ F.faults files.new }
    ensures rose { IfErr result (λ stop. is_unread stop ≡ true → Rose (F.faults files.old) (F.faults files.new)) }
    ensures kept { OnOk result (F.faults files.new ≡ F.faults files.old) }
    ensures quiet { IfErr result (λ stop. is_unread stop ≡ false → F.faults files.new ≡ F.faults files.old) }
    ensures outer { IfErr result (λ stop. is_wrong_want stop ≡ false) }
{
    each_file_is_read_as_one_thing();
    // The name of its fault is held before it is read: behind a read that failed no memory is wanted, for which the fault could be lost.
    let file = ByteText::new(name.as_bytes().to_vec(alloc)?);
    match files.read_whole(alloc, name, LONGEST_IDL_TEXT) {
        Ok(text) => document_of(alloc, name, text.as_slice()),
        Err(fail) => Err(unread(file, fail)),
    }
}

/// How loading ends at a file that isn't read.
fn unread(file: ByteText, fail: FileFail) -> LoadStop
    ensures { IsUnread file fail result }
{
    match fail {
        FileFail::Absent => stop_in(file, LoadKind::Absent),
        FileFail::TooLong => stop_in(file, LoadKind::TooLong),
        FileFail::Failed => stop_in(file, LoadKind::File),
        FileFail::NoMemory => LoadStop::NoMemory,
    }
}

/// The document of a text, which the file of this name holds.
fn document_of(alloc: Global, name: &str, text: &[u8]) -> Result<Document, LoadStop>
    requires { length text.now ≤ longest_idl_text }
    ensures read { IsTextRead name.now text.now result }
    ensures outer { IfErr result (λ stop. (is_wrong_want stop ≡ false) × (is_unread stop ≡ false)) }
{
    match tokens(alloc, text) {
        Ok(tokens) => document_in(alloc, name, text, tokens.as_slice()),
        Err(fault) => Err(lexed_badly(alloc, name, fault)),
    }
}

/// The document of its tokens.
fn document_in(
    alloc: Global,
    name: &str,
    text: &[u8],
    tokens: &[Token],
) -> Result<Document, LoadStop>
    requires short { length text.now ≤ longest_idl_text }
    requires tokens { AreTokensOf tokens.now text.now }
    ensures read { IsTextRead name.now text.now result }
    ensures outer { IfErr result (λ stop. (is_wrong_want stop ≡ false) × (is_unread stop ≡ false)) }
{
    match parse(alloc, text, tokens) {
        Ok(document) => Ok(document),
        Err(fault) => Err(parsed_badly(alloc, name, fault)),
    }
}

/// How loading ends at a fault of the lexer.
fn lexed_badly(alloc: Global, name: &str, fault: LexFault) -> LoadStop
    ensures read { (text : List ℕ) → (fault.kind ≢ LexKind.NoMemory → IsFirstLexFault fault text) → IsTextRead name.now text (Err result) }
    ensures outer { (is_wrong_want result ≡ false) × (is_unread result ≡ false) }
{
    match fault.kind {
        LexKind::NoMemory => LoadStop::NoMemory,
        kind => stop_at(alloc, name, fault.at, LoadKind::Lex(kind)),
    }
}

/// How loading ends at a fault of the parser.
fn parsed_badly(alloc: Global, name: &str, fault: ParseFault) -> LoadStop
    ensures read { (text : List ℕ) (tokens : List Token) → AreTokensOf tokens text → (fault.kind ≢ ParseKind.NoMemory → IsFaultOf text tokens fault) → IsTextRead name.now text (Err result) }
    ensures outer { (is_wrong_want result ≡ false) × (is_unread result ≡ false) }
{
    match fault.kind {
        ParseKind::NoMemory => LoadStop::NoMemory,
        kind => stop_at(alloc, name, fault.at, LoadKind::Parse(kind)),
    }
}
