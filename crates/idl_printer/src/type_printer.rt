//! The text of types.
ghost use Rattle.std.specs.Prelude.{◌≡◌, ◌++◌, OnOk};
ghost use Rattle.idl_printer.specs.Printed.{base_text, spaced_word, type_text};
ghost use Rattle.idl_token.specs.Words.{keyword_text};

use idl_parser::{Base, TypeTree, base_terminal};
use idl_token::{Terminal, keyword_text};
use std::alloc::AllocError;

/// Appends a keyword.
pub(crate) fn put_word(into: &mut Vec<u8>, keyword: Terminal) -> Result<(), AllocError>
    ensures { OnOk result (into.new.items ≡ into.old.items ++ keyword_text keyword) }
{
    into.extend_from_slice(keyword_text(keyword).as_bytes())
}

/// Appends a keyword and a blank.
pub(crate) fn put_spaced_word(into: &mut Vec<u8>, keyword: Terminal) -> Result<(), AllocError>
    ensures { OnOk result (into.new.items ≡ into.old.items ++ spaced_word keyword) }
{
    put_word(into, keyword)?;
    into.extend_from_slice(b" ")
}

fn put_base(into: &mut Vec<u8>, base: Base) -> Result<(), AllocError>
    ensures { OnOk result (into.new.items ≡ into.old.items ++ base_text base) }
{
    put_word(into, base_terminal(base))
}

/// Appends a type. It recurses once a level.
#[cycle(type_printer)]
pub(crate) fn put_type(into: &mut Vec<u8>, kind: &TypeTree) -> Result<(), AllocError>
    ensures { OnOk result (into.new.items ≡ into.old.items ++ type_text kind.now) }
{
    match kind {
        TypeTree::Base(_, base) => put_base(into, *base),
        TypeTree::Named(name) => into.extend_from_slice(name.text.as_slice()),
        TypeTree::Map(_, key, value) => {
            put_word(into, Terminal::Map)?;
            into.extend_from_slice(b"<")?;
            put_type(into, key)?;
            into.extend_from_slice(b", ")?;
            put_type(into, value)?;
            into.extend_from_slice(b">")
        }
        TypeTree::Set(_, member) => {
            put_word(into, Terminal::Set)?;
            into.extend_from_slice(b"<")?;
            put_type(into, member)?;
            into.extend_from_slice(b">")
        }
        TypeTree::List(_, element) => {
            put_word(into, Terminal::List)?;
            into.extend_from_slice(b"<")?;
            put_type(into, element)?;
            into.extend_from_slice(b">")
        }
    }
}
