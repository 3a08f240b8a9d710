//! Appends the lines of entries to vectors.

ghost use Rattle.std.specs.Prelude.{◌≡◌, ◌++◌, IfOk, OnErr, OnOk};
ghost use Rattle.call_rules.specs.PlainCalls.{IsPlainCall, IsPlainAnswer};
ghost use Rattle.journal_text.specs.EntryText.{call_line};

use crate::spelling::spell_entry;
use call_rules::Entry;
use std::alloc::{AllocError, Global};
use value_text::VecSink;

/// The line of an entry, its newline included.
pub fn print_entry(alloc: Global, entry: &Entry) -> Result<Vec<u8>, AllocError>
    requires call { IsPlainCall entry.now.call }
    requires answer { IsPlainAnswer entry.now.answer }
    ensures { IfOk result (λ line. line.items ≡ call_line entry.now) }
{
    let mut line = Vec::new(alloc);
    put_entry(&mut line, entry)?;
    Ok(line)
}

/// Appends the line of an entry. Where memory runs out, the bytes are as before.
pub fn put_entry(into: &mut Vec<u8>, entry: &Entry) -> Result<(), AllocError>
    ensures ok { OnOk result (into.new.items ≡ into.old.items ++ call_line entry.now) }
    ensures err { OnErr result (into.new.items ≡ into.old.items) }
{
    let start = into.as_slice().len();
    let mut out = VecSink::take_from(into);
    let spelled = spell_entry(&mut out, entry);
    out.give_back(into, start, spelled)
}
