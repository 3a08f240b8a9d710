//! The line that tells a break.
ghost use Rattle.std.specs.Prelude.{◌≡◌, ◌∷◌, [], ◌++◌, codes, IfOk, OnOk};
ghost use Rattle.compat_check.specs.Answered.{plain_break};
ghost use Rattle.compat_check.specs.Lines.{break_text, break_word};

use crate::answering::Break;
use compat_model::BreakKind;
use std::alloc::{AllocError, Global};
use text_out::decimal;

/// The word of a kind.
fn break_word(kind: BreakKind) -> &'static str
    ensures { result.now ≡ break_word kind }
{
    match kind {
        BreakKind::Gone => "Gone",
        BreakKind::Kind => "Kind",
        BreakKind::UnionField => "UnionField",
        BreakKind::Unlike => "Unlike",
        BreakKind::NewRequired => "NewRequired",
        BreakKind::Oneway => "Oneway",
        BreakKind::Result => "Result",
        BreakKind::Throws => "Throws",
        BreakKind::NoMemory => "NoMemory",
    }
}

/// Appends the front of the line: whose it is, with a blank behind it.
fn put_name(into: &mut Vec<u8>, name: &[u8]) -> Result<(), AllocError>
    ensures { OnOk result (into.new.items ≡ into.old.items ++ (codes "break " ++ name.now ++ 32 ∷ [])) }
{
    into.extend_from_slice(b"break ")?;
    into.extend_from_slice(name)?;
    into.push(b' ')?;
    Ok(())
}

/// Appends the line that tells a break.
fn put_break(into: &mut Vec<u8>, found: &Break) -> Result<(), AllocError>
    ensures { OnOk result (into.new.items ≡ into.old.items ++ break_text (plain_break found.now)) }
{
    put_name(into, found.name.as_slice())?;
    decimal(into, i128::from(found.id))?;
    into.push(b' ')?;
    text_out::line(into, break_word(found.kind).as_bytes())
}

impl Break {
    /// The line that tells it: `break NAME ID KIND`.
    pub fn line(&self, alloc: Global) -> Result<Vec<u8>, AllocError>
        ensures { IfOk result (λ line. line.items ≡ break_text (plain_break self.now)) }
    {
        let mut line = Vec::new(alloc);
        put_break(&mut line, self)?;
        Ok(line)
    }
}
