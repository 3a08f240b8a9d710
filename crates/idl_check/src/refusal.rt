//! Why there is no schema, and the errors' line of an IDL that is refused.

ghost use Rattle.std.specs.Prelude.{◌≡◌, ◌∷◌, [], ◌++◌, codes, IfOk, OnOk};
ghost use Rattle.idl_check.specs.Lines.{place_in_text, idl_refusal_text};

use crate::kinds::{IdlFaultKind, idl_kind_word};
use idl_token::Place;
use lists::ByteText;
use std::alloc::{AllocError, Global};
use text_out::decimal;

/// Why an IDL is refused.
#[derive(Drop)]
pub struct IdlRefusal {
    /// The name of the file at fault.
    pub file: ByteText,
    /// The place at fault, or 0:0 where the file as a whole is refused.
    pub at: Place,
    /// What is wrong.
    pub kind: IdlFaultKind,
}

/// Why there is no schema of an IDL.
#[derive(Drop)]
pub enum NoSchema {
    /// The IDL is refused for its first fault.
    Refused(IdlRefusal),
    /// A file couldn't be read.
    FileFault,
    /// Memory ran out.
    NoMemory,
}

impl From<AllocError> for NoSchema {
    ghost use Rattle.std.specs.Prelude.{◌≡◌};
    ghost use Rattle.idl_check.specs.declared.refusal.NoSchema.TheVariants.{NoMemory};

    ghost from_gives = { λ _ reason. reason ≡ NoMemory };

    fn from(_error: AllocError) -> Self {
        NoSchema::NoMemory
    }
}

impl IdlRefusal {
    /// The errors' line that tells it.
    pub fn error_line(self, alloc: Global) -> Result<Vec<u8>, AllocError>
        ensures { IfOk result (λ line. line.items ≡ idl_refusal_text self.file self.at self.kind) }
    {
        let mut line = Vec::new(alloc);
        put_refusal(&mut line, &self)?;
        Ok(line)
    }
}

/// Appends the errors' line of a refusal.
fn put_refusal(into: &mut Vec<u8>, refusal: &IdlRefusal) -> Result<(), AllocError>
    ensures { OnOk result (into.new.items ≡ into.old.items ++ idl_refusal_text refusal.now.file refusal.now.at refusal.now.kind) }
{
    put_name(into, refusal.file.as_slice())?;
    put_place(into, refusal.at)?;
    into.push(b' ')?;
    text_out::line(into, idl_kind_word(refusal.kind).as_bytes())
}

/// Appends the front of the line: the file's name, with a blank behind it.
fn put_name(into: &mut Vec<u8>, file: &[u8]) -> Result<(), AllocError>
    ensures { OnOk result (into.new.items ≡ into.old.items ++ (codes "thriftd: idl " ++ file.now ++ 32 ∷ [])) }
{
    into.extend_from_slice(b"thriftd: idl ")?;
    into.extend_from_slice(file)?;
    into.push(b' ')?;
    Ok(())
}

/// Appends a line and a column.
fn put_place(into: &mut Vec<u8>, at: Place) -> Result<(), AllocError>
    ensures { OnOk result (into.new.items ≡ into.old.items ++ place_in_text at) }
{
    decimal(into, i128::from(at.line))?;
    into.push(b':')?;
    decimal(into, i128::from(at.column))
}
