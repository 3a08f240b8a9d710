//! The errors' line of an input that is no script.

ghost use Rattle.std.specs.Prelude.{◌≡◌, ◌++◌, codes, OnOk};
ghost use Rattle.text_out.specs.Decimal.{natural_of};
ghost use Rattle.recorded_runs.specs.Refusals.{script_kind_word, refused_script_text};

use script_text::{ScriptFault, ScriptKind};
use std::alloc::AllocError;
use text_out::{decimal, line};

/// The word of a kind.
fn kind_word(kind: ScriptKind) -> &'static str
    ensures { result.now ≡ script_kind_word kind }
{
    match kind {
        ScriptKind::TooLong => "TooLong",
        ScriptKind::BadLine => "BadLine",
        ScriptKind::NoConnection => "NoConnection",
        ScriptKind::AfterEnd => "AfterEnd",
        ScriptKind::NoEnd => "NoEnd",
        ScriptKind::TooMany => "TooMany",
        ScriptKind::NoWorker => "NoWorker",
        ScriptKind::Schedule => "Schedule",
        ScriptKind::Rest => "Rest",
        ScriptKind::NoMemory => "NoMemory",
    }
}

/// Appends a number.
fn put_number(into: &mut Vec<u8>, number: u32) -> Result<(), AllocError>
    ensures { OnOk result (into.new.items ≡ into.old.items ++ natural_of number) }
{
    decimal(into, number.into())
}

/// Appends the front of the line, with the number of the script's line.
fn put_front(into: &mut Vec<u8>, number: u32) -> Result<(), AllocError>
    ensures { OnOk result (into.new.items ≡ into.old.items ++ (codes "thriftd: script " ++ natural_of number)) }
{
    into.extend_from_slice(b"thriftd: script ")?;
    put_number(into, number)?;
    Ok(())
}

/// Appends the errors' line of an input with this first fault.
pub fn put_refused_script(into: &mut Vec<u8>, fault: ScriptFault) -> Result<(), AllocError>
    ensures { OnOk result (into.new.items ≡ into.old.items ++ refused_script_text fault) }
{
    put_front(into, fault.line)?;
    into.push(b' ')?;
    line(into, kind_word(fault.kind).as_bytes())?;
    Ok(())
}
