//! Scripts, read.

ghost use Rattle.std.specs.Prelude.{◌≡◌, ◌≢◌, ◌≤◌, length, Ok, Err, IfOk, MatchResult};
ghost use Rattle.script_text.specs.declared.fault.ScriptKind.TheVariants.{NoMemory};
ghost use Rattle.script_text.specs.TextLines.{longest_script, text_lines};
ghost use Rattle.script_text.specs.Reading.{nothing_read, plan_so_far, at_end, read_from, script_of_text};
ghost use Rattle.script_text.specs.Drafts.{so_far, read_so_far_as};
ghost use Rattle.script_text.specs.Sound.{IsKeptScript, most_workers};

use crate::draft::{Draft, has_open_input};
use crate::fault::{ScriptFault, ScriptKind};
use crate::lines::{RuleLists, ScriptLines};
use crate::script::Script;
use crate::words::cut_line;
use limits::LONGEST_SCRIPT;
use std::alloc::{AllocError, Global};

/// The script that a text is, for so many workers, with lines of a schedule or without, and with `rest` lines or without;
/// or the text's first fault.
pub fn read_script(
    alloc: Global,
    text: &[u8],
    workers: u32,
    schedule: bool,
    rest: bool,
) -> Result<Script, ScriptFault>
    requires { workers ≤ most_workers }
    ensures { MatchResult result
        (λ script. script_of_text workers schedule rest text.now ≡ Ok script)
        (λ fault. fault.kind ≢ NoMemory → script_of_text workers schedule rest text.now ≡ Err fault) }
{
    if text.len() > LONGEST_SCRIPT {
        return Err(ScriptFault {
            line: 0,
            kind: ScriptKind::TooLong,
        });
    }
    match read_lines(alloc, text, workers, schedule, rest)? {
        Ok(draft) => Ok(kept(draft)),
        Err(fault) => Err(fault),
    }
}

/// What was read, as a script.
fn kept(draft: Draft) -> Script
    requires { IsKeptScript (plan_so_far (so_far draft)) }
    ensures { result ≡ plan_so_far (so_far draft) }
{
    Script::new(ScriptLines::new(draft.lines), RuleLists::new(draft.rules))
}

/// Reads all lines of a text.
fn read_lines(
    alloc: Global,
    text: &[u8],
    workers: u32,
    schedule: bool,
    rest: bool,
) -> Result<Result<Draft, ScriptFault>, AllocError>
    requires { length text.now ≤ longest_script }
    ensures { IfOk result (λ answer. read_so_far_as answer ≡ read_from workers schedule rest 1 nothing_read (text_lines text.now)) }
{
    let mut draft = Draft::new(alloc);
    let mut number: u32 = 1;
    let mut left = text;
    'lines: while !left.is_empty() {
        let (line, behind) = cut_line(left);
        let answer = draft.read_line(alloc, line, workers, schedule, rest)?;
        if let Err(kind) = answer {
            return Ok(Err(ScriptFault { line: number, kind }));
        }
        number += 1;
        left = behind;
    }
    Ok(ended(draft, number))
}

/// What was read, where the input of each connection has an end.
fn ended(draft: Draft, number: u32) -> Result<Draft, ScriptFault>
    ensures { read_so_far_as result ≡ at_end number (so_far draft) }
{
    if has_open_input(draft.over.as_slice()) {
        return Err(ScriptFault {
            line: number,
            kind: ScriptKind::NoEnd,
        });
    }
    Ok(draft)
}
