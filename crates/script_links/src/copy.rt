//! A copy of a script.

ghost use Rattle.std.specs.Prelude.{◌≡◌, IfOk};

use script_text::{RuleList, RuleLists, Script, ScriptLine, ScriptLines};
use std::alloc::{AllocError, Global};
use streams::Bytes;

/// A copy of a script.
pub fn copy_of(alloc: Global, script: &Script) -> Result<Script, AllocError>
    ensures { IfOk result (λ copy. copy ≡ script.now) }
{
    let lines = copy_lines(alloc, script.lines().as_slice())?;
    let rules = copy_rules(alloc, script.rules().as_slice())?;
    Ok(Script::new(ScriptLines::new(lines), RuleLists::new(rules)))
}

/// A copy of these lines.
#[tactic(auto, using(crate::proofs::Copying::copied_on, crate::proofs::Copying::copied_all))]
fn copy_lines(alloc: Global, lines: &[ScriptLine]) -> Result<Vec<ScriptLine>, AllocError>
    ensures { IfOk result (λ copy. copy.items ≡ lines.now) }
{
    let mut copy = Vec::with_capacity(alloc, lines.len())?;
    'lines: while copy.len() < lines.len() {
        let line = copy_line(alloc, &lines[copy.len()])?;
        copy.push(line)?;
    }
    Ok(copy)
}

/// A copy of a line.
fn copy_line(alloc: Global, line: &ScriptLine) -> Result<ScriptLine, AllocError>
    ensures { IfOk result (λ copy. copy ≡ line.now) }
{
    match line {
        ScriptLine::Opens => Ok(ScriptLine::Opens),
        ScriptLine::Piece(c, bytes) => {
            let bytes = Vec::from_slice(alloc, bytes.as_slice())?;
            Ok(ScriptLine::Piece(*c, Bytes::new(bytes)))
        }
        ScriptLine::Ends(c) => Ok(ScriptLine::Ends(*c)),
        ScriptLine::FailsRead(c) => Ok(ScriptLine::FailsRead(*c)),
        ScriptLine::Rest => Ok(ScriptLine::Rest),
        ScriptLine::Loop(c) => Ok(ScriptLine::Loop(*c)),
        ScriptLine::Work(w) => Ok(ScriptLine::Work(*w)),
        ScriptLine::Collect => Ok(ScriptLine::Collect),
    }
}

/// A copy of the rules of each connection.
#[tactic(auto, using(crate::proofs::Copying::copied_on, crate::proofs::Copying::copied_all))]
fn copy_rules(alloc: Global, rules: &[RuleList]) -> Result<Vec<RuleList>, AllocError>
    ensures { IfOk result (λ copy. copy.items ≡ rules.now) }
{
    let mut copy = Vec::with_capacity(alloc, rules.len())?;
    'rules: while copy.len() < rules.len() {
        let list = Vec::from_slice(alloc, rules[copy.len()].as_slice())?;
        copy.push(RuleList::new(list))?;
    }
    Ok(copy)
}
