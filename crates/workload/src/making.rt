//! The script of a workload.

ghost use Rattle.std.specs.Prelude.{◌≡◌, ◌≤◌, IfOk};
ghost use Rattle.workload.specs.LoadPlan.{workload_plan};

use crate::inputs::all_bytes;
use crate::laws::every_workload_is_kept;
use crate::lines::{lines_of, no_rules};
use script_text::{RuleLists, Script, ScriptLines};
use std::alloc::{AllocError, Global};

/// The script of the workload of a seed, with so many frames.
pub fn generate(alloc: Global, seed: u64, size: u32) -> Result<Script, AllocError>
    requires some { 1 ≤ size }
    requires few { size ≤ 1000000 }
    ensures { IfOk result (λ script. script ≡ workload_plan seed size) }
{
    every_workload_is_kept();
    let streams = all_bytes(alloc, seed, size)?;
    let lines = lines_of(alloc, streams.as_slice())?;
    let rules = no_rules(alloc, streams.len())?;
    Ok(Script::new(ScriptLines::new(lines), RuleLists::new(rules)))
}
