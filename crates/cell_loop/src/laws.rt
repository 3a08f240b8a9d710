//! A law of the loop's part, the contract of a function that does nothing.

ghost use Rattle.machine_model.specs.Machine.{IsFirst};
ghost use Rattle.script_model.specs.ScriptLines.{ScriptPlan};
ghost use Rattle.script_model.specs.Rehearsing.{before_all};
ghost use Rattle.cell_loop.specs.declared.loop_part.LoopPart.{LoopPart};
ghost use Rattle.cell_loop.specs.Settings.{CellSetting, ServedCell};
ghost use Rattle.cell_loop.specs.LoopTied.{IsLoopTied, IsFreshPart};

/// The loop's part before the first line is tied to the play before it.
pub fn a_rehearsal_starts()
    ensures { (s : CellSetting) (part : LoopPart) (first : ServedCell) (script : ScriptPlan) → IsFirst s.opening first → IsFreshPart s script part →
        IsLoopTied s part (before_all first script) }
{}
