//! Laws of rehearsals in memory, the contract of a function that does nothing.

ghost use Rattle.std.specs.Prelude.{◌≡◌, ◌≢◌, ℕ, ◌≤◌, Some, List, slice_get};
ghost use Rattle.host_model.specs.declared.cause.EndCause.{EndCause};
ghost use Rattle.host_model.specs.declared.cause.EndCause.TheVariants.{Stopped, NoMemory};
ghost use Rattle.call_rules.specs.Handling.{handler_rules};
ghost use Rattle.machine_model.specs.Loop.{most_connections};
ghost use Rattle.machine_model.specs.Machine.{IsFirst, HaveAllEnded};
ghost use Rattle.script_model.specs.ScriptLines.{ScriptPlan, openings};
ghost use Rattle.script_model.specs.InputEnds.{EndsBehindPieces};
ghost use Rattle.script_model.specs.Ending.{LetsAllEnd};
ghost use Rattle.script_model.specs.Playing.{MemoryAt, always_ample};
ghost use Rattle.script_model.specs.Rehearsing.{IsRehearsalOf};
ghost use Rattle.script_model.specs.Fed.{IsFedBy};
ghost use Rattle.cell_loop.specs.Settings.{CellSetting, ServedCell, desk_of_setting};
ghost use Rattle.cell_core.specs.Whole.{IsFitting};

use host_model::laws::less_than_a_frame;

/// A rehearsal of a script that lets all end, however memory is at its moves: each connection has ended, none since the host stopped (`ended`); the script
/// feeds it (`fed`); and where no connection has ended for want of memory, it is the one with ample memory (`ample`).
pub fn a_rehearsal_is_whole()
    ensures ended { (s : CellSetting) (memory : ℕ → MemoryAt) (script : ScriptPlan) (wants : ℕ) (first last : ServedCell) →
        IsFitting s → IsFirst s.opening first → LetsAllEnd s.workers script →
        IsRehearsalOf (desk_of_setting s) handler_rules memory s.budget s.workers script wants first last →
        (causes : List EndCause) × HaveAllEnded last.loop causes × ((c : ℕ) → slice_get causes c ≢ Some Stopped) }
    ensures fed { (s : CellSetting) (memory : ℕ → MemoryAt) (script : ScriptPlan) (wants : ℕ) (first last : ServedCell) →
        IsFitting s → IsFirst s.opening first → LetsAllEnd s.workers script → openings script.lines ≤ most_connections → EndsBehindPieces script.lines →
        IsRehearsalOf (desk_of_setting s) handler_rules memory s.budget s.workers script wants first last →
        IsFedBy (desk_of_setting s) s.budget script last.loop.tape last.hall.journal }
    ensures ample { (s : CellSetting) (memory : ℕ → MemoryAt) (script : ScriptPlan) (wants : ℕ) (first last : ServedCell) (causes : List EndCause) →
        IsFitting s → IsFirst s.opening first →
        IsRehearsalOf (desk_of_setting s) handler_rules memory s.budget s.workers script wants first last →
        HaveAllEnded last.loop causes → ((c : ℕ) → slice_get causes c ≢ Some NoMemory) →
        IsRehearsalOf (desk_of_setting s) handler_rules always_ample s.budget s.workers script 0 first last }
{
    less_than_a_frame();
}
