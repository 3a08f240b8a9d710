//! What a rehearsal opens and reads, as the contract of a function that does nothing.

ghost use Rattle.std.specs.Prelude.{◌≡◌, ℕ, ◌<◌, ◌≤◌, ◌^◌, List};
ghost use Rattle.host_model.specs.Journal.{ServiceRules};
ghost use Rattle.host_model.specs.DeskRules.{DeskRules};
ghost use Rattle.machine_model.specs.Loop.{most_connections};
ghost use Rattle.machine_model.specs.Machine.{Cell, IsFirst};
ghost use Rattle.script_model.specs.ScriptLines.{ScriptPlan, openings, count_up};
ghost use Rattle.script_model.specs.InputEnds.{EndsBehindPieces};
ghost use Rattle.script_model.specs.RestLines.{opened_in};
ghost use Rattle.script_model.specs.Fed.{IsReadFrom};
ghost use Rattle.script_model.specs.Playing.{MemoryAt};
ghost use Rattle.script_model.specs.Rehearsing.{IsRehearsalOf};

use machine_model::laws::plain_machine_runs;

/// However memory is at its moves, a rehearsal opens its connections in order: as many as its lines say, where these are no more than may be open at a time.
/// Each is read from its pieces, every read with its part of one of them; and where no piece stands behind the line that ends its input, or lets it fail, that
/// is seen after all of them, and only where a line says so.
pub fn a_rehearsal_reads_its_script<C, A, M>()
    ensures opened { (d : DeskRules C A) (r : ServiceRules C A M) (memories : List M) (memory : ℕ → MemoryAt) (budget workers : ℕ) (script : ScriptPlan) (wants : ℕ)
        (first last : Cell C A M) →
        d.max < 2 ^ 31 → IsFirst memories first → IsRehearsalOf d r memory budget workers script wants first last → openings script.lines ≤ most_connections →
        opened_in last.loop.tape ≡ count_up 0 (openings script.lines) }
    ensures read { (d : DeskRules C A) (r : ServiceRules C A M) (memories : List M) (memory : ℕ → MemoryAt) (budget workers : ℕ) (script : ScriptPlan) (wants : ℕ)
        (first last : Cell C A M) →
        d.max < 2 ^ 31 → IsFirst memories first → IsRehearsalOf d r memory budget workers script wants first last → EndsBehindPieces script.lines →
        (c : ℕ) → IsReadFrom d.max script last.loop.tape c }
{
    plain_machine_runs::<C, A, M>();
}
