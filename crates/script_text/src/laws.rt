//! Laws of scripts, each the contract of a function that does nothing.

ghost use Rattle.std.specs.Prelude.{◌≡◌, ℕ, ◌≤◌, Bool, true, false, List, length, Ok};
ghost use Rattle.script_model.specs.ScriptLines.{ScriptPlan};
ghost use Rattle.script_model.specs.InputEnds.{EndsBehindPieces};
ghost use Rattle.script_model.specs.Ending.{LetsAllEnd};
ghost use Rattle.script_text.specs.TextLines.{longest_script};
ghost use Rattle.script_text.specs.Reading.{script_of_text};
ghost use Rattle.script_text.specs.Printing.{print_of};
ghost use Rattle.script_text.specs.Sound.{IsKeptScript, IsSoundPlan, IsUnscheduled, NeverRests, MovesItsWorkers, most_workers};

/// A script that was read is read from its print as itself, with the same workers, schedule and rest, where the print isn't too long; and so is each script,
/// for 8 workers, with lines of a schedule and with `rest` lines; and, where it has no line of a schedule, for any number of workers, with such lines or
/// without, and, where it has no `rest` line, with those or without.
pub fn a_script_is_read_back()
    ensures read { (workers : ℕ) (schedule rest : Bool) (text : List ℕ) (script : ScriptPlan) → script_of_text workers schedule rest text ≡ Ok script →
        length (print_of script) ≤ longest_script → script_of_text workers schedule rest (print_of script) ≡ Ok script }
    ensures kept { (script : ScriptPlan) → IsKeptScript script → length (print_of script) ≤ longest_script → script_of_text most_workers true true (print_of script) ≡ Ok script }
    ensures unscheduled { (workers : ℕ) (schedule rest : Bool) (script : ScriptPlan) → IsKeptScript script → IsUnscheduled script →
        (rest ≡ false → NeverRests script) → length (print_of script) ≤ longest_script → script_of_text workers schedule rest (print_of script) ≡ Ok script }
    ensures sound { (workers : ℕ) (schedule rest : Bool) (text : List ℕ) (script : ScriptPlan) → workers ≤ most_workers → script_of_text workers schedule rest text ≡ Ok script → IsKeptScript script }
{}

/// What every script is sound by; and one that was read for so many workers moves only workers that there are among them.
pub fn scripts_are_sound()
    ensures sound { (script : ScriptPlan) → IsKeptScript script → IsSoundPlan script }
    ensures workers { (workers : ℕ) (schedule rest : Bool) (text : List ℕ) (script : ScriptPlan) → script_of_text workers schedule rest text ≡ Ok script → MovesItsWorkers workers script }
{}

/// What the laws of rehearsals ask of a script, each script gives that was read, whatever the number of workers: it lets each of its connections end (`ends`),
/// and no piece stands behind the line that ends its input or lets it fail (`pieces`).
pub fn read_scripts_let_all_end()
    ensures ends { (workers : ℕ) (schedule rest : Bool) (text : List ℕ) (script : ScriptPlan) → script_of_text workers schedule rest text ≡ Ok script → LetsAllEnd workers script }
    ensures pieces { (workers : ℕ) (schedule rest : Bool) (text : List ℕ) (script : ScriptPlan) → script_of_text workers schedule rest text ≡ Ok script → EndsBehindPieces script.lines }
{}

/// What a `Script` holds gives the same, for 8 workers.
pub fn kept_scripts_let_all_end()
    ensures ends { (script : ScriptPlan) → IsKeptScript script → LetsAllEnd most_workers script }
    ensures pieces { (script : ScriptPlan) → IsKeptScript script → EndsBehindPieces script.lines }
{}
