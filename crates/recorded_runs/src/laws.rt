//! What holds of the reports that are written.

ghost use Rattle.std.specs.Prelude.{◌≡◌, ℕ, ◌<◌, ◌≤◌, ◌^◌, List, Some};
ghost use Rattle.limits.specs.Limits.{most_connections};
ghost use Rattle.host_model.specs.declared.cause.EndCause.TheVariants.{NoMemory};
ghost use Rattle.script_model.specs.Arrival.{Arrival};
ghost use Rattle.script_model.specs.Rehearsal.{IsCallLine};
ghost use Rattle.script_model.specs.ScriptLines.{ScriptPlan, openings};
ghost use Rattle.script_text.specs.Sound.{most_workers};
ghost use Rattle.call_rules.specs.Desks.{IsDesk};
ghost use Rattle.call_rules.specs.Entries.{CallEntry};
ghost use Rattle.call_rules.specs.PlainCalls.{IsPlainCall};
ghost use Rattle.recorded_runs.specs.Answered.{Answering, HasNone, IsRunOfScript, IsReportOf};
ghost use Rattle.recorded_runs.specs.CallLines.{TellCalls};
ghost use Rattle.recorded_runs.specs.Recorded.{Streams, ReportsRunOf, IsReportOfInput};
ghost use Rattle.recorded_runs.specs.ServedScripts.{script_to_serve, IsServedScript};
ghost use Rattle.recorded_runs.specs.OneConnection.{ReportsRun};

use script_text::laws::{a_script_is_read_back, scripts_are_sound};

/// One input has one report, at one desk, by the same services, with one budget, as many workers and one line of an entry, where no connection of either run has
/// ended for want of memory.
pub fn an_input_has_one_report()
    ensures { (a : Answering) (input : List ℕ) (s t : Streams) (text other : List ℕ)
        → s.left_before ≡ Some input → t.left_before ≡ Some input → (x : IsReportOf a s text) (y : IsReportOf a t other)
        → HasNone NoMemory x.reports.causes → HasNone NoMemory y.reports.causes → text ≡ other }
{}

/// A report of one connection is of one run, of one tape, one journal and one cause, at a desk by which plain calls alone are made, where each of these has a line
/// of its own.
pub fn a_report_tells_its_run()
    ensures { (a : Answering) (arrival : Arrival) (text : List ℕ) → a.desk.max_frame < 2 ^ 31 → IsDesk a.desk
        → ((e : CallEntry) → IsPlainCall e.call → IsCallLine (a.line e)) → (x y : ReportsRun a arrival text)
        → (x.tape ≡ y.tape) × (x.journal ≡ y.journal) × (x.cause ≡ y.cause) }
{}

/// And so is a report of a run of a script of many connections, whether it was rehearsed or served: it is of one tape, one journal and one list of causes, by
/// whichever causes connections ended.
pub fn a_report_of_many_tells_its_run()
    ensures rehearsed { (a : Answering) (script : ScriptPlan) (text : List ℕ) → a.desk.max_frame < 2 ^ 31 → IsDesk a.desk → TellCalls a.line
        → openings script.lines ≤ most_connections → (x y : ReportsRunOf (IsRunOfScript a) a.line script text)
        → (x.tape ≡ y.tape) × (x.journal ≡ y.journal) × (x.causes ≡ y.causes) }
    ensures served { (a : Answering) (script : ScriptPlan) (text : List ℕ) → a.desk.max_frame < 2 ^ 31 → IsDesk a.desk → TellCalls a.line
        → openings script.lines ≤ most_connections → (x y : ReportsRunOf (IsServedScript a) a.line script text)
        → (x.tape ≡ y.tape) × (x.journal ≡ y.journal) × (x.causes ≡ y.causes) }
{}

/// So a report that was written for an input is of one run, and what is said of some run with this report is said of the run that was made.
pub fn a_report_of_an_input_tells_its_run()
    ensures rehearsed { (a : Answering) (input : List ℕ) (s t : Streams) (text : List ℕ) → a.workers ≤ most_workers → a.desk.max_frame < 2 ^ 31 → IsDesk a.desk → TellCalls a.line
        → s.left_before ≡ Some input → t.left_before ≡ Some input → (x : IsReportOf a s text) (y : IsReportOf a t text)
        → (x.reports.tape ≡ y.reports.tape) × (x.reports.journal ≡ y.reports.journal) × (x.reports.causes ≡ y.reports.causes) }
    ensures served { (a : Answering) (input : List ℕ) (s t : Streams) (text : List ℕ) → a.workers ≤ most_workers → a.desk.max_frame < 2 ^ 31 → IsDesk a.desk → TellCalls a.line
        → s.left_before ≡ Some input → t.left_before ≡ Some input
        → (x : IsReportOfInput (script_to_serve a) (IsServedScript a) a.line s text) (y : IsReportOfInput (script_to_serve a) (IsServedScript a) a.line t text)
        → (x.reports.tape ≡ y.reports.tape) × (x.reports.journal ≡ y.reports.journal) × (x.reports.causes ≡ y.reports.causes) }
{
    a_script_is_read_back();
    scripts_are_sound();
}
