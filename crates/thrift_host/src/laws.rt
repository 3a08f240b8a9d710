//! Laws of what is arranged and of the reports that are written, each the contract of a function that does nothing.

ghost use Rattle.std.specs.Prelude.{◌≡◌, ℕ, List, Some};
ghost use Rattle.call_model.specs.Offices.{IsSoundOffice};
ghost use Rattle.command_line.specs.Bounds.{KeepsBounds, KeepsServedBounds};
ghost use Rattle.command_line.specs.Words.{PlainCommand, words_of};
ghost use Rattle.journal_text.specs.EntryText.{entry_text};
ghost use Rattle.recorded_runs.specs.Recorded.{Streams, IsReportOfInput};
ghost use Rattle.recorded_runs.specs.Answered.{IsRunOfScript, script_for};
ghost use Rattle.recorded_runs.specs.ServedScripts.{IsServedScript, script_to_serve};
ghost use Rattle.thrift_host.specs.Runs.{AskedRun, IsArranged, arranged_office, answering_of};

use call_model::an_office_is_a_desk;
use journal_text::{each_entry_is_one_line, lines_tell_connections};
use recorded_runs::laws::a_report_of_an_input_tells_its_run;

/// The numbers of words that are a command are within bounds.
pub fn words_keep_their_bounds()
    ensures { (words : List (List ℕ)) (command : PlainCommand) → words_of words ≡ Some command → KeepsBounds command }
{}

/// What is arranged within the bounds of words makes a sound office. So by `an_office_is_a_desk` what answers its calls is a desk.
pub fn an_arranged_office_is_sound()
    ensures { (r : AskedRun) (a : IsArranged r) → KeepsServedBounds r.says → IsSoundOffice (arranged_office r a) }
{}

/// A report that was written for an input is of one run: of one tape, one journal and one list of causes. So what `host` says of some run with this report it says of
/// the run that was made, of a rehearsal as of a recorded run.
pub fn a_report_tells_its_run()
    ensures rehearsed { (r : AskedRun) (a : IsArranged r) (input : List ℕ) (s t : Streams) (text : List ℕ)
        → KeepsServedBounds r.says → s.left_before ≡ Some input → t.left_before ≡ Some input
        → (x : IsReportOfInput (script_for (answering_of r a)) (IsRunOfScript (answering_of r a)) entry_text s text)
        (y : IsReportOfInput (script_for (answering_of r a)) (IsRunOfScript (answering_of r a)) entry_text t text)
        → (x.reports.tape ≡ y.reports.tape) × (x.reports.journal ≡ y.reports.journal) × (x.reports.causes ≡ y.reports.causes) }
    ensures served { (r : AskedRun) (a : IsArranged r) (input : List ℕ) (s t : Streams) (text : List ℕ)
        → KeepsServedBounds r.says → s.left_before ≡ Some input → t.left_before ≡ Some input
        → (x : IsReportOfInput (script_to_serve (answering_of r a)) (IsServedScript (answering_of r a)) entry_text s text)
        (y : IsReportOfInput (script_to_serve (answering_of r a)) (IsServedScript (answering_of r a)) entry_text t text)
        → (x.reports.tape ≡ y.reports.tape) × (x.reports.journal ≡ y.reports.journal) × (x.reports.causes ≡ y.reports.causes) }
{
    an_arranged_office_is_sound();
    an_office_is_a_desk();
    each_entry_is_one_line();
    lines_tell_connections();
    a_report_of_an_input_tells_its_run();
}
