//! Laws of reports, each the contract of a function that does nothing. A size is a signed number of four bytes, hence the bound on the longest payload.

ghost use Rattle.std.specs.Prelude.{◌≡◌, ◌≢◌, ℕ, ◌<◌, ◌≤◌, ◌^◌, List};
ghost use Rattle.limits.specs.Limits.{most_connections};
ghost use Rattle.streams.specs.declared.marks.Mark.{Mark};
ghost use Rattle.host_model.specs.declared.cause.EndCause.{EndCause};
ghost use Rattle.host_model.specs.declared.cause.EndCause.TheVariants.{NoMemory};
ghost use Rattle.host_model.specs.Journal.{JournalEntry, ServiceRules};
ghost use Rattle.host_model.specs.DeskRules.{DeskRules};
ghost use Rattle.host_model.specs.Report.{report};
ghost use Rattle.script_model.specs.Arrival.{Arrival};
ghost use Rattle.script_model.specs.Rehearsal.{is_scripted, HaveCallLines, IsReportOfOneConnection};
ghost use Rattle.script_model.specs.ScriptLines.{ScriptPlan, openings};
ghost use Rattle.script_model.specs.Telling.{TellsConnections, MayBeTold};

/// A report over one script is of one run: of one tape, one journal and one cause, whatever the desk and the services, where each entry has the line of a
/// call.
pub fn a_report_is_of_one_run<C, A, M>()
    ensures { (d : DeskRules C A) (r : ServiceRules C A M) (memories : List M) (line : JournalEntry C A → List ℕ) (arrival : Arrival) (text : List ℕ)
        → d.max < 2 ^ 31 → (x y : IsReportOfOneConnection d r memories is_scripted line arrival text)
        → HaveCallLines line x.journal → HaveCallLines line y.journal → (x.tape ≡ y.tape) × (x.journal ≡ y.journal) × (x.cause ≡ y.cause) }
{}

/// One script has one report, where no connection ended for want of memory.
pub fn a_script_has_one_report<C, A, M>()
    ensures { (d : DeskRules C A) (r : ServiceRules C A M) (memories : List M) (line : JournalEntry C A → List ℕ) (arrival : Arrival) (text other : List ℕ)
        → d.max < 2 ^ 31 → (x : IsReportOfOneConnection d r memories is_scripted line arrival text) (y : IsReportOfOneConnection d r memories is_scripted line arrival other)
        → x.cause ≢ NoMemory → y.cause ≢ NoMemory → text ≡ other }
{}

/// A report over a script of many connections is of one run that the script feeds: of one tape, one journal and one list of causes, whatever the desk and the
/// services, by whichever causes connections ended. Each entry has the line of a call, which tells its connection.
pub fn a_report_of_many_is_of_one_run<C, A, M>()
    ensures { (d : DeskRules C A) (r : ServiceRules C A M) (memories : List M) (budget : ℕ) (script : ScriptPlan) (line : JournalEntry C A → List ℕ)
        (tape marks : List Mark) (journal entries : List (JournalEntry C A)) (causes ends : List EndCause)
        → d.max < 2 ^ 31 → openings script.lines ≤ most_connections → TellsConnections line
        → MayBeTold line d r memories budget script tape journal causes → MayBeTold line d r memories budget script marks entries ends
        → report line tape journal causes ≡ report line marks entries ends → (tape ≡ marks) × (journal ≡ entries) × (causes ≡ ends) }
{}
