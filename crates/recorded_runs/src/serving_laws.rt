//! A law of scripts that are served, the contract of a function that does nothing.

ghost use Rattle.std.specs.Prelude.{◌≡◌, ◌<◌, ◌^◌, List, Some};
ghost use Rattle.conn_table.specs.declared.run_limits.Outcome.TheVariants as outcomes;
ghost use Rattle.call_rules.specs.Entries.{CallEntry};
ghost use Rattle.script_model.specs.ScriptLines.{ScriptPlan};
ghost use Rattle.script_links.specs.ServedScript.{ServedScript};
ghost use Rattle.script_links.specs.Shown.{links_told};
ghost use Rattle.script_links.specs.Followed.{AreLinksOf, FollowsScript};
ghost use Rattle.host_loop.specs.Served.{ServedRun, IsServed};
ghost use Rattle.recorded_runs.specs.Answered.{Answering};
ghost use Rattle.recorded_runs.specs.ServedScripts.{IsServedScript, setting_of};

/// Where links over a script were served until all was over, and have followed their script to its end, the run is one of the script.
pub fn served_links_run_their_script()
    ensures { (a : Answering) (script : ScriptPlan) (links : ServedScript) (run : ServedRun) (journal : List CallEntry) → a.desk.max_frame < 2 ^ 31
        → IsServed (setting_of a) run → run.outcome ≡ outcomes.All → run.links ≡ links_told links → run.told ≡ Some journal
        → AreLinksOf script links → FollowsScript script links.tape links.rests links.lengths → IsServedScript a script links.tape journal run.causes }
{}
