//! A law of workloads that are served, the contract of a function that does nothing.

ghost use Rattle.std.specs.Prelude.{◌≤◌, ◌<◌, ◌^◌, ℕ, List};
ghost use Rattle.streams.specs.declared.marks.Mark.{Mark};
ghost use Rattle.host_model.specs.declared.cause.EndCause.{EndCause};
ghost use Rattle.host_model.specs.declared.cause.EndCause.TheVariants.{NoMemory};
ghost use Rattle.call_rules.specs.Entries.{CallEntry};
ghost use Rattle.recorded_runs.specs.Answered.{Answering, HasNone};
ghost use Rattle.recorded_runs.specs.ServedScripts.{IsServedScript};
ghost use Rattle.workload.specs.LoadPlan.{workload_plan};
ghost use Rattle.workload.specs.Summed.{HasCalculator, ComesToSum};
ghost use Rattle.recorded_runs.specs.Summaries.{ServesCalculator};

use workload::run_laws::a_run_comes_to_its_sum;

/// A workload that is served at a calculator's office, with a calculator in its slot, comes to what is expected of it, where no connection has ended for want of
/// memory.
pub fn a_served_workload_comes_to_its_sum()
    ensures { (a : Answering) (seed size : ℕ) (tape : List Mark) (journal : List CallEntry) (causes : List EndCause) → 1 ≤ size → size < 2 ^ 31
        → a.desk.max_frame < 2 ^ 31 → ServesCalculator a.desk → HasCalculator a.services → IsServedScript a (workload_plan seed size) tape journal causes
        → HasNone NoMemory causes → ComesToSum seed size tape journal causes }
{
    a_run_comes_to_its_sum();
}
