//! Laws of workloads, each the contract of a function that does nothing.

ghost use Rattle.std.specs.Prelude.{◌≡◌, ◌<◌, ◌≤◌, ◌^◌, ℕ, ℤ, Bool, List, Ok, length};
ghost use Rattle.std.specs.List.{flat_map, sum_by, AllByRecursion};
ghost use Rattle.thrift_value.specs.Tree.{Tree, of_i32};
ghost use Rattle.streams.specs.declared.marks.Mark.{Mark};
ghost use Rattle.host_model.specs.Marks.{connection_of, marks_of, input, output};
ghost use Rattle.host_model.specs.Journal.{entries_of};
ghost use Rattle.call_rules.specs.Entries.{CallEntry};
ghost use Rattle.call_rules.specs.PlainCalls.{success};
ghost use Rattle.call_rules.specs.CalculatorRule.{calculator_rule};
ghost use Rattle.script_model.specs.ScriptLines.{count_up};
ghost use Rattle.script_text.specs.Printing.{print_of};
ghost use Rattle.script_text.specs.Reading.{script_of_text};
ghost use Rattle.script_text.specs.Sound.{IsKeptScript};
ghost use Rattle.script_text.specs.TextLines.{longest_script};
ghost use Rattle.workload.specs.CallFrames.{arguments_by};
ghost use Rattle.workload.specs.LoadPlan.{frames_on, workload_plan};
ghost use Rattle.workload.specs.SummaryText.{sum_over, sum_of_answers};
ghost use Rattle.workload.specs.ExpectedRun.{method_at, frame_answer_by};

use script_text::laws::a_script_is_read_back;

/// Each workload is a script whose print has no fault.
pub fn every_workload_is_kept()
    ensures { (seed size : ℕ) → IsKeptScript (workload_plan seed size) }
{}

/// Where the print of a workload isn't too long, it is read as the workload, for any number of workers, with lines of a schedule or without, and with
/// `rest` lines or without.
pub fn every_workload_is_read_back()
    ensures { (seed size workers : ℕ) (schedule rest : Bool) → length (print_of (workload_plan seed size)) ≤ longest_script
        → script_of_text workers schedule rest (print_of (workload_plan seed size)) ≡ Ok (workload_plan seed size) }
{
    a_script_is_read_back();
}

/// What the calculator answers to frame k, whatever it remembers.
pub fn frames_are_answered()
    ensures { (k x : ℕ) (memory : Tree) → x < 2 ^ 64 → (calculator_rule memory (method_at k) (arguments_by k x)).answer ≡ success (of_i32 (frame_answer_by k x)) }
{}

/// Each frame stands on one connection: what is summed up connection by connection is the sum over all frames.
pub fn each_frame_counts_once()
    ensures counts { (f : ℕ → ℕ) (n size : ℕ) → 0 < n → sum_by (λ c. sum_by f (frames_on n c size)) (count_up 0 n) ≡ sum_by f (count_up 0 size) }
    ensures bytes { (f : ℕ → List ℕ) (n size : ℕ) → 0 < n
        → sum_by (λ c. length (flat_map f (frames_on n c size))) (count_up 0 n) ≡ sum_by (λ k. length (f k)) (count_up 0 size) }
    ensures numbers { (f : ℕ → ℤ) (n size : ℕ) → 0 < n → sum_over (λ c. sum_over f (frames_on n c size)) (count_up 0 n) ≡ sum_over f (count_up 0 size) }
{}

/// The same is so of the answers of a journal, all of whose entries are of the first n connections.
pub fn each_answer_counts_once()
    ensures { (journal : List CallEntry) (n : ℕ) → AllByRecursion (λ e. e.key.c < n) journal
        → sum_over (λ c. sum_of_answers (entries_of c journal)) (count_up 0 n) ≡ sum_of_answers journal }
{}

/// The same is so of the bytes of a tape, all of whose marks are of the first n connections.
pub fn each_byte_counts_once()
    ensures read { (tape : List Mark) (n : ℕ) → AllByRecursion (λ mark. connection_of mark < n) tape
        → sum_by (λ c. length (input (marks_of c tape))) (count_up 0 n) ≡ length (input tape) }
    ensures written { (tape : List Mark) (n : ℕ) → AllByRecursion (λ mark. connection_of mark < n) tape
        → sum_by (λ c. length (output (marks_of c tape))) (count_up 0 n) ≡ length (output tape) }
{}
