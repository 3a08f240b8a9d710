//! Laws of workloads that are run, each the contract of a function that does nothing.

ghost use Rattle.std.specs.Prelude.{◌≡◌, ◌≢◌, ◌<◌, ◌≤◌, ◌^◌, ◌*◌, true, ℕ, ℤ, Some, None, List, [], ◌∷◌, map, slice_get};
ghost use Rattle.streams.specs.declared.marks.Mark.{Mark};
ghost use Rattle.host_model.specs.declared.cause.EndCause.{EndCause};
ghost use Rattle.host_model.specs.declared.cause.EndCause.TheVariants.{NoMemory, Stopped};
ghost use Rattle.host_model.specs.DeskRules as desk;
ghost use Rattle.host_model.specs.Frames.{frame, Frames};
ghost use Rattle.host_model.specs.Headline.{Headline};
ghost use Rattle.call_rules.specs.Desks.{desk_rules};
ghost use Rattle.call_rules.specs.Entries.{CallEntry};
ghost use Rattle.call_rules.specs.Handling.{ServiceState, handler_rules};
ghost use Rattle.script_model.specs.Arrival.{bytes_of_pieces};
ghost use Rattle.script_model.specs.ScriptLines.{pieces_on};
ghost use Rattle.script_model.specs.Fed.{IsFedBy};
ghost use Rattle.workload.specs.CallFrames.{frame_at};
ghost use Rattle.workload.specs.ExpectedRun.{bytes_in, bytes_out};
ghost use Rattle.workload.specs.LoadPlan.{connections_of, frames_on, bytes_on, workload_plan};
ghost use Rattle.envelope.specs.declared.head.Protocol.TheVariants.{Binary};
ghost use Rattle.schema.specs.PlainSchema.{PlainSchema};
ghost use Rattle.call_model.specs.Offices.{PlainOffice};
ghost use Rattle.call_model.specs.Decisions.{decision};
ghost use Rattle.call_model.specs.Replies.{reply_of};
ghost use Rattle.call_model.specs.Desk.{desk_of};
ghost use Rattle.workload.specs.Payloads.{payload_by, payload_at, most_payload_bytes};
ghost use Rattle.workload.specs.Calls.{call_by, answered, reply_with};
ghost use Rattle.workload.specs.Calculators.{IsCalculator, IsCalculatorsOffice};
ghost use Rattle.workload.specs.CalculatorTests.{is_calculator};
ghost use Rattle.workload.specs.Summed.{HasCalculator, ComesToSum};

use crate::laws::frames_are_answered;
use envelope::heads_are_read_back;
use host_model::laws::less_than_a_frame;
use wire_model::laws::written_is_read;

/// The pieces of a connection, one behind the other, are its bytes.
pub fn pieces_are_the_bytes()
    ensures { (seed size c : ℕ) → c < connections_of size
        → bytes_of_pieces (pieces_on c (workload_plan seed size).lines) ≡ bytes_on seed size (connections_of size) c }
{}

/// The bytes of a connection are its frames, with nothing behind them.
pub fn bytes_are_the_frames()
    ensures frame { (seed k : ℕ) → frame_at seed k ≡ frame (payload_at seed k) }
    ensures split { (seed size n c max : ℕ) → most_payload_bytes ≤ max
        → Frames max (bytes_on seed size n c) (map (payload_at seed) (frames_on n c size)) [] }
{}

/// What a calculator's office decides on the payload of frame k, by the number that it is made of, is its call; and the reply to a number that this is answered with
/// has the number.
pub fn calls_are_decided()
    ensures decided { (office : PlainOffice) (k x : ℕ) → IsCalculatorsOffice office → k < 2 ^ 31 → x < 2 ^ 64
        → decision office (payload_by k x) ≡ desk.Invoke (call_by k x) }
    ensures replied { (office : PlainOffice) (k x : ℕ) (n : ℤ) → IsCalculatorsOffice office → k < 2 ^ 31 → x < 2 ^ 64
        → reply_of office (payload_by k x) (answered n) ≡ reply_with k n }
{
    heads_are_read_back();
    written_is_read::<binary_codec::Binary>();
}

/// A run of a workload's script at a calculator's office, with a calculator in its slot, that meets the headline: where no connection has ended for want of memory, or
/// since the host stopped, it comes to what is expected of the workload, however the services' memories were and in whichever order the calls were made.
pub fn a_run_comes_to_its_sum()
    ensures { (office : PlainOffice) (services : List ServiceState) (budget seed size : ℕ) (tape : List Mark) (journal : List CallEntry) (causes : List EndCause)
        → 1 ≤ size → size < 2 ^ 31 → IsCalculatorsOffice office → office.max_frame < 2 ^ 31 → HasCalculator services
        → Headline (desk_rules (desk_of office)) handler_rules services tape journal causes → IsFedBy (desk_rules (desk_of office)) budget (workload_plan seed size) tape journal
        → ((c : ℕ) → slice_get causes c ≢ Some NoMemory) → ((c : ℕ) → slice_get causes c ≢ Some Stopped) → ComesToSum seed size tape journal causes }
{
    calls_are_decided();
    frames_are_answered();
    less_than_a_frame();
}

/// A frame has 58 bytes at most, and a reply 33.
pub fn bytes_are_few()
    ensures read { (seed size : ℕ) → bytes_in seed size ≤ 58 * size }
    ensures written { (seed size : ℕ) → bytes_out seed size ≤ 33 * size }
{}

/// A service that passes the tests of a calculator is one; bound alone, in the binary protocol, it makes a calculator's office.
pub fn the_tests_tell_a_calculator()
    ensures service { (s : PlainSchema) (service : ℕ) → is_calculator s service ≡ true → IsCalculator s service }
    ensures office { (s : PlainSchema) (name : List ℕ) (service max : ℕ) → is_calculator s service ≡ true → most_payload_bytes ≤ max
        → IsCalculatorsOffice (record { schema = s; bindings = (name, service) ∷ []; default_slot = None; protocol = Binary; max_frame = max }) }
{}
