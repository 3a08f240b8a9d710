//! What holds of every client and the host that serves it alone.

ghost use Rattle.std.specs.Prelude.{◌≡◌, ◌<◌, ℕ, ℤ, pos, List, All, FitsSigned, Some, Ok};
ghost use Rattle.std.specs.Int.{w32};
ghost use Rattle.host_model.specs.DeskRules.{Invoke};
ghost use Rattle.host_model.specs.Frames.{frame};
ghost use Rattle.schema.specs.LookUp.{function_named};
ghost use Rattle.schema.specs.PlainSchema.{PlainField, PlainFunction};
ghost use Rattle.struct_skew.specs.Projection.{projection};
ghost use Rattle.thrift_value.specs.Ranges.{IsInRange};
ghost use Rattle.thrift_value.specs.Tree.{Tree};
ghost use Rattle.call_model.specs.Decisions.{decision};
ghost use Rattle.call_model.specs.Offices.{PlainOffice};
ghost use Rattle.call_model.specs.Replies.{reply_of};
ghost use Rattle.call_rules.specs.PlainCalls.{PlainAnswer};
ghost use Rattle.client_desk.specs.Asking.{asked_frame};
ghost use Rattle.client_desk.specs.Clients.{PlainClient, IsSoundClient};
ghost use Rattle.client_desk.specs.Hearing.{heard};
ghost use Rattle.client_law.specs.HeardSo.{IsAnswerInRange, IsHeardSo, IsNotReplaced};
ghost use Rattle.client_law.specs.ServedAlone.{IsServedAlone};

use call_model::failures_are_read;
use compat_model::a_written_value_has_a_meaning;
use envelope::{heads_are_read_back, reply_heads_are_read_back};
use thrift_value::{plain_value_is_alike, tidy_value_is_well_tagged};
use wire_model::WireProtocol;
use wire_model::laws::{value_spelled_is_read, written_is_read, written_is_spelled};

/// A host decides on the payload that a client asked with that the method is called, with the projection of the arguments, and without
/// a reply exactly where the function has none.
pub fn what_is_asked_is_decided()
    ensures { (c : PlainClient) (office : PlainOffice) (method : List ℕ) (f : PlainFunction) (args : Tree) (id : ℤ) (sent : List ℕ)
        → IsSoundClient c → IsServedAlone c office → function_named c.schema c.service method ≡ Some f → asked_frame c method args id ≡ Ok sent
        → IsInRange args → All (λ b. b < 256) c.name → FitsSigned w32 id
        → (payload : List ℕ) × (meant : Tree) × (sent ≡ frame payload) × (projection c.schema f.args args ≡ Ok meant)
        × (decision office payload ≡ Invoke (record { slot = 0; method = method; args = meant; silent = f.oneway })) }
{
    heads_are_read_back();
    written_is_read::<binary_codec::Binary>();
    written_is_read::<compact_codec::Compact>();
    tidy_value_is_well_tagged();
}

/// What a host replies to the call that a client asked is heard as it was answered: a value or an exception that fits as it means under
/// its type, unless it has too many levels or values; nothing as that; and every other answer as an exception that says so. No exception
/// may stand under the id of results, 0, as none does in an IDL.
pub fn what_is_replied_is_heard()
    ensures { (c : PlainClient) (office : PlainOffice) (method : List ℕ) (f : PlainFunction) (args : Tree) (id : ℤ) (payload : List ℕ) (answer : PlainAnswer)
        → IsSoundClient c → IsServedAlone c office → function_named c.schema c.service method ≡ Some f → asked_frame c method args id ≡ Ok (frame payload)
        → IsAnswerInRange answer → All (λ b. b < 256) c.name → FitsSigned w32 id → All (λ (t : PlainField). t.id ≡ pos 0 → ⊥) f.throws
        → IsNotReplaced c f method id answer office.max_frame
        → (reply : List ℕ) × (reply_of office payload answer ≡ frame reply) × IsHeardSo c.schema method f answer (heard c method id reply) }
{
    heads_are_read_back();
    reply_heads_are_read_back();
    written_is_read::<binary_codec::Binary>();
    written_is_read::<compact_codec::Compact>();
    value_spelled_is_read::<binary_codec::Binary>();
    value_spelled_is_read::<compact_codec::Compact>();
    written_is_spelled::<binary_codec::Binary>();
    written_is_spelled::<compact_codec::Compact>();
    binary_codec::Binary::parts_agree();
    compact_codec::Compact::parts_agree();
    failures_are_read();
    tidy_value_is_well_tagged();
    plain_value_is_alike();
    a_written_value_has_a_meaning();
}
