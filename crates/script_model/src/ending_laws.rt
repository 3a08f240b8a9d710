//! By what connections end: where nothing lets one fail, and memory suffices, its bytes alone decide. Each law is the contract of a function that does nothing. A size is
//! a signed number of four bytes, hence the bound on the longest payload.

ghost use Rattle.std.specs.Prelude.{◌≡◌, ◌≢◌, ℕ, ◌<◌, ◌^◌, Some, List, ◌++◌, slice_get};
ghost use Rattle.streams.specs.declared.marks.Mark.{Mark};
ghost use Rattle.host_model.specs.declared.cause.EndCause.{EndCause};
ghost use Rattle.host_model.specs.declared.cause.EndCause.TheVariants.{End, NoMemory, Stopped};
ghost use Rattle.host_model.specs.Conversation.{Conversation};
ghost use Rattle.host_model.specs.DeskRules.{DeskRules};
ghost use Rattle.host_model.specs.Headline.{Headline};
ghost use Rattle.host_model.specs.Journal.{JournalEntry, ServiceRules, entries_of};
ghost use Rattle.host_model.specs.Marks.{marks_of, input};
ghost use Rattle.script_model.specs.Fed.{IsFedBy};
ghost use Rattle.script_model.specs.ScriptLines.{ScriptPlan, openings};
ghost use Rattle.script_model.specs.DecidedEnds.{EndsOn, IsOfBytes, MayBeUnread};
ghost use Rattle.script_model.specs.Failing.{EndsByItsPieces, FailsNowhere, IsAnsweredWhole, arriving_on};

use host_model::laws::less_than_a_frame;

/// Bytes end a connection by one cause.
pub fn bytes_decide_one_end<C, A>()
    ensures { (d : DeskRules C A) (bytes : List ℕ) (one other : EndCause) → d.max < 2 ^ 31 → EndsOn d bytes one → EndsOn d bytes other → one ≡ other }
{
    less_than_a_frame();
}

/// Where a conversation has ended by a cause that bytes may decide, those that were read and those that weren't have decided it.
pub fn ends_are_decided<C, A>()
    ensures { (d : DeskRules C A) (c : ℕ) (own : List Mark) (es : List (JournalEntry C A)) (cause : EndCause) (left : List ℕ) →
        Conversation d c own es cause → IsOfBytes cause → MayBeUnread cause left → EndsOn d (input own ++ left) cause }
{}

/// Where a script feeds a run in which no connection was stopped, each of its connections has ended; those that nothing lets fail have ended for want of
/// memory, or by what their pieces decide (`each`). One whose pieces are whole frames, each with a head that is accepted, has ended for want of memory, or with its
/// input, after all its replies were written (`whole`).
pub fn fed_connections_end_by_their_pieces<C, A, M>()
    ensures each { (d : DeskRules C A) (r : ServiceRules C A M) (memories : List M) (budget : ℕ) (script : ScriptPlan) (tape : List Mark)
        (journal : List (JournalEntry C A)) (causes : List EndCause) (c : ℕ) →
        Headline d r memories tape journal causes → IsFedBy d budget script tape journal →
        ((x : ℕ) → slice_get causes x ≢ Some Stopped) → c < openings script.lines → EndsByItsPieces d script causes c }
    ensures whole { (d : DeskRules C A) (r : ServiceRules C A M) (memories : List M) (budget : ℕ) (script : ScriptPlan) (tape : List Mark)
        (journal : List (JournalEntry C A)) (causes : List EndCause) (c : ℕ) → d.max < 2 ^ 31 →
        Headline d r memories tape journal causes → IsFedBy d budget script tape journal →
        ((x : ℕ) → slice_get causes x ≢ Some Stopped) → c < openings script.lines → FailsNowhere script c →
        slice_get causes c ≢ Some NoMemory → EndsOn d (arriving_on script c) End →
        (slice_get causes c ≡ Some End) × IsAnsweredWhole d (arriving_on script c) (marks_of c tape) (entries_of c journal) }
{
    less_than_a_frame();
}
