//! The trait of an object that hands out jobs.

ghost use Rattle.std.specs.Prelude.{◌≡◌, ℕ, Bool, List, []};
ghost use Rattle.streams.specs.declared.outcomes.Settled.{Settled};
ghost use Rattle.host_model.specs.declared.key.Key.{Key};
ghost use Rattle.call_rules.specs.PlainCalls.{PlainCall};
ghost use Rattle.call_history.specs.declared.seat_call.SeatCall.{SeatCall};
ghost use Rattle.seat_booth.specs.Seats.{BoothView, SeatView, MakesCall};
ghost use Rattle.machine_model.specs.HallRule as rule;
ghost use Rattle.machine_model.specs.OwnLoop.{CollectsItsOwn};
ghost use Rattle.job_halls.specs.declared.job_hall.Side.{Side};
ghost use Rattle.job_halls.specs.declared.job_hall.TakenOutcome.{TakenOutcome};
ghost use Rattle.job_halls.specs.declared.job_hall.TakenJob.{TakenJob};
ghost use Rattle.job_halls.specs.declared.job_hall.AppliedCall.{AppliedCall};
ghost use Rattle.job_halls.specs.Asking.{LoopAsk, MaySubmit, HandsInJob, GainsOutcome, ClosesIt};
ghost use Rattle.job_halls.specs.Working.{WorkerAsk, AddsWorkerAsk, TakesJob, HoldsFound, AppliesCall};

use call_rules::{Answer, Call, Key};
use hall_core::Job;
use seat_booth::Object;
use streams::{Bytes, Settled};

/// Which of so many loops asks.
#[derive(Clone, Copy, Drop)]
pub struct Side {
    pub loops: u32,
    pub number: u32,
}

/// What has come of a try to collect an outcome.
#[derive(Drop)]
pub enum TakenOutcome {
    /// The oldest outcome, with its key.
    Outcome(Key, Settled),
    /// There is none yet.
    Empty,
    /// There is none, and the hall is closed.
    Closed,
}

/// What has come of a try to take a job.
#[derive(Drop)]
pub enum TakenJob {
    /// The oldest job.
    Found(Job),
    /// There is none yet.
    Empty,
    /// There is none, and the hall is closed.
    Closed,
}

/// What has come of a call that was applied.
#[derive(Drop)]
pub enum AppliedCall {
    /// It is answered so.
    Answered(Answer),
    /// There was no memory for it, or for its answer.
    Unanswered,
    /// The journal has failed.
    Failed,
}

/// An object that hands out jobs. Loops have the first seats of its booth, by their numbers.
pub trait JobHall: Object {
    // It was newly opened; and it was so with this side's loop as one of its own.
    ghost opened: { Self.Meaning → Type 0 };

    ghost opened_for: { Side → Self.Meaning → Type 0 };

    // how many services it has
    ghost slots: { Self.Meaning → ℕ };

    // how many keys a loop may have that are submitted and not collected
    ghost share: { Side → ℕ };

    // What a loop's seat has asked, as a hall of its own sees it; and whether such calls are a loop's of this side.
    ghost asks: { Side → List (SeatCall Self.Op Self.Reply Self.Meaning) → List LoopAsk };

    ghost fits: { Side → List (SeatCall Self.Op Self.Reply Self.Meaning) → Type 0 };

    // what a worker's seat has asked
    ghost worker_asks: { List (SeatCall Self.Op Self.Reply Self.Meaning) → List WorkerAsk };

    // a key of a loop's links has a name there
    ghost names: { Side → Key → Type 0 };

    // the operations
    ghost the_submit: { Side → Key → List ℕ → Self.Op };

    ghost the_collect: { Side → Self.Op };

    ghost the_take: { Self.Op };

    ghost the_apply: { Key → PlainCall → Self.Op };

    ghost the_put: { Key → Settled → Self.Op };

    ghost the_close: { Self.Op };

    // what a reply means: to Submit, Collect, Take and Apply
    ghost took_so: { Self.Reply → Bool };

    ghost come_of: { Side → Self.Reply → TakenOutcome };

    ghost taken_of: { Self.Reply → TakenJob };

    ghost tried_of: { Self.Reply → AppliedCall };

    /// How many keys a loop may have that are submitted and not collected.
    fn most_keys(side: Side) -> usize
        ensures { result ≡ share side };

    /// To submit a job, by the key of the loop's links.
    fn submit_op(side: Side, key: Key, payload: Bytes) -> Self::Op
        requires { names side key }
        ensures { result ≡ the_submit side key payload };

    /// To collect an outcome of this loop.
    fn collect_op(side: Side) -> Self::Op
        ensures { result ≡ the_collect side };

    /// To take a job.
    fn take_op() -> Self::Op
        ensures { result ≡ the_take };

    /// To apply a call.
    fn apply_op(key: Key, call: Call) -> Self::Op
        ensures { result ≡ the_apply key call };

    /// To put what a job came to.
    fn put_op(key: Key, settled: Settled) -> Self::Op
        ensures { result ≡ the_put key settled };

    /// To close it.
    fn close_op() -> Self::Op
        ensures { result ≡ the_close };

    /// Whether a reply to Submit says that the job was taken.
    fn took(reply: Self::Reply) -> bool
        ensures { result ≡ took_so reply };

    /// What a reply to Collect means, by the key of the loop's links.
    fn collected(side: Side, reply: Self::Reply) -> TakenOutcome
        ensures { result ≡ come_of side reply };

    /// What a reply to Take means.
    fn taken(reply: Self::Reply) -> TakenJob
        ensures { result ≡ taken_of reply };

    /// What a reply to Apply means.
    fn tried(reply: Self::Reply) -> AppliedCall
        ensures { result ≡ tried_of reply };

    /// Lets a reply go, of whichever kind it is.
    fn let_go(reply: Self::Reply);

    // It was newly opened also where that is said of a side.
    ghost opens: { (side : Side) (first : Self.Meaning) → opened_for side first → opened first };

    // What a loop's own asks allow it, it may ask.
    ghost may_submit: { (side : Side) (first : Self.Meaning) (own : List (SeatCall Self.Op Self.Reply Self.Meaning)) (key : Key) (payload : List ℕ) → opened_for side first → fits side own
        → MaySubmit (share side) (asks side own) key payload → Self.may first side.number own (the_submit side key payload) };

    ghost may_collect: { (side : Side) (first : Self.Meaning) (own : List (SeatCall Self.Op Self.Reply Self.Meaning)) → opened_for side first → Self.may first side.number own (the_collect side) };

    // Any seat may take a job, and close it.
    ghost may_take: { (first : Self.Meaning) (seat : ℕ) (own : List (SeatCall Self.Op Self.Reply Self.Meaning)) → opened first → Self.may first seat own the_take };

    ghost may_close: { (first : Self.Meaning) (seat : ℕ) (own : List (SeatCall Self.Op Self.Reply Self.Meaning)) → opened first → Self.may first seat own the_close };

    // What a loop's calls add to what it has asked; and they are a loop's after it as before.
    ghost submits: { (side : Side) (booth : BoothView Self.Meaning) (old new : SeatView Self.Op Self.Reply Self.Meaning) (key : Key) (payload : List ℕ) (reply : Self.Reply) → opened_for side booth.opening
        → old.number ≡ side.number → fits side old.mine → MakesCall Self.gives Self.may booth old (the_submit side key payload) reply new
        → HandsInJob (asks side old.mine) (asks side new.mine) key payload (took_so reply) × fits side new.mine };

    ghost collects: { (side : Side) (booth : BoothView Self.Meaning) (old new : SeatView Self.Op Self.Reply Self.Meaning) (reply : Self.Reply) → opened_for side booth.opening
        → old.number ≡ side.number → fits side old.mine → MakesCall Self.gives Self.may booth old (the_collect side) reply new
        → GainsOutcome (asks side old.mine) (asks side new.mine) (come_of side reply) × fits side new.mine };

    ghost closes: { (side : Side) (booth : BoothView Self.Meaning) (old new : SeatView Self.Op Self.Reply Self.Meaning) (reply : Self.Reply) → opened_for side booth.opening
        → old.number ≡ side.number → fits side old.mine → MakesCall Self.gives Self.may booth old the_close reply new
        → ClosesIt (asks side old.mine) (asks side new.mine) × fits side new.mine };

    // A loop begins with no asks. Of what it collects, each was submitted by it, and not collected before.
    ghost loop_begins: { (side : Side) → (asks side [] ≡ []) × fits side [] };

    ghost its_own: { (side : Side) (booth : BoothView Self.Meaning) (old new : SeatView Self.Op Self.Reply Self.Meaning) (op : Self.Op) (reply : Self.Reply) → opened_for side booth.opening
        → old.number ≡ side.number → MakesCall Self.gives Self.may booth old op reply new → CollectsItsOwn (asks side new.mine) };

    // A worker begins with no asks. What its calls add; a job that it has taken it holds, and still holds once it has applied a call.
    ghost worker_begins: { worker_asks [] ≡ [] };

    ghost takes: { (booth : BoothView Self.Meaning) (old new : SeatView Self.Op Self.Reply Self.Meaning) (reply : Self.Reply) → opened booth.opening
        → MakesCall Self.gives Self.may booth old the_take reply new
        → TakesJob (worker_asks old.mine) (worker_asks new.mine) (taken_of reply) × HoldsFound (Self.may booth.opening old.number new.mine) the_apply the_put (slots booth.opening) (taken_of reply) };

    ghost applies: { (booth : BoothView Self.Meaning) (old new : SeatView Self.Op Self.Reply Self.Meaning) (key : Key) (call : PlainCall) (reply : Self.Reply)
        → MakesCall Self.gives Self.may booth old (the_apply key call) reply new → AppliesCall (worker_asks old.mine) (worker_asks new.mine) key call (tried_of reply) };

    ghost still_held: { (booth : BoothView Self.Meaning) (old new : SeatView Self.Op Self.Reply Self.Meaning) (key : Key) (call : PlainCall) (reply : Self.Reply) (held : Key) (settled : Settled)
        → MakesCall Self.gives Self.may booth old (the_apply key call) reply new → Self.may booth.opening old.number old.mine (the_put held settled)
        → Self.may booth.opening old.number new.mine (the_put held settled) };

    ghost puts: { (booth : BoothView Self.Meaning) (old new : SeatView Self.Op Self.Reply Self.Meaning) (key : Key) (settled : Settled) (reply : Self.Reply)
        → MakesCall Self.gives Self.may booth old (the_put key settled) reply new → AddsWorkerAsk (worker_asks old.mine) (worker_asks new.mine) (rule.put key settled) rule.done };

    ghost stops: { (booth : BoothView Self.Meaning) (old new : SeatView Self.Op Self.Reply Self.Meaning) (reply : Self.Reply)
        → MakesCall Self.gives Self.may booth old the_close reply new → AddsWorkerAsk (worker_asks old.mine) (worker_asks new.mine) rule.close rule.done };
}
